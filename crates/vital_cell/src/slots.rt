//! What the variables of a process begin as.

ghost use Rattle.std.specs.Prelude.{◌≡◌, [], true, IfOk, OnOk, length, map, replicate};
ghost use Rattle.std.specs.List.{AllZip, fold, list_all};
ghost use Rattle.std.specs.Option.{option_map_or};
ghost use Rattle.vital_cell.specs.Execution.{held_first};
ghost use Rattle.vital_logic.specs.declared.level.Level.TheVariants as level;
ghost use Rattle.vital_machine.specs.Machine.{changed};
ghost use Rattle.vital_typed_cells.specs.SoundDeclarations.{is_sound_kind};
ghost use Rattle.vital_typed_cells.specs.Trees.{is_sound_level, is_sound_vector};
ghost use Rattle.vital_cell.specs.Named.{held_in};
ghost use Rattle.vital_cell.specs.Scopes.{lent, names_at};
ghost use Rattle.vital_cell.specs.Sound.{tests};
ghost use Rattle.vital_cell.specs.Values as spec;
ghost use Rattle.vital_typed_cells.specs.Bits.{number_of};
ghost use Rattle.vital_typed_cells.specs.Expressions as typed;

use crate::constants::known_level;
use crate::numbered_levels::numbered_vector;
use crate::scope::Scope;
use crate::variable_numbers::VariableNumbers;
use sqlite_items::Items;
use std::alloc::AllocError;
use vital_logic::{Level, to_x01};
use vital_machine::{Seen, Slot, put_vector};
use vital_objects::{Variable, VariableKind};
use vital_operands::{LevelExpr, VectorExpr};
use vital_path_delay::GlitchData;
use vital_sections::TimingCheck;
use vital_timing_checks::{PeriodPulse, RecRem, SetupHold};

/// The level of a default, or another one where there is none.
fn level_or(
    scope: &Scope<'_, '_>,
    default: &Option<LevelExpr>,
    other: Level,
) -> Result<Level, AllocError>
    requires none { (lent scope.now).variables ≡ [] }
    requires sound { option_map_or (is_sound_level (tests (lent scope.now))) default.now true ≡ true }
    ensures { IfOk result (λ l. l ≡ option_map_or (typed.level (names_at (lent scope.now) [] [])) default.now other) }
{
    match default {
        Some(tree) => known_level(scope, tree),
        None => Ok(other),
    }
}

/// Puts the levels of a default to as many places.
fn put_default(
    scope: &Scope<'_, '_>,
    tree: &VectorExpr,
    levels: &mut [Level],
) -> Result<(), AllocError>
    requires none { (lent scope.now).variables ≡ [] }
    requires sound { is_sound_vector (tests (lent scope.now)) (length levels.old) tree.now ≡ true }
    ensures { OnOk result (levels.new ≡ typed.vector (names_at (lent scope.now) [] []) tree.now) }
{
    let tree = numbered_vector(scope, tree)?;
    let nothing = Seen {
        inputs: &[],
        slots: &[],
    };
    put_vector(&tree, &nothing, levels);
    Ok(())
}

/// The levels of a default of so many elements, or so many times U where there is none.
fn levels_or_unknown(
    scope: &Scope<'_, '_>,
    count: usize,
    default: &Option<VectorExpr>,
) -> Result<Items<Level>, AllocError>
    requires none { (lent scope.now).variables ≡ [] }
    requires sound { option_map_or (is_sound_vector (tests (lent scope.now)) count) default.now true ≡ true }
    ensures levels { IfOk result (λ ls. ls ≡ option_map_or (typed.vector (names_at (lent scope.now) [] [])) default.now (replicate count level.U)) }
    ensures count { IfOk result (λ ls. length ls ≡ count) }
{
    let mut levels = vec![in scope.alloc; Level::U; count]?;
    if let Some(tree) = default {
        put_default(scope, tree, levels.as_mut_slice())?;
    }
    Ok(Items::from_vec(levels))
}

/// What a variable begins as. What a check of two signals keeps begins as that of setup and hold.
fn first_slot(scope: &Scope<'_, '_>, kind: &VariableKind) -> Result<Slot, AllocError>
    requires none { (lent scope.now).variables ≡ [] }
    requires sound { is_sound_kind (tests (lent scope.now)) kind.now ≡ true }
    ensures held { IfOk result (λ slot. held_in slot ≡ held_first (names_at (lent scope.now) [] []) kind.now) }
    ensures kind { IfOk result (λ slot. spec.begins_as kind.now slot ≡ true) }
{
    match kind {
        VariableKind::Level(default) => Ok(Slot::Level(level_or(scope, default, Level::U)?)),
        VariableKind::X01(default) => {
            let level = level_or(scope, default, Level::X)?;
            Ok(Slot::X01(to_x01(level)))
        }
        VariableKind::Vector(count, default) => {
            Ok(Slot::Vector(levels_or_unknown(scope, *count, default)?))
        }
        VariableKind::GlitchData => Ok(Slot::Glitch(GlitchData::new())),
        VariableKind::TimingData => Ok(Slot::SetupHold(SetupHold::new())),
        VariableKind::PeriodData => Ok(Slot::PeriodPulse(PeriodPulse::new())),
    }
}

/// What variables begin as, in order, before their checks are looked at.
fn begun_slots(scope: &Scope<'_, '_>, variables: &[Variable]) -> Result<Vec<Slot>, AllocError>
    requires none { (lent scope.now).variables ≡ [] }
    requires sound { list_all (λ v. is_sound_kind (tests (lent scope.now)) v.kind) variables.now ≡ true }
    ensures { IfOk result (λ slots. AllZip (spec.IsBegun (lent scope.now)) variables.now slots.items) }
{
    let mut slots = Vec::with_capacity(scope.alloc, variables.len())?;
    for variable in variables {
        slots.push(first_slot(scope, variable.kind.get())?)?;
    }
    Ok(slots)
}

/// Makes what the variable of a number keeps that of recovery and removal, if there is one.
fn suit_at(number: usize, slots: &mut [Slot])
    ensures { slots.new ≡ changed number spec.suit slots.old }
{
    if number < slots.len() {
        slots[number] = Slot::RecRem(RecRem::new());
    }
}

/// Makes what the variable of a name keeps that of recovery and removal, if there is one.
fn suit_named(numbers: &VariableNumbers<'_>, name: &[u8], slots: &mut [Slot])
    ensures { slots.new ≡ spec.suited_by (number_of (map (λ v. v.name) numbers.now) name.now) slots.old }
{
    match numbers.number(name) {
        Some(number) => suit_at(number, slots),
        None => {}
    }
}

/// Makes what a check keeps that of recovery and removal, if it is such a check.
fn suit_check(numbers: &VariableNumbers<'_>, check: &TimingCheck, slots: &mut [Slot])
    ensures { slots.new ≡ spec.suited (map (λ v. v.name) numbers.now) slots.old check.now }
{
    match check {
        TimingCheck::RecoveryRemoval(check) => {
            suit_named(numbers, check.reference.timing_data.as_slice(), slots);
        }
        _ => {}
    }
}

/// The same for all checks of a process.
fn suit_checks(numbers: &VariableNumbers<'_>, checks: &[TimingCheck], slots: &mut [Slot])
    ensures { slots.new ≡ fold (spec.suited (map (λ v. v.name) numbers.now)) slots.old checks.now }
{
    for check in checks {
        suit_check(numbers, check, slots);
    }
}

/// What variables begin as whose process has these checks. Nothing is named in their defaults but what the scope knows.
pub fn first_slots(
    scope: &Scope<'_, '_>,
    numbers: &VariableNumbers<'_>,
    variables: &[Variable],
    checks: &[TimingCheck],
) -> Result<Items<Slot>, AllocError>
    requires none { (lent scope.now).variables ≡ [] }
    requires sound { list_all (λ v. is_sound_kind (tests (lent scope.now)) v.kind) variables.now ≡ true }
    ensures { IfOk result (λ slots. spec.AreFirst (lent scope.now) (map (λ v. v.name) numbers.now) variables.now checks.now slots) }
{
    let mut slots = begun_slots(scope, variables)?;
    suit_checks(numbers, checks, slots.as_mut_slice());
    Ok(Items::from_vec(slots))
}
