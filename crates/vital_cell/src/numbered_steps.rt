//! The statements of processes as numbered steps.

ghost use Rattle.std.specs.Prelude.{◌≡◌, ◌≤◌, ◌+◌, ◌^◌, ◌<◌, ℕ, true, IfOk, length};
ghost use Rattle.std.specs.List.{AllZip, enumerate_from, list_all};
ghost use Rattle.vital_cell.specs.Statements.{edges};
ghost use Rattle.vital_sections.specs.declared.timing_check.TimingCheck.TheVariants as timing;
ghost use Rattle.vital_typed_cells.specs.SoundAssignments.{is_sound_value};
ghost use Rattle.vital_typed_cells.specs.SoundSections.{are_sound_sections, is_sound_functional, is_sound_state_table};
ghost use Rattle.vital_typed_cells.specs.SoundStatements.{are_sound_parts, is_sound_check, is_sound_path_delay};
ghost use Rattle.vital_typed_cells.specs.Trees.{is_sound_boolean};
ghost use Rattle.vital_cell.specs.Scopes.{bit_of as bit_of', lent, variable_of as variable_of'};
ghost use Rattle.vital_cell.specs.Sound.{has_state_table, statement_tests, tests};
ghost use Rattle.vital_cell.specs.StandsFor.{IsTruth};
ghost use Rattle.vital_cell.specs.Steps as spec;
ghost use Rattle.vital_tables.specs.Symbols.{edge_symbols, is_among};
ghost use Rattle.vital_typed_statements.specs.StateTables.{results_of as results_of'};

use crate::numbered_levels::{length_of, numbered_level, numbered_vector};
use crate::numbered_truths::{known_delay, known_time, numbered_truth};
use crate::scope::Scope;
use crate::worth::rows_of;
use sqlite_items::Items;
use std::alloc::AllocError;
use vital_actuals::{Path, Target};
use vital_base::Name;
use vital_edges::{EdgeSet, edges_of};
use vital_machine::{
    CheckKindStep, CheckStep, FunctionalStep, PathDelayStep, PathStep, Place, ProcessSteps,
    RecoveryStep, ReferenceStep, StateTable, StateTableStep,
};
use vital_sections::{
    CheckParts, FunctionalStatement, PathDelay, PeriodPulseCheck, RecoveryRemovalCheck,
    ReferenceParts, Sections, SetupHoldCheck, StateTable as StateTableCall, TimingCheck,
};
use vital_table::Table;
use vital_timing_checks::{PulseLimits, SetupLimits};
use vital_typed_statements::Value;

/// The number of the bit of a name.
fn bit_of(scope: &Scope<'_, '_>, name: &Name) -> u32
    requires { length (lent scope.now).bits < 2 ^ 32 }
    ensures { result ≡ bit_of' (lent scope.now) name.now }
{
    match scope.bits.number(name.as_slice()) {
        Some(number) => number as u32,
        None => 0,
    }
}

/// The number of the variable of a name.
fn variable_of(scope: &Scope<'_, '_>, name: &Name) -> usize
    ensures { result ≡ variable_of' (lent scope.now) name.now }
{
    match scope.variables.number(name.as_slice()) {
        Some(number) => number,
        None => 0,
    }
}

// ---- functionality

/// The place of a target.
fn place_of(scope: &Scope<'_, '_>, target: &Target) -> Place
    ensures { result ≡ spec.place_of (lent scope.now) target.now }
{
    match target {
        Target::Level(name) => Place::Level(variable_of(scope, name)),
        Target::Element(name, offset) => Place::Element(variable_of(scope, name), *offset),
        Target::Vector(name, _) => Place::Vector(variable_of(scope, name)),
    }
}

/// How many results there are for a target.
fn results_of(target: &Target) -> usize
    ensures { result ≡ results_of' target.now }
{
    match target {
        Target::Level(_) | Target::Element(_, _) => 1,
        Target::Vector(_, length) => *length,
    }
}

/// The table of a call of VitalStateTable.
fn state_table(scope: &Scope<'_, '_>, call: &StateTableCall) -> Result<StateTable, AllocError>
    requires { is_sound_state_table (has_state_table (lent scope.now)) (tests (lent scope.now)) call.now ≡ true }
    ensures { IfOk result (λ table. table ≡ spec.table_of (lent scope.now) call.now) }
{
    let table = Table {
        inputs: length_of(&call.data_in) as u32,
        states: call.num_states as u32,
        results: results_of(&call.result) as u32,
        rows: rows_of(scope.worth(&call.table)),
    };
    StateTable::new(scope.alloc, &table)
}

/// A call of VitalStateTable.
fn state_table_step(
    scope: &Scope<'_, '_>,
    call: &StateTableCall,
) -> Result<StateTableStep, AllocError>
    requires { is_sound_state_table (has_state_table (lent scope.now)) (tests (lent scope.now)) call.now ≡ true }
    ensures { IfOk result (λ step. spec.IsTableStep (lent scope.now) call.now step) }
{
    Ok(StateTableStep {
        table: state_table(scope, call)?,
        data_in: numbered_vector(scope, &call.data_in)?,
        result: place_of(scope, &call.result),
        previous_data_in: variable_of(scope, &call.previous_data_in),
    })
}

/// An assignment.
fn assignment_step(
    scope: &Scope<'_, '_>,
    target: &Target,
    value: &Value,
) -> Result<FunctionalStep, AllocError>
    requires { is_sound_value (tests (lent scope.now)) target.now value.now ≡ true }
    ensures { IfOk result (λ step. spec.IsAssignmentStep (lent scope.now) target.now value.now step) }
{
    let place = place_of(scope, target);
    match value {
        Value::Level(tree) => Ok(FunctionalStep::Level(place, numbered_level(scope, tree)?)),
        Value::Vector(tree) => Ok(FunctionalStep::Vector(place, numbered_vector(scope, tree)?)),
    }
}

/// A statement of the functionality.
fn functional_step(
    scope: &Scope<'_, '_>,
    statement: &FunctionalStatement,
) -> Result<FunctionalStep, AllocError>
    requires { is_sound_functional (has_state_table (lent scope.now)) (tests (lent scope.now)) statement.now ≡ true }
    ensures { IfOk result (λ step. spec.IsFunctionalStep (lent scope.now) statement.now step) }
{
    match statement {
        FunctionalStatement::Assignment(target, value) => assignment_step(scope, target, value),
        FunctionalStatement::StateTable(call) => {
            Ok(FunctionalStep::StateTable(state_table_step(scope, call)?))
        }
    }
}

// ---- timing checks

/// The set of the changes of an edge symbol.
fn edges_at(symbol: u8) -> EdgeSet
    requires { is_among edge_symbols symbol ≡ true }
    ensures { result ≡ edges symbol }
{
    match edges_of(symbol) {
        Some(edges) => edges,
        None => unreachable!(),
    }
}

/// The bit that a tested one is compared with.
fn reference_step(scope: &Scope<'_, '_>, reference: &ReferenceParts) -> ReferenceStep
    requires few { length (lent scope.now).bits < 2 ^ 32 }
    requires symbol { is_among edge_symbols reference.now.ref_transition ≡ true }
    ensures { result ≡ spec.reference_of (lent scope.now) reference.now }
{
    ReferenceStep {
        signal: bit_of(scope, &reference.ref_signal),
        edges: edges_at(reference.ref_transition),
    }
}

/// A check with what it tests.
fn check_step(
    scope: &Scope<'_, '_>,
    parts: &CheckParts,
    keeper: &Name,
    kind: CheckKindStep,
) -> Result<CheckStep, AllocError>
    requires few { length (lent scope.now).bits < 2 ^ 32 }
    requires sound { are_sound_parts (statement_tests (lent scope.now)) parts.now ≡ true }
    ensures parts { IfOk result (λ step. spec.HasParts (lent scope.now) parts.now keeper.now step) }
    ensures kind { IfOk result (λ step. step.kind ≡ kind) }
{
    Ok(CheckStep {
        test: bit_of(scope, &parts.test_signal),
        violation: variable_of(scope, &parts.violation),
        kept: variable_of(scope, keeper),
        check_enabled: numbered_truth(scope, &parts.check_enabled)?,
        x_on: numbered_truth(scope, &parts.x_on)?,
        msg_on: numbered_truth(scope, &parts.msg_on)?,
        kind,
    })
}

/// A check of setup and hold.
fn setup_hold_step(scope: &Scope<'_, '_>, check: &SetupHoldCheck) -> Result<CheckStep, AllocError>
    requires few { length (lent scope.now).bits < 2 ^ 32 }
    requires sound { is_sound_check (statement_tests (lent scope.now)) (timing.SetupHold check.now) ≡ true }
    ensures { IfOk result (λ step. spec.IsCheckStep (lent scope.now) (timing.SetupHold check.now) step) }
{
    let limits = SetupLimits {
        setup_high: known_time(scope, &check.setup_high),
        setup_low: known_time(scope, &check.setup_low),
        hold_high: known_time(scope, &check.hold_high),
        hold_low: known_time(scope, &check.hold_low),
    };
    let kind = CheckKindStep::SetupHold(reference_step(scope, &check.reference), limits);
    check_step(scope, &check.parts, &check.reference.timing_data, kind)
}

/// The limits of a check of recovery and removal.
fn recovery_limits(
    scope: &Scope<'_, '_>,
    check: &RecoveryRemovalCheck,
) -> Result<RecoveryStep, AllocError>
    requires { is_sound_check (statement_tests (lent scope.now)) (timing.RecoveryRemoval check.now) ≡ true }
    ensures recovery { IfOk result (λ step. step.recovery ≡ spec.time_of (lent scope.now) check.now.recovery) }
    ensures removal { IfOk result (λ step. step.removal ≡ spec.time_of (lent scope.now) check.now.removal) }
    ensures active_low { IfOk result (λ step. IsTruth (lent scope.now) step.active_low check.now.active_low) }
{
    Ok(RecoveryStep {
        recovery: known_time(scope, &check.recovery),
        removal: known_time(scope, &check.removal),
        active_low: numbered_truth(scope, &check.active_low)?,
    })
}

/// A check of recovery and removal.
fn recovery_step(
    scope: &Scope<'_, '_>,
    check: &RecoveryRemovalCheck,
) -> Result<CheckStep, AllocError>
    requires few { length (lent scope.now).bits < 2 ^ 32 }
    requires sound { is_sound_check (statement_tests (lent scope.now)) (timing.RecoveryRemoval check.now) ≡ true }
    ensures { IfOk result (λ step. spec.IsCheckStep (lent scope.now) (timing.RecoveryRemoval check.now) step) }
{
    let limits = recovery_limits(scope, check)?;
    let kind = CheckKindStep::RecoveryRemoval(reference_step(scope, &check.reference), limits);
    check_step(scope, &check.parts, &check.reference.timing_data, kind)
}

/// A check of periods and pulse widths.
fn period_step(scope: &Scope<'_, '_>, check: &PeriodPulseCheck) -> Result<CheckStep, AllocError>
    requires few { length (lent scope.now).bits < 2 ^ 32 }
    requires sound { is_sound_check (statement_tests (lent scope.now)) (timing.PeriodPulse check.now) ≡ true }
    ensures { IfOk result (λ step. spec.IsCheckStep (lent scope.now) (timing.PeriodPulse check.now) step) }
{
    let limits = PulseLimits {
        period: known_time(scope, &check.period),
        high: known_time(scope, &check.pulse_width_high),
        low: known_time(scope, &check.pulse_width_low),
    };
    check_step(
        scope,
        &check.parts,
        &check.period_data,
        CheckKindStep::PeriodPulse(limits),
    )
}

/// A timing check.
fn timing_step(scope: &Scope<'_, '_>, check: &TimingCheck) -> Result<CheckStep, AllocError>
    requires few { length (lent scope.now).bits < 2 ^ 32 }
    requires sound { is_sound_check (statement_tests (lent scope.now)) check.now ≡ true }
    ensures { IfOk result (λ step. spec.IsCheckStep (lent scope.now) check.now step) }
{
    match check {
        TimingCheck::SetupHold(check) => setup_hold_step(scope, check),
        TimingCheck::RecoveryRemoval(check) => recovery_step(scope, check),
        TimingCheck::PeriodPulse(check) => period_step(scope, check),
    }
}

// ---- path delays

/// A path.
fn path_step(scope: &Scope<'_, '_>, path: &Path) -> Result<PathStep, AllocError>
    requires few { length (lent scope.now).bits < 2 ^ 32 }
    requires sound { is_sound_boolean (tests (lent scope.now)) path.now.condition ≡ true }
    ensures { IfOk result (λ step. spec.IsPathStep (lent scope.now) path.now step) }
{
    Ok(PathStep {
        signal: bit_of(scope, &path.signal),
        delay: known_delay(scope, &path.delay),
        condition: numbered_truth(scope, &path.condition)?,
    })
}

/// Paths, in order.
fn path_steps(scope: &Scope<'_, '_>, paths: &[Path]) -> Result<Items<PathStep>, AllocError>
    requires few { length (lent scope.now).bits < 2 ^ 32 }
    requires sound { list_all (λ path. is_sound_boolean (tests (lent scope.now)) path.condition) paths.now ≡ true }
    ensures { IfOk result (λ steps. AllZip (spec.IsPathStep (lent scope.now)) paths.now steps) }
{
    let mut steps = Vec::with_capacity(scope.alloc, paths.len())?;
    for path in paths {
        steps.push(path_step(scope, path)?)?;
    }
    Ok(Items::from_vec(steps))
}

/// A path delay, whose driver has a number.
fn delay_step(
    scope: &Scope<'_, '_>,
    delay: &PathDelay,
    driver: u32,
) -> Result<PathDelayStep, AllocError>
    requires few { length (lent scope.now).bits < 2 ^ 32 }
    requires sound { is_sound_path_delay (statement_tests (lent scope.now)) delay.now ≡ true }
    ensures { IfOk result (λ step. spec.IsDelayStep (lent scope.now) (driver, delay.now) step) }
{
    Ok(PathDelayStep {
        driver,
        out_signal: bit_of(scope, &delay.out_signal),
        glitch_data: variable_of(scope, &delay.glitch_data),
        out_temp: numbered_level(scope, &delay.out_temp)?,
        paths: path_steps(scope, delay.paths.as_slice())?,
        default_delay: known_delay(scope, &delay.default_delay),
        mode: delay.mode,
        x_on: numbered_truth(scope, &delay.x_on)?,
        msg_on: numbered_truth(scope, &delay.msg_on)?,
    })
}

// ---- sections

/// Timing checks, in order.
fn check_steps(
    scope: &Scope<'_, '_>,
    checks: &[TimingCheck],
) -> Result<Items<CheckStep>, AllocError>
    requires few { length (lent scope.now).bits < 2 ^ 32 }
    requires sound { list_all (is_sound_check (statement_tests (lent scope.now))) checks.now ≡ true }
    ensures { IfOk result (λ steps. AllZip (spec.IsCheckStep (lent scope.now)) checks.now steps) }
{
    let mut steps = Vec::with_capacity(scope.alloc, checks.len())?;
    for check in checks {
        steps.push(timing_step(scope, check)?)?;
    }
    Ok(Items::from_vec(steps))
}

/// Statements of the functionality, in order.
fn functional_steps(
    scope: &Scope<'_, '_>,
    statements: &[FunctionalStatement],
) -> Result<Items<FunctionalStep>, AllocError>
    requires { list_all (is_sound_functional (has_state_table (lent scope.now)) (tests (lent scope.now))) statements.now ≡ true }
    ensures { IfOk result (λ steps. AllZip (spec.IsFunctionalStep (lent scope.now)) statements.now steps) }
{
    let mut steps = Vec::with_capacity(scope.alloc, statements.len())?;
    for statement in statements {
        steps.push(functional_step(scope, statement)?)?;
    }
    Ok(Items::from_vec(steps))
}

/// Path delays, in order. The driver of the first has a number, and those of the others follow it.
fn delay_steps(
    scope: &Scope<'_, '_>,
    delays: &[PathDelay],
    first_driver: u32,
) -> Result<Items<PathDelayStep>, AllocError>
    requires few { length (lent scope.now).bits < 2 ^ 32 }
    requires drivers { first_driver + length delays.now < 2 ^ 32 }
    requires sound { list_all (is_sound_path_delay (statement_tests (lent scope.now))) delays.now ≡ true }
    ensures { IfOk result (λ steps. AllZip (spec.IsDelayStep (lent scope.now)) (enumerate_from first_driver delays.now) steps) }
{
    let mut steps = Vec::with_capacity(scope.alloc, delays.len())?;
    for (number, delay) in delays.iter().enumerate() {
        steps.push(delay_step(scope, delay, first_driver + number as u32)?)?;
    }
    Ok(Items::from_vec(steps))
}

/// The statements of a process, the first of whose drivers has a number.
pub fn process_steps(
    scope: &Scope<'_, '_>,
    sections: &Sections,
    first_driver: u32,
) -> Result<ProcessSteps, AllocError>
    requires few { length (lent scope.now).bits < 2 ^ 32 }
    requires drivers { first_driver + length sections.now.path_delays < 2 ^ 32 }
    requires sound { are_sound_sections (has_state_table (lent scope.now)) (statement_tests (lent scope.now)) sections.now ≡ true }
    ensures { IfOk result (λ steps. spec.AreSteps (lent scope.now) first_driver sections.now steps) }
{
    Ok(ProcessSteps {
        checks: check_steps(scope, sections.checks.as_slice())?,
        functionality: functional_steps(scope, sections.functionality.as_slice())?,
        path_delays: delay_steps(scope, sections.path_delays.as_slice(), first_driver)?,
    })
}
