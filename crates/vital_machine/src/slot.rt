//! What the variables of a process hold.

ghost use Rattle.std.specs.Prelude.{◌≡◌, length, slice_index_or};
ghost use Rattle.vital_machine.specs.Slots as spec;
ghost use Rattle.vital_machine.specs.TruthTables.{fitted};
ghost use Rattle.vital_logic.specs.declared.level.Level.TheVariants as level;

use sqlite_items::Items;
use vital_logic::{Level, to_x01};
use vital_path_delay::GlitchData;
use vital_timing_checks::{PeriodPulse, RecRem, SetupHold};

/// What a variable of a process holds.
#[derive(Drop)]
pub enum Slot {
    /// A level (IEEE 1164).
    Level(Level),
    /// A level of X01, without its strength.
    X01(Level),
    /// The levels of a vector, from left to right.
    Vector(Items<Level>),
    /// What a path delay keeps.
    Glitch(GlitchData),
    /// What a check of setup and hold keeps.
    SetupHold(SetupHold),
    /// What a check of recovery and removal keeps.
    RecRem(RecRem),
    /// What a check of periods and pulse widths keeps.
    PeriodPulse(PeriodPulse),
}

/// The first of some levels at a number of places behind their left end; U where there is none.
fn level_at(levels: &[Level], offset: usize) -> Level
    ensures { result ≡ slice_index_or levels.now offset level.U }
{
    match levels.get(offset) {
        Some(level) => *level,
        None => Level::U,
    }
}

impl Slot {
    /// The level at a number of places behind the left end; U where there is none. A variable of one level has it at 0.
    pub(crate) fn element(&self, offset: usize) -> Level
        ensures { result ≡ slice_index_or (spec.levels_in self.now) offset level.U }
    {
        match self {
            Slot::Level(level) | Slot::X01(level) => level_at(&[*level], offset),
            Slot::Vector(levels) => level_at(levels.as_slice(), offset),
            _ => Level::U,
        }
    }

    /// Puts a level to a variable of one level; of X01 it is kept without its strength.
    pub(crate) fn put(&mut self, level: Level)
        ensures { self.new ≡ spec.with_level level self.old }
    {
        match self {
            Slot::Level(kept) => *kept = level,
            Slot::X01(kept) => *kept = to_x01(level),
            _ => {}
        }
    }

    /// Puts a level at a number of places behind the left end of a vector.
    pub(crate) fn put_element(&mut self, offset: usize, level: Level)
        ensures { self.new ≡ spec.with_element offset level self.old }
    {
        if let Slot::Vector(levels) = self {
            if offset < levels.len() {
                levels.set(offset, level);
            }
        }
    }

    /// Puts levels to a vector, from the left end on; U behind them.
    pub(crate) fn put_levels(&mut self, levels: &[Level])
        ensures { self.new ≡ spec.with_levels levels.now self.old }
    {
        if let Slot::Vector(kept) = self {
            put_items(kept, levels);
        }
    }
}

/// Puts levels in place of those that there are; U behind them.
fn put_items(kept: &mut Items<Level>, levels: &[Level])
    ensures { kept.new ≡ fitted (length kept.old) levels.now }
{
    for number in 0..kept.len() {
        kept.set(number, level_at(levels, number));
    }
}
