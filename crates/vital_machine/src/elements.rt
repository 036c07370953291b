//! Levels that are put somewhere.

ghost use Rattle.std.specs.Prelude.{◌≡◌, ◌<◌, length, slice_index_or};
ghost use Rattle.vital_machine.specs.Elements as spec;
ghost use Rattle.vital_machine.specs.TruthTables.{fitted};
ghost use Rattle.vital_logic.specs.declared.level.Level.TheVariants as level;

use crate::slot::Slot;
use crate::truth_table::TruthTable;
use vital_logic::Level;

/// The levels of a vector, each of which is known by its number without the others.
#[derive(Clone, Copy)]
pub enum Elements<'a> {
    /// Those that a variable holds.
    Held(&'a Slot),
    /// None.
    Nothing,
    /// These.
    Listed(&'a [Level]),
    /// One level for so many elements.
    Same(Level, usize),
    /// What a row of a table gives.
    OfRow(&'a TruthTable, Option<u32>),
}

impl Elements<'_> {
    /// The level of a number, from 0; U where there is none.
    pub fn at(&self, number: usize) -> Level
        requires { spec.HasRow self.now }
        ensures { result ≡ slice_index_or (spec.lent self.now) number level.U }
    {
        match self {
            Elements::Held(slot) => slot.element(number),
            Elements::Nothing => Level::U,
            Elements::Listed(levels) => levels.get(number).copied().unwrap_or(Level::U),
            Elements::Same(level, count) => { if number < *count { *level } else { Level::U } }
            Elements::OfRow(table, row) => table.result(*row, number),
        }
    }

    /// Puts them to places from the first on; U behind them. It takes no memory.
    pub fn put(&self, places: &mut [Level])
        requires { spec.HasRow self.now }
        ensures { places.new ≡ fitted (length places.old) (spec.lent self.now) }
    {
        for (number, place) in places.iter_mut().enumerate() {
            *place = self.at(number);
        }
    }
}
