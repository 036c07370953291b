//! What constants are worth.

ghost use Rattle.std.specs.Prelude.{◌≡◌};
ghost use Rattle.std.specs.Option.{option_map};
ghost use Rattle.vital_cell.specs.Environments.{truth_in};
ghost use Rattle.vital_cell.specs.Times.{delay_of, time_of};
ghost use Rattle.vital_cell.specs.Worths.{lent};
ghost use Rattle.vital_typed_cells.specs.Expressions.{level_of, rows_of};

use sqlite_items::Items;
use vital_base::Time;
use vital_logic::Level;
use vital_timing::Delay;

/// What a constant is worth.
#[derive(Clone, Copy)]
pub enum Worth<'a> {
    Level(Level),
    Truth(bool),
    /// A time, in femtoseconds.
    Time(Time),
    Delay(Delay),
    /// The symbols of the rows of a table.
    Rows(&'a [Items<u8>]),
}

/// The level that a constant is worth; U where it is none.
pub fn level_of(worth: Option<Worth<'_>>) -> Level
    ensures { result ≡ level_of (option_map lent worth.entry) }
{
    match worth {
        Some(Worth::Level(level)) => level,
        _ => Level::U,
    }
}

/// The truth value that a constant is worth; TRUE where it is none.
pub fn truth_of(worth: Option<Worth<'_>>) -> bool
    ensures { result ≡ truth_in (option_map lent worth.entry) }
{
    match worth {
        Some(Worth::Truth(truth)) => truth,
        _ => true,
    }
}

/// The time that a constant is worth; 0 where it is none.
pub fn time_of(worth: Option<Worth<'_>>) -> Time
    ensures { result ≡ time_of (option_map lent worth.entry) }
{
    match worth {
        Some(Worth::Time(time)) => time,
        _ => 0,
    }
}

/// The delay that a constant is worth; 0 where it is none.
pub fn delay_of(worth: Option<Worth<'_>>) -> Delay
    ensures { result ≡ delay_of (option_map lent worth.entry) }
{
    match worth {
        Some(Worth::Delay(delay)) => delay,
        _ => Delay::One(0),
    }
}

/// The rows that a constant is worth; none where it is no table.
pub fn rows_of<'a>(worth: Option<Worth<'a>>) -> &'a [Items<u8>]
    ensures { result.now ≡ rows_of (option_map lent worth.entry) }
{
    match worth {
        Some(Worth::Rows(rows)) => rows,
        _ => &[],
    }
}
