//! Reading delays.

ghost use Rattle.std.specs.Prelude.{◌≡◌, Ok};
ghost use Rattle.vital_sdf.specs.Entries as spec;
ghost use Rattle.vital_sdf.specs.Reads.{Reads};

use crate::cursor::Cursor;
use crate::entry::{Entry, EntryKind, Mode, Port, Timing, TimingKind};
use crate::read_error::ReadError;
use crate::readers::conditions::condition;
use crate::readers::lists::{more, pushed};
use crate::readers::ports::{port, port_of};
use crate::readers::values::delays;
use std::alloc::Global;
use vital_base::{List, Name, Place};
use vital_sdf_lexemes::Kind;

const ABSOLUTE: u16 = Kind::Absolute as u16;

const INCREMENT: u16 = Kind::Increment as u16;

const IO_PATH: u16 = Kind::IoPath as u16;

const PORT: u16 = Kind::Port as u16;

const INTERCONNECT: u16 = Kind::Interconnect as u16;

const COND: u16 = Kind::Cond as u16;

const COND_ELSE: u16 = Kind::CondElse as u16;

/// Passes over an entry that no generic takes, whose keyword stands at the place.
pub(crate) fn passed(cursor: &mut Cursor<'_>, place: Place) -> Entry
    ensures { spec.pass place cursor.old ≡ Ok (result, cursor.new) }
{
    cursor.enclosed();
    Entry {
        place,
        kind: EntryKind::Passed,
    }
}

/// The two ports and the values of the IOPATH at the place.
#[tactic(auto, unfolding(crate::specs::Entries::path))]
fn path(
    alloc: Global,
    cursor: &mut Cursor<'_>,
    place: Place,
    mode: Mode,
    condition: Option<Name>,
) -> Result<Entry, ReadError>
    ensures { Reads (spec.path place mode condition cursor.old) result cursor.new }
{
    let first = port(alloc, cursor)?;
    let second = port_of(alloc, cursor, None)?;
    let values = delays(alloc, cursor, place)?;
    let timing = Timing {
        kind: TimingKind::IoPath,
        mode,
        condition,
        first,
        second: Some(second),
        values,
    };
    Ok(Entry {
        place,
        kind: EntryKind::Timing(timing),
    })
}

/// An IOPATH in parentheses, of which the first is passed.
#[tactic(auto, unfolding(crate::specs::Entries::closed_path))]
fn closed_path(
    alloc: Global,
    cursor: &mut Cursor<'_>,
    mode: Mode,
    condition: Option<Name>,
) -> Result<Entry, ReadError>
    ensures { Reads (spec.closed_path mode condition cursor.old) result cursor.new }
{
    let place = cursor.place();
    cursor.skip();
    let found = path(alloc, cursor, place, mode, condition)?;
    cursor.skip();
    Ok(found)
}

/// The values of a port.
#[tactic(auto, unfolding(crate::specs::Entries::port_delays))]
fn port_delays(
    alloc: Global,
    cursor: &mut Cursor<'_>,
    place: Place,
    mode: Mode,
    first: Port,
) -> Result<Entry, ReadError>
    ensures { Reads (spec.port_delays place mode first cursor.old) result cursor.new }
{
    let values = delays(alloc, cursor, place)?;
    let timing = Timing {
        kind: TimingKind::Port,
        mode,
        condition: None,
        first,
        second: None,
        values,
    };
    Ok(Entry {
        place,
        kind: EntryKind::Timing(timing),
    })
}

/// An entry of delays.
#[tactic(auto, unfolding(crate::specs::Entries::del))]
fn delay(alloc: Global, cursor: &mut Cursor<'_>, mode: Mode) -> Result<Entry, ReadError>
    ensures { Reads (spec.del mode cursor.old) result cursor.new }
{
    let place = cursor.place();
    match cursor.take() {
        IO_PATH => path(alloc, cursor, place, mode, None),
        PORT => {
            let first = port(alloc, cursor)?;
            port_delays(alloc, cursor, place, mode, first)
        }
        INTERCONNECT => {
            cursor.skip();
            let first = port_of(alloc, cursor, None)?;
            port_delays(alloc, cursor, place, mode, first)
        }
        COND => {
            let condition = condition(alloc, cursor)?;
            closed_path(alloc, cursor, mode, Some(condition))
        }
        COND_ELSE => {
            cursor.skip();
            closed_path(alloc, cursor, mode, None)
        }
        _ => Ok(passed(cursor, place)),
    }
}

/// Those that were found, and the entries of one part of a DELAY.
#[tactic(auto, unfolding(crate::specs::Entries::delay_section))]
pub(crate) fn delay_section(
    alloc: Global,
    cursor: &mut Cursor<'_>,
    found: List<Entry>,
) -> Result<List<Entry>, ReadError>
    ensures { Reads (spec.delay_section found cursor.old) result cursor.new }
{
    let place = cursor.place();
    match cursor.take() {
        ABSOLUTE => more(cursor, found, |cursor| delay(alloc, cursor, Mode::Replace)),
        INCREMENT => more(cursor, found, |cursor| delay(alloc, cursor, Mode::Add)),
        _ => Ok(pushed(found, passed(cursor, place))?),
    }
}
