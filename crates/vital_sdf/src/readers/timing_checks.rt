//! Reading timing checks.

ghost use Rattle.std.specs.Prelude.{◌≡◌};
ghost use Rattle.vital_sdf.specs.Entries as spec;
ghost use Rattle.vital_sdf.specs.Reads.{Reads};

use crate::check_port::CheckPort;
use crate::cursor::Cursor;
use crate::entry::{Entry, EntryKind, Mode, Port, Timing, TimingKind, Triple};
use crate::read_error::ReadError;
use crate::readers::conditions::{both_conditions, check_port};
use crate::readers::delays::passed;
use crate::readers::values::values;
use std::alloc::Global;
use vital_base::{List, Name, Place};
use vital_sdf_lexemes::Kind;

const SETUP: u16 = Kind::Setup as u16;

const HOLD: u16 = Kind::Hold as u16;

const SETUP_HOLD: u16 = Kind::SetupHold as u16;

const RECOVERY: u16 = Kind::Recovery as u16;

const REMOVAL: u16 = Kind::Removal as u16;

const REC_REM: u16 = Kind::RecRem as u16;

const PERIOD: u16 = Kind::Period as u16;

const WIDTH: u16 = Kind::Width as u16;

/// A check of one port.
fn check_of_one(
    place: Place,
    kind: TimingKind,
    condition: Option<Name>,
    first: Option<Port>,
    values: List<Triple>,
) -> Entry
    ensures { result ≡ spec.check_of_one place kind condition first values }
{
    let Some(first) = first else {
        return Entry {
            place,
            kind: EntryKind::NoPort,
        };
    };
    let timing = Timing {
        kind,
        mode: Mode::Replace,
        condition,
        first,
        second: None,
        values,
    };
    Entry {
        place,
        kind: EntryKind::Timing(timing),
    }
}

/// A check of two ports.
fn check_of_two(
    place: Place,
    kind: TimingKind,
    condition: Option<Name>,
    first: Option<Port>,
    second: Option<Port>,
    values: List<Triple>,
) -> Entry
    ensures { result ≡ spec.check_of_two place kind condition first second values }
{
    let (Some(first), Some(second)) = (first, second) else {
        return Entry {
            place,
            kind: EntryKind::NoPort,
        };
    };
    let timing = Timing {
        kind,
        mode: Mode::Replace,
        condition,
        first,
        second: Some(second),
        values,
    };
    Entry {
        place,
        kind: EntryKind::Timing(timing),
    }
}

#[tactic(auto, unfolding(crate::specs::Entries::one_port))]
fn one_port(
    alloc: Global,
    cursor: &mut Cursor<'_>,
    place: Place,
    kind: TimingKind,
) -> Result<Entry, ReadError>
    ensures { Reads (spec.one_port place kind cursor.old) result cursor.new }
{
    let CheckPort { condition, port } = check_port(alloc, cursor)?;
    let values = values(alloc, cursor)?;
    Ok(check_of_one(place, kind, condition, port, values))
}

#[tactic(auto, unfolding(crate::specs::Entries::two_ports))]
fn two_ports(
    alloc: Global,
    cursor: &mut Cursor<'_>,
    place: Place,
    kind: TimingKind,
) -> Result<Entry, ReadError>
    ensures { Reads (spec.two_ports place kind cursor.old) result cursor.new }
{
    let first = check_port(alloc, cursor)?;
    let second = check_port(alloc, cursor)?;
    let values = values(alloc, cursor)?;
    let condition = both_conditions(first.condition, second.condition)?;
    Ok(check_of_two(place, kind, condition, first.port, second.port, values))
}

/// A timing check.
#[tactic(auto, unfolding(crate::specs::Entries::chk))]
pub(crate) fn timing_check(alloc: Global, cursor: &mut Cursor<'_>) -> Result<Entry, ReadError>
    ensures { Reads (spec.chk cursor.old) result cursor.new }
{
    let place = cursor.place();
    match cursor.take() {
        SETUP => two_ports(alloc, cursor, place, TimingKind::Setup),
        HOLD => two_ports(alloc, cursor, place, TimingKind::Hold),
        RECOVERY => two_ports(alloc, cursor, place, TimingKind::Recovery),
        REMOVAL => two_ports(alloc, cursor, place, TimingKind::Removal),
        SETUP_HOLD => two_ports(alloc, cursor, place, TimingKind::SetupHold),
        REC_REM => two_ports(alloc, cursor, place, TimingKind::RecRem),
        PERIOD => one_port(alloc, cursor, place, TimingKind::Period),
        WIDTH => one_port(alloc, cursor, place, TimingKind::Width),
        _ => Ok(passed(cursor, place)),
    }
}
