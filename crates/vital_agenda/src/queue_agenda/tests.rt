ghost use Rattle.std.specs.Prelude.{◌≡◌, ◌≤◌, length};

use crate::agenda::Agenda;
use crate::due::Due;
use crate::queue_agenda::QueueAgenda;
use std::alloc::{AllocError, Global};
use std::test::Fail;
use vital_base::{Kind, Time};
use vital_logic::{Level, to_byte};

/// A step of an agenda: an assignment, or an advance where something is pending.
#[derive(Clone, Copy, Debug)]
enum Step {
    Send(u32, Kind, Level, Time),
    Advance,
}

use Kind::{Inertial, Transport};
use Level::{One, U, X, Z, Zero};
use Step::{Advance, Send};

/// Steps of an agenda for one driver with the value 0 and one with the value U, and what it holds then: the present time and
/// the present values; each key with its level and the time of the preceding entry; and the last times.
const ROWS: [(&[Step], &str); 17] = [
    (&[], "0 0U -,-"),
    (
        &[
            Send(0, Transport, X, 5),
            Send(0, Transport, One, 8),
            Send(0, Transport, One, 10),
            Send(0, Inertial, One, 12),
        ],
        "0 0U (8, 0) 1 -;(10, 0) 1 8;(12, 0) 1 10;12,-",
    ),
    (
        &[
            Send(0, Transport, X, 5),
            Send(0, Transport, One, 8),
            Send(0, Transport, One, 10),
            Send(0, Inertial, One, 12),
            Send(0, Transport, Zero, 9),
        ],
        "0 0U (8, 0) 1 -;(9, 0) 0 8;9,-",
    ),
    // Another value between equal ones ends their run.
    (
        &[
            Send(0, Transport, One, 8),
            Send(0, Transport, Zero, 9),
            Send(0, Transport, One, 10),
            Send(0, Inertial, One, 12),
        ],
        "0 0U (10, 0) 1 -;(12, 0) 1 10;12,-",
    ),
    // No pending one has the new value.
    (
        &[
            Send(0, Transport, X, 5),
            Send(0, Transport, Zero, 8),
            Send(0, Transport, Z, 10),
            Send(0, Inertial, One, 12),
        ],
        "0 0U (12, 0) 1 -;12,-",
    ),
    // What is pending at the new time and after it goes, whatever its value.
    (
        &[
            Send(0, Transport, One, 12),
            Send(0, Transport, One, 13),
            Send(0, Inertial, One, 12),
        ],
        "0 0U (12, 0) 1 -;12,-",
    ),
    (
        &[
            Send(0, Transport, One, 8),
            Send(0, Transport, X, 12),
            Send(0, Transport, Z, 14),
            Send(0, Transport, Zero, 12),
        ],
        "0 0U (8, 0) 1 -;(12, 0) 0 8;12,-",
    ),
    (
        &[
            Send(0, Transport, One, 8),
            Send(0, Transport, X, 12),
            Send(0, Transport, Zero, 3),
        ],
        "0 0U (3, 0) 0 -;3,-",
    ),
    // No delay.
    (&[Send(0, Inertial, One, 0)], "0 0U (0, 0) 1 -;0,-"),
    (
        &[Send(0, Transport, One, 0), Advance, Send(0, Inertial, Z, 0)],
        "0 1U (0, 0) Z -;0,- due 0",
    ),
    // Two drivers.
    (
        &[
            Send(0, Transport, One, 5),
            Send(1, Transport, Zero, 5),
            Send(0, Transport, Zero, 7),
            Send(1, Inertial, Z, 6),
        ],
        "0 0U (5, 0) 1 -;(6, 1) Z -;(7, 0) 0 5;7,6",
    ),
    (
        &[
            Send(1, Transport, One, 5),
            Send(0, Transport, Z, 5),
            Send(1, Transport, Zero, 9),
            Send(1, Transport, X, 7),
        ],
        "0 0U (5, 0) Z -;(5, 1) 1 -;(7, 1) X 5;5,7",
    ),
    // Both are due at one time, and what comes later has none before it then.
    (
        &[
            Send(1, Transport, One, 5),
            Send(0, Transport, Z, 5),
            Send(1, Transport, X, 7),
            Send(1, Transport, Zero, 9),
            Advance,
        ],
        "5 Z1 (7, 1) X -;(9, 1) 0 7;-,9 due 0 1",
    ),
    (
        &[
            Send(1, Transport, One, 5),
            Send(0, Transport, Z, 6),
            Advance,
            Advance,
        ],
        "6 Z1 -,- due 0",
    ),
    // One is due, and the other one's transactions stay.
    (
        &[
            Send(0, Transport, X, 3),
            Send(1, Transport, One, 2),
            Send(0, Transport, One, 4),
            Advance,
        ],
        "2 01 (3, 0) X -;(4, 0) 1 3;4,- due 1",
    ),
    // An inertial assignment after an advance keeps the run of its value.
    (
        &[
            Send(0, Transport, X, 5),
            Send(0, Transport, One, 8),
            Send(0, Transport, One, 10),
            Advance,
            Send(0, Inertial, One, 7),
        ],
        "5 XU (8, 0) 1 -;(10, 0) 1 8;(12, 0) 1 10;12,- due 0",
    ),
    // Nothing is pending.
    (
        &[Send(0, Inertial, One, 1), Advance, Advance],
        "1 1U -,- due 0",
    ),
];

/// Takes one step, by calls of the trait alone.
fn take<A: Agenda>(
    agenda: &mut A,
    due: &mut Due,
    drivers: u32,
    step: Step,
) -> Result<(), AllocError>
    requires drivers { length (A.content agenda.old).drivers ≡ drivers }
    requires room { drivers ≤ due.old.room }
    ensures drivers { length (A.content agenda.new).drivers ≡ drivers }
    ensures room { due.new.room ≡ due.old.room }
{
    match step {
        Send(driver, kind, value, delay) => {
            if driver < drivers && agenda.now() < 1000 && delay < 1000 {
                agenda.assign(driver, kind, value, delay)?;
            }
        }
        Advance => {
            if agenda.next_time().is_some() {
                agenda.advance(due);
            }
        }
    }
    Ok(())
}

/// A time that may be missing.
fn time_text(alloc: Global, time: Option<Time>) -> Result<String, AllocError> {
    match time {
        Some(time) => format!(in alloc; "{time}"),
        None => format!(in alloc; "-"),
    }
}

/// What an agenda holds: its four fields, of which there is no other.
fn text_of(alloc: Global, agenda: &QueueAgenda) -> Result<String, AllocError> {
    let QueueAgenda {
        now,
        queue,
        current,
        last,
    } = agenda;
    let mut text = format!(in alloc; "{now} ")?;
    for value in current {
        text.push(char::from(to_byte(*value)))?;
    }
    text.push(' ')?;
    for (key, entry) in queue {
        let value = char::from(to_byte(entry.value));
        let before = time_text(alloc, entry.before)?;
        text.push_str(format!(in alloc; "{key:?} {value} {before};")?.as_str())?;
    }
    let mut comma = "";
    for time in last {
        text.push_str(comma)?;
        text.push_str(time_text(alloc, *time)?.as_str())?;
        comma = ",";
    }
    Ok(text)
}

/// What an agenda holds after some steps, and the drivers that were due last.
fn after(alloc: Global, steps: &[Step]) -> Result<String, AllocError> {
    let mut agenda = QueueAgenda::new(alloc, &[Zero, U])?;
    let mut due = Due::reserve(alloc, 2)?;
    for step in steps {
        take(&mut agenda, &mut due, 2, *step)?;
    }
    let mut text = text_of(alloc, &agenda)?;
    for k in 0..due.len() {
        let driver = due.at(k);
        text.push_str(if k == 0 { " due " } else { " " })?;
        text.push_str(format!(in alloc; "{driver}")?.as_str())?;
    }
    Ok(text)
}

#[test]
fn steps_leave_what_they_should(rt: HostRuntime) -> Result<(), Fail> {
    for (steps, wanted) in ROWS {
        let found = after(rt.alloc(), steps)?;
        assert_eq!(rt; found.as_str(), wanted);
    }
    Ok(())
}
