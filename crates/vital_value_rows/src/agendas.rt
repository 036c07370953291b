//! The pending transactions of drivers, and the signals that they drive.

ghost use Rattle.std.specs.Prelude.{◌≡◌, length, IfOk};
ghost use Rattle.vital_agenda.specs.Agendas.{idle};
ghost use Rattle.vital_signals.specs.SignalStates.{AreCurrent};

use super::words::{Said, letter, level, lines_of, number, small, word};
use std::alloc::{AllocError, Global};
use vital_agenda::{Agenda, Due, QueueAgenda};
use vital_base::{Kind, Time};
use vital_logic::Level;
use vital_row_files::GivenFile;
use vital_signals::{Signals, assignments_keep_values};

/// A step: an assignment to a driver, or an advance to the next time, where something is pending.
#[derive(Clone, Copy)]
enum Step {
    Send(u32, Kind, Level, Time),
    Advance,
}

/// What a view says of queues and signals.
pub fn say(alloc: Global, words: &[&str], files: &[GivenFile]) -> Said {
    let Some(steps) = steps_of(alloc, files)? else {
        return Ok(None);
    };
    if word(words, 0) == "signals" {
        return signals_after(alloc, steps.as_slice());
    }
    match (level(word(words, 1)), level(word(words, 2))) {
        (Some(first), Some(second)) => queue_after(alloc, [first, second], steps.as_slice()),
        _ => Ok(None),
    }
}

/// An assignment: its kind, and the words for its driver, its value and its delay.
fn send_of(kind: Kind, driver: &str, value: &str, delay: &str) -> Option<Step> {
    let driver = small(driver)?;
    let value = level(value)?;
    Some(Step::Send(driver, kind, value, number(delay)?))
}

/// The step of a line.
fn step_of(words: &[&str]) -> Option<Step> {
    match words {
        ["transport", driver, value, delay] => send_of(Kind::Transport, driver, value, delay),
        ["inertial", driver, value, delay] => send_of(Kind::Inertial, driver, value, delay),
        ["advance"] => Some(Step::Advance),
        _ => None,
    }
}

/// The steps of a row, or None where a line is none.
fn steps_of(alloc: Global, files: &[GivenFile]) -> Result<Option<Vec<Step>>, AllocError> {
    let mut steps = Vec::new(alloc);
    for line in lines_of(alloc, files, "steps")?.as_slice() {
        let Some(step) = step_of(line.as_slice()) else {
            return Ok(None);
        };
        steps.push(step)?;
    }
    Ok(Some(steps))
}

/// Assigns a value to one of so many drivers.
fn send<A: Agenda>(
    signals: &Signals,
    agenda: &mut A,
    drivers: u32,
    driver: u32,
    kind: Kind,
    value: Level,
    delay: Time,
) -> Result<(), AllocError>
    requires current { AreCurrent signals.now (A.content agenda.old).drivers }
    requires all { length signals.now.signals_of ≡ drivers }
    ensures current { AreCurrent signals.now (A.content agenda.new).drivers }
{
    if driver < drivers && agenda.now() < 1000 && delay < 1000 {
        assignments_keep_values();
        agenda.assign(driver, kind, value, delay)?;
    }
    Ok(())
}

/// An advance to the next time, where something is pending.
fn advance<A: Agenda>(signals: &mut Signals, agenda: &mut A, due: &mut Due, drivers: u32)
    requires current { AreCurrent signals.old (A.content agenda.old).drivers }
    requires all { length signals.old.signals_of ≡ drivers }
    requires room { due.old.room ≡ drivers }
    ensures current { AreCurrent signals.new (A.content agenda.new).drivers }
    ensures all { length signals.new.signals_of ≡ drivers }
    ensures room { due.new.room ≡ drivers }
{
    if agenda.next_time().is_some() {
        agenda.advance(due);
        signals.update(agenda, due);
    }
}

/// Takes one step.
fn take<A: Agenda>(
    signals: &mut Signals,
    agenda: &mut A,
    due: &mut Due,
    drivers: u32,
    step: Step,
) -> Result<(), AllocError>
    requires current { AreCurrent signals.old (A.content agenda.old).drivers }
    requires all { length signals.old.signals_of ≡ drivers }
    requires room { due.old.room ≡ drivers }
    ensures current { AreCurrent signals.new (A.content agenda.new).drivers }
    ensures all { length signals.new.signals_of ≡ drivers }
    ensures room { due.new.room ≡ drivers }
{
    match step {
        Step::Send(driver, kind, value, delay) => {
            send(signals, agenda, drivers, driver, kind, value, delay)?
        }
        Step::Advance => advance(signals, agenda, due, drivers),
    }
    Ok(())
}

/// The values that the four drivers of signals begin with.
const INITIAL: [Level; 4] = [Level::Z, Level::Zero, Level::One, Level::U];

/// Four signals and four drivers. Signal 0 has driver 1, which begins with 0; signal 1 has none, and the default H; signal 2 has drivers 0
/// and 2, which begin with Z and 1; and signal 3 has driver 3, which begins with U.
fn four_signals(alloc: Global) -> Result<Signals, AllocError>
    ensures current { IfOk result (λ signals. AreCurrent signals (idle INITIAL).drivers) }
    ensures four { IfOk result (λ signals. length signals.signals_of ≡ 4) }
{
    let defaults = [Level::U, Level::H, Level::U, Level::X];
    Signals::new(alloc, &defaults, &[2, 0, 2, 3], &INITIAL)
}

/// The four signals after steps: each one's value, last value and time of its last event, and then the signals that had an event in the
/// last cycle.
fn signals_after(alloc: Global, steps: &[Step]) -> Said {
    let mut signals = four_signals(alloc)?;
    let mut agenda = QueueAgenda::new(alloc, &INITIAL)?;
    let mut due = Due::reserve(alloc, 4)?;
    for step in steps {
        take(&mut signals, &mut agenda, &mut due, 4, *step)?;
    }
    text_of(alloc, &signals)
}

fn text_of(alloc: Global, signals: &Signals) -> Said {
    let mut text = String::new(alloc);
    for number in 0..signals.len() {
        let signal = signals.signal(number);
        text.push(letter(signals.value(number)))?;
        text.push(letter(signal.last_value))?;
        match signal.last_event {
            Some(time) => write!(text, "{time} ")?,
            None => text.push_str("- ")?,
        }
    }
    text.push_str("events")?;
    for number in signals.events() {
        write!(text, " {number}")?;
    }
    text.push('\n')?;
    Ok(Some(text))
}

/// Two drivers with their values, each with a signal of its own.
fn two_signals(alloc: Global, initial: &[Level; 2]) -> Result<Signals, AllocError>
    ensures current { IfOk result (λ signals. AreCurrent signals (idle initial.now).drivers) }
    ensures two { IfOk result (λ signals. length signals.signals_of ≡ 2) }
{
    Signals::new(alloc, &[Level::U, Level::U], &[0, 1], initial)
}

/// Says the present time, the present values of two drivers, and the drivers that were due last.
fn put_present<A: Agenda>(
    text: &mut String,
    signals: &Signals,
    agenda: &A,
    due: &Due,
) -> Result<(), AllocError>
    requires current { AreCurrent signals.now (A.content agenda.now).drivers }
    requires two { length signals.now.signals_of ≡ 2 }
{
    let (first, second) = (letter(agenda.current(0)), letter(agenda.current(1)));
    write!(text, "{} {first}{second}", agenda.now())?;
    for place in 0..due.len() {
        text.push_str(if place == 0 { " due " } else { " " })?;
        write!(text, "{}", due.at(place))?;
    }
    text.push('\n')
}

/// Two drivers after steps, and the next time at which a transaction is pending, or `-`; and then after each advance that is left.
fn queue_after(alloc: Global, initial: [Level; 2], steps: &[Step]) -> Said {
    let mut signals = two_signals(alloc, &initial)?;
    let mut agenda = QueueAgenda::new(alloc, &initial)?;
    let mut due = Due::reserve(alloc, 2)?;
    for step in steps {
        take(&mut signals, &mut agenda, &mut due, 2, *step)?;
    }
    let mut text = String::new(alloc);
    put_present(&mut text, &signals, &agenda, &due)?;
    match agenda.next_time() {
        Some(time) => write!(text, "next {time}\n")?,
        None => text.push_str("next -\n")?,
    }
    for _ in 0..100 {
        if agenda.next_time().is_some() {
            advance(&mut signals, &mut agenda, &mut due, 2);
            put_present(&mut text, &signals, &agenda, &due)?;
        }
    }
    Ok(Some(text))
}
