//! Edges and timing checks.

use super::words::{Said, level, line, lines_of, number, word};
use std::alloc::{AllocError, Global};
use vital_base::Time;
use vital_edges::{EdgeSet, edges_of};
use vital_logic::Level;
use vital_row_files::GivenFile;
use vital_timing_checks::{
    CheckKind, PeriodPulse, PulseLimits, RecRem, RecoveryLimits, SetupHold, SetupLimits, Violated,
};

/// What a view says of edges and checks.
pub fn say(alloc: Global, words: &[&str], files: &[GivenFile]) -> Said {
    match word(words, 0) {
        "edges" => symbols(alloc),
        "edge" => edge(alloc, words),
        _ => check(alloc, words, files),
    }
}

/// Each byte that is an edge symbol, rising.
fn symbols(alloc: Global) -> Said {
    let mut text = String::new(alloc);
    for byte in 0..=255u8 {
        if edges_of(byte).is_some() {
            text.push(char::from(byte))?;
        }
    }
    text.push('\n')?;
    Ok(Some(text))
}

/// The edges of a symbol of one letter.
fn edges_named(symbol: &str) -> Option<EdgeSet> {
    match symbol.as_bytes() {
        [byte] => edges_of(*byte),
        _ => None,
    }
}

/// Says of changes, each a level before it and one after it, whether a symbol has them.
fn edge(alloc: Global, words: &[&str]) -> Said {
    let Some(edges) = edges_named(word(words, 1)) else {
        return line(alloc, "no edge symbol");
    };
    match words.get(2..) {
        Some([]) | None => plain_changes(alloc, edges),
        Some(changes) => these_changes(alloc, edges, changes),
    }
}

/// A line of the changes to X, 0 and 1 from each of these.
fn plain_changes(alloc: Global, edges: EdgeSet) -> Said {
    let plain = [Level::X, Level::Zero, Level::One];
    let mut text = String::new(alloc);
    for old in plain {
        for new in plain {
            text.push(if edges.holds(old, new) { 'y' } else { '-' })?;
        }
        text.push('\n')?;
    }
    Ok(Some(text))
}

/// The change that two letters write.
fn change_of(change: &str) -> Option<(Level, Level)> {
    let old = level(change.get(..1)?)?;
    let new = level(change.get(1..)?)?;
    Some((old, new))
}

/// A line for each of these changes.
fn these_changes(alloc: Global, edges: EdgeSet, changes: &[&str]) -> Said {
    let mut text = String::new(alloc);
    for change in changes {
        let Some((old, new)) = change_of(change) else {
            return Ok(None);
        };
        let holds = if edges.holds(old, new) { "yes" } else { "no" };
        write!(text, "{change} {holds}\n")?;
    }
    Ok(Some(text))
}

/// A call of a check: its time, the levels of the test signal and of the reference signal, and whether it is enabled.
#[derive(Drop)]
struct Call {
    now: Time,
    test: Level,
    reference: Level,
    enabled: bool,
}

/// The call of a line. A check of one signal has no level of a reference.
fn call_of(words: &[&str]) -> Option<Call> {
    let (now, test, reference, enabled) = match words {
        [now, test, enabled] => (now, test, "X", enabled),
        [now, test, reference, enabled] => (now, test, *reference, enabled),
        _ => return None,
    };
    Some(Call {
        now: number(now)?,
        test: level(test)?,
        reference: level(reference)?,
        enabled: *enabled == "on",
    })
}

/// The calls of a row, or None where a line is none.
fn calls_of(alloc: Global, files: &[GivenFile]) -> Result<Option<Vec<Call>>, AllocError> {
    let mut calls = Vec::new(alloc);
    for line in lines_of(alloc, files, "calls")?.as_slice() {
        let Some(call) = call_of(line.as_slice()) else {
            return Ok(None);
        };
        calls.push(call)?;
    }
    Ok(Some(calls))
}

/// A check with its limits.
#[derive(Clone, Copy)]
enum TimingCheck {
    Setup(EdgeSet, SetupLimits),
    Recovery(EdgeSet, RecoveryLimits),
    Period(PulseLimits),
}

/// The check that words name, with its limits.
fn check_of(words: &[&str]) -> Option<TimingCheck> {
    match words {
        ["setup", edge, setup_high, setup_low, hold_high, hold_low] => {
            let limits = SetupLimits {
                setup_high: number(setup_high)?,
                setup_low: number(setup_low)?,
                hold_high: number(hold_high)?,
                hold_low: number(hold_low)?,
            };
            Some(TimingCheck::Setup(edges_named(edge)?, limits))
        }
        ["recovery", edge, active, recovery, removal] => {
            let limits = RecoveryLimits {
                recovery: number(recovery)?,
                removal: number(removal)?,
                active_low: *active == "0",
            };
            Some(TimingCheck::Recovery(edges_named(edge)?, limits))
        }
        ["period", period, high, low] => Some(TimingCheck::Period(PulseLimits {
            period: number(period)?,
            high: number(high)?,
            low: number(low)?,
        })),
        _ => None,
    }
}

/// A line for each call of a check: what is violated, the time that was observed and the limit, or `-`.
fn check(alloc: Global, words: &[&str], files: &[GivenFile]) -> Said {
    let Some(check) = check_of(words.get(1..).unwrap_or(&[])) else {
        return Ok(None);
    };
    let Some(calls) = calls_of(alloc, files)? else {
        return Ok(None);
    };
    match check {
        TimingCheck::Setup(edges, limits) => setup_hold(alloc, edges, &limits, calls.as_slice()),
        TimingCheck::Recovery(edges, limits) => rec_rem(alloc, edges, &limits, calls.as_slice()),
        TimingCheck::Period(limits) => period_pulse(alloc, &limits, calls.as_slice()),
    }
}

/// Says what a call found.
fn put(text: &mut String, found: Option<Violated>) -> Result<(), AllocError> {
    let Some(violated) = found else {
        return text.push_str("-\n");
    };
    let kind = match violated.kind {
        CheckKind::Setup => "setup",
        CheckKind::Hold => "hold",
        CheckKind::Recovery => "recovery",
        CheckKind::Removal => "removal",
        CheckKind::Period => "period",
        CheckKind::Pulse => "pulse",
    };
    write!(text, "{kind} {} {}\n", violated.observed, violated.limit)?;
    Ok(())
}

fn setup_hold(alloc: Global, edges: EdgeSet, limits: &SetupLimits, calls: &[Call]) -> Said {
    let mut text = String::new(alloc);
    let mut check = SetupHold::new();
    let mut last = 0;
    for call in calls {
        if call.now < last {
            return Ok(None);
        }
        let found = check.check(
            call.now,
            call.test,
            call.reference,
            edges,
            limits,
            call.enabled,
        );
        put(&mut text, found)?;
        last = call.now;
    }
    Ok(Some(text))
}

fn rec_rem(alloc: Global, edges: EdgeSet, limits: &RecoveryLimits, calls: &[Call]) -> Said {
    let mut text = String::new(alloc);
    let mut check = RecRem::new();
    let mut last = 0;
    for call in calls {
        if call.now < last {
            return Ok(None);
        }
        let found = check.check(
            call.now,
            call.test,
            call.reference,
            edges,
            limits,
            call.enabled,
        );
        put(&mut text, found)?;
        last = call.now;
    }
    Ok(Some(text))
}

fn period_pulse(alloc: Global, limits: &PulseLimits, calls: &[Call]) -> Said {
    let mut text = String::new(alloc);
    let mut check = PeriodPulse::new();
    let mut last = 0;
    for call in calls {
        if call.now < last {
            return Ok(None);
        }
        put(
            &mut text,
            check.check(call.now, call.test, limits, call.enabled),
        )?;
        last = call.now;
    }
    Ok(Some(text))
}
