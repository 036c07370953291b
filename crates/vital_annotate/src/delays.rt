//! What becomes of the delay of a generic by the values of an entry.

ghost use Rattle.std.specs.Prelude.{◌≡◌, ◌+◌, map, pos, ◌+ℤ◌, ◌-ℤ◌, slice_index_or};
ghost use Rattle.std.specs.List.{list_any};
ghost use Rattle.vital_annotate.specs.Delays as spec;
ghost use Rattle.vital_annotate.specs.NewDelays.{IsNewDelay, IsNewTime};

use vital_base::{Corner, Time};
use vital_sdf::{Mode, Triple};
use vital_timing::Delay;

/// The greatest time of a delay, in femtoseconds: 2^50.
const GREATEST: Time = 1_125_899_906_842_624;

/// What a value makes of a time.
#[derive(Clone, Copy)]
pub struct NewTime {
    /// The new time, unless it is above the greatest one.
    pub time: Time,
    pub is_negative: bool,
    pub is_large: bool,
}

/// A new delay.
#[derive(Clone, Copy)]
pub struct NewDelay {
    /// It means nothing where a time is above the greatest one.
    pub delay: Delay,
    /// Whether a result was negative.
    pub is_negative: bool,
    /// Whether a result is above the greatest time.
    pub is_large: bool,
}

/// A result that is not negative.
fn of_time(time: Time) -> NewTime
    ensures { IsNewTime (pos time) result }
{
    NewTime {
        time,
        is_negative: false,
        is_large: time > GREATEST,
    }
}

/// A value in the place of a time.
fn replaced(value: i64) -> NewTime
    ensures { IsNewTime value result }
{
    if value < 0 {
        return NewTime {
            time: 0,
            is_negative: true,
            is_large: false,
        };
    }
    of_time(value.unsigned_abs())
}

/// A value added to a time.
fn added(value: i64, old: Time) -> NewTime
    ensures { IsNewTime (pos old +ℤ value) result }
{
    let size = value.unsigned_abs();
    if value < 0 {
        return lessened(size, old);
    }
    raised(size, old)
}

/// A time with more.
fn raised(more: Time, old: Time) -> NewTime
    ensures { IsNewTime (pos (old + more)) result }
{
    match old.checked_add(more) {
        Some(time) => of_time(time),
        None => NewTime {
            time: 0,
            is_negative: false,
            is_large: true,
        },
    }
}

/// A time with less, which is not 0.
fn lessened(less: Time, old: Time) -> NewTime
    ensures { IsNewTime (pos old -ℤ pos less) result }
{
    if old < less {
        return NewTime {
            time: 0,
            is_negative: true,
            is_large: false,
        };
    }
    of_time(old - less)
}

/// What a value makes of a time. An empty one leaves it.
fn with_value(mode: Mode, value: Option<i64>, old: Time) -> NewTime
    ensures { IsNewTime (spec.with_value mode value old) result }
{
    match value {
        None => of_time(old),
        Some(value) => match mode {
            Mode::Replace => replaced(value),
            Mode::Add => added(value, old),
        },
    }
}

/// The value of a triple at a corner, if it has one.
fn picked(corner: Corner, triple: &Triple) -> Option<i64>
    ensures { result ≡ spec.picked corner triple.now }
{
    match corner {
        Corner::Min => triple.min,
        Corner::Typ => triple.typ,
        Corner::Max => triple.max,
    }
}

/// That of the triple of a number, if it is there.
fn picked_at(corner: Corner, values: &[Triple], number: usize) -> Option<i64>
    ensures { result ≡ slice_index_or (map (spec.picked corner) values.now) number None }
{
    match values.get(number) {
        Some(triple) => picked(corner, triple),
        None => None,
    }
}

/// The values of the changes to and from 1, 0 and Z, in the order 01, 10, 0Z, Z1, 1Z, Z0 (IEEE 1497).
fn by_changes(corner: Corner, values: &[Triple]) -> [Option<i64>; 6]
    ensures { result ≡ spec.by_changes (map (spec.picked corner) values.now) }
{
    match values {
        [] => [None; 6],
        [a] => [picked(corner, a); 6],
        [a, b] => {
            let to_1 = picked(corner, a);
            let to_0 = picked(corner, b);
            [to_1, to_0, to_1, to_1, to_0, to_0]
        }
        [a, b, c] => {
            let to_1 = picked(corner, a);
            let to_0 = picked(corner, b);
            let to_z = picked(corner, c);
            [to_1, to_0, to_z, to_1, to_z, to_0]
        }
        [a, b, c, d, more @ ..] => [
            picked(corner, a),
            picked(corner, b),
            picked(corner, c),
            picked(corner, d),
            picked_at(corner, more, 0),
            picked_at(corner, more, 1),
        ],
    }
}

/// Whether one is negative.
fn any_negative(times: &[NewTime]) -> bool
    ensures { result ≡ list_any (λ s. s.is_negative) times.now }
{
    times.iter().any(|time| time.is_negative)
}

/// Whether one is above the greatest time.
fn any_large(times: &[NewTime]) -> bool
    ensures { result ≡ list_any (λ s. s.is_large) times.now }
{
    times.iter().any(|time| time.is_large)
}

/// A delay of new times.
fn of_times(delay: Delay, times: &[NewTime]) -> NewDelay
    ensures delay { result.delay ≡ delay }
    ensures negative { result.is_negative ≡ list_any (λ s. s.is_negative) times.now }
    ensures large { result.is_large ≡ list_any (λ s. s.is_large) times.now }
{
    NewDelay {
        delay,
        is_negative: any_negative(times),
        is_large: any_large(times),
    }
}

/// The new delay of a generic by the values of an entry at a corner. It takes as many of them as it has times.
pub fn changed(corner: Corner, mode: Mode, values: &[Triple], delay: Delay) -> NewDelay
    ensures { IsNewDelay (spec.changed corner mode values.now delay) result }
{
    let values = by_changes(corner, values);
    match delay {
        Delay::One(old) => {
            let time = with_value(mode, values[0], old);
            of_times(Delay::One(time.time), &[time])
        }
        Delay::Two { tr01, tr10 } => {
            let tr01 = with_value(mode, values[0], tr01);
            let tr10 = with_value(mode, values[1], tr10);
            of_times(
                Delay::Two {
                    tr01: tr01.time,
                    tr10: tr10.time,
                },
                &[tr01, tr10],
            )
        }
        Delay::Six {
            tr01,
            tr10,
            tr0z,
            trz1,
            tr1z,
            trz0,
        } => {
            let tr01 = with_value(mode, values[0], tr01);
            let tr10 = with_value(mode, values[1], tr10);
            let tr0z = with_value(mode, values[2], tr0z);
            let trz1 = with_value(mode, values[3], trz1);
            let tr1z = with_value(mode, values[4], tr1z);
            let trz0 = with_value(mode, values[5], trz0);
            of_times(
                Delay::Six {
                    tr01: tr01.time,
                    tr10: tr10.time,
                    tr0z: tr0z.time,
                    trz1: trz1.time,
                    tr1z: tr1z.time,
                    trz0: trz0.time,
                },
                &[tr01, tr10, tr0z, trz1, tr1z, trz0],
            )
        }
    }
}
