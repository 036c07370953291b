ghost use Rattle.std.specs.Prelude.{◌≡◌, ◌≤◌, ℕ};
ghost use Rattle.vital_path_delay.specs.Changes.{calc_delay, time_of_two};
ghost use Rattle.vital_path_delay.specs.Within.{IsWithin};

use vital_base::Time;
use vital_logic::Level;
use vital_timing::Delay;

/// The time for a level in a row, which has one for each class of levels: 0, 1, Z, and X, to which all others belong.
macro_rules! entry {
    ($a:expr; $zero:expr, $one:expr, $z:expr, $x:expr) => {
        match $a {
            Level::Zero | Level::L => $zero,
            Level::One | Level::H => $one,
            Level::Z => $z,
            Level::U | Level::X | Level::W | Level::Dash => $x,
        }
    };
}

/// The time that a change from an old level to a new one takes, in femtoseconds (IEEE 1076.4, VitalCalcDelay).
pub fn calc_delay(new: Level, old: Level, delay: &Delay) -> Time
    ensures time { result ≡ calc_delay new old delay.now }
    ensures within { (limit : ℕ) → IsWithin limit delay.now → result ≤ limit }
{
    match *delay {
        Delay::One(time) => time,
        Delay::Two { tr01, tr10 } => time_of_two(new, old, tr01, tr10),
        Delay::Six {
            tr01,
            tr10,
            tr0z,
            trz1,
            tr1z,
            trz0,
        } => entry!(old;
            entry!(new; tr10, tr01, tr0z, tr01.min(tr0z)),
            entry!(new; tr10, tr01, tr1z, tr10.min(tr1z)),
            entry!(new; trz0, trz1, tr0z.max(tr1z), trz1.min(trz0)),
            entry!(new; tr10.max(trz0), tr01.max(trz1), tr1z.max(tr0z), tr10.min(tr01))
        ),
    }
}

/// The one of two times that a change takes.
fn time_of_two(new: Level, old: Level, tr01: Time, tr10: Time) -> Time
    ensures { result ≡ time_of_two new old tr01 tr10 }
{
    match (new, old) {
        (Level::Zero | Level::L, _) => tr10,
        (Level::One | Level::H, _) => tr01,
        (_, Level::Zero | Level::L) => tr01,
        (_, Level::One | Level::H) => tr10,
        (Level::Z, _) => tr01.max(tr10),
        _ => tr01.min(tr10),
    }
}
