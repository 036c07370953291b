use vital_base::Time;
use vital_logic::Level;

/// A value that a driver takes at a time.
#[derive(Clone, Copy, PartialEq, Eq)]
pub struct Transaction {
    pub time: Time,
    pub value: Level,
}
