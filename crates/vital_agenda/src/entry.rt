use std::collections::BTreeMap;
use vital_base::Time;
use vital_logic::Level;

/// A transaction of one driver, in a queue that holds those of all: its value, and the time of the driver's preceding
/// entry, or none.
#[derive(Clone, Copy, PartialEq, Eq)]
pub struct Entry {
    pub value: Level,
    pub before: Option<Time>,
}

/// The entries of all drivers, by time and then by driver.
pub type Queue = BTreeMap<(Time, u32), Entry>;
