//! Bits of a design.

ghost use Rattle.std.specs.Prelude.{◌≡◌};
ghost use Rattle.vital_netlist.specs.Orders as spec;

use std::cmp::Ordering;
use vital_naturals::Natural;

/// One bit of the ports and signals of the instances of a design.
#[derive(Drop)]
pub struct Bit {
    /// The number of its instance.
    pub instance: usize,
    /// The number of its port or signal among those of the instance.
    pub object: usize,
    /// How far it is from the left there.
    pub offset: Natural,
}

impl Bit {
    /// How it compares with another bit: by instances, then by their ports and signals, and then from left to right.
    pub fn compare(&self, other: &Bit) -> Ordering
        ensures { result ≡ spec.order self.now other.now }
    {
        self.instance
            .cmp(&other.instance)
            .then(self.object.cmp(&other.object))
            .then(self.offset.compare(&other.offset))
    }
}
