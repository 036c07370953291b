//! Instances that are to be entered.

ghost use Rattle.std.specs.Prelude.{◌≡◌};
ghost use Rattle.vital_instances.specs.Instances as spec;

use crate::instance::{Instance, Position};
use vital_nodes::Identifier;

/// An instance that is to be entered.
#[derive(Clone, Copy)]
pub struct Entry<'a> {
    /// The identifier at which its faults stand.
    pub name: &'a Identifier,
    /// The number of its entity.
    pub entity: u32,
    pub position: Option<Position>,
}

impl<'a> Entry<'a> {
    /// The instance.
    pub fn instance(self) -> Instance
        ensures { result ≡ spec.instance_of (spec.lent self.entry) }
    {
        Instance {
            entity: self.entity,
            position: self.position,
        }
    }
}
