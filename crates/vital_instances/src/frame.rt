//! Instances that are being entered.

ghost use Rattle.std.specs.Prelude.{◌≡◌, ◌<◌, IfSome};
ghost use Rattle.std.specs.Option.{option_map};
ghost use Rattle.vital_instances.specs.Frames as spec;
ghost use Rattle.vital_instances.specs.Instances.{lent};

use crate::entry::Entry;
use crate::instance::Position;
use crate::net_units::NetUnits;

/// An instance, the instances in which are being entered one after another.
#[derive(Clone, Copy)]
pub struct Frame {
    /// The number of its entity.
    pub entity: u32,
    /// Its own number.
    pub instance: usize,
    /// How many of the instances in it were entered.
    pub next: usize,
}

impl Frame {
    /// The next of the instances in it, if one is left.
    pub fn next_entry<'a>(self, units: &NetUnits<'a>) -> Option<Entry<'a>>
        ensures entry { option_map lent result ≡ spec.next units.now self }
        ensures fits { IfSome result (λ _. self.next < usize.MAX) }
    {
        let child = units.children(self.entity).get(self.next)?;
        Some(Entry {
            name: child.name,
            entity: child.entity,
            position: Some(Position {
                parent: self.instance,
                child: self.next,
            }),
        })
    }

    /// The same behind the next of the instances in it.
    pub fn behind(self) -> Frame
        requires { self.next < usize.MAX }
        ensures { result ≡ spec.behind self }
    {
        Frame {
            next: self.next + 1,
            ..self
        }
    }
}
