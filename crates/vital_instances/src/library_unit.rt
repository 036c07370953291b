//! The units of a library that are elaborated.

ghost use Rattle.std.specs.Prelude.{◌≡◌, ◌<◌, length, IfSome};
ghost use Rattle.std.specs.Option.{option_map};
ghost use Rattle.vital_instances.specs.Units as spec;
ghost use Rattle.vital_library.specs.Units.{entities};

use vital_library::Library;
use vital_nodes::{Arch, Entity, Role};

/// An entity with its architecture, as a cell or as a netlist unit.
#[derive(Clone, Copy)]
pub struct LibraryUnit<'a> {
    pub entity: &'a Entity,
    pub role: Role,
    /// Its last one.
    pub arch: &'a Arch,
}

/// The entity of a number with its architecture, if it has one.
#[tactic(auto, using(crate::proofs::UnitLemmas::no_entity, crate::proofs::UnitLemmas::no_arch, crate::proofs::UnitLemmas::unit_is))]
pub fn unit_at(library: &Library, number: u32) -> Option<LibraryUnit<'_>>
    ensures unit { option_map spec.lent result ≡ spec.unit_at library.now number }
    ensures there { IfSome result (λ _. number < length (entities library.now)) }
{
    if number >= library.entity_count() {
        return None;
    }
    let count = library.arch_count(number);
    if count == 0 {
        return None;
    }
    Some(LibraryUnit {
        entity: library.entity(number),
        role: library.role(number),
        arch: library.arch(number, count - 1),
    })
}
