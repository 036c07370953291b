//! The ports of all entities of a library.

ghost use Rattle.std.specs.Prelude.{◌≡◌, ◌<◌, length, IfOk};
ghost use Rattle.vital_instances.specs.Children.{ports_of};
ghost use Rattle.vital_library.specs.Units.{entities};

use std::alloc::{AllocError, Global};
use std::marker::Model;
use vital_associations::Formals;
use vital_library::Library;
use vital_names::LibraryNames;

/// The ports of each entity of a library, which are found by their names. It is made once for a library. Contracts see it as the files of
/// the library.
#[derive(Drop)]
pub struct EntityPorts<'a> {
    library: &'a Library,
    /// One for each entity, in order.
    formals: Vec<Formals<'a>>,
}

impl<'a> Model for EntityPorts<'a> {
    ghost use Rattle.std.specs.Prelude.{◌≡◌, List, map};
    ghost use Rattle.std.specs.Coded.{codes};
    ghost use Rattle.vital_library.specs.Units.{entities};
    ghost use Rattle.vital_nodes.specs.contracts.unit.Units as units;
    ghost use Rattle.vital_nodes.specs.declared.unit.Units.{Units};

    ghost Value = { List Units };

    ghost coded = { Prim.hlevel (codes, units.the_row.coded) };

    ghost view = { λ p. p.library.now };

    ghost invariant = { λ p. p.formals.items ≡ map (λ e. e.ports) (entities p.library.now) };
}

impl<'a> EntityPorts<'a> {
    /// The ports of the entities of a library. It takes time and memory in proportion to all of them.
    pub fn new(
        alloc: Global,
        library: &'a Library,
        names: &'a LibraryNames<'a>,
    ) -> Result<EntityPorts<'a>, AllocError>
        ensures { IfOk result (λ ports. ports ≡ library.now) }
    {
        let mut formals = Vec::new(alloc);
        for number in 0..library.entity_count() {
            let ports = Formals::new(alloc, names, library.entity(number))?;
            formals.push(ports)?;
        }
        Ok(EntityPorts { library, formals })
    }

    /// The ports of the entity of a number.
    pub fn of_entity(&self, number: u32) -> &Formals<'a>
        requires { number < length (entities self.now) }
        ensures { result.now ≡ ports_of self.now number }
    {
        &self.formals[number as usize]
    }
}
