//! Libraries.

ghost use Rattle.std.specs.Prelude.{◌≡◌, ◌<◌, length, Ok, Some, IfOk, IfSome};
ghost use Rattle.std.specs.List.{slice_get};
ghost use Rattle.vital_library.specs.Constants.{constant_number, constants_of, lent};
ghost use Rattle.vital_library.specs.Gathered.{GivesLibrary, gathered};
ghost use Rattle.vital_library.specs.Numbers.{number_named};
ghost use Rattle.vital_library.specs.Units.{archs_of_entity, entities, roles};

use crate::checking::{Index, index_of};
use crate::constants::{constant_numbers, constants_of};
use crate::entry::Entry;
use crate::error::LibraryError;
use std::alloc::{AllocError, Global};
use std::collections::HashMap;
use std::marker::Model;
use vital_base::List;
use vital_nodes::{Arch, Entity, Object, Role, Units};

/// The units of several files as one library, in the order of the files and in each file in its order. Contracts see a library
/// as its files. They have no fault, so the entities have different names, and so do the architectures of an entity.
#[derive(Drop)]
pub struct Library {
    files: List<Units>,
    /// One for each entity, in order.
    entries: Vec<Entry>,
    /// The numbers of the entities by copies of their names.
    numbers: HashMap<Vec<u8>, usize>,
    /// The numbers of the constants of packages by copies of their names.
    constants: HashMap<Vec<u8>, usize>,
}

impl Model for Library {
    ghost use Rattle.vital_library.specs.Kept.{HasConstants, IsLibrary};
    ghost use Rattle.vital_nodes.specs.declared.unit.Units.{Units};
    ghost use Rattle.std.specs.Prelude.{List};
    ghost use Rattle.vital_nodes.specs.contracts.unit.Units as units;
    ghost use Rattle.std.specs.Coded.{codes};

    ghost Value = { List Units };

    ghost coded = { Prim.hlevel (codes, units.the_row.coded) };

    ghost view = { λ l. l.files };

    ghost invariant = { λ l. IsLibrary l.entries.items l.numbers l.files × HasConstants l.constants l.files };
}

/// The library of these files. They are refused at the first unit past [`MOST_UNITS`](crate::MOST_UNITS); or else where the
/// fault with the least place stands. Each unit is looked at a few times, and names are compared by maps.
pub fn gather(alloc: Global, files: List<Units>) -> Result<Library, LibraryError>
    ensures files { IfOk result (λ library. library ≡ files) }
    ensures outcome { GivesLibrary result (gathered files) }
{
    let Index { entries, numbers } = index_of(alloc, files.as_slice())?;
    let constants = constant_numbers(alloc, files.as_slice())?;
    Ok(Library {
        files,
        entries,
        numbers,
        constants,
    })
}

impl Library {
    /// The files, in order.
    pub fn files(&self) -> &[Units]
        ensures files { result.now ≡ self.now }
        ensures sound { gathered self.now ≡ Ok self.now }
    {
        self.files.as_slice()
    }

    /// The constants of all packages, in order.
    pub fn constants(&self, alloc: Global) -> Result<Vec<&Object>, AllocError>
        ensures { IfOk result (λ constants. lent constants.items ≡ constants_of self.now) }
    {
        constants_of(alloc, self.files.as_slice())
    }

    /// The number of the constant of a name among those of packages, counted from 0, if there is one: the first of a name is
    /// meant. Names are looked up in a map.
    pub fn constant_named(&self, name: &[u8]) -> Option<usize>
        ensures { result ≡ constant_number name.now self.now }
    {
        self.constants.get(name).copied()
    }

    /// How many entities there are.
    pub fn entity_count(&self) -> u32
        ensures { result ≡ length (entities self.now) }
    {
        self.entries.len() as u32
    }

    /// The entity of a number, from 0, in the order of the files.
    pub fn entity(&self, entity: u32) -> &Entity
        requires { entity < length (entities self.now) }
        ensures { slice_get (entities self.now) entity ≡ Some result.now }
    {
        let entry = &self.entries[entity as usize];
        match entry.position.entity_in(self.files.as_slice()) {
            Some(entity) => entity,
            None => unreachable!(),
        }
    }

    /// The number of the entity of a name, if there is one. Names are as identifiers keep them, and are looked up in a map.
    pub fn entity_named(&self, name: &[u8]) -> Option<u32>
        ensures number { result ≡ number_named name.now self.now }
        ensures there { IfSome result (λ entity. entity < length (entities self.now)) }
    {
        match self.numbers.get(name) {
            Some(number) => Some(*number as u32),
            None => None,
        }
    }

    /// What the entity of a number is: a cell of a library file, or a unit of a netlist file.
    pub fn role(&self, entity: u32) -> Role
        requires { entity < length (entities self.now) }
        ensures { slice_get (roles self.now) entity ≡ Some result }
    {
        let entry = &self.entries[entity as usize];
        match entry.position.role_in(self.files.as_slice()) {
            Some(role) => role,
            None => unreachable!(),
        }
    }

    /// How many architectures the entity of a number has.
    pub fn arch_count(&self, entity: u32) -> u32
        requires { entity < length (entities self.now) }
        ensures { result ≡ length (archs_of_entity entity self.now) }
    {
        self.entries[entity as usize].archs.len() as u32
    }

    /// The architecture of a number, from 0, of the entity of a number, in the order of the files.
    pub fn arch(&self, entity: u32, arch: u32) -> &Arch
        requires entity_there { entity < length (entities self.now) }
        requires arch_there { arch < length (archs_of_entity entity self.now) }
        ensures { slice_get (archs_of_entity entity self.now) arch ≡ Some result.now }
    {
        let entry = &self.entries[entity as usize];
        match entry.archs[arch as usize].arch_in(self.files.as_slice()) {
            Some(arch) => arch,
            None => unreachable!(),
        }
    }
}
