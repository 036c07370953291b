//! The constants of the packages of a library with their values.

ghost use Rattle.std.specs.Prelude.{◌≡◌, IfOk};
ghost use Rattle.vital_typed_cells.specs.Packages as spec;

use crate::sound_packages::sound_values;
use sqlite_items::Items;
use std::alloc::{AllocError, Global};
use std::marker::Model;
use vital_level1::Packages;
use vital_nodes::Shared;
use vital_objects::PackageValue;

/// The constants of the packages of a library: what they break and pass, and what they are worth. It is made once for a library, and
/// the typed trees of its cells share the values. Contracts see it as the files of the library.
#[derive(Drop)]
pub struct TypedPackages<'a> {
    packages: &'a Packages<'a>,
    values: Shared<Items<Option<Shared<PackageValue>>>>,
}

impl<'a> Model for TypedPackages<'a> {
    ghost use Rattle.std.specs.Prelude.{◌≡◌, List};
    ghost use Rattle.std.specs.Coded.{codes};
    ghost use Rattle.vital_nodes.specs.contracts.unit.Units as units;
    ghost use Rattle.vital_nodes.specs.declared.unit.Units.{Units};
    ghost use Rattle.vital_typed_cells.specs.Packages.{sound_values};

    ghost Value = { List Units };

    ghost coded = { Prim.hlevel (codes, units.the_row.coded) };

    ghost view = { λ p. p.packages.now };

    ghost invariant = { λ p. p.values ≡ sound_values p.packages.now };
}

impl<'a> TypedPackages<'a> {
    /// The constants of the packages of a library. It takes time and memory in proportion to its packages.
    pub fn new(alloc: Global, packages: &'a Packages<'a>) -> Result<TypedPackages<'a>, AllocError>
        ensures { IfOk result (λ typed. typed ≡ packages.now) }
    {
        let values = sound_values(alloc, packages)?;
        Ok(TypedPackages {
            packages,
            values: Shared::new(alloc, values)?,
        })
    }

    /// What the constants break and pass.
    pub fn packages(&self) -> &'a Packages<'a>
        ensures { result.now ≡ self.now }
    {
        self.packages
    }

    /// What the constants are worth, in their order: nothing where the constant breaks a clause or passes a limit.
    pub fn values(&self) -> &[Option<Shared<PackageValue>>]
        ensures { result.now ≡ spec.sound_values self.now }
    {
        self.values.get().as_slice()
    }

    /// One more owner of these values.
    pub fn share_values(&self) -> Result<Shared<Items<Option<Shared<PackageValue>>>>, AllocError>
        ensures { IfOk result (λ values. values ≡ spec.sound_values self.now) }
    {
        self.values.share()
    }
}
