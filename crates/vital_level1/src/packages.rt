//! What the constants of the packages of a library break and pass.

ghost use Rattle.std.specs.Prelude.{◌≡◌, IfOk};
ghost use Rattle.vital_limits.specs.ConstantLimits.{constant_limits as constant_limits'};
ghost use Rattle.vital_package_constants.specs.Breaches.{constant_breaches as constant_breaches'};

use std::alloc::{AllocError, Global};
use std::marker::Model;
use vital_limits::{ConstantLimits, constant_limits};
use vital_names::LibraryNames;
use vital_package_constants::{ConstantBreaches, constant_breaches};

/// What the constants of the packages of a library break and pass. It is made once for a library. Contracts see it as the files of
/// the library.
#[derive(Drop)]
pub struct Packages<'a> {
    library: &'a LibraryNames<'a>,
    limits: Vec<ConstantLimits>,
    breaches: Vec<ConstantBreaches>,
}

impl<'a> Model for Packages<'a> {
    ghost use Rattle.std.specs.Prelude.{◌≡◌, List};
    ghost use Rattle.std.specs.Coded.{codes};
    ghost use Rattle.vital_limits.specs.ConstantLimits.{constant_limits};
    ghost use Rattle.vital_nodes.specs.contracts.unit.Units as units;
    ghost use Rattle.vital_nodes.specs.declared.unit.Units.{Units};
    ghost use Rattle.vital_package_constants.specs.Breaches.{constant_breaches};

    ghost Value = { List Units };

    ghost coded = { Prim.hlevel (codes, units.the_row.coded) };

    ghost view = { λ p. p.library.now };

    ghost invariant = { λ p. (p.limits.items ≡ constant_limits p.library.now) × (p.breaches.items ≡ constant_breaches p.library.now) };
}

impl<'a> Packages<'a> {
    /// The constants of the packages of a library. It takes time in proportion to its packages.
    pub fn new(alloc: Global, library: &'a LibraryNames<'a>) -> Result<Packages<'a>, AllocError>
        ensures { IfOk result (λ packages. packages ≡ library.now) }
    {
        let limits = constant_limits(alloc, library)?;
        let breaches = constant_breaches(alloc, library)?;
        Ok(Packages {
            library,
            limits,
            breaches,
        })
    }

    /// The names of the library.
    pub fn library(&self) -> &'a LibraryNames<'a>
        ensures { result.now ≡ self.now }
    {
        self.library
    }

    /// The limits that each constant passes, in order.
    pub fn limits(&self) -> &[ConstantLimits]
        ensures { result.now ≡ constant_limits' self.now }
    {
        self.limits.as_slice()
    }

    /// The clauses that each constant breaks, in order.
    pub fn breaches(&self) -> &[ConstantBreaches]
        ensures { result.now ≡ constant_breaches' self.now }
    {
        self.breaches.as_slice()
    }
}
