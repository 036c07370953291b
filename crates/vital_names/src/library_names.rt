//! The names that every cell of a library sees.

ghost use Rattle.std.specs.Prelude.{◌≡◌, take, IfOk};
ghost use Rattle.std.specs.Option.{option_map};
ghost use Rattle.vital_library.specs.Constants.{constants_of};
ghost use Rattle.vital_library.specs.Constants as constants;
ghost use Rattle.vital_names.specs.Meanings.{constant_named, constants, lent, meaning_among, meaning_in_value};
ghost use Rattle.vital_names.specs.Meanings as meanings;
ghost use Rattle.vital_names.specs.Words.{predeclared};

use crate::meaning::{Meaning, PackageConstant};
use crate::predeclared::Predeclared;
use crate::words::predeclared_meanings;
use std::alloc::{AllocError, Global};
use std::collections::HashMap;
use std::marker::Model;
use vital_library::Library;
use vital_nodes::Object;

/// What the names outside of the cells of a library mean: the constants of its packages, and what is predeclared. It is made once
/// for a library. Contracts see it as the files of the library.
#[derive(Drop)]
pub struct LibraryNames<'a> {
    library: &'a Library,
    /// The constants of all packages, in order.
    constants: Vec<&'a Object>,
    predeclared: HashMap<&'static [u8], Predeclared>,
}

impl<'a> Model for LibraryNames<'a> {
    ghost use Rattle.std.specs.Prelude.{◌≡◌, List};
    ghost use Rattle.std.specs.Coded.{codes};
    ghost use Rattle.vital_names.specs.Kept.{HasPredeclared};
    ghost use Rattle.vital_library.specs.Constants.{constants_of, lent};
    ghost use Rattle.vital_nodes.specs.contracts.unit.Units as units;
    ghost use Rattle.vital_nodes.specs.declared.unit.Units.{Units};

    ghost Value = { List Units };

    ghost coded = { Prim.hlevel (codes, units.the_row.coded) };

    ghost view = { λ names. names.library.now };

    ghost invariant = { λ names. (lent names.constants.items ≡ constants_of names.library.now) × HasPredeclared names.predeclared };
}

impl<'a> LibraryNames<'a> {
    /// The names outside of the cells of a library.
    pub fn new(alloc: Global, library: &'a Library) -> Result<LibraryNames<'a>, AllocError>
        ensures { IfOk result (λ names. names ≡ library.now) }
    {
        let constants = library.constants(alloc)?;
        let predeclared = predeclared_meanings(alloc)?;
        Ok(LibraryNames {
            library,
            constants,
            predeclared,
        })
    }

    /// The constants of all packages, in order.
    pub fn constants(&self) -> &[&'a Object]
        ensures { constants.lent result.now ≡ constants_of self.now }
    {
        self.constants.as_slice()
    }

    /// What a name is predeclared as. Names are as identifiers keep them, and are looked up in a map.
    pub fn predeclared(&self, name: &[u8]) -> Option<Predeclared>
        ensures { result ≡ predeclared name.now }
    {
        self.predeclared.get(name).copied()
    }

    /// What a name means that is predeclared.
    fn predeclared_meaning(&self, name: &[u8]) -> Option<Meaning<'a>>
        ensures { option_map lent result ≡ option_map (λ p. meanings.Predeclared p) (predeclared name.now) }
    {
        match self.predeclared(name) {
            Some(predeclared) => Some(Meaning::Predeclared(predeclared)),
            None => None,
        }
    }

    /// The first constant of a name.
    fn constant(&self, name: &[u8]) -> Option<PackageConstant<'a>>
        ensures { option_map (λ c. (c.number, c.object.now)) result ≡ constant_named name.now (constants self.now) }
    {
        match self.library.constant_named(name) {
            Some(number) => match self.constants.get(number) {
                Some(object) => Some(PackageConstant { number, object }),
                None => None,
            },
            None => None,
        }
    }

    /// What a name means that the cell does not declare: a constant of a package, or else what is predeclared.
    pub fn meaning(&self, name: &[u8]) -> Option<Meaning<'a>>
        ensures { option_map lent result ≡ meaning_among (constants self.now) name.now }
    {
        match self.constant(name) {
            Some(constant) => Some(Meaning::Constant(constant)),
            None => self.predeclared_meaning(name),
        }
    }

    /// What a name means in the value of the constant of a number: only the constants before it are seen.
    pub fn meaning_in_value(&self, name: &[u8], number: usize) -> Option<Meaning<'a>>
        ensures { option_map lent result ≡ meaning_in_value name.now number self.now }
    {
        match self.constant_before(name, number) {
            Some(constant) => Some(Meaning::Constant(constant)),
            None => self.predeclared_meaning(name),
        }
    }

    /// The first constant of a name among those before a number.
    fn constant_before(&self, name: &[u8], number: usize) -> Option<PackageConstant<'a>>
        ensures { option_map (λ c. (c.number, c.object.now)) result ≡ constant_named name.now (take number (constants self.now)) }
    {
        match self.constant(name) {
            Some(constant) => {
                if constant.number < number {
                    Some(constant)
                } else {
                    None
                }
            }
            None => None,
        }
    }
}
