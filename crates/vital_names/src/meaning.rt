//! What names mean.

ghost use Rattle.std.specs.Prelude.{◌≡◌};
ghost use Rattle.vital_names.specs.Kinds as kinds;
ghost use Rattle.vital_names.specs.Meanings.{lent};

use crate::declared::Declared;
use crate::predeclared::{Function, Predeclared, Procedure};
use vital_nodes::Object;

/// A constant of a package.
#[derive(Clone, Copy)]
pub struct PackageConstant<'a> {
    /// Its number among the constants of all packages of the library, from 0.
    pub number: usize,
    pub object: &'a Object,
}

/// What a name means.
#[derive(Clone, Copy)]
pub enum Meaning<'a> {
    /// What a declaration of the cell declares.
    Declared(Declared<'a>),
    Constant(PackageConstant<'a>),
    Predeclared(Predeclared),
}

impl<'a> Meaning<'a> {
    /// The predeclared function that is meant, if one is.
    pub fn function(self) -> Option<Function>
        ensures { result ≡ kinds.function_meant (lent self.entry) }
    {
        match self {
            Meaning::Predeclared(word) => word.as_function(),
            Meaning::Declared(_) | Meaning::Constant(_) => None,
        }
    }

    /// The predeclared procedure that is meant, if one is.
    pub fn procedure(self) -> Option<Procedure>
        ensures { result ≡ kinds.procedure_meant (lent self.entry) }
    {
        match self {
            Meaning::Predeclared(word) => word.as_procedure(),
            Meaning::Declared(_) | Meaning::Constant(_) => None,
        }
    }
}
