//! From where a value sees names.

ghost use Rattle.std.specs.Prelude.{◌≡◌};
ghost use Rattle.std.specs.Option.{option_map};
ghost use Rattle.vital_declaration_clauses.specs.Scopes.{files_of, lent, meaning_from};
ghost use Rattle.vital_names.specs.Meanings as meanings;

use vital_names::{CellNames, LibraryNames, Meaning, Site};

/// From where a value sees names.
#[derive(Clone, Copy)]
pub enum Scope<'a> {
    /// A site of a cell.
    Cell(&'a CellNames<'a>, &'a Site<'a>),
    /// The value of the constant of a number among those of packages.
    Package(&'a LibraryNames<'a>, usize),
}

impl<'a> Scope<'a> {
    /// The library that it is in.
    pub fn library(self) -> &'a LibraryNames<'a>
        ensures { result.now ≡ files_of (lent self.entry) }
    {
        match self {
            Scope::Cell(names, _) => names.library(),
            Scope::Package(library, _) => library,
        }
    }

    /// What a name means there.
    pub fn meaning(self, name: &[u8]) -> Option<Meaning<'a>>
        ensures { option_map meanings.lent result ≡ meaning_from (lent self.entry) name.now }
    {
        match self {
            Scope::Cell(names, site) => names.meaning(name, site),
            Scope::Package(library, number) => library.meaning_in_value(name, number),
        }
    }
}
