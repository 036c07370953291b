//! What the declarations of a cell are read by.

ghost use Rattle.std.specs.Prelude.{◌≡◌, IfOk};
ghost use Rattle.vital_expr.specs.Seen.{lent};
ghost use Rattle.vital_names.specs.Sites as sites;
ghost use Rattle.vital_typed_declarations.specs.Declarations.{in_interface, in_value};

use std::alloc::{AllocError, Global};
use vital_base::Name;
use vital_expr::Reader;
use vital_names::{CellNames, Site};
use vital_nodes::Identifier;
use vital_operands::{Faults, Position};

/// What the declarations of a cell are read by.
#[derive(Clone, Copy)]
pub struct CellReader<'a> {
    pub alloc: Global,
    pub names: &'a CellNames<'a>,
    pub faults: &'a Faults<'a>,
}

impl<'a> CellReader<'a> {
    /// What the default of a generic or a port is read by.
    pub fn in_interface(&self, site: Site<'a>) -> Reader<'a>
        ensures { lent result ≡ in_interface self.now.names.now self.now.faults.now (sites.lent site.entry) }
    {
        Reader {
            alloc: self.alloc,
            position: Position::Interface(self.names, site),
            faults: self.faults,
        }
    }

    /// What the value of an object is read by.
    pub fn in_value(&self, site: Site<'a>) -> Reader<'a>
        ensures { lent result ≡ in_value self.now.names.now self.now.faults.now (sites.lent site.entry) }
    {
        Reader {
            alloc: self.alloc,
            position: Position::Value(self.names, site),
            faults: self.faults,
        }
    }
}

/// The name of an identifier.
pub fn name_of(alloc: Global, identifier: &Identifier) -> Result<Name, AllocError>
    ensures { IfOk result (λ name. name ≡ identifier.now.name) }
{
    Ok(Name::new(Vec::from_slice(alloc, identifier.name.as_slice())?))
}
