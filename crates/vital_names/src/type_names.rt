//! The types that names name.

ghost use Rattle.std.specs.Prelude.{◌≡◌};
ghost use Rattle.vital_names.specs.TypeNames as spec;

use crate::library_names::LibraryNames;
use crate::predeclared::TypeName;
use vital_nodes::{Reference, last_identifier};

impl<'a> LibraryNames<'a> {
    /// The predeclared type that a name names by its last identifier. It is read as text: declarations and constants of packages
    /// hide no type.
    pub fn type_named(&self, name: &Reference) -> Option<TypeName>
        ensures { result ≡ spec.type_named name.now }
    {
        let identifier = last_identifier(name)?;
        self.predeclared(identifier.name.as_slice())?.as_type()
    }
}
