//! What declarations declare.

ghost use Rattle.std.specs.Prelude.{◌≡◌};
ghost use Rattle.std.specs.Option.{option_map};
ghost use Rattle.vital_names.specs.Declarations.{declared_by, identifier_of, lent};

use vital_nodes::{Alias, Decl, Identifier, Iface, Object};

/// What is declared for an identifier, borrowed from its unit.
#[derive(Clone, Copy)]
pub enum Declared<'a> {
    Generic(&'a Iface),
    Port(&'a Iface),
    /// A constant, a signal or a variable.
    Object(&'a Object),
    Alias(&'a Alias),
}

impl<'a> Declared<'a> {
    /// The identifier that it is declared for.
    pub fn identifier(self) -> &'a Identifier
        ensures { result.now ≡ identifier_of (lent self.entry) }
    {
        match self {
            Declared::Generic(iface) | Declared::Port(iface) => &iface.identifier,
            Declared::Object(object) => &object.identifier,
            Declared::Alias(alias) => &alias.identifier,
        }
    }
}

/// What a declaration declares. Attributes and components declare nothing that a name in an expression means.
pub fn declared_by(declaration: &Decl) -> Option<Declared<'_>>
    ensures { option_map lent result ≡ declared_by declaration.now }
{
    match declaration {
        Decl::Object(object) => Some(Declared::Object(object)),
        Decl::Alias(alias) => Some(Declared::Alias(alias)),
        Decl::Attribute(_, _) | Decl::Specification(_) | Decl::Component(_) => None,
    }
}
