//! Identifiers and their names.

ghost use Rattle.std.specs.Prelude.{◌≡◌, IfOk};
ghost use Rattle.vital_nodes.specs.IdentifierNames.{IsIdentifierName, IsNamedWell, name_of};

use std::alloc::{AllocError, Global};
use std::marker::Model;
use vital_base::{Name, Place};
use vital_vhdl_lexemes::Kind;

const IDENTIFIER: u16 = Kind::Identifier as u16;

const EXTENDED_IDENTIFIER: u16 = Kind::ExtendedIdentifier as u16;

/// The name of an identifier: a basic identifier in lower case that is no reserved word, or an extended identifier as it
/// stands (IEEE 1076-1993, 13.3). Identifiers are the same where their names are.
#[derive(Drop)]
pub struct IdentifierName {
    name: Name,
}

impl Model for IdentifierName {
    ghost use Rattle.std.specs.Prelude.{ℕ, List};
    ghost use Rattle.vital_nodes.specs.IdentifierNames.{IsIdentifierName};

    ghost Value = { List ℕ };

    ghost view = { λ i. i.name };

    ghost invariant = { λ i. IsIdentifierName i.name };
}

/// The bytes that a token of this kind with these bytes is named by, if it is an identifier.
#[tactic(auto, using(crate::proofs::LowerCase::map_lower_case), unfolding(crate::specs::IdentifierNames::name_of))]
fn named(alloc: Global, kind: u16, bytes: &[u8]) -> Result<Option<Name>, AllocError>
    ensures { IfOk result (λ name. name ≡ name_of kind bytes.now) }
{
    match kind {
        IDENTIFIER => Ok(Some(Name::new(bytes.to_ascii_lowercase(alloc)?))),
        EXTENDED_IDENTIFIER => Ok(Some(Name::new(Vec::from_slice(alloc, bytes)?))),
        _ => Ok(None),
    }
}

impl IdentifierName {
    /// The name of a token of this kind with these bytes, or none where it is no identifier.
    pub fn of_token(
        alloc: Global,
        kind: u16,
        bytes: &[u8],
    ) -> Result<Option<IdentifierName>, AllocError>
        requires { IsNamedWell kind bytes.now }
        ensures { IfOk result (λ name. name ≡ name_of kind bytes.now) }
    {
        match named(alloc, kind, bytes)? {
            Some(name) => Ok(Some(IdentifierName { name })),
            None => Ok(None),
        }
    }

    /// Its bytes, borrowed.
    pub fn as_slice(&self) -> &[u8]
        ensures { result.now ≡ self.now }
    {
        self.name.as_slice()
    }

    /// It as a name that can be printed.
    pub fn as_name(&self) -> &Name
        ensures bytes { result.now ≡ self.now }
        ensures form { IsIdentifierName self.now }
    {
        &self.name
    }
}

/// An identifier where it stands.
#[derive(Drop)]
pub struct Identifier {
    pub place: Place,
    pub name: IdentifierName,
}
