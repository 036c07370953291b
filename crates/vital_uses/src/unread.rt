//! What is given to formals and not read.

ghost use Rattle.std.specs.Prelude.{◌≡◌};
ghost use Rattle.std.specs.Option.{option_copied, option_map};
ghost use Rattle.vital_uses.specs.Unread as spec;

use vital_nodes::{Choice, Identifier, Item, actual, formal, identifier_of};

/// A formal and its actual, each an identifier alone.
#[derive(Clone, Copy)]
pub struct GivenAlone<'a> {
    pub formal: &'a Identifier,
    pub actual: &'a Identifier,
}

/// The formal and the actual of an item, if each is an identifier alone.
fn given_alone(item: &Item) -> Option<GivenAlone<'_>>
    ensures { option_map spec.lent_given result ≡ spec.given_alone item.now }
{
    let formal = identifier_of_choice(formal(item)?)?;
    let actual = identifier_of(actual(item)?)?;
    Some(GivenAlone { formal, actual })
}

/// The identifier that a formal before `=>` is alone.
fn identifier_of_choice(choice: &Choice) -> Option<&Identifier>
    ensures { option_copied result ≡ spec.identifier_of_choice choice.now }
{
    match choice {
        Choice::Value(value) => identifier_of(value),
        Choice::Range(_) => None,
    }
}

/// Whether an item gives an identifier alone to a formal that isn't read.
pub fn is_unread(item: &Item) -> bool
    ensures { result ≡ spec.is_unread item.now }
{
    match given_alone(item) {
        Some(given) => is_unread_formal(given.formal.name.as_slice()),
        None => false,
    }
}

/// Whether what is given to the formal of a name is written or kept by the procedure, and not read.
fn is_unread_formal(name: &[u8]) -> bool
    ensures { result ≡ spec.is_unread_formal name.now }
{
    name == b"glitchdata".as_slice()
        || name == b"timingdata".as_slice()
        || name == b"perioddata".as_slice()
        || name == b"violation".as_slice()
        || name == b"result".as_slice()
        || name == b"previousdatain".as_slice()
        || name == b"outsignal".as_slice()
}
