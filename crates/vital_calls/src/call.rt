//! Names that are calls.

ghost use Rattle.std.specs.Prelude.{◌≡◌};
ghost use Rattle.std.specs.Option.{option_map};
ghost use Rattle.vital_calls.specs.Calls.{call_of, lent};

use vital_nodes::{Identifier, Item, Reference, Suffix};

/// A name as a call: the identifier of what is called, and its items.
#[derive(Clone, Copy)]
pub struct Call<'a> {
    pub identifier: &'a Identifier,
    /// The items in its parenthesis. A call without a parenthesis has none.
    pub items: &'a [Item],
}

/// The call that a name is: an identifier, and one parenthesis behind it or none. Any other name is no call of what is predeclared.
pub fn call_of(name: &Reference) -> Option<Call<'_>>
    ensures { option_map lent result ≡ call_of name.now }
{
    let identifier = &name.identifier;
    match name.suffixes.as_slice() {
        [] => Some(Call {
            identifier,
            items: &[],
        }),
        [Suffix::Items(items)] => Some(Call {
            identifier,
            items: items.as_slice(),
        }),
        _ => None,
    }
}
