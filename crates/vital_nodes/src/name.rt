//! What names are made of.

ghost use Rattle.std.specs.Prelude.{◌≡◌};
ghost use Rattle.std.specs.Option.{option_copied};
ghost use Rattle.vital_nodes.specs.Names as spec;

use crate::expr::{Expr, Reference, Suffix};
use crate::identifier::Identifier;

/// The last identifier of a name that begins with identifiers, behind which the suffixes stand.
fn last_from<'a>(first: &'a Identifier, suffixes: &'a [Suffix]) -> Option<&'a Identifier>
    ensures { option_copied result ≡ spec.last_from first.now suffixes.now }
{
    let mut last = first;
    let mut rest = suffixes;
    while let Some((suffix, others)) = rest.split_first() {
        match suffix {
            Suffix::Selected(next) => last = next,
            Suffix::Items(_) if others.is_empty() => return Some(last),
            _ => return None,
        }
        rest = others;
    }
    Some(last)
}

/// The last identifier of identifiers joined by dots, behind which at most one parenthesis stands: the identifier that says
/// which type the name is of. With `.all`, a tick or a further parenthesis it is no name of a type.
pub fn last_identifier(name: &Reference) -> Option<&Identifier>
    ensures { option_copied result ≡ spec.last_identifier name.now }
{
    last_from(&name.identifier, name.suffixes.as_slice())
}

/// The identifier of a name that is an identifier alone.
pub fn plain_identifier(name: &Reference) -> Option<&Identifier>
    ensures { option_copied result ≡ spec.plain_identifier name.now }
{
    if name.suffixes.as_slice().is_empty() {
        Some(&name.identifier)
    } else {
        None
    }
}

/// The identifier of an expression that is an identifier alone.
pub fn identifier_of(expr: &Expr) -> Option<&Identifier>
    ensures { option_copied result ≡ spec.identifier_of expr.now }
{
    match expr {
        Expr::Reference(name) => plain_identifier(name),
        _ => None,
    }
}
