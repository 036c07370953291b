//! Identifiers in parentheses.

ghost use Rattle.std.specs.Prelude.{◌≡◌};
ghost use Rattle.std.specs.Option.{option_copied};
ghost use Rattle.vital_statements.specs.Parentheses as spec;

use vital_nodes::{
    Expr, Identifier, Item, folded_upwards, identifier_of, positional_value, walked_in_preorder,
};

/// What stands inside of parentheses, if that is one expression by position.
fn inside(expr: &Expr) -> Option<&Expr>
    ensures { option_copied result ≡ spec.inside expr.now }
{
    match expr {
        Expr::Parenthesized(_, items) => only_by_position(items.as_slice()),
        _ => None,
    }
}

/// The only item, if it is an expression by position.
fn only_by_position(items: &[Item]) -> Option<&Expr>
    ensures { option_copied result ≡ spec.only_by_position items.now }
{
    match items {
        [item] => positional_value(item),
        _ => None,
    }
}

/// The identifier that an expression is, in any number of parentheses or in none.
pub fn bare_identifier(expr: &Expr) -> Option<&Identifier>
    ensures { option_copied result ≡ spec.bare_identifier expr.now }
{
    walked_in_preorder();
    folded_upwards::<Option<Identifier>>();
    let mut inner = expr;
    while let Some(next) = inside(inner) {
        inner = next;
    }
    identifier_of(inner)
}
