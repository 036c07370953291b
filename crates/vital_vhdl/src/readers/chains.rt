//! Sums and products.

ghost use Rattle.std.specs.Prelude.{◌≡◌, IfOk};
ghost use Rattle.vital_shapes.specs.Expressions as spec;

use sqlite_items::{Boxed, Items};
use std::alloc::{AllocError, Global};
use vital_base::Place;
use vital_nodes::{Adding, Expr, Multiplying, Product, Sign, Sum};

/// A product, or its first factor if it has no other.
#[tactic(auto, unfolding(vital_shapes::specs::Expressions::product_of))]
pub(crate) fn product_of(
    alloc: Global,
    place: Place,
    first: Expr,
    others: Items<(Multiplying, Expr)>,
) -> Result<Expr, AllocError>
    ensures { IfOk result (λ e. e ≡ spec.product_of place first others) }
{
    if others.is_empty() {
        return Ok(first);
    }
    let product = Product {
        place,
        first,
        others,
    };
    Ok(Expr::Product(Boxed::new(alloc, product)?))
}

/// A sum, or its first term if it has no sign and no other term.
#[tactic(auto, unfolding(vital_shapes::specs::Expressions::sum_of))]
pub(crate) fn sum_of(
    alloc: Global,
    place: Place,
    sign: Option<Sign>,
    first: Expr,
    others: Items<(Adding, Expr)>,
) -> Result<Expr, AllocError>
    ensures { IfOk result (λ e. e ≡ spec.sum_of place sign first others) }
{
    if sign.is_none() && others.is_empty() {
        return Ok(first);
    }
    let sum = Sum {
        place,
        sign,
        first,
        others,
    };
    Ok(Expr::Sum(Boxed::new(alloc, sum)?))
}
