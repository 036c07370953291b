//! Expressions that give texts.

ghost use Rattle.std.specs.Prelude.{◌≡◌, ◌++◌, IfOk, OnOk};
ghost use Rattle.vital_expr.specs.Reading.{texts_of};
ghost use Rattle.vital_expr.specs.Readings.{breach, text_of};
ghost use Rattle.vital_expr.specs.Seen.{lent};
ghost use Rattle.vital_expr.specs.Steps as steps;
ghost use Rattle.vital_expr.specs.Texts as spec;

use crate::reader::Reader;
use crate::trees::Trees;
use sqlite_items::Items;
use std::alloc::AllocError;
use vital_base::Place;
use vital_nodes::{Adding, Choice, Expr, Item, Reference, Sum};

/// Whether an operator is `&`.
fn is_concatenate(operator: Adding) -> bool
    ensures { result ≡ spec.is_concatenate operator }
{
    operator == Adding::Concatenate
}

/// Whether `&` alone stands before terms.
fn are_joint(terms: &[(Adding, Expr)]) -> bool
    ensures { result ≡ spec.are_joint terms.now }
{
    terms.iter().all(|term| is_concatenate(term.0))
}

/// Whether a sum joins its terms: it has no sign, and `&` alone between them.
fn is_joint(sum: &Sum) -> bool
    ensures { result ≡ spec.is_joint sum.now }
{
    sum.sign.is_none() && are_joint(sum.others.as_slice())
}

/// An expression of which a text is asked. A text has no effect, so that it is nothing where it is of its form.
#[cycle(texts)]
#[tactic(auto, using(crate::proofs::Laws::text_law))]
pub fn text(
    reader: &Reader<'_>,
    expr: &Expr,
    broken: &mut Vec<Place>,
) -> Result<Option<()>, AllocError>
    ensures tree { IfOk result (λ tree. tree ≡ (text_of (lent reader.now) expr.now).tree) }
    ensures places { OnOk result (broken.new.items ≡ broken.old.items ++ (text_of (lent reader.now) expr.now).places) }
{
    text_by_form(reader, expr, broken)
}

/// The same, by the form of the expression.
#[cycle(texts)]
fn text_by_form(
    reader: &Reader<'_>,
    expr: &Expr,
    broken: &mut Vec<Place>,
) -> Result<Option<()>, AllocError>
    ensures tree { IfOk result (λ tree. tree ≡ (steps.text_by_form (lent reader.now) expr.now).tree) }
    ensures places { OnOk result (broken.new.items ≡ broken.old.items ++ (steps.text_by_form (lent reader.now) expr.now).places) }
{
    match expr {
        Expr::StringLiteral(_, _) => Ok(Some(())),
        Expr::Sum(sum) => text_of_sum(reader, sum.get(), expr, broken),
        Expr::Reference(name) => text_of_name(reader, name, expr, broken),
        Expr::Parenthesized(_, items) => text_of_items(reader, items.as_slice(), expr, broken),
        _ => reader.broken(expr, broken),
    }
}

/// A sum of which a text is asked.
#[cycle(texts)]
fn text_of_sum(
    reader: &Reader<'_>,
    sum: &Sum,
    expr: &Expr,
    broken: &mut Vec<Place>,
) -> Result<Option<()>, AllocError>
    ensures tree { IfOk result (λ tree. tree ≡ (spec.text_in_sum (breach (lent reader.now) expr.now) sum.now (steps.sum_readings (lent reader.now) sum.now)).tree) }
    ensures places { OnOk result (broken.new.items ≡ broken.old.items ++ (spec.text_in_sum (breach (lent reader.now) expr.now) sum.now (steps.sum_readings (lent reader.now) sum.now)).places) }
{
    if is_joint(sum) {
        joined(reader, sum, broken)
    } else {
        reader.broken(expr, broken)
    }
}

/// The terms of a sum, of which texts are asked.
#[cycle(texts)]
fn joined(reader: &Reader<'_>, sum: &Sum, broken: &mut Vec<Place>) -> Result<Option<()>, AllocError>
    ensures tree { IfOk result (λ tree. tree ≡ (spec.joined (steps.sum_readings (lent reader.now) sum.now)).tree) }
    ensures places { OnOk result (broken.new.items ≡ broken.old.items ++ (spec.joined (steps.sum_readings (lent reader.now) sum.now)).places) }
{
    let first = text(reader, &sum.first, broken)?;
    let others = texts(reader, sum.others.as_slice(), broken)?;
    match (first, others) {
        (Some(_), Some(_)) => Ok(Some(())),
        _ => Ok(None),
    }
}

/// Terms behind `&`, of which texts are asked.
#[cycle(texts)]
fn texts(
    reader: &Reader<'_>,
    terms: &[(Adding, Expr)],
    broken: &mut Vec<Place>,
) -> Result<Option<Items<()>>, AllocError>
    ensures tree { IfOk result (λ trees. trees ≡ (texts_of (steps.readings_behind (lent reader.now) terms.now)).tree) }
    ensures places { OnOk result (broken.new.items ≡ broken.old.items ++ (texts_of (steps.readings_behind (lent reader.now) terms.now)).places) }
{
    let mut texts = Trees::new(reader.alloc);
    for (_, term) in terms {
        let text = text(reader, term, broken)?;
        texts.put(text)?;
    }
    Ok(texts.into_items())
}

/// A name of which a text is asked.
fn text_of_name(
    reader: &Reader<'_>,
    name: &Reference,
    expr: &Expr,
    broken: &mut Vec<Place>,
) -> Result<Option<()>, AllocError>
    ensures tree { IfOk result (λ tree. tree ≡ (steps.name_reading (breach (lent reader.now) expr.now) (lent reader.now) name.now).text.tree) }
    ensures places { OnOk result (broken.new.items ≡ broken.old.items ++ (steps.name_reading (breach (lent reader.now) expr.now) (lent reader.now) name.now).text.places) }
{
    if name.suffixes.as_slice().is_empty() && reader.position.is_text_named(&name.identifier) {
        Ok(Some(()))
    } else {
        reader.broken(expr, broken)
    }
}

/// Items in parentheses, of which a text is asked.
#[cycle(texts)]
fn text_of_items(
    reader: &Reader<'_>,
    items: &[Item],
    expr: &Expr,
    broken: &mut Vec<Place>,
) -> Result<Option<()>, AllocError>
    ensures tree { IfOk result (λ tree. tree ≡ (spec.text_in_items (breach (lent reader.now) expr.now) items.now (steps.item_readings (lent reader.now) items.now)).tree) }
    ensures places { OnOk result (broken.new.items ≡ broken.old.items ++ (spec.text_in_items (breach (lent reader.now) expr.now) items.now (steps.item_readings (lent reader.now) items.now)).places) }
{
    match items {
        [item] => text_of_item(reader, item, expr, broken),
        _ => reader.broken(expr, broken),
    }
}

/// The only item in parentheses, of which a text is asked.
#[cycle(texts)]
fn text_of_item(
    reader: &Reader<'_>,
    item: &Item,
    expr: &Expr,
    broken: &mut Vec<Place>,
) -> Result<Option<()>, AllocError>
    ensures tree { IfOk result (λ tree. tree ≡ (spec.text_in_item (breach (lent reader.now) expr.now) item.now (steps.item_reading (lent reader.now) item.now)).tree) }
    ensures places { OnOk result (broken.new.items ≡ broken.old.items ++ (spec.text_in_item (breach (lent reader.now) expr.now) item.now (steps.item_reading (lent reader.now) item.now)).places) }
{
    match item {
        Item::Positional(Choice::Value(value)) => text(reader, value, broken),
        _ => reader.broken(expr, broken),
    }
}
