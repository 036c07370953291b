//! Lines that tell what an expression, an item or a name is.

use super::describe::{put_direction, put_kind, put_text};
use super::words::{Lines, put_bytes};
use std::alloc::AllocError;
use vital_nodes::{
    Actual, Adding, Choice, Expr, HasPlace, Item, Logical, Multiplying, Reference, Relational,
    Sign, Suffix, Sum,
};

fn name_of_logical(operator: Logical) -> &'static str {
    match operator {
        Logical::And => "and",
        Logical::Or => "or",
        Logical::Xor => "xor",
        Logical::Xnor => "xnor",
        Logical::Nand => "nand",
        Logical::Nor => "nor",
    }
}

fn name_of_relational(operator: Relational) -> &'static str {
    match operator {
        Relational::Equal => "equal",
        Relational::NotEqual => "not-equal",
        Relational::Less => "less",
        Relational::LessOrEqual => "less-or-equal",
        Relational::Greater => "greater",
        Relational::GreaterOrEqual => "greater-or-equal",
    }
}

fn describe_sum(out: Lines<'_>, sum: &Sum) -> Result<(), AllocError> {
    put_kind(out, "sum", sum.place)?;
    out.push_str(match sum.sign {
        Some(Sign::Plus) => " plus",
        Some(Sign::Minus) => " minus",
        None => " unsigned",
    })?;
    for (operator, _) in sum.others.as_slice() {
        out.push_str(match operator {
            Adding::Add => " add",
            Adding::Subtract => " subtract",
            Adding::Concatenate => " concatenate",
        })?;
    }
    Ok(())
}

pub fn describe_expression(out: Lines<'_>, expression: &Expr) -> Result<(), AllocError> {
    match expression {
        Expr::Logical(place, operator, operands) => {
            put_kind(out, name_of_logical(*operator), *place)?;
            let count = operands.len();
            write!(out, " {count}")
        }
        Expr::Relation(relation) => {
            let relation = relation.get();
            put_kind(out, name_of_relational(relation.operator), relation.place)
        }
        Expr::Sum(sum) => describe_sum(out, sum.get()),
        Expr::Product(product) => {
            let product = product.get();
            put_kind(out, "product", product.place)?;
            for (operator, _) in product.others.as_slice() {
                out.push_str(match operator {
                    Multiplying::Multiply => " multiply",
                    Multiplying::Divide => " divide",
                })?;
            }
            Ok(())
        }
        Expr::Reference(name) => put_kind(out, "reference", name.identifier.place),
        Expr::Parenthesized(place, items) => {
            put_kind(out, "parentheses", *place)?;
            let count = items.len();
            write!(out, " {count}")
        }
        literal => describe_literal(out, literal),
    }
}

/// A literal, or `not`.
fn describe_literal(out: Lines<'_>, expression: &Expr) -> Result<(), AllocError> {
    match expression {
        Expr::Not(place, _) => put_kind(out, "not", *place),
        Expr::Number(place, number) => put_text(out, "number", *place, number.as_slice()),
        Expr::Physical(physical) => {
            let physical = physical.get();
            put_text(out, "physical", physical.place, physical.number.as_slice())?;
            out.push(' ')?;
            put_bytes(out, physical.unit.name.as_slice())
        }
        Expr::Character(place, byte) => put_text(out, "character", *place, &[*byte]),
        Expr::StringLiteral(place, text) => put_text(out, "string", *place, text.as_slice()),
        _ => Ok(()),
    }
}

/// The identifier of a name and its suffixes.
fn put_name(out: Lines<'_>, name: &Reference) -> Result<(), AllocError> {
    put_bytes(out, name.identifier.name.as_slice())?;
    for suffix in name.suffixes.as_slice() {
        put_suffix(out, suffix)?;
    }
    Ok(())
}

fn put_suffix(out: Lines<'_>, suffix: &Suffix) -> Result<(), AllocError> {
    match suffix {
        Suffix::Selected(identifier) => {
            out.push_str(" .")?;
            put_bytes(out, identifier.name.as_slice())
        }
        Suffix::All(_) => out.push_str(" .all"),
        Suffix::Attribute(identifier) => {
            out.push_str(" '")?;
            put_bytes(out, identifier.name.as_slice())
        }
        Suffix::Qualified(items) => {
            let count = items.len();
            write!(out, " '({count}")
        }
        Suffix::Items(items) => {
            let count = items.len();
            write!(out, " ({count}")
        }
    }
}

pub fn describe_name(out: Lines<'_>, name: &Reference) -> Result<(), AllocError> {
    put_kind(out, "name", name.identifier.place)?;
    out.push(' ')?;
    put_name(out, name)
}

/// A formal or a choice: a name as it is, a number, or the direction of a range.
fn put_formal(out: Lines<'_>, formal: &Choice) -> Result<(), AllocError> {
    match formal {
        Choice::Value(Expr::Reference(name)) => {
            out.push(' ')?;
            put_name(out, name)
        }
        Choice::Value(Expr::Number(_, _)) => out.push_str(" number"),
        Choice::Value(_) => out.push_str(" other"),
        Choice::Range(range) => put_direction(out, range.get().direction),
    }
}

pub fn describe_item(out: Lines<'_>, item: &Item) -> Result<(), AllocError> {
    let place = item.place();
    match item {
        Item::Others(_, _) => put_kind(out, "others", place),
        Item::Open(_) => put_kind(out, "open", place),
        Item::Positional(Choice::Value(_)) => put_kind(out, "value", place),
        Item::Positional(Choice::Range(range)) => {
            put_kind(out, "range", place)?;
            put_direction(out, range.get().direction)
        }
        Item::Named(association) => {
            let association = association.get();
            put_kind(out, "named", place)?;
            put_formal(out, &association.formal)?;
            out.push_str(match &association.actual {
                Actual::Value(_) => " value",
                Actual::Open(_) => " open",
            })
        }
    }
}
