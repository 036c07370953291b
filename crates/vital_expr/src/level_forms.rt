//! What levels are made of: literals, elements, and operators and functions on levels.

ghost use Rattle.std.specs.Prelude.{◌≡◌, IfOk};
ghost use Rattle.std.specs.Option.{option_map};
ghost use Rattle.vital_expr.specs.Names as names;
ghost use Rattle.vital_expr.specs.Seen.{lent};
ghost use Rattle.vital_operands.specs.declared.tree.LevelExpr.TheVariants as level;
ghost use Rattle.vital_operands.specs.Items as forms;

use crate::reader::Reader;
use sqlite_items::{Boxed, Items};
use std::alloc::{AllocError, Global};
use vital_declarations::literal_index;
use vital_names::{Conversion, Primitive};
use vital_nodes::{Item, Logical, Reference};
use vital_operands::{LevelExpr, are_positional, printed_level};

/// The level of a character literal.
pub(crate) fn literal(byte: u8) -> Option<LevelExpr>
    ensures { result ≡ option_map (λ l. level.Literal l) (forms.printed_level byte) }
{
    match printed_level(byte) {
        Some(level) => Some(LevelExpr::Literal(level)),
        None => None,
    }
}

/// Operands with a logical operator between them.
pub(crate) fn logical(operator: Logical, operands: Option<Items<LevelExpr>>) -> Option<LevelExpr>
    ensures { result ≡ option_map (λ ts. level.Logical operator ts) operands }
{
    match operands {
        Some(operands) => Some(LevelExpr::Logical(operator, operands)),
        None => None,
    }
}

/// The opposite of a level.
pub(crate) fn opposite(
    alloc: Global,
    operand: Option<LevelExpr>,
) -> Result<Option<LevelExpr>, AllocError>
    ensures { IfOk result (λ tree. tree ≡ option_map (λ t. level.Not t) operand) }
{
    match operand {
        Some(operand) => Ok(Some(LevelExpr::Not(Boxed::new(alloc, operand)?))),
        None => Ok(None),
    }
}

/// A call of a primitive.
pub(crate) fn primitive_of(
    primitive: Primitive,
    inputs: Option<Items<LevelExpr>>,
) -> Option<LevelExpr>
    ensures { result ≡ option_map (λ ts. level.Primitive primitive ts) inputs }
{
    match inputs {
        Some(inputs) => Some(LevelExpr::Primitive(primitive, inputs)),
        None => None,
    }
}

/// A call of a conversion.
pub(crate) fn conversion_of(
    alloc: Global,
    conversion: Conversion,
    input: Option<LevelExpr>,
) -> Result<Option<LevelExpr>, AllocError>
    ensures { IfOk result (λ tree. tree ≡ option_map (λ t. level.Conversion conversion t) input) }
{
    match input {
        Some(input) => Ok(Some(LevelExpr::Conversion(conversion, Boxed::new(alloc, input)?))),
        None => Ok(None),
    }
}

/// Whether items are so many values by position.
pub(crate) fn are_values(count: usize, items: &[Item]) -> bool
    ensures { result ≡ forms.are_values count items.now }
{
    items.len() == count && are_positional(items)
}

/// The element of a vector variable at a literal index.
pub(crate) fn element_of(
    reader: &Reader<'_>,
    name: &Reference,
) -> Result<Option<LevelExpr>, AllocError>
    ensures { IfOk result (λ tree. tree ≡ names.element_of (lent reader.now).position name.now) }
{
    match literal_index(name.suffixes.as_slice()) {
        Some(index) => reader
            .position
            .element_named(reader.alloc, &name.identifier, index),
        None => Ok(None),
    }
}
