//! Logical operators and conversions of levels.

ghost use Rattle.std.specs.Prelude.{◌≡◌, unwrap_or};
ghost use Rattle.std.specs.List.{reduce};
ghost use Rattle.vital_logic.specs.declared.level.Level.TheVariants as level;
ghost use Rattle.vital_primitives.specs.Operators as spec;

use vital_logic::{Level, and2, not1, or2, to_ux01, to_x01, to_x01z, xor2};
use vital_names::Conversion;
use vital_nodes::Logical;

/// What `and`, `or` or `xor` gives for two levels. NAND, NOR and XNOR are the `not` of one of these, which this gives for them.
fn plain(operator: Logical, a: Level, b: Level) -> Level
    ensures { result ≡ spec.plain operator a b }
{
    match operator {
        Logical::And | Logical::Nand => and2(a, b),
        Logical::Or | Logical::Nor => or2(a, b),
        Logical::Xor | Logical::Xnor => xor2(a, b),
    }
}

/// A level, or its `not` where the operator is NAND, NOR or XNOR.
fn negated_for(operator: Logical, level: Level) -> Level
    ensures { result ≡ spec.negated_for operator level }
{
    match operator {
        Logical::And | Logical::Or | Logical::Xor => level,
        Logical::Nand | Logical::Nor | Logical::Xnor => not1(level),
    }
}

/// The first of some levels with each behind it by `and`, `or` or `xor`; U of none.
fn folded(operator: Logical, levels: &[Level]) -> Level
    ensures { result ≡ unwrap_or (reduce (spec.plain operator) levels.now) level.U }
{
    levels
        .iter()
        .copied()
        .reduce(|a, b| plain(operator, a, b))
        .unwrap_or(Level::U)
}

/// A gate of an operator: `and`, `or` or `xor` of all its inputs, or the `not` of that.
pub(crate) fn gate(operator: Logical, inputs: &[Level]) -> Level
    ensures { result ≡ spec.gate operator inputs.now }
{
    negated_for(operator, folded(operator, inputs))
}

/// An operator between two levels (IEEE 1164-1993).
fn operator2(operator: Logical, a: Level, b: Level) -> Level
    ensures { result ≡ spec.operator2 operator a b }
{
    negated_for(operator, plain(operator, a, b))
}

/// The first of some levels with each behind it by an operator, as an expression with one operator between its operands gives it
/// (IEEE 1076-1993, 7.2); U of none. It takes time in proportion to the levels, and no memory.
pub fn operated(operator: Logical, levels: &[Level]) -> Level
    ensures { result ≡ spec.operated operator levels.now }
{
    levels
        .iter()
        .copied()
        .reduce(|a, b| operator2(operator, a, b))
        .unwrap_or(Level::U)
}

/// A level without its strength (IEEE 1164-1993: To_X01, To_X01Z, To_UX01).
pub fn converted(conversion: Conversion, a: Level) -> Level
    ensures { result ≡ spec.converted conversion a }
{
    match conversion {
        Conversion::X01 => to_x01(a),
        Conversion::X01Z => to_x01z(a),
        Conversion::Ux01 => to_ux01(a),
    }
}
