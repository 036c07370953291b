//! The primitives of VITAL.

ghost use Rattle.std.specs.Prelude.{◌≡◌};
ghost use Rattle.std.specs.List.{slice_index_or};
ghost use Rattle.vital_logic.specs.declared.level.Level.TheVariants as level;
ghost use Rattle.vital_primitives.specs.Primitives as spec;

use crate::operator::gate;
use vital_logic::{Level, not1, to_byte, to_ux01, to_x01};
use vital_names::Primitive;

/// The input of a number, from 0; U where there is none.
fn input(inputs: &[Level], number: usize) -> Level
    ensures { result ≡ slice_index_or inputs.now number level.U }
{
    match inputs.get(number) {
        Some(level) => *level,
        None => Level::U,
    }
}

/// VitalIDENT: a level without its strength, Z as Z.
fn ident(a: Level) -> Level
    ensures { result ≡ spec.ident a }
{
    match a {
        Level::Z => Level::Z,
        _ => to_ux01(a),
    }
}

/// A value where an enable without its strength is 1, Z where that is 0, else the enable so.
fn enabled_by_one(enable: Level, value: Level) -> Level
    ensures { result ≡ spec.enabled_by_one enable value }
{
    match to_ux01(enable) {
        Level::One => value,
        Level::Zero => Level::Z,
        unknown => unknown,
    }
}

/// The same with 1 and 0 exchanged.
fn enabled_by_zero(enable: Level, value: Level) -> Level
    ensures { result ≡ spec.enabled_by_zero enable value }
{
    match to_ux01(enable) {
        Level::Zero => value,
        Level::One => Level::Z,
        unknown => unknown,
    }
}

/// The level that two are, else X.
fn common(a: Level, b: Level) -> Level
    ensures { result ≡ spec.common a b }
{
    if to_byte(a) == to_byte(b) {
        a
    } else {
        Level::X
    }
}

/// VitalMUX2: of two data the one that a select chooses, without its strength; what they have in common where it chooses none.
fn mux2(data1: Level, data0: Level, select: Level) -> Level
    ensures { result ≡ spec.mux2 data1 data0 select }
{
    match to_x01(select) {
        Level::One => to_ux01(data1),
        Level::Zero => to_ux01(data0),
        _ => common(to_ux01(data1), to_ux01(data0)),
    }
}

/// What a primitive gives for its inputs (IEEE 1076.4, package VITAL_Primitives), which are as many as it has; of fewer the others count
/// as U. It takes no memory.
pub fn primitive(primitive: Primitive, inputs: &[Level]) -> Level
    ensures { result ≡ spec.primitive primitive inputs.now }
{
    match primitive {
        Primitive::Gate(operator, _) => gate(operator, inputs),
        Primitive::Buf => to_ux01(input(inputs, 0)),
        Primitive::Inv => not1(input(inputs, 0)),
        Primitive::Ident => ident(input(inputs, 0)),
        Primitive::Bufif0 => enabled_by_zero(input(inputs, 1), to_ux01(input(inputs, 0))),
        Primitive::Bufif1 => enabled_by_one(input(inputs, 1), to_ux01(input(inputs, 0))),
        Primitive::Invif0 => enabled_by_zero(input(inputs, 1), not1(input(inputs, 0))),
        Primitive::Invif1 => enabled_by_one(input(inputs, 1), not1(input(inputs, 0))),
        Primitive::Mux2 => mux2(input(inputs, 0), input(inputs, 1), input(inputs, 2)),
    }
}
