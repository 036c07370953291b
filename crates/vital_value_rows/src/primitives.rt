//! Primitives, operators between several levels, and conversions.

use super::words::{Said, letter, levels, word};
use std::alloc::Global;
use vital_logic::Level;
use vital_names::{Conversion, Inputs, Primitive};
use vital_nodes::Logical;
use vital_primitives::{converted, operated, primitive};

/// What levels are given to.
#[derive(Clone, Copy)]
enum Function {
    Primitive(Primitive),
    Operator(Logical),
    Conversion(Conversion),
}

impl Function {
    fn of(self, levels: &[Level]) -> Level {
        match self {
            Function::Primitive(one) => primitive(one, levels),
            Function::Operator(operator) => operated(operator, levels),
            Function::Conversion(conversion) => {
                converted(conversion, levels.first().copied().unwrap_or(Level::U))
            }
        }
    }
}

/// The primitives by their names.
const PRIMITIVES: [(&str, Primitive); 26] = [
    ("VitalAND2", Primitive::Gate(Logical::And, Inputs::Two)),
    ("VitalAND3", Primitive::Gate(Logical::And, Inputs::Three)),
    ("VitalAND4", Primitive::Gate(Logical::And, Inputs::Four)),
    ("VitalOR2", Primitive::Gate(Logical::Or, Inputs::Two)),
    ("VitalOR3", Primitive::Gate(Logical::Or, Inputs::Three)),
    ("VitalOR4", Primitive::Gate(Logical::Or, Inputs::Four)),
    ("VitalXOR2", Primitive::Gate(Logical::Xor, Inputs::Two)),
    ("VitalXOR3", Primitive::Gate(Logical::Xor, Inputs::Three)),
    ("VitalXOR4", Primitive::Gate(Logical::Xor, Inputs::Four)),
    ("VitalNAND2", Primitive::Gate(Logical::Nand, Inputs::Two)),
    ("VitalNAND3", Primitive::Gate(Logical::Nand, Inputs::Three)),
    ("VitalNAND4", Primitive::Gate(Logical::Nand, Inputs::Four)),
    ("VitalNOR2", Primitive::Gate(Logical::Nor, Inputs::Two)),
    ("VitalNOR3", Primitive::Gate(Logical::Nor, Inputs::Three)),
    ("VitalNOR4", Primitive::Gate(Logical::Nor, Inputs::Four)),
    ("VitalXNOR2", Primitive::Gate(Logical::Xnor, Inputs::Two)),
    ("VitalXNOR3", Primitive::Gate(Logical::Xnor, Inputs::Three)),
    ("VitalXNOR4", Primitive::Gate(Logical::Xnor, Inputs::Four)),
    ("VitalBUF", Primitive::Buf),
    ("VitalINV", Primitive::Inv),
    ("VitalIDENT", Primitive::Ident),
    ("VitalBUFIF0", Primitive::Bufif0),
    ("VitalBUFIF1", Primitive::Bufif1),
    ("VitalINVIF0", Primitive::Invif0),
    ("VitalINVIF1", Primitive::Invif1),
    ("VitalMUX2", Primitive::Mux2),
];

fn primitive_named(name: &str) -> Option<Function> {
    let row = PRIMITIVES.iter().find(|row| row.0 == name)?;
    Some(Function::Primitive(row.1))
}

fn operator_named(name: &str) -> Option<Function> {
    match name {
        "and" => Some(Function::Operator(Logical::And)),
        "or" => Some(Function::Operator(Logical::Or)),
        "xor" => Some(Function::Operator(Logical::Xor)),
        "nand" => Some(Function::Operator(Logical::Nand)),
        "nor" => Some(Function::Operator(Logical::Nor)),
        "xnor" => Some(Function::Operator(Logical::Xnor)),
        _ => None,
    }
}

fn conversion_named(name: &str) -> Option<Function> {
    match name {
        "To_X01" => Some(Function::Conversion(Conversion::X01)),
        "To_X01Z" => Some(Function::Conversion(Conversion::X01Z)),
        "To_UX01" => Some(Function::Conversion(Conversion::Ux01)),
        _ => None,
    }
}

fn named(words: &[&str]) -> Option<Function> {
    let name = word(words, 1);
    match word(words, 0) {
        "primitive" => primitive_named(name),
        "operator" => operator_named(name),
        _ => conversion_named(name),
    }
}

/// For each list of levels a line with the one that is given for them.
pub fn say(alloc: Global, words: &[&str]) -> Said {
    let Some(function) = named(words) else {
        return Ok(None);
    };
    let mut text = String::new(alloc);
    for printed in words.iter().skip(2) {
        let levels = levels(alloc, printed)?;
        let level = letter(function.of(levels.as_slice()));
        write!(text, "{printed} {level}\n")?;
    }
    Ok(Some(text))
}
