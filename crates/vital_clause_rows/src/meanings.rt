//! What words are predeclared as.

use std::alloc::{AllocError, Global};
use vital_library::Library;
use vital_names::{
    Check, Conversion, Function, LibraryNames, Predeclared, Procedure, Severity, TypeName,
};

fn severity_word(severity: Severity) -> &'static str {
    match severity {
        Severity::Note => "note",
        Severity::Warning => "warning",
        Severity::Error => "error",
        Severity::Failure => "failure",
    }
}

fn put_type(text: &mut String, type_name: TypeName) -> Result<(), AllocError> {
    let word = match type_name {
        TypeName::StdUlogic => "StdUlogic",
        TypeName::StdLogic => "StdLogic",
        TypeName::StdLogicVector => "StdLogicVector",
        TypeName::X01 => "X01",
        TypeName::X01Z => "X01Z",
        TypeName::Ux01 => "Ux01",
        TypeName::Ux01Z => "Ux01Z",
        TypeName::Boolean => "Boolean",
        TypeName::Text => "Text",
        TypeName::Time => "Time",
        TypeName::Delay(delay_type) => return write!(text, "type Delay {delay_type:?}"),
        TypeName::TableSymbol => "TableSymbol",
        TypeName::TruthTable => "TruthTable",
        TypeName::StateTable => "StateTable",
        TypeName::GlitchData => "GlitchData",
        TypeName::TimingData => "TimingData",
        TypeName::PeriodData => "PeriodData",
    };
    write!(text, "type {word}")
}

fn put_function(text: &mut String, function: Function) -> Result<(), AllocError> {
    match function {
        Function::Primitive(primitive) => write!(text, "primitive {primitive:?}"),
        Function::Conversion(Conversion::X01) => text.push_str("conversion X01"),
        Function::Conversion(Conversion::X01Z) => text.push_str("conversion X01Z"),
        Function::Conversion(Conversion::Ux01) => text.push_str("conversion Ux01"),
        Function::TruthTable => text.push_str("function TruthTable"),
    }
}

fn put_procedure(text: &mut String, procedure: Procedure) -> Result<(), AllocError> {
    match procedure {
        Procedure::WireDelay => text.push_str("procedure WireDelay"),
        Procedure::StateTable => text.push_str("procedure StateTable"),
        Procedure::PathDelay(delay_type) => write!(text, "procedure PathDelay {delay_type:?}"),
        Procedure::Check(Check::SetupHold) => text.push_str("check SetupHold"),
        Procedure::Check(Check::RecoveryRemoval) => text.push_str("check RecoveryRemoval"),
        Procedure::Check(Check::PeriodPulse) => text.push_str("check PeriodPulse"),
    }
}

fn put_predeclared(text: &mut String, meaning: Predeclared) -> Result<(), AllocError> {
    match meaning {
        Predeclared::Boolean(truth) => write!(text, "boolean {truth}"),
        Predeclared::GlitchMode(mode) => write!(text, "glitch mode {mode:?}"),
        Predeclared::Severity(severity) => write!(text, "severity {}", severity_word(severity)),
        Predeclared::UnitOfTime(unit) => write!(text, "unit {unit:?}"),
        Predeclared::TypeName(type_name) => put_type(text, type_name),
        Predeclared::ZeroDelay(delay_type) => write!(text, "zero delay {delay_type:?}"),
        Predeclared::TimingDataInit => text.push_str("timing data init"),
        Predeclared::PeriodDataInit => text.push_str("period data init"),
        Predeclared::Function(function) => put_function(text, function),
        Predeclared::Procedure(procedure) => put_procedure(text, procedure),
    }
}

/// Puts what a word is predeclared as in a library.
pub fn put_meaning(
    alloc: Global,
    text: &mut String,
    library: &Library,
    words: &[String],
) -> Result<(), AllocError> {
    let [word] = words else {
        return text.push_str("no word\n");
    };
    let names = LibraryNames::new(alloc, library)?;
    match names.predeclared(word.as_bytes()) {
        Some(meaning) => put_predeclared(text, meaning)?,
        None => text.push_str("nothing")?,
    }
    text.push_str("\n")
}
