//! The predeclared words.

ghost use Rattle.std.specs.Prelude.{◌≡◌, ℕ, List, map, IfOk};
ghost use Rattle.vital_names.specs.FirstNames.{first_in};
ghost use Rattle.vital_names.specs.Words.{meaning_among, predeclared};

use crate::first_names::put_first;
use crate::predeclared::{
    Check, Conversion, Function, Inputs, Predeclared, Primitive, Procedure, Severity, TypeName,
};
use std::alloc::{AllocError, Global};
use std::collections::HashMap;
use vital_nodes::Logical;
use vital_timing::{DelayType, GlitchMode, UnitOfTime};

/// The predeclared words in lower case, each with its meaning.
static WORDS: [(&[u8], Predeclared); 80] = [
    (b"true", Predeclared::Boolean(true)),
    (b"false", Predeclared::Boolean(false)),
    (b"onevent", Predeclared::GlitchMode(GlitchMode::OnEvent)),
    (b"ondetect", Predeclared::GlitchMode(GlitchMode::OnDetect)),
    (
        b"vitalinertial",
        Predeclared::GlitchMode(GlitchMode::Inertial),
    ),
    (
        b"vitaltransport",
        Predeclared::GlitchMode(GlitchMode::Transport),
    ),
    (b"note", Predeclared::Severity(Severity::Note)),
    (b"warning", Predeclared::Severity(Severity::Warning)),
    (b"error", Predeclared::Severity(Severity::Error)),
    (b"failure", Predeclared::Severity(Severity::Failure)),
    (b"fs", Predeclared::UnitOfTime(UnitOfTime::Femtosecond)),
    (b"ps", Predeclared::UnitOfTime(UnitOfTime::Picosecond)),
    (b"ns", Predeclared::UnitOfTime(UnitOfTime::Nanosecond)),
    (b"us", Predeclared::UnitOfTime(UnitOfTime::Microsecond)),
    (b"ms", Predeclared::UnitOfTime(UnitOfTime::Millisecond)),
    (b"sec", Predeclared::UnitOfTime(UnitOfTime::Second)),
    (b"min", Predeclared::UnitOfTime(UnitOfTime::Minute)),
    (b"hr", Predeclared::UnitOfTime(UnitOfTime::Hour)),
    (b"std_ulogic", Predeclared::TypeName(TypeName::StdUlogic)),
    (b"std_logic", Predeclared::TypeName(TypeName::StdLogic)),
    (
        b"std_logic_vector",
        Predeclared::TypeName(TypeName::StdLogicVector),
    ),
    (b"x01", Predeclared::TypeName(TypeName::X01)),
    (b"x01z", Predeclared::TypeName(TypeName::X01Z)),
    (b"ux01", Predeclared::TypeName(TypeName::Ux01)),
    (b"ux01z", Predeclared::TypeName(TypeName::Ux01Z)),
    (b"boolean", Predeclared::TypeName(TypeName::Boolean)),
    (b"string", Predeclared::TypeName(TypeName::Text)),
    (b"time", Predeclared::TypeName(TypeName::Time)),
    (
        b"vitaldelaytype",
        Predeclared::TypeName(TypeName::Delay(DelayType::One)),
    ),
    (
        b"vitaldelaytype01",
        Predeclared::TypeName(TypeName::Delay(DelayType::Two)),
    ),
    (
        b"vitaldelaytype01z",
        Predeclared::TypeName(TypeName::Delay(DelayType::Six)),
    ),
    (
        b"vitaltablesymboltype",
        Predeclared::TypeName(TypeName::TableSymbol),
    ),
    (
        b"vitaltruthtabletype",
        Predeclared::TypeName(TypeName::TruthTable),
    ),
    (
        b"vitalstatetabletype",
        Predeclared::TypeName(TypeName::StateTable),
    ),
    (
        b"vitalglitchdatatype",
        Predeclared::TypeName(TypeName::GlitchData),
    ),
    (
        b"vitaltimingdatatype",
        Predeclared::TypeName(TypeName::TimingData),
    ),
    (
        b"vitalperioddatatype",
        Predeclared::TypeName(TypeName::PeriodData),
    ),
    (b"vitalzerodelay", Predeclared::ZeroDelay(DelayType::One)),
    (b"vitalzerodelay01", Predeclared::ZeroDelay(DelayType::Two)),
    (b"vitalzerodelay01z", Predeclared::ZeroDelay(DelayType::Six)),
    (b"vitaltimingdatainit", Predeclared::TimingDataInit),
    (b"vitalperioddatainit", Predeclared::PeriodDataInit),
    (
        b"vitaland2",
        Predeclared::Function(Function::Primitive(Primitive::Gate(Logical::And, Inputs::Two))),
    ),
    (
        b"vitaland3",
        Predeclared::Function(Function::Primitive(Primitive::Gate(Logical::And, Inputs::Three))),
    ),
    (
        b"vitaland4",
        Predeclared::Function(Function::Primitive(Primitive::Gate(Logical::And, Inputs::Four))),
    ),
    (
        b"vitalor2",
        Predeclared::Function(Function::Primitive(Primitive::Gate(Logical::Or, Inputs::Two))),
    ),
    (
        b"vitalor3",
        Predeclared::Function(Function::Primitive(Primitive::Gate(Logical::Or, Inputs::Three))),
    ),
    (
        b"vitalor4",
        Predeclared::Function(Function::Primitive(Primitive::Gate(Logical::Or, Inputs::Four))),
    ),
    (
        b"vitalxor2",
        Predeclared::Function(Function::Primitive(Primitive::Gate(Logical::Xor, Inputs::Two))),
    ),
    (
        b"vitalxor3",
        Predeclared::Function(Function::Primitive(Primitive::Gate(Logical::Xor, Inputs::Three))),
    ),
    (
        b"vitalxor4",
        Predeclared::Function(Function::Primitive(Primitive::Gate(Logical::Xor, Inputs::Four))),
    ),
    (
        b"vitalnand2",
        Predeclared::Function(Function::Primitive(Primitive::Gate(Logical::Nand, Inputs::Two))),
    ),
    (
        b"vitalnand3",
        Predeclared::Function(Function::Primitive(Primitive::Gate(Logical::Nand, Inputs::Three))),
    ),
    (
        b"vitalnand4",
        Predeclared::Function(Function::Primitive(Primitive::Gate(Logical::Nand, Inputs::Four))),
    ),
    (
        b"vitalnor2",
        Predeclared::Function(Function::Primitive(Primitive::Gate(Logical::Nor, Inputs::Two))),
    ),
    (
        b"vitalnor3",
        Predeclared::Function(Function::Primitive(Primitive::Gate(Logical::Nor, Inputs::Three))),
    ),
    (
        b"vitalnor4",
        Predeclared::Function(Function::Primitive(Primitive::Gate(Logical::Nor, Inputs::Four))),
    ),
    (
        b"vitalxnor2",
        Predeclared::Function(Function::Primitive(Primitive::Gate(Logical::Xnor, Inputs::Two))),
    ),
    (
        b"vitalxnor3",
        Predeclared::Function(Function::Primitive(Primitive::Gate(Logical::Xnor, Inputs::Three))),
    ),
    (
        b"vitalxnor4",
        Predeclared::Function(Function::Primitive(Primitive::Gate(Logical::Xnor, Inputs::Four))),
    ),
    (
        b"vitalbuf",
        Predeclared::Function(Function::Primitive(Primitive::Buf)),
    ),
    (
        b"vitalinv",
        Predeclared::Function(Function::Primitive(Primitive::Inv)),
    ),
    (
        b"vitalident",
        Predeclared::Function(Function::Primitive(Primitive::Ident)),
    ),
    (
        b"vitalbufif0",
        Predeclared::Function(Function::Primitive(Primitive::Bufif0)),
    ),
    (
        b"vitalbufif1",
        Predeclared::Function(Function::Primitive(Primitive::Bufif1)),
    ),
    (
        b"vitalinvif0",
        Predeclared::Function(Function::Primitive(Primitive::Invif0)),
    ),
    (
        b"vitalinvif1",
        Predeclared::Function(Function::Primitive(Primitive::Invif1)),
    ),
    (
        b"vitalmux2",
        Predeclared::Function(Function::Primitive(Primitive::Mux2)),
    ),
    (
        b"to_x01",
        Predeclared::Function(Function::Conversion(Conversion::X01)),
    ),
    (
        b"to_x01z",
        Predeclared::Function(Function::Conversion(Conversion::X01Z)),
    ),
    (
        b"to_ux01",
        Predeclared::Function(Function::Conversion(Conversion::Ux01)),
    ),
    (
        b"vitaltruthtable",
        Predeclared::Function(Function::TruthTable),
    ),
    (
        b"vitalwiredelay",
        Predeclared::Procedure(Procedure::WireDelay),
    ),
    (
        b"vitalstatetable",
        Predeclared::Procedure(Procedure::StateTable),
    ),
    (
        b"vitalpathdelay",
        Predeclared::Procedure(Procedure::PathDelay(DelayType::One)),
    ),
    (
        b"vitalpathdelay01",
        Predeclared::Procedure(Procedure::PathDelay(DelayType::Two)),
    ),
    (
        b"vitalpathdelay01z",
        Predeclared::Procedure(Procedure::PathDelay(DelayType::Six)),
    ),
    (
        b"vitalsetupholdcheck",
        Predeclared::Procedure(Procedure::Check(Check::SetupHold)),
    ),
    (
        b"vitalrecoveryremovalcheck",
        Predeclared::Procedure(Procedure::Check(Check::RecoveryRemoval)),
    ),
    (
        b"vitalperiodpulsecheck",
        Predeclared::Procedure(Procedure::Check(Check::PeriodPulse)),
    ),
];

/// The meanings of words by the words. The first of a word is meant.
fn meanings_of<'a>(
    alloc: Global,
    words: &'a [(&'a [u8], Predeclared)],
) -> Result<HashMap<&'a [u8], Predeclared>, AllocError>
    ensures { IfOk result (λ meanings. (name : List ℕ) → first_in meanings name ≡ meaning_among name (map (λ word. (word.0.now, word.1)) words.now)) }
{
    let mut meanings: HashMap<&'a [u8], Predeclared> = HashMap::new(alloc);
    for word in words {
        put_first(&mut meanings, word.0, word.1)?;
    }
    Ok(meanings)
}

/// The meanings of the predeclared words by the words.
pub fn predeclared_meanings(
    alloc: Global,
) -> Result<HashMap<&'static [u8], Predeclared>, AllocError>
    ensures { IfOk result (λ meanings. (name : List ℕ) → first_in meanings name ≡ predeclared name) }
{
    meanings_of(alloc, &WORDS)
}
