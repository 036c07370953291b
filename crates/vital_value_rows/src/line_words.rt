//! The words for why something is refused.

use vital_report::{
    LexicalWhy, LibraryWhy, Limit, NetlistWhy, NoteWhy, SdfWhy, StimulusWhy, UsageWhy,
};

pub const USAGE: [(&str, UsageWhy); 5] = [
    ("Command", UsageWhy::Command),
    ("Key", UsageWhy::Key),
    ("Twice", UsageWhy::Twice),
    ("Value", UsageWhy::Value),
    ("Missing", UsageWhy::Missing),
];

pub const STIMULUS: [(&str, StimulusWhy); 7] = [
    ("Line", StimulusWhy::Line),
    ("Unit", StimulusWhy::Unit),
    ("Large", StimulusWhy::Large),
    ("Value", StimulusWhy::Value),
    ("Falls", StimulusWhy::Falls),
    ("UnknownPort", StimulusWhy::UnknownPort),
    ("NotInput", StimulusWhy::NotInput),
];

pub const LEXICAL: [(&str, LexicalWhy); 2] = [
    ("Character", LexicalWhy::Character),
    ("Unclosed", LexicalWhy::Unclosed),
];

pub const LIMITS: [(&str, Limit); 12] = [
    ("File", Limit::File),
    ("Tokens", Limit::Tokens),
    ("Nesting", Limit::Nesting),
    ("Units", Limit::Units),
    ("Ports", Limit::Ports),
    ("Rows", Limit::Rows),
    ("Columns", Limit::Columns),
    ("Paths", Limit::Paths),
    ("Delay", Limit::Delay),
    ("Instances", Limit::Instances),
    ("Nets", Limit::Nets),
    ("Depth", Limit::Depth),
];

pub const LIBRARY: [(&str, LibraryWhy); 2] = [
    ("Duplicate", LibraryWhy::Duplicate),
    ("Entity", LibraryWhy::Entity),
];

pub const NETLIST: [(&str, NetlistWhy); 13] = [
    ("NoTop", NetlistWhy::NoTop),
    ("UnknownUnit", NetlistWhy::UnknownUnit),
    ("Loop", NetlistWhy::Loop),
    ("UnknownPort", NetlistWhy::UnknownPort),
    ("UnknownSignal", NetlistWhy::UnknownSignal),
    ("WidthDiffers", NetlistWhy::WidthDiffers),
    ("TypeDiffers", NetlistWhy::TypeDiffers),
    ("TwiceAssociated", NetlistWhy::TwiceAssociated),
    ("TwiceDeclared", NetlistWhy::TwiceDeclared),
    ("NotStructural", NetlistWhy::NotStructural),
    ("OutputToInputPort", NetlistWhy::OutputToInputPort),
    ("TwoDrivers", NetlistWhy::TwoDrivers),
    ("GenericMap", NetlistWhy::GenericMap),
];

pub const NOTES: [(&str, NoteWhy); 5] = [
    ("Passed", NoteWhy::Passed),
    ("Port", NoteWhy::Port),
    ("Instance", NoteWhy::Instance),
    ("Generic", NoteWhy::Generic),
    ("Negative", NoteWhy::Negative),
];

pub const SDF: [(&str, SdfWhy); 3] = [
    ("Timescale", SdfWhy::Timescale),
    ("Divider", SdfWhy::Divider),
    ("Values", SdfWhy::Values),
];

/// What a word stands for.
pub fn named<T: Copy>(rows: &[(&str, T)], name: &str) -> Option<T> {
    let row = rows.iter().find(|row| row.0 == name)?;
    Some(row.1)
}
