//! Why something is refused or noted, each with the word that is printed for it.

ghost use Rattle.std.specs.Prelude.{◌≡◌};
ghost use Rattle.vital_report.specs.Lines.{usage_word, stimulus_word, lexical_word, limit_word, library_word, netlist_word, note_word, sdf_word};

/// Why the words of the command line are refused.
#[derive(Clone, Copy, PartialEq, Eq)]
pub enum UsageWhy {
    /// The first word is no command, or there is no word.
    Command,
    /// The word has no `=`, or its key is none of the command.
    Key,
    /// The key has come as often as it may.
    Twice,
    /// The value is not what the key takes.
    Value,
    /// A key that the command asks for has not come.
    Missing,
}

impl UsageWhy {
    /// The word that is printed for it.
    pub fn word(self) -> &'static [u8]
        ensures { result.now ≡ usage_word self }
    {
        match self {
            UsageWhy::Command => b"command",
            UsageWhy::Key => b"key",
            UsageWhy::Twice => b"twice",
            UsageWhy::Value => b"value",
            UsageWhy::Missing => b"missing",
        }
    }
}

/// Why a stimulus file is refused.
#[derive(Clone, Copy, PartialEq, Eq)]
pub enum StimulusWhy {
    /// A line is not one time, unit, port and value.
    Line,
    /// A unit is none of those of time.
    Unit,
    /// A time is past the greatest one.
    Large,
    /// A value is no level.
    Value,
    /// A time is below that of the line before.
    Falls,
    /// No given port has a name.
    UnknownPort,
    /// A given port is no input.
    NotInput,
}

impl StimulusWhy {
    /// The word that is printed for it.
    pub fn word(self) -> &'static [u8]
        ensures { result.now ≡ stimulus_word self }
    {
        match self {
            StimulusWhy::Line => b"line",
            StimulusWhy::Unit => b"unit",
            StimulusWhy::Large => b"large",
            StimulusWhy::Value => b"value",
            StimulusWhy::Falls => b"falls",
            StimulusWhy::UnknownPort => b"unknown-port",
            StimulusWhy::NotInput => b"not-input",
        }
    }
}

/// Why a VHDL or SDF text is no row of lexemes.
#[derive(Clone, Copy, PartialEq, Eq)]
pub enum LexicalWhy {
    /// No lexeme begins with the byte.
    Character,
    /// A string, an extended identifier or a comment begins that has no end.
    Unclosed,
}

impl LexicalWhy {
    /// The word that is printed for it.
    pub fn word(self) -> &'static [u8]
        ensures { result.now ≡ lexical_word self }
    {
        match self {
            LexicalWhy::Character => b"character",
            LexicalWhy::Unclosed => b"unclosed",
        }
    }
}

/// Which limit is passed, by files, by a cell or by a design.
#[derive(Clone, Copy, PartialEq, Eq)]
pub enum Limit {
    /// The length of a file.
    File,
    /// The count of the tokens of all files of a run.
    Tokens,
    /// The depth to which constructs nest.
    Nesting,
    /// The count of the units of a library.
    Units,
    /// The count of the ports of a cell.
    Ports,
    /// The count of the rows of a table.
    Rows,
    /// The count of the columns of a table.
    Columns,
    /// The count of the paths of a path delay call.
    Paths,
    /// The worth of a time literal in a cell, or of a delay with the values of SDF files.
    Delay,
    /// The count of the instances of a design.
    Instances,
    /// The count of the signals of a design.
    Nets,
    /// The count of the labels on the path of an instance.
    Depth,
}

impl Limit {
    /// The word that is printed for it.
    pub fn word(self) -> &'static [u8]
        ensures { result.now ≡ limit_word self }
    {
        match self {
            Limit::File => b"file",
            Limit::Tokens => b"tokens",
            Limit::Nesting => b"nesting",
            Limit::Units => b"units",
            Limit::Ports => b"ports",
            Limit::Rows => b"rows",
            Limit::Columns => b"columns",
            Limit::Paths => b"paths",
            Limit::Delay => b"delay",
            Limit::Instances => b"instances",
            Limit::Nets => b"nets",
            Limit::Depth => b"depth",
        }
    }
}

/// Why the units of a library do not go together.
#[derive(Clone, Copy, PartialEq, Eq)]
pub enum LibraryWhy {
    /// An entity, a package or a configuration has the name of an earlier one, or an entity has a second architecture of
    /// one name.
    Duplicate,
    /// No file has the entity that an architecture names.
    Entity,
}

impl LibraryWhy {
    /// The word that is printed for it.
    pub fn word(self) -> &'static [u8]
        ensures { result.now ≡ library_word self }
    {
        match self {
            LibraryWhy::Duplicate => b"duplicate",
            LibraryWhy::Entity => b"entity",
        }
    }
}

/// Why an entry of an SDF file changes nothing, or less than it says (IEEE 1497).
#[derive(Clone, Copy, PartialEq, Eq)]
pub enum NoteWhy {
    /// It is of a kind that is passed over.
    Passed,
    /// It is a timing check with a conditional port that does not end with a port.
    Port,
    /// There is no such instance of a cell.
    Instance,
    /// The instance has no such generic.
    Generic,
    /// A result was below 0, and is 0.
    Negative,
}

impl NoteWhy {
    /// The word that is printed for it.
    pub fn word(self) -> &'static [u8]
        ensures { result.now ≡ note_word self }
    {
        match self {
            NoteWhy::Passed => b"passed",
            NoteWhy::Port => b"port",
            NoteWhy::Instance => b"instance",
            NoteWhy::Generic => b"generic",
            NoteWhy::Negative => b"negative",
        }
    }
}

/// Why an SDF file is refused (IEEE 1497).
#[derive(Clone, Copy, PartialEq, Eq)]
pub enum SdfWhy {
    /// A timescale is none of 1, 10 and 100 of a unit.
    Timescale,
    /// A divider is neither a point nor a slash.
    Divider,
    /// An IOPATH, PORT or INTERCONNECT has no value, or more than 12.
    Values,
}

impl SdfWhy {
    /// The word that is printed for it.
    pub fn word(self) -> &'static [u8]
        ensures { result.now ≡ sdf_word self }
    {
        match self {
            SdfWhy::Timescale => b"timescale",
            SdfWhy::Divider => b"divider",
            SdfWhy::Values => b"values",
        }
    }
}

/// Why a library has no design under a top, but for what a cell breaks.
#[derive(Clone, Copy, PartialEq, Eq)]
pub enum NetlistWhy {
    /// No entity has the name of the top.
    NoTop,
    /// The unit of an instance is no entity, or has no architecture.
    UnknownUnit,
    /// The unit of an instance stands on its path.
    Loop,
    /// A formal is no port, alone or with one index or one slice in its range.
    UnknownPort,
    /// An actual is neither `open`, nor a level, nor a port or signal, alone or with one index or one slice in its range.
    UnknownSignal,
    /// A formal and its actual differ in length.
    WidthDiffers,
    /// One of a formal and its actual is a single bit, and the other a vector. Or a port or a signal has a type or a default that it
    /// may not have.
    TypeDiffers,
    /// A bit of a formal was associated before.
    TwiceAssociated,
    /// A port or a signal has the name of an earlier one.
    TwiceDeclared,
    /// A declaration or a statement is none of a netlist.
    NotStructural,
    /// A port of mode out, inout or buffer is associated with a level or with an in port.
    OutputToInputPort,
    /// A signal of an unresolved type has two drivers, where an inout port of the top counts as one.
    TwoDrivers,
    /// An instance has a generic map.
    GenericMap,
}

impl NetlistWhy {
    /// The word that is printed for it.
    pub fn word(self) -> &'static [u8]
        ensures { result.now ≡ netlist_word self }
    {
        match self {
            NetlistWhy::NoTop => b"no-top",
            NetlistWhy::UnknownUnit => b"unknown-unit",
            NetlistWhy::Loop => b"loop",
            NetlistWhy::UnknownPort => b"unknown-port",
            NetlistWhy::UnknownSignal => b"unknown-signal",
            NetlistWhy::WidthDiffers => b"width",
            NetlistWhy::TypeDiffers => b"type",
            NetlistWhy::TwiceAssociated => b"twice",
            NetlistWhy::TwiceDeclared => b"twice-declared",
            NetlistWhy::NotStructural => b"not-structural",
            NetlistWhy::OutputToInputPort => b"mode",
            NetlistWhy::TwoDrivers => b"two-drivers",
            NetlistWhy::GenericMap => b"generic-map",
        }
    }
}
