//! The kinds of lexemes (IEEE 1497).

ghost use Rattle.std.specs.Prelude.{◌≡◌};
ghost use Rattle.vital_sdf_lexemes.specs.Kinds.{number};

/// What a lexeme is: one variant for each delimiter, each form of word and each keyword.
#[derive(Clone, Copy, PartialEq, Eq)]
pub enum Kind {
    /// `(`
    LeftParenthesis,
    /// `)`
    RightParenthesis,
    /// `:`
    Colon,
    /// A string, as `"AND2"`.
    Text,
    /// A word that has the form of a number, as `-0.25`.
    Number,
    /// Any other word.
    Word,
    /// `DELAYFILE`
    DelayFile,
    /// `SDFVERSION`
    SdfVersion,
    /// `DESIGN`
    Design,
    /// `DATE`
    Date,
    /// `VENDOR`
    Vendor,
    /// `PROGRAM`
    Program,
    /// `VERSION`
    Version,
    /// `DIVIDER`
    Divider,
    /// `VOLTAGE`
    Voltage,
    /// `PROCESS`
    Process,
    /// `TEMPERATURE`
    Temperature,
    /// `TIMESCALE`
    TimeScale,
    /// `CELL`
    Cell,
    /// `CELLTYPE`
    CellType,
    /// `INSTANCE`
    Instance,
    /// `TIMINGENV`
    TimingEnv,
    /// `LABEL`
    Label,
    /// `DELAY`
    Delay,
    /// `ABSOLUTE`
    Absolute,
    /// `INCREMENT`
    Increment,
    /// `PATHPULSE`
    PathPulse,
    /// `PATHPULSEPERCENT`
    PathPulsePercent,
    /// `IOPATH`
    IoPath,
    /// `PORT`
    Port,
    /// `INTERCONNECT`
    Interconnect,
    /// `DEVICE`
    Device,
    /// `NETDELAY`
    NetDelay,
    /// `COND`
    Cond,
    /// `CONDELSE`
    CondElse,
    /// `RETAIN`
    Retain,
    /// `POSEDGE`
    PosEdge,
    /// `NEGEDGE`
    NegEdge,
    /// `TIMINGCHECK`
    TimingCheck,
    /// `SETUP`
    Setup,
    /// `HOLD`
    Hold,
    /// `SETUPHOLD`
    SetupHold,
    /// `RECOVERY`
    Recovery,
    /// `REMOVAL`
    Removal,
    /// `RECREM`
    RecRem,
    /// `SKEW`
    Skew,
    /// `BIDIRECTSKEW`
    BidirectSkew,
    /// `WIDTH`
    Width,
    /// `PERIOD`
    Period,
    /// `NOCHANGE`
    NoChange,
}

impl Kind {
    /// The kind's number, below 50, by which tokens and grammars name it: its place in the list above, from 0. A
    /// constant has it by `Kind::Port as u16`, and a clause by the definition `number`.
    pub fn number(self) -> u16
        ensures { result ≡ number self }
    {
        self as u16
    }
}
