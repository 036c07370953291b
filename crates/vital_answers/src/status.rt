ghost use Rattle.std.specs.Prelude.{◌≡◌};
ghost use Rattle.vital_answers.specs.Outcome.{is_failure};
ghost use Rattle.vital_answers.specs.Status.{number_of};

/// How a run ended. Its number is the program's exit status.
#[derive(Clone, Copy, Debug, PartialEq, Eq)]
pub enum Status {
    /// The answer ended well.
    Done,
    /// `check` found a breach.
    Found,
    /// The words are wrong.
    Usage,
    /// A text has a fault, or a token that no file goes on with.
    Syntax,
    /// A counted quantity passes its limit.
    Limit,
    /// The units of the files are no library.
    Library,
    /// The design under the top is wrong.
    Netlist,
    /// An SDF file is wrong.
    Sdf,
    /// The stimuli are wrong.
    Stimulus,
    /// A cycle would begin whose delta number is the limit.
    DeltaLimit,
    /// The shelf failed.
    ReadFault,
    /// The sink failed.
    WriteFault,
    /// Memory ran out.
    NoMemory,
}

impl Status {
    /// The exit status.
    pub fn number(self) -> u8
        ensures { result ≡ number_of self }
    {
        match self {
            Status::Done => 0,
            Status::Found => 1,
            Status::Usage => 2,
            Status::Syntax => 3,
            Status::Limit => 4,
            Status::Library => 5,
            Status::Netlist => 6,
            Status::Sdf => 7,
            Status::Stimulus => 8,
            Status::DeltaLimit => 9,
            Status::ReadFault => 10,
            Status::WriteFault => 11,
            Status::NoMemory => 12,
        }
    }

    /// Is it the status of a run that failed, and not of an answer?
    pub fn is_failure(self) -> bool
        ensures { result ≡ is_failure self }
    {
        matches!(
            self,
            Status::ReadFault | Status::WriteFault | Status::NoMemory
        )
    }
}
