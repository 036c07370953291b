//! The commands, and their keys.

ghost use Rattle.std.specs.Prelude.{◌≡◌};
ghost use Rattle.vital_words.specs.Commands.{command_named, rules_of};

use crate::key::{FileKind, Key};

/// A command. It is the first word.
#[derive(Clone, Copy, PartialEq, Eq)]
pub enum Command {
    /// Play a stimulus file.
    Play,
    /// Check the cells of a library.
    Check,
    /// Print an elaborated design.
    Tree,
    /// Simulate an elaborated design.
    Sim,
    /// Simulate a netlist that a seed draws.
    SelfRun,
}

/// How a command takes a key.
#[derive(Clone, Copy, PartialEq, Eq)]
pub struct KeyRule {
    pub key: Key,
    /// How often the key may come.
    pub most: usize,
    /// Must it come?
    pub is_required: bool,
}

/// How many files a command takes of a library, and how many of delays.
const MOST_FILES: usize = 16;

/// The stimulus file of a run.
const STIM: KeyRule = KeyRule {
    key: Key::File(FileKind::Stim),
    most: 1,
    is_required: true,
};

/// The end time of a run.
const UNTIL: KeyRule = KeyRule {
    key: Key::Until,
    most: 1,
    is_required: true,
};

/// The files of a library.
const LIB: KeyRule = KeyRule {
    key: Key::File(FileKind::Lib),
    most: MOST_FILES,
    is_required: true,
};

/// The file of a netlist.
const NET: KeyRule = KeyRule {
    key: Key::File(FileKind::Net),
    most: 1,
    is_required: false,
};

/// The files of delays.
const SDF: KeyRule = KeyRule {
    key: Key::File(FileKind::Sdf),
    most: MOST_FILES,
    is_required: false,
};

/// The top of a design.
const TOP: KeyRule = KeyRule {
    key: Key::Top,
    most: 1,
    is_required: true,
};

/// Which values of the files of delays are taken.
const CORNER: KeyRule = KeyRule {
    key: Key::Corner,
    most: 1,
    is_required: false,
};

/// The limit of delta numbers of a run.
const DELTA: KeyRule = KeyRule {
    key: Key::Delta,
    most: 1,
    is_required: false,
};

/// The signals of a run that are watched.
const WATCH: KeyRule = KeyRule {
    key: Key::Watch,
    most: 1,
    is_required: false,
};

/// The seed of a run whose texts are drawn.
const SEED: KeyRule = KeyRule {
    key: Key::Seed,
    most: 1,
    is_required: true,
};

/// The number of cells of such a run.
const CELLS: KeyRule = KeyRule {
    key: Key::Cells,
    most: 1,
    is_required: true,
};

impl Command {
    /// The command that is written so.
    pub fn named(word: &[u8]) -> Option<Command>
        ensures { result ≡ command_named word.now }
    {
        match word {
            b"play" => Some(Command::Play),
            b"check" => Some(Command::Check),
            b"tree" => Some(Command::Tree),
            b"sim" => Some(Command::Sim),
            b"self" => Some(Command::SelfRun),
            _ => None,
        }
    }

    /// How it takes its keys. A key that stands in none of these rules is none of its keys.
    pub fn rules(self) -> &'static [KeyRule]
        ensures { result.now ≡ rules_of self }
    {
        match self {
            Command::Play => &[STIM, UNTIL],
            Command::Check => &[LIB],
            Command::Tree => &[LIB, NET, TOP],
            Command::Sim => &[LIB, NET, SDF, TOP, STIM, UNTIL, CORNER, DELTA, WATCH],
            Command::SelfRun => &[SEED, CELLS],
        }
    }
}
