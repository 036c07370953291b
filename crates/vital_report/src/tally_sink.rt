ghost use Rattle.std.specs.Prelude.{◌≡◌, ◌<◌, Ok, length};
ghost use Rattle.std.specs.Str.{bytes_eq};
ghost use Rattle.vital_base.specs.Tallies.{count, no_lines, with_byte, with_head};

use std::marker::Model;
use vital_base::{Failed, Sink};

/// How many bytes of a line tell what it is.
const HEAD: usize = 7;

/// A sink that counts the lines of events and of glitches that it gets, and keeps no more of their bytes than it needs for that. It takes no
/// memory, and never fails. A contract sees it as its tally.
#[derive(Drop)]
pub struct TallySink {
    events: u64,
    glitches: u64,
    /// The first bytes of the line that is not ended, and behind them room for more.
    head: [u8; HEAD],
    /// How many of them there are.
    held: usize,
}

impl Model for TallySink {
    ghost use Rattle.std.specs.Prelude.{◌≤◌, take};
    ghost use Rattle.vital_base.specs.Tallies.{Tally};

    ghost Value = { Tally };

    ghost view = { λ s. record {
      events = s.events;
      glitches = s.glitches;
      head = take s.held s.head;
    } };

    ghost invariant = { λ s. s.held ≤ 7 };
}

impl TallySink {
    /// A sink that got nothing.
    pub fn new() -> TallySink
        ensures { result ≡ no_lines }
    {
        TallySink {
            events: 0,
            glitches: 0,
            head: [0; HEAD],
            held: 0,
        }
    }

    /// How many lines of events began.
    pub fn events(&self) -> u64
        ensures { result ≡ self.now.events }
    {
        self.events
    }

    /// How many lines of glitches began.
    pub fn glitches(&self) -> u64
        ensures { result ≡ self.now.glitches }
    {
        self.glitches
    }

    /// One more byte came.
    fn take_byte(&mut self, byte: u8)
        ensures { self.new ≡ with_byte self.old byte }
    {
        if byte == b'\n' {
            self.held = 0;
        } else if self.held < HEAD {
            self.head[self.held] = byte;
            self.held += 1;
            self.count_line();
        }
    }

    /// Counts the line, where its head has become one of the words that are counted.
    fn count_line(&mut self)
        ensures { self.new ≡ with_head self.old.head self.old }
    {
        if self.has_head(b"event ") {
            self.events = self.events.saturating_add(1);
        }
        if self.has_head(b"glitch ") {
            self.glitches = self.glitches.saturating_add(1);
        }
    }

    /// Whether what came of the line is this word.
    fn has_head(&self, word: &[u8]) -> bool
        ensures { result ≡ bytes_eq self.now.head word.now }
    {
        &self.head[..self.held] == word
    }
}

impl Sink for TallySink {
    ghost use Rattle.std.specs.Prelude.{ℕ};
    ghost use Rattle.vital_base.specs.Sinks.{tallied};

    ghost told = { λ sink. tallied sink };

    ghost faults = { λ _. 0 };

    ghost may_stick = { λ _. ⊥ };

    /// Takes the whole piece.
    fn write(&mut self, piece: &[u8]) -> Result<usize, Failed>
        requires { 0 < length piece.now }
        ensures takes_all { result ≡ Ok (length piece.now) }
        ensures counts { self.new ≡ count self.old piece.now }
    {
        for byte in piece {
            self.take_byte(*byte);
        }
        Ok(piece.len())
    }

    fn note_stuck(&mut self) {}
}
