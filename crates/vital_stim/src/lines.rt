//! The lines of a text.

ghost use Rattle.std.specs.Prelude.{◌≡◌, ◌≤◌, ℕ, List, [], length, if◌then◌else◌};
ghost use Rattle.std.specs.Iterator.{YieldsFirstRef, item_count};
ghost use Rattle.std.specs.List.{position_or_len};
ghost use Rattle.vital_stim.specs.Parts.{is_line_end, lines_of};

use memchr::memchr;
use std::marker::Model;

/// The lines of a text that are left, from first to last. What follows the last LF is a line too, and may be empty.
#[derive(Drop)]
pub struct Lines<'a> {
    rest: &'a [u8],
    done: bool,
}

impl<'a> Model for Lines<'a> {
    ghost Value = { List (List ℕ) };

    ghost view = { λ lines. if lines.done then [] else lines_of lines.rest.now };
}

impl<'a> Lines<'a> {
    /// All lines of a text.
    pub fn new(text: &'a [u8]) -> Self
        ensures { result ≡ lines_of text.now }
    {
        Lines {
            rest: text,
            done: false,
        }
    }
}

impl<'a> Iterator for Lines<'a> {
    type Item = &'a [u8];

    ghost next_gives = { YieldsFirstRef (λ lines. lines) };

    ghost remaining = { item_count (λ lines. lines) };

    fn next(&mut self) -> Option<&'a [u8]> {
        if self.done {
            return None;
        }
        let rest = self.rest;
        let end = line_end(rest);
        if end == rest.len() {
            self.done = true;
            return Some(rest);
        }
        self.rest = &rest[end + 1..];
        Some(&rest[..end])
    }
}

/// The place of the first LF, or the length.
fn line_end(text: &[u8]) -> usize
    ensures place { result ≡ position_or_len is_line_end text.now }
    ensures within { result ≤ length text.now }
{
    memchr(b'\n', text).unwrap_or(text.len())
}
