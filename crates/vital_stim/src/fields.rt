//! The fields of a line.

ghost use Rattle.std.specs.Prelude.{◌≡◌, ℕ, List, position};
ghost use Rattle.std.specs.Iterator.{YieldsFirstRef, item_count};
ghost use Rattle.vital_stim.specs.Parts.{is_blank, fields_of, after_blanks, is_passed_over};

use std::marker::Model;

/// Whether a byte parts fields: a space, a tab or a CR.
#[tactic(auto, unfolding(crate::specs::Parts::is_blank))]
pub fn is_blank(byte: u8) -> bool
    ensures { result ≡ is_blank byte }
{
    matches!(byte, b' ' | b'\t' | b'\r')
}

/// Whether a line says nothing: its first byte other than blank is `#`, or it has none.
pub fn is_passed_over(line: &[u8]) -> bool
    ensures { result ≡ is_passed_over line.now }
{
    match after_blanks(line) {
        [] => true,
        [first, ..] => *first == b'#',
    }
}

/// The fields of a line that are left, from left to right: what stands between its blanks.
#[derive(Drop)]
pub struct Fields<'a> {
    rest: &'a [u8],
}

impl<'a> Model for Fields<'a> {
    ghost Value = { List (List ℕ) };

    ghost view = { λ fields. fields_of fields.rest.now };
}

impl<'a> Fields<'a> {
    /// All fields of a line.
    pub fn new(line: &'a [u8]) -> Self
        ensures { result ≡ fields_of line.now }
    {
        Fields { rest: line }
    }
}

impl<'a> Iterator for Fields<'a> {
    type Item = &'a [u8];

    ghost next_gives = { YieldsFirstRef (λ fields. fields) };

    ghost remaining = { item_count (λ fields. fields) };

    fn next(&mut self) -> Option<&'a [u8]> {
        let rest = after_blanks(self.rest);
        let (field, after) = rest.split_at(first_blank(rest).unwrap_or(rest.len()));
        self.rest = after;
        if field.is_empty() { None } else { Some(field) }
    }
}

/// The line without the blanks that it begins with.
pub fn after_blanks(line: &[u8]) -> &[u8]
    ensures { result.now ≡ after_blanks line.now }
{
    let mut rest = line;
    while let [first, after @ ..] = rest {
        if !is_blank(*first) {
            return rest;
        }
        rest = after;
    }
    rest
}

/// The place of the first blank.
fn first_blank(bytes: &[u8]) -> Option<usize>
    ensures { result ≡ position is_blank bytes.now }
{
    bytes.iter().position(|byte| is_blank(*byte))
}
