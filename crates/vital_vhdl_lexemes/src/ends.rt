//! How far the separators and lexemes of a text go.

ghost use Rattle.std.specs.Prelude.{◌≡◌, ◌<◌, ◌≤◌, true, false, length, slice_index, MatchOption};
ghost use Rattle.vital_lex.specs.Lexicon.{Parted};
ghost use Rattle.vital_vhdl_lexemes.specs.Bytes as spec;
ghost use Rattle.vital_vhdl_lexemes.specs.Finding.{IsRun, IsUnderlinedRun};
ghost use Rattle.vital_vhdl_lexemes.specs.Forms.{is_basic_identifier, is_integer, is_number, is_separator, continues, closes};
ghost use Rattle.vital_vhdl_lexemes.specs.Longest.{IsLongest, NoneFits};
ghost use Rattle.vital_vhdl_lexemes.specs.Vhdl.{vhdl};

use crate::bytes::{Blanks, ByteClass, CommentBytes, Digits, LettersAndDigits, is_graphic};

/// The end of the run of bytes of a class at `at`, which may be empty.
pub fn run_end<C: ByteClass>(text: &[u8], at: usize) -> usize
    requires { at ≤ length text.now }
    ensures { IsRun C.has text.now at result }
{
    let mut end = at;
    while end < text.len() && C::has(text[end]) {
        end += 1;
    }
    end
}

/// The end of the run of bytes of a class at `at`, where each but the first may have an underline before it.
fn underlined_end<C: ByteClass>(text: &[u8], at: usize) -> usize
    requires inside { at < length text.now }
    requires first { C.has (slice_index text.now at) ≡ true }
    ensures { IsUnderlinedRun C.has text.now at result }
{
    let mut end = at + 1;
    while end < text.len() {
        if C::has(text[end]) {
            end += 1;
        } else if text[end] == b'_' && end + 1 < text.len() && C::has(text[end + 1]) {
            end += 2;
        } else {
            return end;
        }
    }
    end
}

/// The end of the longest basic identifier at `at`.
pub fn identifier_end(text: &[u8], at: usize) -> usize
    requires inside { at < length text.now }
    requires letter { spec.is_letter (slice_index text.now at) ≡ true }
    ensures { IsLongest is_basic_identifier text.now at result }
{
    underlined_end::<LettersAndDigits>(text, at)
}

/// The end of the longest integer at `at`.
fn integer_end(text: &[u8], at: usize) -> usize
    requires inside { at < length text.now }
    requires digit { spec.is_digit (slice_index text.now at) ≡ true }
    ensures longest { IsLongest is_integer text.now at result }
    ensures stops { NoneFits (continues spec.is_digit) text.now result }
{
    underlined_end::<Digits>(text, at)
}

/// The end of the longest number at `at`.
pub fn number_end(text: &[u8], at: usize) -> usize
    requires inside { at < length text.now }
    requires digit { spec.is_digit (slice_index text.now at) ≡ true }
    ensures { IsLongest is_number text.now at result }
{
    let point = integer_end(text, at);
    if point + 1 < text.len() && text[point] == b'.' && text[point + 1].is_ascii_digit() {
        integer_end(text, point + 1)
    } else {
        point
    }
}

/// The end of what a closing mark ends, where the opening mark stands before `at`: the longest that fits, if any does.
pub fn quoted_end(text: &[u8], at: usize, mark: u8) -> Option<usize>
    requires { at ≤ length text.now }
    ensures { MatchOption result (NoneFits (closes mark) text.now at) (IsLongest (closes mark) text.now at) }
{
    let mut end = at;
    let mut closed = None;
    while end < text.len() {
        let b = text[end];
        if b == mark {
            if end + 1 == text.len() || text[end + 1] != mark {
                return Some(end + 1);
            }
            // The first of two marks closes too, where nothing longer does.
            closed = Some(end + 1);
            end += 2;
        } else if is_graphic(b) {
            end += 1;
        } else {
            return closed;
        }
    }
    closed
}

/// The end of the comment at `at`, where no blank stands.
fn comment_end(text: &[u8], at: usize) -> Option<usize>
    requires inside { at ≤ length text.now }
    requires no_blank { at < length text.now → spec.is_blank (slice_index text.now at) ≡ false }
    ensures { MatchOption result (NoneFits is_separator text.now at) (IsLongest is_separator text.now at) }
{
    if at + 1 < text.len() && text[at] == b'-' && text[at + 1] == b'-' {
        Some(run_end::<CommentBytes>(text, at + 2))
    } else {
        None
    }
}

/// The end of the separators at `at`, one behind the other.
pub fn separators_end(text: &[u8], at: usize) -> usize
    requires { at ≤ length text.now }
    ensures { Parted vhdl text.now at result }
{
    let mut end = run_end::<Blanks>(text, at);
    while let Some(after) = comment_end(text, end) {
        end = run_end::<Blanks>(text, after);
    }
    end
}
