//! The keys of words, and the values that words give to them.

ghost use Rattle.std.specs.Prelude.{◌≡◌, ◌^◌, ◌≤◌, ◌<◌, ◌==◌, not, nat_le, length, position, IfSome, count_by};
ghost use Rattle.std.specs.Char.{is_ascii_digit};
ghost use Rattle.std.specs.List.{list_all};
ghost use Rattle.std.specs.Option.{option_map, option_copied};
ghost use Rattle.vital_words.specs.Keys.{name_of, file_key, is_good, is_file_name, end_time, corner_named, count_of, delta_limit, cells_of, seed_of, watch_named, parts, value_in, is_for, value_of};

use vital_base::{Corner, Time, TimeUnit, Watch, Word, read_number};
use vital_identifiers::is_basic_identifier;

/// How many bytes the name of a file may have.
const LONGEST_FILE_NAME: usize = 4_096;

/// How many digits a limit of delta numbers may have, and the greatest one.
const LONGEST_DELTA_LIMIT: usize = 7;

const GREATEST_DELTA_LIMIT: u32 = 1_000_000;

/// How many digits a number of cells may have, and the greatest one.
const LONGEST_NUMBER_OF_CELLS: usize = 5;

const MOST_CELLS: u32 = 10_000;

/// How many digits a seed may have.
const LONGEST_SEED: usize = 20;

/// What a file is read as.
#[derive(Clone, Copy, PartialEq, Eq)]
pub enum FileKind {
    /// VHDL of a cell library.
    Lib,
    /// VHDL of a netlist.
    Net,
    /// Delays (IEEE 1497).
    Sdf,
    /// Stimuli.
    Stim,
}

/// A key of a word.
#[derive(Clone, Copy, PartialEq, Eq)]
pub enum Key {
    /// A file of a kind.
    File(FileKind),
    /// The end time.
    Until,
    /// The name of the top of a design.
    Top,
    /// Which values of files of delays are taken.
    Corner,
    /// The limit of delta numbers.
    Delta,
    /// The signals that are watched.
    Watch,
    /// The number that draws begin with.
    Seed,
    /// How many instances are drawn.
    Cells,
}

impl Key {
    /// How it is written.
    fn name(self) -> &'static [u8]
        ensures { result.now ≡ name_of self }
    {
        match self {
            Key::File(kind) => file_key(kind),
            Key::Until => b"until",
            Key::Top => b"top",
            Key::Corner => b"corner",
            Key::Delta => b"delta",
            Key::Watch => b"watch",
            Key::Seed => b"seed",
            Key::Cells => b"cells",
        }
    }

    /// Does it take this value?
    pub fn takes(self, value: &[u8]) -> bool
        ensures { result ≡ is_good self value.now }
    {
        match self {
            Key::File(_) => is_file_name(value),
            Key::Until => end_time(value).is_some(),
            Key::Top => is_basic_identifier(value),
            Key::Corner => corner_named(value).is_some(),
            Key::Delta => delta_limit(value).is_some(),
            Key::Watch => watch_named(value).is_some(),
            Key::Seed => seed_of(value).is_some(),
            Key::Cells => cells_of(value).is_some(),
        }
    }

    /// The value that a word gives to it.
    pub fn value_in(self, word: &[u8]) -> Option<&[u8]>
        ensures { option_copied result ≡ value_in self word.now }
    {
        let (key, value) = parts(word)?;
        if key == self.name() {
            Some(value)
        } else {
            None
        }
    }

    /// How many words give a value to it.
    pub fn count(self, words: &[Word]) -> usize
        ensures { result ≡ count_by (is_for self) words.now }
    {
        words
            .iter()
            .filter(|word| self.value_in(word.as_slice()).is_some())
            .count()
    }

    /// The value that the first word for it gives to it.
    pub fn value(self, words: &[Word]) -> Option<&[u8]>
        ensures { option_copied result ≡ value_of self words.now }
    {
        for word in words {
            if let Some(value) = self.value_in(word.as_slice()) {
                return Some(value);
            }
        }
        None
    }
}

/// How the key of a file is written.
fn file_key(kind: FileKind) -> &'static [u8]
    ensures { result.now ≡ file_key kind }
{
    match kind {
        FileKind::Lib => b"lib",
        FileKind::Net => b"net",
        FileKind::Sdf => b"sdf",
        FileKind::Stim => b"stim",
    }
}

fn is_file_name(value: &[u8]) -> bool
    ensures { result ≡ is_file_name value.now }
{
    if value.is_empty() || value.len() > LONGEST_FILE_NAME {
        return false;
    }
    all_printable(value)
}

fn all_printable(bytes: &[u8]) -> bool
    ensures { result ≡ list_all (nat_le 32) bytes.now }
{
    bytes.iter().all(|byte| 32 <= *byte)
}

/// The end time that a value writes, in femtoseconds.
pub fn end_time(value: &[u8]) -> Option<Time>
    ensures time { result ≡ end_time value.now }
    ensures bounded { IfSome result (λ time. time ≤ 2 ^ 60) }
{
    let digits = first_non_digit(value)?;
    let number = read_number(&value[..digits])?;
    let unit = TimeUnit::named(&value[digits..])?;
    unit.time(number)
}

/// The corner of a value.
pub fn corner_named(value: &[u8]) -> Option<Corner>
    ensures { result ≡ corner_named value.now }
{
    match value {
        b"min" => Some(Corner::Min),
        b"typ" => Some(Corner::Typ),
        b"max" => Some(Corner::Max),
        _ => None,
    }
}

/// The limit of delta numbers that a value writes.
pub fn delta_limit(value: &[u8]) -> Option<u32>
    ensures { result ≡ delta_limit value.now }
{
    count_of(LONGEST_DELTA_LIMIT, GREATEST_DELTA_LIMIT, value)
}

/// The number of cells that a value writes.
pub fn cells_of(value: &[u8]) -> Option<u32>
    ensures cells { result ≡ cells_of value.now }
    ensures bounded { IfSome result (λ cells. (1 ≤ cells) × (cells ≤ 10_000)) }
{
    count_of(LONGEST_NUMBER_OF_CELLS, MOST_CELLS, value)
}

/// The number from 1 to the greatest one that a value writes, in at most so many digits.
fn count_of(most_digits: usize, greatest: u32, value: &[u8]) -> Option<u32>
    ensures count { result ≡ count_of most_digits greatest value.now }
    ensures bounded { IfSome result (λ count. (1 ≤ count) × (count ≤ greatest)) }
{
    if value.len() > most_digits {
        return None;
    }
    let number = read_number(value)?;
    if 1 <= number && number <= u64::from(greatest) {
        Some(number as u32)
    } else {
        None
    }
}

/// The seed that a value writes.
pub fn seed_of(value: &[u8]) -> Option<u64>
    ensures { result ≡ seed_of value.now }
{
    if value.is_empty() || value.len() > LONGEST_SEED {
        return None;
    }
    let mut seed = 0u64;
    for digit in value {
        if !digit.is_ascii_digit() {
            return None;
        }
        seed = seed.checked_mul(10)?.checked_add(u64::from(*digit - b'0'))?;
    }
    Some(seed)
}

/// The signals that are watched for a value.
pub fn watch_named(value: &[u8]) -> Option<Watch>
    ensures { result ≡ watch_named value.now }
{
    match value {
        b"ports" => Some(Watch::Ports),
        b"all" => Some(Watch::All),
        _ => None,
    }
}

fn first_non_digit(bytes: &[u8]) -> Option<usize>
    ensures at { result ≡ position (λ byte. not (is_ascii_digit byte)) bytes.now }
    ensures within { IfSome result (λ at. at < length bytes.now) }
{
    bytes.iter().position(|byte| !byte.is_ascii_digit())
}

/// The key and the value of a word, which its first `=` parts.
fn parts(word: &[u8]) -> Option<(&[u8], &[u8])>
    ensures { option_map (λ both. (both.0.now, both.1.now)) result ≡ parts word.now }
{
    let at = first_equals_sign(word)?;
    Some((&word[..at], &word[at + 1..]))
}

fn first_equals_sign(word: &[u8]) -> Option<usize>
    ensures at { result ≡ position (λ byte. byte == 61) word.now }
    ensures within { IfSome result (λ at. at < length word.now) }
{
    word.iter().position(|byte| *byte == b'=')
}
