//! Keywords.

ghost use Rattle.std.specs.Prelude.{◌≡◌, ℕ, ◌+◌, ◌<◌, ◌≤◌, List, ◌∷◌, map, slice_range};
ghost use Rattle.std.specs.Char.{to_ascii_lowercase};
ghost use Rattle.std.specs.Str.{bytes_eq};
ghost use Rattle.vital_sdf_lexemes.specs.Keywords.{keywords};
ghost use Rattle.vital_sdf_lexemes.specs.WordKinds as spec;

use crate::kinds::Kind;

/// The keywords in small letters, in alphabetical order.
static KEYWORDS: [(&[u8], Kind); 44] = [
    (b"absolute", Kind::Absolute),
    (b"bidirectskew", Kind::BidirectSkew),
    (b"cell", Kind::Cell),
    (b"celltype", Kind::CellType),
    (b"cond", Kind::Cond),
    (b"condelse", Kind::CondElse),
    (b"date", Kind::Date),
    (b"delay", Kind::Delay),
    (b"delayfile", Kind::DelayFile),
    (b"design", Kind::Design),
    (b"device", Kind::Device),
    (b"divider", Kind::Divider),
    (b"hold", Kind::Hold),
    (b"increment", Kind::Increment),
    (b"instance", Kind::Instance),
    (b"interconnect", Kind::Interconnect),
    (b"iopath", Kind::IoPath),
    (b"label", Kind::Label),
    (b"negedge", Kind::NegEdge),
    (b"netdelay", Kind::NetDelay),
    (b"nochange", Kind::NoChange),
    (b"pathpulse", Kind::PathPulse),
    (b"pathpulsepercent", Kind::PathPulsePercent),
    (b"period", Kind::Period),
    (b"port", Kind::Port),
    (b"posedge", Kind::PosEdge),
    (b"process", Kind::Process),
    (b"program", Kind::Program),
    (b"recovery", Kind::Recovery),
    (b"recrem", Kind::RecRem),
    (b"removal", Kind::Removal),
    (b"retain", Kind::Retain),
    (b"sdfversion", Kind::SdfVersion),
    (b"setup", Kind::Setup),
    (b"setuphold", Kind::SetupHold),
    (b"skew", Kind::Skew),
    (b"temperature", Kind::Temperature),
    (b"timescale", Kind::TimeScale),
    (b"timingcheck", Kind::TimingCheck),
    (b"timingenv", Kind::TimingEnv),
    (b"vendor", Kind::Vendor),
    (b"version", Kind::Version),
    (b"voltage", Kind::Voltage),
    (b"width", Kind::Width),
];

/// How many keywords stand before those that begin with each letter from `a` to `z`, and how many there are.
static STARTS: [usize; 27] = [
    0, 1, 2, 6, 12, 12, 12, 12, 13, 17, 17, 17, 18, 18, 21, 21, 28, 28, 32, 36, 40, 40, 43, 44, 44,
    44, 44,
];

/// Whether the word is this one in small letters.
fn is_in_lower_case(word: &[u8], lower: &[u8]) -> bool
    ensures { result ≡ bytes_eq lower.now (map to_ascii_lowercase word.now) }
{
    if word.len() != lower.len() {
        return false;
    }
    for i in 0..lower.len() {
        if word[i].to_ascii_lowercase() != lower[i] {
            return false;
        }
    }
    true
}

/// The kind that a table gives to the word in small letters.
fn kind_in(mut table: &[(&[u8], Kind)], word: &[u8]) -> Option<Kind>
    ensures { result ≡ spec.kind_in (map (λ entry. (entry.0.now, entry.1)) table.entry.now) (map to_ascii_lowercase word.now) }
{
    while let [entry, rest @ ..] = table {
        if is_in_lower_case(word, entry.0) {
            return Some(entry.1);
        }
        table = rest;
    }
    None
}

/// Where the keywords stand that begin with this letter of the alphabet, from 0.
fn places(letter: usize) -> (usize, usize)
    requires { letter < 26 }
    ensures in_order { result.0 ≤ result.1 }
    ensures within { result.1 ≤ 44 }
    ensures own { (rest : List ℕ) → spec.kind_in (slice_range keywords result.0 result.1) ((97 + letter) ∷ rest) ≡ spec.kind_in keywords ((97 + letter) ∷ rest) }
{
    (STARTS[letter], STARTS[letter + 1])
}

/// The kind of the keyword that a word is, ignoring case, if it is one.
pub fn keyword(word: &[u8]) -> Option<Kind>
    ensures { result ≡ spec.keyword word.now }
{
    let [first, ..] = word else {
        return None;
    };
    if !first.is_ascii_alphabetic() {
        return None;
    }
    let letter = first.to_ascii_lowercase() - b'a';
    let (start, end) = places(letter as usize);
    kind_in(&KEYWORDS[start..end], word)
}
