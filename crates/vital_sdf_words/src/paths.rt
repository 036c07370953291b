//! The parts of paths in an SDF file.

ghost use Rattle.std.specs.Prelude.{◌≡◌, ◌<◌, length, IfOk, IfSome};
ghost use Rattle.std.specs.Option.{option_map};
ghost use Rattle.vital_sdf_words.specs.Paths.{is_divider, parts, unescaped};
ghost use Rattle.vital_sdf_words.specs.Units.{first_and_others, unit_and_others};

use std::alloc::{AllocError, Global};
use vital_base::{List, Name};

/// A byte that a word means, and what of the word stands behind it.
#[derive(Drop)]
struct Unit<'a> {
    byte: u8,
    is_escaped: bool,
    others: &'a [u8],
}

impl Unit<'_> {
    /// Is it a divider, and not escaped?
    fn is_divider(&self, divider: u8) -> bool
        ensures { result ≡ is_divider divider (self.now.byte, self.now.is_escaped) }
    {
        !self.is_escaped && self.byte == divider
    }
}

/// The first byte that a word means.
fn first_unit(word: &[u8]) -> Option<Unit<'_>>
    ensures unit { option_map unit_and_others result ≡ first_and_others (unescaped word.now) }
    ensures shorter { IfSome result (λ unit. length unit.others.now < length word.now) }
{
    match word {
        [] => None,
        [b'\\', byte, others @ ..] => Some(Unit {
            byte: *byte,
            is_escaped: true,
            others,
        }),
        [byte, others @ ..] => Some(Unit {
            byte: *byte,
            is_escaped: false,
            others,
        }),
    }
}

/// The parts of a word, which each divider parts that is not escaped. A backslash takes the next byte as it is, and is dropped; at
/// the very end it stays.
pub fn parts(alloc: Global, word: &[u8], divider: u8) -> Result<List<Name>, AllocError>
    ensures { IfOk result (λ found. found ≡ parts divider word.now) }
{
    let mut found = Vec::new(alloc);
    let mut part = Vec::new(alloc);
    let mut rest = word;
    while let Some(unit) = first_unit(rest) {
        if unit.is_divider(divider) {
            found.push(Name::new(part))?;
            part = Vec::new(alloc);
        } else {
            part.push(unit.byte)?;
        }
        rest = unit.others;
    }
    found.push(Name::new(part))?;
    Ok(List::new(found))
}
