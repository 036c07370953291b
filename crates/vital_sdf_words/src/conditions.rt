//! The names that conditions of an SDF file have in the names of generics.

ghost use Rattle.std.specs.Prelude.{◌≡◌, IfOk};
ghost use Rattle.vital_sdf_words.specs.Conditions.{condition_name, kept, quoted_condition_name};

use crate::replacement::replacement_at;
use crate::tidy_name::TidyName;
use std::alloc::{AllocError, Global};
use vital_base::Name;

/// What is written for a byte that begins no text that is replaced.
fn kept(byte: u8) -> u8
    ensures { result ≡ kept byte }
{
    if byte.is_ascii_alphanumeric() {
        byte
    } else {
        b'_'
    }
}

/// The name of a condition, of which this is the text of its lexemes without parentheses, with nothing between them.
pub fn condition_name(alloc: Global, text: &[u8]) -> Result<Name, AllocError>
    ensures { IfOk result (λ name. name ≡ condition_name text.now) }
{
    let mut name = TidyName::new(alloc);
    let mut rest = text;
    while let Some((first, others)) = rest.split_first() {
        match replacement_at(rest) {
            Some(replacement) => {
                name.extend(replacement.1)?;
                rest = &rest[replacement.0.len()..];
            }
            None => {
                name.push(kept(*first))?;
                rest = others;
            }
        }
    }
    Ok(name.finish())
}

/// The name that the text of a string after COND gives.
pub fn quoted_condition_name(alloc: Global, text: &[u8]) -> Result<Name, AllocError>
    ensures { IfOk result (λ name. name ≡ quoted_condition_name text.now) }
{
    let mut name = TidyName::new(alloc);
    name.extend(text)?;
    Ok(name.finish())
}
