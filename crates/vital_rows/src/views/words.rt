//! The bytes of names in lines.

use std::alloc::AllocError;

/// The lines of a view, as they grow.
pub type Lines<'a> = &'a mut String;

/// Puts bytes, each as the character of its number.
pub fn put_bytes(out: Lines<'_>, bytes: &[u8]) -> Result<(), AllocError> {
    for byte in bytes {
        out.push(char::from(*byte))?;
    }
    Ok(())
}

/// Puts a word, and the bytes of a name behind it.
pub fn put_named(out: Lines<'_>, word: &str, name: &[u8]) -> Result<(), AllocError> {
    write!(out, "{word} ")?;
    put_bytes(out, name)
}
