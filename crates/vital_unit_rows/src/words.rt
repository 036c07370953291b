//! Words for what has none of its own, and the bytes of names.

use std::alloc::AllocError;
use vital_nodes::{Mode, Role};

/// The lines of a view, as they grow.
pub type Lines<'a> = &'a mut String;

/// Puts bytes, each as the character of its number.
pub fn put_bytes(out: Lines<'_>, bytes: &[u8]) -> Result<(), AllocError> {
    for byte in bytes {
        out.push(char::from(*byte))?;
    }
    Ok(())
}

/// Puts a word, and the bytes of a name behind it.
pub fn put_named(out: Lines<'_>, word: &str, name: &[u8]) -> Result<(), AllocError> {
    write!(out, "{word} ")?;
    put_bytes(out, name)
}

pub fn mode_word(mode: Mode) -> &'static str {
    match mode {
        Mode::In => "in",
        Mode::Out => "out",
        Mode::Inout => "inout",
        Mode::Buffer => "buffer",
        Mode::Linkage => "linkage",
    }
}

pub fn role_word(role: Role) -> &'static str {
    match role {
        Role::Lib => "lib",
        Role::Net => "net",
    }
}
