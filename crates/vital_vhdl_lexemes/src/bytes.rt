//! Classes of bytes.

ghost use Rattle.std.specs.Prelude.{◌≡◌, ℕ, Bool, not, ◌==◌};
ghost use Rattle.vital_vhdl_lexemes.specs.Bytes as spec;

pub fn is_graphic(b: u8) -> bool
    ensures { result ≡ spec.is_graphic b }
{
    matches!(b, 0x20..=0x7E | 0xA0..=0xFF)
}

/// A class of bytes, for the loops over bytes of one class.
pub trait ByteClass {
    ghost has: { ℕ → Bool };

    fn has(byte: u8) -> bool
        ensures { result ≡ has byte };
}

/// The letters and the digits.
pub struct LettersAndDigits;

impl ByteClass for LettersAndDigits {
    ghost has = { spec.is_letter_or_digit };

    fn has(byte: u8) -> bool {
        byte.is_ascii_alphanumeric()
    }
}

/// The digits.
pub struct Digits;

impl ByteClass for Digits {
    ghost has = { spec.is_digit };

    fn has(byte: u8) -> bool {
        byte.is_ascii_digit()
    }
}

/// The blanks.
pub struct Blanks;

impl ByteClass for Blanks {
    ghost has = { spec.is_blank };

    fn has(byte: u8) -> bool {
        matches!(byte, b' ' | 9..=13)
    }
}

/// All bytes but LF, which a comment may have.
pub struct CommentBytes;

impl ByteClass for CommentBytes {
    ghost has = { λ b. not (b == 10) };

    fn has(byte: u8) -> bool {
        byte != b'\n'
    }
}
