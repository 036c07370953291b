//! The texts of conditions that are replaced in their names.

ghost use Rattle.std.specs.Prelude.{◌≡◌, ◌<◌, ◌≤◌, find, length, nat_eq, IfSome};
ghost use Rattle.std.specs.List.{starts_with};
ghost use Rattle.std.specs.Option.{option_copied, option_map};
ghost use Rattle.vital_sdf_words.specs.Conditions.{replacement_at};

/// A text that is replaced, and what is written for it.
pub struct Replacement(pub &'static [u8], pub &'static [u8]);

/// The texts that are replaced, the longest first.
static REPLACEMENTS: [Replacement; 15] = [
    Replacement(b"1'b0", b"0"),
    Replacement(b"1'b1", b"1"),
    Replacement(b"===", b"_eq_"),
    Replacement(b"!==", b"_ne_"),
    Replacement(b"'b0", b"0"),
    Replacement(b"'b1", b"1"),
    Replacement(b"==", b"_eq_"),
    Replacement(b"!=", b"_ne_"),
    Replacement(b"&&", b"_and_"),
    Replacement(b"||", b"_or_"),
    Replacement(b"&", b"_and_"),
    Replacement(b"|", b"_or_"),
    Replacement(b"^", b"_xor_"),
    Replacement(b"!", b"not_"),
    Replacement(b"~", b"not_"),
];

/// The first of these rows whose text the bytes begin with.
fn row_in<'a>(rows: &'a [Replacement], bytes: &[u8]) -> Option<&'a Replacement>
    ensures row { option_copied result ≡ find (λ row. starts_with nat_eq bytes.now row.0.now) rows.now }
    ensures within { IfSome result (λ row. length row.now.0.now ≤ length bytes.now) }
{
    rows.iter().find(|row| bytes.starts_with(row.0))
}

/// The first of the texts that are replaced that the bytes begin with.
pub fn replacement_at(bytes: &[u8]) -> Option<&'static Replacement>
    ensures row { option_map (λ row. (row.now.0.now, row.now.1.now)) result ≡ replacement_at bytes.now }
    ensures within { IfSome result (λ row. length row.now.0.now ≤ length bytes.now) }
    ensures some { IfSome result (λ row. 0 < length row.now.0.now) }
{
    row_in(&REPLACEMENTS, bytes)
}
