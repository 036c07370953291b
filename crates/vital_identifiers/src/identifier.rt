//! Basic identifiers.

ghost use Rattle.std.specs.Prelude.{◌≡◌};
ghost use Rattle.std.specs.List.{list_all, slice_split};
ghost use Rattle.vital_identifiers.specs.Identifiers.{is_underscore, is_run, begins_with_letter, is_basic_identifier};

/// Whether these bytes write a basic identifier (IEEE 1076-1993, 13.3.1): a letter, and then letters and digits, with an underscore
/// at most between each two of them. A letter is one of ASCII. A reserved word is an identifier here.
pub fn is_basic_identifier(bytes: &[u8]) -> bool
    ensures { result ≡ is_basic_identifier bytes.now }
{
    begins_with_letter(bytes) && are_runs(bytes)
}

fn begins_with_letter(bytes: &[u8]) -> bool
    ensures { result ≡ begins_with_letter bytes.now }
{
    match bytes {
        [] => false,
        [first, ..] => first.is_ascii_alphabetic(),
    }
}

/// Whether there are letters and digits alone, in runs with one underscore between each two of them.
fn are_runs(bytes: &[u8]) -> bool
    ensures { result ≡ list_all is_run (slice_split is_underscore bytes.now) }
{
    let mut in_run = false;
    for byte in bytes {
        if byte.is_ascii_alphanumeric() {
            in_run = true;
        } else if in_run && *byte == b'_' {
            in_run = false;
        } else {
            return false;
        }
    }
    in_run
}
