//! Separators: blanks and comments.

ghost use Rattle.std.specs.Prelude.{◌≡◌, ◌<◌, ◌≤◌, length, IfSome};
ghost use Rattle.vital_sdf_lexemes.specs.Separators as spec;

/// How many bytes stand before the next LF, or before the end where none is left.
fn line_length(bytes: &[u8]) -> usize
    ensures count { result ≡ spec.line_length bytes.now }
    ensures within { result ≤ length bytes.now }
{
    let mut rest = bytes;
    let mut count = 0;
    while let [first, after @ ..] = rest {
        if *first == b'\n' {
            return count;
        }
        count += 1;
        rest = after;
    }
    count
}

/// How many bytes there are up to and with the next `*/`, if there is one.
fn closed_length(bytes: &[u8]) -> Option<usize>
    ensures count { result ≡ spec.closed_length bytes.now }
    ensures within { IfSome result (λ count. count ≤ length bytes.now) }
{
    let mut rest = bytes;
    let mut count = 0;
    while let [first, after @ ..] = rest {
        if *first == b'*' && matches!(after, [b'/', ..]) {
            return Some(count + 2);
        }
        count += 1;
        rest = after;
    }
    None
}

/// How many bytes a separator has that begins here, if one does.
pub fn separator_length(bytes: &[u8]) -> Option<usize>
    ensures count { result ≡ spec.separator_length bytes.now }
    ensures some { IfSome result (λ count. 0 < count) }
    ensures within { IfSome result (λ count. count ≤ length bytes.now) }
{
    match bytes {
        [b' ' | b'\t' | b'\n' | b'\r', ..] => Some(1),
        [b'/', b'/', after @ ..] => Some(2 + line_length(after)),
        [b'/', b'*', after @ ..] => Some(2 + closed_length(after)?),
        _ => None,
    }
}
