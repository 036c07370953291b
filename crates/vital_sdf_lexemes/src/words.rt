//! How far a word goes.

ghost use Rattle.std.specs.Prelude.{◌≡◌, ◌≤◌, length};
ghost use Rattle.vital_sdf_lexemes.specs.Words as spec;

/// Whether a word goes no further here.
fn ends_word(bytes: &[u8]) -> bool
    ensures { result ≡ spec.ends_word bytes.now }
{
    match bytes {
        [] | [0..=b' ' | b'"' | b'(' | b')' | b':', ..] | [b'/', b'/' | b'*', ..] => true,
        _ => false,
    }
}

/// How many bytes the word has that begins here, 0 where none does.
pub fn word_length(bytes: &[u8]) -> usize
    ensures count { result ≡ spec.word_length bytes.now }
    ensures within { result ≤ length bytes.now }
{
    let mut rest = bytes;
    let mut count = 0;
    while let [first, after @ ..] = rest {
        match *first {
            b'\\' => match after {
                [_, beyond @ ..] => {
                    count += 2;
                    rest = beyond;
                }
                [] => return count + 1,
            },
            // No byte above the colon ends a word.
            0..=b':' if ends_word(rest) => return count,
            _ => {
                count += 1;
                rest = after;
            }
        }
    }
    count
}
