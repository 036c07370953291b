//! The number that a line begins with.

ghost use Rattle.std.specs.Prelude.{◌≡◌, ◌≤◌, None, Some, IfSome, IfNone, take, drop};
ghost use Rattle.vital_base.specs.Times.{number_of};
ghost use Rattle.vital_stim.specs.Parts.{field_of, after_field};

use crate::fields::is_blank;

/// How many digits a number may have.
const MOST_DIGITS: usize = 19;

/// The number that the bytes up to the first blank spell, and what stands from that blank on; None where they spell none.
/// The bytes are gone over once.
pub fn number_at(bytes: &[u8]) -> Option<(u64, &[u8])>
    ensures number { IfSome result (λ both. number_of (field_of bytes.now) ≡ Some both.0) }
    ensures after { IfSome result (λ both. both.1.now ≡ after_field bytes.now) }
    ensures none { IfNone result (number_of (field_of bytes.now) ≡ None) }
{
    let mut value = 0u64;
    let mut count = 0usize;
    let mut rest = bytes;
    while let [first, after @ ..] = rest {
        if is_blank(*first) {
            break;
        }
        if !first.is_ascii_digit() || count == MOST_DIGITS {
            return None;
        }
        value = value * 10 + u64::from(*first - b'0');
        count += 1;
        rest = after;
    }
    if count == 0 {
        None
    } else {
        Some((value, rest))
    }
}
