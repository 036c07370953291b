//! How a stimulus names a port.

ghost use Rattle.std.specs.Prelude.{◌≡◌, position};
ghost use Rattle.std.specs.Char.{is_ascii_digit};
ghost use Rattle.std.specs.List.{list_all};
ghost use Rattle.vital_stim.specs.PortForm.{is_plain_decimal, is_opening, is_index, is_port};

use vital_identifiers::is_basic_identifier;

/// Whether these bytes name a port: a basic identifier (IEEE 1076-1993, 13.3.1), alone or followed at once by an index
/// in parentheses. A reserved word is an identifier here.
pub fn is_port(bytes: &[u8]) -> bool
    ensures { result ≡ is_port bytes.now }
{
    match first_opening(bytes) {
        Some(opening) => {
            is_basic_identifier(&bytes[..opening]) && is_index(&bytes[opening + 1..])
        }
        None => is_basic_identifier(bytes),
    }
}

/// The place of the first opening parenthesis.
fn first_opening(bytes: &[u8]) -> Option<usize>
    ensures { result ≡ position is_opening bytes.now }
{
    bytes.iter().position(|byte| *byte == b'(')
}

/// Whether these bytes are a plain decimal and the parenthesis that closes it.
fn is_index(bytes: &[u8]) -> bool
    ensures { result ≡ is_index bytes.now }
{
    match bytes.strip_suffix(b")") {
        Some(digits) => is_plain_decimal(digits),
        None => false,
    }
}

/// Whether these bytes are digits, with no leading 0 unless it is the only one.
fn is_plain_decimal(digits: &[u8]) -> bool
    ensures { result ≡ is_plain_decimal digits.now }
{
    match digits {
        [] => false,
        [first, others @ ..] => { all_digits(digits) && (*first != b'0' || others.is_empty()) }
    }
}

fn all_digits(bytes: &[u8]) -> bool
    ensures { result ≡ list_all is_ascii_digit bytes.now }
{
    bytes.iter().all(|byte| byte.is_ascii_digit())
}
