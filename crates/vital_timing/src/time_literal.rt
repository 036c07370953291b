//! Time literals.

ghost use Rattle.std.specs.Prelude.{◌≡◌, ◌+◌, ◌*◌, ◌≤◌, ◌<◌, ◌-◌, length, min, position, IfSome, if◌then◌else◌};
ghost use Rattle.std.specs.Char.{is_ascii_digit};
ghost use Rattle.std.specs.Str.Parse.{digits_value};
ghost use Rattle.vital_timing.specs.TimeLiterals.{before_point, behind_point, carried, digits_of, femtoseconds, is_point, literal_time, unit_named};

use vital_base::Time;

/// The greatest time of a delay: 2^50 fs.
pub const GREATEST_DELAY: Time = 1_125_899_906_842_624;

/// A unit of type TIME (IEEE 1076-1993, 14.2).
#[derive(Clone, Copy, Debug, PartialEq, Eq)]
pub enum UnitOfTime {
    Femtosecond,
    Picosecond,
    Nanosecond,
    Microsecond,
    Millisecond,
    Second,
    Minute,
    Hour,
}

impl UnitOfTime {
    /// The unit of a name as identifiers keep it, in small letters.
    pub fn named(name: &[u8]) -> Option<UnitOfTime>
        ensures { result ≡ unit_named name.now }
    {
        match name {
            b"fs" => Some(UnitOfTime::Femtosecond),
            b"ps" => Some(UnitOfTime::Picosecond),
            b"ns" => Some(UnitOfTime::Nanosecond),
            b"us" => Some(UnitOfTime::Microsecond),
            b"ms" => Some(UnitOfTime::Millisecond),
            b"sec" => Some(UnitOfTime::Second),
            b"min" => Some(UnitOfTime::Minute),
            b"hr" => Some(UnitOfTime::Hour),
            _ => None,
        }
    }

    /// How many femtoseconds it is worth.
    pub fn femtoseconds(self) -> Time
        ensures { result ≡ femtoseconds self }
    {
        match self {
            UnitOfTime::Femtosecond => 1,
            UnitOfTime::Picosecond => 1_000,
            UnitOfTime::Nanosecond => 1_000_000,
            UnitOfTime::Microsecond => 1_000_000_000,
            UnitOfTime::Millisecond => 1_000_000_000_000,
            UnitOfTime::Second => 1_000_000_000_000_000,
            UnitOfTime::Minute => 60_000_000_000_000_000,
            UnitOfTime::Hour => 3_600_000_000_000_000_000,
        }
    }

    /// The time of a literal, a number as it stands before the unit: digits, underscores and at most one point, of any length. It is
    /// truncated to whole femtoseconds. None where it is above [`GREATEST_DELAY`].
    pub fn literal_time(self, number: &[u8]) -> Option<Time>
        ensures { result ≡ literal_time number.now self }
    {
        let worth = u128::from(self.femtoseconds());
        let (whole, fraction) = split_at_point(number);
        let time = u128::from(whole_number(whole)) * worth + fraction_of(fraction, worth);
        if time <= u128::from(GREATEST_DELAY) {
            Some(time as u64)
        } else {
            None
        }
    }
}

/// Where the first point of a number stands.
fn point_at(number: &[u8]) -> Option<usize>
    ensures point { result ≡ position is_point number.now }
    ensures within { IfSome result (λ at. at < length number.now) }
{
    number.iter().position(|byte| *byte == b'.')
}

/// What stands before the point and what stands behind it.
fn split_at_point(number: &[u8]) -> (&[u8], &[u8])
    ensures before { result.0.now ≡ before_point number.now }
    ensures behind { result.1.now ≡ behind_point number.now }
{
    match point_at(number) {
        Some(at) => (&number[..at], &number[at + 1..]),
        None => (number, &[]),
    }
}

/// A number with one more digit. Any other byte leaves it as it is.
fn with_byte(number: u64, byte: u8) -> u64
    requires { number ≤ GREATEST_DELAY + 1 }
    ensures { result ≡ (if is_ascii_digit byte then min (number * 10 + (byte - 48)) (GREATEST_DELAY + 1) else number) }
{
    if byte.is_ascii_digit() {
        (number * 10 + u64::from(byte - b'0')).min(GREATEST_DELAY + 1)
    } else {
        number
    }
}

/// The number of the digits. It stays one above the greatest delay where it is above that.
fn whole_number(bytes: &[u8]) -> u64
    ensures { result ≡ min (digits_value 10 (digits_of bytes.now)) (GREATEST_DELAY + 1) }
{
    let mut number = 0;
    for byte in bytes {
        number = with_byte(number, *byte);
    }
    number
}

/// What the digits behind a point are worth where one is worth so much, truncated. Each digit, from the last on, takes a tenth of
/// what stands behind it.
fn fraction_of(bytes: &[u8], worth: u128) -> u128
    requires { worth ≤ 3_600_000_000_000_000_000 }
    ensures value { result ≡ carried worth bytes.now 0 }
    ensures small { result ≤ worth }
{
    let mut carry = 0;
    let mut rest = bytes;
    while let Some((last, front)) = rest.split_last() {
        if last.is_ascii_digit() {
            carry = (u128::from(*last - b'0') * worth + carry) / 10;
        }
        rest = front;
    }
    carry
}
