ghost use Rattle.std.specs.Prelude.{◌≡◌, true};
ghost use Rattle.std.specs.Char.{is_ascii_digit};
ghost use Rattle.std.specs.List.{list_all};
ghost use Rattle.std.specs.Str.Parse.{digits_value};
ghost use Rattle.vital_base.specs.Times.{femtoseconds, unit_named, is_number, number_of, time_of};

/// A time or a delay, as a whole number of femtoseconds.
pub type Time = u64;

/// The greatest end time of a run and the greatest time of a stimulus: 2^60 fs.
pub const GREATEST_TIME: Time = 1_152_921_504_606_846_976;

/// How many digits a number in words and in stimuli may have.
const MOST_DIGITS: usize = 19;

/// A unit of time that stimuli and the end time may be written in (IEEE 1076-1993, 3.1.3.1).
#[derive(Clone, Copy, PartialEq, Eq)]
pub enum TimeUnit {
    Femtosecond,
    Picosecond,
    Nanosecond,
    Microsecond,
    Millisecond,
}

impl TimeUnit {
    /// The unit that these letters name: `fs`, `ps`, `ns`, `us` or `ms`, in small letters.
    pub fn named(letters: &[u8]) -> Option<TimeUnit>
        ensures { result ≡ unit_named letters.now }
    {
        match letters {
            b"fs" => Some(TimeUnit::Femtosecond),
            b"ps" => Some(TimeUnit::Picosecond),
            b"ns" => Some(TimeUnit::Nanosecond),
            b"us" => Some(TimeUnit::Microsecond),
            b"ms" => Some(TimeUnit::Millisecond),
            _ => None,
        }
    }

    /// How many femtoseconds it is worth.
    pub fn femtoseconds(self) -> Time
        ensures { result ≡ femtoseconds self }
    {
        match self {
            TimeUnit::Femtosecond => 1,
            TimeUnit::Picosecond => 1_000,
            TimeUnit::Nanosecond => 1_000_000,
            TimeUnit::Microsecond => 1_000_000_000,
            TimeUnit::Millisecond => 1_000_000_000_000,
        }
    }

    /// So many of this unit, in femtoseconds; None where that is above [`GREATEST_TIME`].
    pub fn time(self, number: u64) -> Option<Time>
        ensures { result ≡ time_of number self }
    {
        let time = number.checked_mul(self.femtoseconds())?;
        if time <= GREATEST_TIME {
            Some(time)
        } else {
            None
        }
    }
}

/// The number that 1 to 19 decimal digits spell, leading zeros among them; None for any other bytes.
pub fn read_number(digits: &[u8]) -> Option<u64>
    ensures { result ≡ number_of digits.now }
{
    if is_number(digits) {
        Some(value_of(digits))
    } else {
        None
    }
}

fn is_number(digits: &[u8]) -> bool
    ensures { result ≡ is_number digits.now }
{
    if digits.is_empty() || digits.len() > MOST_DIGITS {
        return false;
    }
    all_digits(digits)
}

fn all_digits(bytes: &[u8]) -> bool
    ensures { result ≡ list_all is_ascii_digit bytes.now }
{
    bytes.iter().all(|byte| byte.is_ascii_digit())
}

fn value_of(digits: &[u8]) -> u64
    requires { is_number digits.now ≡ true }
    ensures { result ≡ digits_value 10 digits.now }
{
    let mut value = 0u64;
    for digit in digits {
        value = value * 10 + u64::from(*digit - b'0');
    }
    value
}
