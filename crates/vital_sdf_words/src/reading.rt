//! Numbers of an SDF file while they are read.

ghost use Rattle.std.specs.Prelude.{◌≡◌, ℕ, ◌+◌, ◌*◌, ◌^◌, ◌<◌, ◌≤◌, List, [], ◌∷◌, ◌++◌, min};
ghost use Rattle.vital_sdf_words.specs.Decimals.{signed};
ghost use Rattle.vital_sdf_words.specs.Readings.{IsCut, Reads, capped, half, magnitude, rounded};

/// Ten times 2^60, which is the greatest answer.
const MOST: u128 = 11_529_215_046_068_469_760;

/// A number while it is read. Its digits count up to one place behind a femtosecond, and it is known whether more follow.
#[derive(Drop)]
pub struct Reading {
    /// The digits that count, as a whole number of tenths of a femtosecond once all places are read; no more than [`MOST`].
    tenths: u64,
    /// How many digits behind the point still count.
    places: u32,
    is_behind_point: bool,
    /// Is one of the digits that don't count other than 0?
    has_more: bool,
}

impl Reading {
    /// Nothing is read of a number of units that are worth ten to this power femtoseconds.
    pub fn new(power: u32) -> Self
        requires { power ≤ 17 }
        ensures { Reads power [] result }
    {
        Reading {
            tenths: 0,
            places: power + 1,
            is_behind_point: false,
            has_more: false,
        }
    }

    /// One byte more.
    pub fn read(&mut self, byte: u8)
        ensures { (power : ℕ) (bytes : List ℕ) → Reads power bytes self.old → Reads power (bytes ++ byte ∷ []) self.new }
    {
        if byte == b'.' {
            self.is_behind_point = true;
        } else if byte.is_ascii_digit() {
            self.read_digit(byte - b'0');
        }
    }

    /// One digit more.
    fn read_digit(&mut self, digit: u8)
        requires { digit < 10 }
        ensures { (power : ℕ) (bytes : List ℕ) → Reads power bytes self.old → Reads power (bytes ++ (48 + digit) ∷ []) self.new }
    {
        if !self.is_behind_point {
            self.tenths = with_digit(self.tenths, digit);
        } else if self.places > 0 {
            self.tenths = with_digit(self.tenths, digit);
            self.places -= 1;
        } else {
            self.has_more = self.has_more || digit > 0;
        }
    }

    /// The number that is read or its negative, as the nearest whole number of femtoseconds.
    pub fn rounded(&self, is_negative: bool) -> i64
        ensures { (power : ℕ) (bytes : List ℕ) → Reads power bytes self.now → result ≡ rounded is_negative bytes power }
    {
        let mut tenths = self.tenths;
        for _ in 0..self.places {
            tenths = with_digit(tenths, 0);
        }
        signed(is_negative, nearest(is_negative, tenths, self.has_more))
    }
}

/// A number with one digit more, which is no more than [`MOST`].
fn with_digit(number: u64, digit: u8) -> u64
    requires { digit < 10 }
    ensures { (n : ℕ) → number ≡ capped n → result ≡ capped (n * 10 + digit) }
{
    (u128::from(number) * 10 + u128::from(digit)).min(MOST) as u64
}

/// How many tenths are added before the last of them is cut off. Half way a number goes up, and so does its negative.
fn half(is_negative: bool, has_more: bool) -> u64
    ensures half { result ≡ half is_negative has_more }
    ensures small { result ≤ 5 }
{
    if is_negative && !has_more { 4 } else { 5 }
}

/// The whole number that is nearest to so many tenths and a bit more, or the one whose negative is nearest to the negative of that.
fn nearest(is_negative: bool, tenths: u64, has_more: bool) -> u64
    ensures nearest { (n d : ℕ) → 0 < d → IsCut n d tenths has_more → result ≡ min (2 ^ 60) (magnitude is_negative n d) }
    ensures small { result < 2 ^ 62 }
{
    tenths / 10 + (tenths % 10 + half(is_negative, has_more)) / 10
}

fn signed(is_negative: bool, number: u64) -> i64
    requires { number < 2 ^ 62 }
    ensures { result ≡ signed is_negative number }
{
    if is_negative {
        -(number as i64)
    } else {
        number as i64
    }
}
