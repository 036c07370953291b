//! Numbers that literals write, however long the literals are, and how much greater one is than another one.

ghost use Rattle.std.specs.Prelude.{◌≡◌, ℕ, ◌+◌, ◌-◌, ◌*◌, ◌^◌, ◌<◌, ◌≤◌, drop, length, slice_index_or, IfSome};
ghost use Rattle.std.specs.Char.{digit_value};
ghost use Rattle.std.specs.Option.{option_map};
ghost use Rattle.vital_declarations.specs.Digits.{behind_zeros, digits_of, gap_to, shown, split_digit};
ghost use Rattle.vital_declarations.specs.Numbers.{in_word, number};

/// The greatest difference that is told: one more than a word of 64 bits holds.
const MOST: u128 = 18_446_744_073_709_551_616;

/// The digits of a literal that are still to come, behind as many zeros as stand before them.
#[derive(Drop)]
struct Digits<'a> {
    zeros: usize,
    literal: &'a [u8],
}

/// The value of the first digit of a literal, and what stands behind that digit.
fn split_digit(literal: &[u8]) -> Option<(u8, &[u8])>
    ensures split { option_map (λ r. (r.0, digits_of r.1.now)) result ≡ split_digit (digits_of literal.now) }
    ensures small { IfSome result (λ r. r.0 < 10) }
{
    let mut rest = literal;
    while let Some((byte, others)) = rest.split_first() {
        if byte.is_ascii_digit() {
            return Some((*byte - b'0', others));
        }
        rest = others;
    }
    None
}

impl<'a> Digits<'a> {
    /// The value of the next digit. It is zero where there is none.
    fn next(&mut self) -> u8
        ensures value { result ≡ digit_value (slice_index_or (shown self.old) 0 48) }
        ensures others { shown self.new ≡ drop 1 (shown self.old) }
        ensures small { result < 10 }
    {
        if self.zeros > 0 {
            self.zeros -= 1;
            return 0;
        }
        match split_digit(self.literal) {
            Some((digit, others)) => {
                self.literal = others;
                digit
            }
            None => 0,
        }
    }
}

/// How many digits a literal has.
fn count_digits(literal: &[u8]) -> usize
    ensures { result ≡ length (digits_of literal.now) }
{
    let mut count = 0;
    for byte in literal {
        if byte.is_ascii_digit() {
            count += 1;
        }
    }
    count
}

/// A width in which so many digits of each of two numbers have room.
fn width_of(upper: usize, lower: usize) -> usize
    ensures upper { upper ≤ result }
    ensures lower { lower ≤ result }
{
    if upper < lower { lower } else { upper }
}

/// The difference of two numbers with one more digit each.
fn next_gap(gap: Option<u128>, upper: u8, lower: u8) -> Option<u128>
    requires gap { IfSome gap (λ g. g ≤ MOST) }
    requires upper { upper < 10 }
    requires lower { lower < 10 }
    ensures { (m n : ℕ) → gap ≡ gap_to MOST m n → result ≡ gap_to MOST (m * 10 + upper) (n * 10 + lower) }
{
    let more = gap? * 10 + u128::from(upper);
    if more < u128::from(lower) {
        return None;
    }
    let difference = more - u128::from(lower);
    if difference < MOST {
        Some(difference)
    } else {
        Some(MOST)
    }
}

/// How much greater the number of a literal is than that of another one, which it may not be less than. More than a word of 64
/// bits holds is told as one more than that.
pub fn gap(upper: &[u8], lower: &[u8]) -> Option<u128>
    ensures { result ≡ gap_to (2 ^ 64) (number upper.now) (number lower.now) }
{
    let upper_count = count_digits(upper);
    let lower_count = count_digits(lower);
    let width = width_of(upper_count, lower_count);
    let mut upper_digits = Digits {
        zeros: width - upper_count,
        literal: upper,
    };
    let mut lower_digits = Digits {
        zeros: width - lower_count,
        literal: lower,
    };
    let mut gap = Some(0);
    for _ in 0..width {
        gap = next_gap(gap, upper_digits.next(), lower_digits.next());
    }
    gap
}

/// The number that a literal writes, if a word of 64 bits holds it. Underscores count for nothing.
pub fn literal_value(literal: &[u8]) -> Option<usize>
    ensures { result ≡ in_word (number literal.now) }
{
    match gap(literal, b"0") {
        Some(number) if number <= usize::MAX as u128 => Some(number as usize),
        _ => None,
    }
}
