//! Sums of two numbers that literals write, however long the literals are.

ghost use Rattle.std.specs.Prelude.{◌≡◌, ◌+◌, ◌*◌, ◌-◌, ◌<◌, ◌≤◌, ◌==◌, length};
ghost use Rattle.vital_associations.specs.Sums.{value};
ghost use Rattle.vital_declarations.specs.Numbers.{number};

use vital_base::Name;

/// What is left of the literals of two numbers, and what their digits that were added so far carry over: one or nothing.
#[derive(Drop)]
struct Sum<'a> {
    first: &'a [u8],
    second: &'a [u8],
    carry: u8,
}

/// What stands before the last digit of a literal, and the value of that digit. It is zero where there is none.
fn split_last_digit(literal: &[u8]) -> (&[u8], u8)
    ensures value { number literal.now ≡ number result.0.now * 10 + result.1 }
    ensures small { result.1 < 10 }
    ensures shorter { length result.0.now ≤ length literal.now - 1 }
{
    let mut rest = literal;
    while let Some((byte, others)) = rest.split_last() {
        if byte.is_ascii_digit() {
            return (others, *byte - b'0');
        }
        rest = others;
    }
    (rest, 0)
}

/// The greatest of two lengths.
fn longer(first: &[u8], second: &[u8]) -> usize
    ensures first { length first.now ≤ result }
    ensures second { length second.now ≤ result }
{
    if first.len() < second.len() {
        second.len()
    } else {
        first.len()
    }
}

impl<'a> Sum<'a> {
    /// The sum of the numbers of two literals.
    fn new(first: &'a Name, second: &'a Name) -> Sum<'a>
        ensures value { value result ≡ number first.now + number second.now }
        ensures carry { result.carry ≤ 1 }
    {
        Sum {
            first: first.as_slice(),
            second: second.as_slice(),
            carry: 0,
        }
    }

    /// A count of digits behind which nothing is left of the literals.
    fn width(&self) -> usize
        ensures first { length self.now.first.now ≤ result }
        ensures second { length self.now.second.now ≤ result }
    {
        longer(self.first, self.second)
    }

    /// Takes the last digit of the sum.
    fn take_digit(&mut self) -> u8
        requires { self.old.carry ≤ 1 }
        ensures value { value self.old ≡ value self.new * 10 + result }
        ensures small { result < 10 }
        ensures carry { self.new.carry ≤ 1 }
        ensures first { length self.new.first.now ≤ length self.old.first.now - 1 }
        ensures second { length self.new.second.now ≤ length self.old.second.now - 1 }
    {
        let (first, digit) = split_last_digit(self.first);
        let (second, other) = split_last_digit(self.second);
        let sum = digit + other + self.carry;
        self.first = first;
        self.second = second;
        self.carry = sum / 10;
        sum % 10
    }

    /// A count of digits behind which nothing is left of the literals of two sums.
    fn width_with(&self, other: &Sum<'_>) -> usize
        ensures first { length self.now.first.now ≤ result }
        ensures second { length self.now.second.now ≤ result }
        ensures other_first { length other.now.first.now ≤ result }
        ensures other_second { length other.now.second.now ≤ result }
    {
        let width = self.width();
        let other_width = other.width();
        if width < other_width {
            other_width
        } else {
            width
        }
    }

    /// Whether two sums are one number.
    fn is_same(mut self, mut other: Sum<'_>) -> bool
        requires carry { self.carry ≤ 1 }
        requires other_carry { other.carry ≤ 1 }
        ensures { result ≡ (value self.entry == value other.entry) }
    {
        for _ in 0..self.width_with(&other) {
            if self.take_digit() != other.take_digit() {
                return false;
            }
        }
        self.carry == other.carry
    }
}

/// Whether the numbers of two literals have the sum that those of two other ones have. It takes time in proportion to the literals.
pub fn have_same_sum(first: &Name, second: &Name, other_first: &Name, other_second: &Name) -> bool
    ensures { result ≡ (number first.now + number second.now == number other_first.now + number other_second.now) }
{
    Sum::new(first, second).is_same(Sum::new(other_first, other_second))
}
