//! Natural numbers of any size.

ghost use Rattle.std.specs.Prelude.{◌≡◌, ◌+◌, ◌-◌, ◌^◌, ◌≤◌, nat_lt, Some, None, if◌then◌else◌, IfOk, IfSome, MatchOption};
ghost use Rattle.std.specs.Ordering.{nat_cmp};
ghost use Rattle.vital_naturals.specs.Digits as spec;
ghost use Rattle.vital_naturals.specs.Forms.{digits_written};
ghost use Rattle.vital_naturals.specs.Numerals.{number, numeral};

use crate::digits::{compare, difference_of, digits_of_literal, numeral_of, sum_of};
use crate::word::{digits_of_word, numeral_of_word, word_of_digits, word_of_literal};
use std::alloc::{AllocError, Global};
use std::cmp::Ordering;
use std::marker::Model;

/// How a number is kept.
#[derive(Drop)]
enum Form {
    /// In a machine word.
    Word(u64),
    /// By its decimal digits, that of the ones first. Zeros may stand behind the last other one.
    Digits(Vec<u8>),
}

/// The decimal digits of a number, that of the ones first.
#[derive(Drop)]
enum Written<'a> {
    /// Those of a word.
    OfWord([u8; 20]),
    /// Those by which it is kept.
    Kept(&'a [u8]),
}

impl Written<'_> {
    fn as_slice(&self) -> &[u8]
        ensures { result.now ≡ digits_written self.now }
    {
        match self {
            Written::OfWord(digits) => digits,
            Written::Kept(digits) => digits,
        }
    }
}

/// A natural number of any size. Contracts see it as the number. One that fits a machine word takes no memory, unless it was made
/// from greater ones.
#[derive(Drop)]
pub struct Natural {
    form: Form,
}

impl Model for Natural {
    ghost use Rattle.std.specs.Prelude.{ℕ};
    ghost use Rattle.vital_naturals.specs.Forms.{IsForm, number_of};

    ghost Value = { ℕ };

    ghost view = { λ n. number_of n.form };

    ghost invariant = { λ n. IsForm n.form };
}

impl Natural {
    /// Zero. It takes no memory.
    pub fn zero(_alloc: Global) -> Natural
        ensures { result ≡ 0 }
    {
        Natural::of_word(0)
    }

    /// A number that fits a word.
    fn of_word(word: u64) -> Natural
        ensures { result ≡ word }
    {
        Natural {
            form: Form::Word(word),
        }
    }

    /// The number that digits write, that of the ones first.
    fn of_digits(digits: Vec<u8>) -> Natural
        requires { spec.AreDigits digits.items }
        ensures { result ≡ spec.value digits.items }
    {
        Natural {
            form: Form::Digits(digits),
        }
    }

    /// The number that an integer literal writes, however long it is (IEEE 1076-1993, 13.4.1). Underscores count for nothing.
    pub fn of_literal(alloc: Global, literal: &[u8]) -> Result<Natural, AllocError>
        ensures { IfOk result (λ n. n ≡ number literal.now) }
    {
        match word_of_literal(literal) {
            Some(word) => Ok(Natural::of_word(word)),
            None => {
                let digits = digits_of_literal(alloc, literal)?;
                Ok(Natural::of_digits(digits))
            }
        }
    }

    /// The same number once more.
    pub fn copy(&self, alloc: Global) -> Result<Natural, AllocError>
        ensures { IfOk result (λ n. n ≡ self.now) }
    {
        match &self.form {
            Form::Word(word) => Ok(Natural::of_word(*word)),
            Form::Digits(digits) => {
                let digits = Vec::from_slice(alloc, digits.as_slice())?;
                Ok(Natural::of_digits(digits))
            }
        }
    }

    /// It, if it is kept in a word.
    fn word(&self) -> Option<u64>
        ensures { IfSome result (λ word. word ≡ self.now) }
    {
        match &self.form {
            Form::Word(word) => Some(*word),
            Form::Digits(_) => None,
        }
    }

    /// It, if it fits a word, however it is kept.
    fn fitting(&self) -> Option<u64>
        ensures { MatchOption result (2 ^ 64 ≤ self.now) (λ word. word ≡ self.now) }
    {
        match &self.form {
            Form::Word(word) => Some(*word),
            Form::Digits(digits) => word_of_digits(digits.as_slice()),
        }
    }

    /// It, if it is less than a count. It takes time in proportion to its digits.
    pub fn below(&self, count: usize) -> Option<usize>
        ensures { result ≡ if nat_lt self.now count then Some self.now else None }
    {
        match self.fitting() {
            Some(word) if word < count as u64 => Some(word as usize),
            _ => None,
        }
    }

    /// It and another number, if both are kept in words.
    fn words(&self, other: &Natural) -> Option<(u64, u64)>
        ensures first { IfSome result (λ words. words.0 ≡ self.now) }
        ensures second { IfSome result (λ words. words.1 ≡ other.now) }
    {
        Some((self.word()?, other.word()?))
    }

    /// Its digits.
    fn digits(&self) -> Written<'_>
        ensures digits { spec.AreDigits (digits_written result) }
        ensures value { spec.value (digits_written result) ≡ self.now }
    {
        match &self.form {
            Form::Word(word) => Written::OfWord(digits_of_word(*word)),
            Form::Digits(digits) => Written::Kept(digits.as_slice()),
        }
    }

    /// The sum of two numbers, if both are kept in words and it fits one.
    fn sum_of_words(&self, other: &Natural) -> Option<u64>
        ensures { IfSome result (λ sum. sum ≡ self.now + other.now) }
    {
        let (first, second) = self.words(other)?;
        first.checked_add(second)
    }

    /// The sum of two numbers, by their digits.
    fn sum_of_digits(&self, alloc: Global, other: &Natural) -> Result<Natural, AllocError>
        ensures { IfOk result (λ n. n ≡ self.now + other.now) }
    {
        let first = self.digits();
        let second = other.digits();
        let digits = sum_of(alloc, first.as_slice(), second.as_slice())?;
        Ok(Natural::of_digits(digits))
    }

    /// The sum of two numbers. It takes time in proportion to their digits.
    pub fn plus(&self, alloc: Global, other: &Natural) -> Result<Natural, AllocError>
        ensures { IfOk result (λ n. n ≡ self.now + other.now) }
    {
        match self.sum_of_words(other) {
            Some(sum) => Ok(Natural::of_word(sum)),
            None => self.sum_of_digits(alloc, other),
        }
    }

    /// The number behind this one.
    pub fn successor(&self, alloc: Global) -> Result<Natural, AllocError>
        ensures { IfOk result (λ n. n ≡ self.now + 1) }
    {
        self.plus(alloc, &Natural::of_word(1))
    }

    /// How much greater it is than another number, by their digits; zero if it is not greater.
    fn difference_of_digits(&self, alloc: Global, other: &Natural) -> Result<Natural, AllocError>
        ensures { IfOk result (λ n. n ≡ self.now - other.now) }
    {
        if self.is_less(other) {
            return Ok(Natural::zero(alloc));
        }
        let upper = self.digits();
        let lower = other.digits();
        let digits = difference_of(alloc, upper.as_slice(), lower.as_slice())?;
        Ok(Natural::of_digits(digits))
    }

    /// How much greater it is than another number; zero if it is not greater. It takes time in proportion to their digits.
    pub fn minus(&self, alloc: Global, other: &Natural) -> Result<Natural, AllocError>
        ensures { IfOk result (λ n. n ≡ self.now - other.now) }
    {
        match self.words(other) {
            Some((upper, lower)) => Ok(Natural::of_word(upper.saturating_sub(lower))),
            None => self.difference_of_digits(alloc, other),
        }
    }

    /// Whether it is less than another number.
    pub fn is_less(&self, other: &Natural) -> bool
        ensures { result ≡ nat_lt self.now other.now }
    {
        self.compare(other) == Ordering::Less
    }

    /// How it compares with a number, by their digits.
    fn compare_digits(&self, other: &Natural) -> Ordering
        ensures { result ≡ nat_cmp self.now other.now }
    {
        let first = self.digits();
        let second = other.digits();
        compare(first.as_slice(), second.as_slice())
    }

    /// How it compares with a number.
    pub fn compare(&self, other: &Natural) -> Ordering
        ensures { result ≡ nat_cmp self.now other.now }
    {
        match self.words(other) {
            Some((first, second)) => first.cmp(&second),
            None => self.compare_digits(other),
        }
    }

    /// Its decimal numeral, as bytes of ASCII, without zeros before it.
    pub fn numeral(&self, alloc: Global) -> Result<Vec<u8>, AllocError>
        ensures { IfOk result (λ bytes. bytes.items ≡ numeral self.now) }
    {
        match &self.form {
            Form::Word(word) => numeral_of_word(alloc, *word),
            Form::Digits(digits) => numeral_of(alloc, digits.as_slice()),
        }
    }
}
