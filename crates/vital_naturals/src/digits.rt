//! Decimal digits of natural numbers, that of the ones first. Behind the last of them all are zero.

ghost use Rattle.std.specs.Prelude.{◌≡◌, ◌+◌, ◌*◌, ◌<◌, ◌≤◌, drop, length, map, reverse, slice_index, IfOk};
ghost use Rattle.std.specs.Ordering.{nat_cmp};
ghost use Rattle.vital_naturals.specs.Digits as spec;
ghost use Rattle.vital_naturals.specs.Numerals.{number, numeral};

use std::alloc::{AllocError, Global};
use std::cmp::Ordering;

/// The digit at a place.
fn digit_at(digits: &[u8], place: usize) -> u8
    requires { spec.AreDigits digits.now }
    ensures digit { result ≡ slice_index digits.now place }
    ensures small { result < 10 }
{
    match digits.get(place) {
        Some(digit) => *digit,
        None => 0,
    }
}

/// The greatest of two numbers of digits.
fn width_of(first: &[u8], second: &[u8]) -> usize
    ensures first { length first.now ≤ result }
    ensures second { length second.now ≤ result }
{
    if first.len() < second.len() {
        second.len()
    } else {
        first.len()
    }
}

/// The digits of a literal, whose underscores count for nothing.
pub fn digits_of_literal(alloc: Global, literal: &[u8]) -> Result<Vec<u8>, AllocError>
    ensures digits { IfOk result (λ found. spec.AreDigits found.items) }
    ensures value { IfOk result (λ found. spec.value found.items ≡ number literal.now) }
{
    let mut digits = Vec::new(alloc);
    let mut rest = literal;
    while let Some((byte, others)) = rest.split_last() {
        if byte.is_ascii_digit() {
            digits.push(*byte - b'0')?;
        }
        rest = others;
    }
    Ok(digits)
}

/// The digits of a sum. It takes time and memory in proportion to those of both numbers.
pub fn sum_of(alloc: Global, first: &[u8], second: &[u8]) -> Result<Vec<u8>, AllocError>
    requires first { spec.AreDigits first.now }
    requires second { spec.AreDigits second.now }
    ensures digits { IfOk result (λ sum. spec.AreDigits sum.items) }
    ensures value { IfOk result (λ sum. spec.value sum.items ≡ spec.value first.now + spec.value second.now) }
{
    let mut sum = Vec::new(alloc);
    let mut carry = 0;
    for place in 0..width_of(first, second) {
        let digit = digit_at(first, place) + digit_at(second, place) + carry;
        sum.push(digit % 10)?;
        carry = digit / 10;
    }
    if carry > 0 {
        sum.push(carry)?;
    }
    Ok(sum)
}

/// What is left of a digit when another one is taken from it, and whether ten had to be borrowed.
fn digit_left(digit: u8, taken: u8) -> (u8, u8)
    requires digit { digit < 10 }
    requires taken { taken ≤ 10 }
    ensures left { result.0 + taken ≡ digit + 10 * result.1 }
    ensures small { result.0 < 10 }
    ensures borrowed { result.1 ≤ 1 }
{
    if digit < taken {
        (digit + 10 - taken, 1)
    } else {
        (digit - taken, 0)
    }
}

/// The digits of a difference. It takes time and memory in proportion to those of both numbers.
pub fn difference_of(alloc: Global, upper: &[u8], lower: &[u8]) -> Result<Vec<u8>, AllocError>
    requires upper { spec.AreDigits upper.now }
    requires lower { spec.AreDigits lower.now }
    requires less { spec.value lower.now ≤ spec.value upper.now }
    ensures digits { IfOk result (λ left. spec.AreDigits left.items) }
    ensures value { IfOk result (λ left. spec.value left.items + spec.value lower.now ≡ spec.value upper.now) }
{
    let mut left = Vec::new(alloc);
    let mut borrowed = 0;
    for place in 0..width_of(upper, lower) {
        let (digit, ten) = digit_left(digit_at(upper, place), digit_at(lower, place) + borrowed);
        left.push(digit)?;
        borrowed = ten;
    }
    Ok(left)
}

/// How two numbers compare from a place on, which are the same behind it.
#[tactic(auto, using(crate::proofs::OrderLemmas::cmp_at))]
fn compare_from(first: &[u8], second: &[u8], place: usize) -> Ordering
    requires first { spec.AreDigits first.now }
    requires second { spec.AreDigits second.now }
    requires same { spec.value (drop (place + 1) first.now) ≡ spec.value (drop (place + 1) second.now) }
    ensures { result ≡ nat_cmp (spec.value (drop place first.now)) (spec.value (drop place second.now)) }
{
    digit_at(first, place).cmp(&digit_at(second, place))
}

/// How two numbers compare. It takes time in proportion to their digits.
#[tactic(auto, using(crate::proofs::OrderLemmas::cmp_less, crate::proofs::OrderLemmas::cmp_greater, crate::proofs::OrderLemmas::cmp_equal, crate::proofs::OrderLemmas::cmp_same))]
pub fn compare(first: &[u8], second: &[u8]) -> Ordering
    requires first { spec.AreDigits first.now }
    requires second { spec.AreDigits second.now }
    ensures { result ≡ nat_cmp (spec.value first.now) (spec.value second.now) }
{
    let mut place = width_of(first, second);
    while place > 0 {
        place -= 1;
        match compare_from(first, second, place) {
            Ordering::Less => return Ordering::Less,
            Ordering::Equal => {}
            Ordering::Greater => return Ordering::Greater,
        }
    }
    Ordering::Equal
}

/// The digits without the zeros behind the last other one.
fn significant(digits: &[u8]) -> &[u8]
    requires { spec.AreDigits digits.now }
    ensures digits { spec.AreDigits result.now }
    ensures significant { result.now ≡ spec.significant digits.now }
{
    let mut rest = digits;
    while let Some((last, others)) = rest.split_last() {
        if *last != 0 {
            return rest;
        }
        rest = others;
    }
    rest
}

/// The digits as bytes of ASCII.
fn ascii_digits(alloc: Global, digits: &[u8]) -> Result<Vec<u8>, AllocError>
    requires { spec.AreDigits digits.now }
    ensures { IfOk result (λ bytes. bytes.items ≡ map (λ d. 48 + d) digits.now) }
{
    digits.iter().map(|digit| b'0' + *digit).collect(alloc)
}

/// The digits as bytes of ASCII, that of the ones last.
fn ascii_of(alloc: Global, digits: &[u8]) -> Result<Vec<u8>, AllocError>
    requires { spec.AreDigits digits.now }
    ensures { IfOk result (λ bytes. bytes.items ≡ map (λ d. 48 + d) (reverse digits.now)) }
{
    let mut bytes = ascii_digits(alloc, digits)?;
    bytes.reverse();
    Ok(bytes)
}

/// The numeral of the number that digits write, as bytes of ASCII, without zeros before it.
pub fn numeral_of(alloc: Global, digits: &[u8]) -> Result<Vec<u8>, AllocError>
    requires { spec.AreDigits digits.now }
    ensures { IfOk result (λ bytes. bytes.items ≡ numeral (spec.value digits.now)) }
{
    let shown = significant(digits);
    if shown.is_empty() {
        Vec::from_slice(alloc, b"0")
    } else {
        ascii_of(alloc, shown)
    }
}
