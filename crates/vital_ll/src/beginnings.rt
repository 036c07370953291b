ghost use Rattle.std.specs.Prelude.{◌≡◌, ◌+◌, length, All};
ghost use Rattle.vital_ll.specs.Choice.{IsNamed};
ghost use Rattle.vital_ll.specs.Marks.{has, marked, empties, begins, is_of_kind};
ghost use Rattle.vital_ll.specs.Masks.{token_at};
ghost use Rattle.vital_ll.specs.Passes.{EachBit};

use crate::grammar::Sym;

/// The bits at which each symbol is a rule that can be empty.
pub(crate) fn can_be_empty(symbols: &[Sym], nullable: &[u128]) -> u128
    requires { All (IsNamed (length nullable.now)) symbols.now }
    ensures { EachBit (λ i. has result i ≡ empties (marked nullable.now i) symbols.now) }
{
    let mut empty = u128::MAX;
    for symbol in symbols {
        match symbol {
            Sym::Token(_) => return 0,
            Sym::Rule(rule) => empty &= nullable[usize::from(*rule)],
        }
    }
    empty
}

/// The bit of a token of this kind in a mask that begins at bit `base`, if it has one there.
fn bit_of(kind: u16, base: usize) -> u128
    ensures { EachBit (λ i. has result i ≡ is_of_kind kind (token_at (base + i))) }
{
    let bit = usize::from(kind) + 1;
    if base <= bit && bit - base < 128 {
        1u128 << (bit - base)
    } else {
        0
    }
}

/// The tokens with which the symbols can begin, of those whose bits begin at bit `base`: they begin with a
/// token, or with a rule that does, past rules that can be empty. Past all of them `after` says so.
pub(crate) fn can_begin(
    symbols: &[Sym],
    base: usize,
    after: u128,
    nullable: &[u128],
    first: &[u128],
) -> u128
    requires named { All (IsNamed (length nullable.now)) symbols.now }
    requires rules { length first.now ≡ length nullable.now }
    ensures { EachBit (λ i. has result i
        ≡ begins (marked nullable.now i) (marked first.now i) (token_at (base + i)) (has after i) symbols.now) }
{
    let mut found = 0;
    let mut empty = u128::MAX;
    for symbol in symbols {
        match symbol {
            Sym::Token(kind) => return found | (empty & bit_of(*kind, base)),
            Sym::Rule(rule) => {
                let rule = usize::from(*rule);
                found |= empty & first[rule];
                empty &= nullable[rule];
            }
        }
    }
    found | (empty & after)
}
