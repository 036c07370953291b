ghost use Rattle.std.specs.Prelude.{ℕ, ◌≤◌, All};
ghost use Rattle.vital_ll.specs.Listing.{IsStepOf};
ghost use Rattle.vital_ll.specs.Table.{AreBelow, IsBelow};

use crate::derivation::Step;
use crate::grammar::{RuleList, Sym};

/// One more than the greatest kind of token among the symbols, and no less than `width`.
fn widest(symbols: &[Sym], width: usize) -> usize
    requires { width ≤ 65536 }
    ensures narrow { result ≤ 65536 }
    ensures wider { width ≤ result }
    ensures below { All (IsBelow result) symbols.now }
    ensures least { (n : ℕ) → width ≤ n → All (IsBelow n) symbols.now → result ≤ n }
{
    let mut widest = width;
    for symbol in symbols {
        if let Sym::Token(kind) = symbol {
            widest = widest.max(usize::from(*kind) + 1);
        }
    }
    widest
}

/// One more than the greatest kind of token that the alternatives name, or 0 where they name none.
pub(crate) fn width_of(rules: &RuleList, steps: &[Step]) -> usize
    requires { All (IsStepOf rules.now) steps.now }
    ensures narrow { result ≤ 65536 }
    ensures below { AreBelow rules.now steps.now result }
    ensures least { (n : ℕ) → AreBelow rules.now steps.now n → result ≤ n }
{
    let mut width = 0;
    for step in steps {
        width = widest(rules.symbols(step.rule, step.alternative), width);
    }
    width
}
