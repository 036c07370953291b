ghost use Rattle.std.specs.Prelude.{◌≡◌, ℕ, ◌+◌, ◌<◌, ◌∷◌, [], List, length, IfSome, IfNone};
ghost use Rattle.vital_ll.specs.declared.grammar.Sym.{Sym};
ghost use Rattle.vital_ll.specs.declared.grammar.Sym.TheVariants.{Rule};
ghost use Rattle.vital_ll.specs.Choice.{CanBegin, CanBeEmpty, Follows, IsWellFormed};
ghost use Rattle.vital_ll.specs.Marks.{marked, IsAdded, IsReached, EmptySound};
ghost use Rattle.vital_ll.specs.Masks.{token_at};
ghost use Rattle.vital_ll.specs.Listing.{ListsSteps, ListsPlaces, IsPlaceOf};
ghost use Rattle.vital_ll.specs.Passes.{At, EachBit, EmptyAt, FirstAt, IsNamedAt, ReachAt, FollowAt, FollowsFrom};

use crate::beginnings::{can_be_empty, can_begin};
use crate::derivation::Step;
use crate::grammar::{RuleList, Sym};
use crate::listing::Place;
use crate::marks::Pass;

/// Adds bits to the mask of a rule, and says whether one of them is new.
fn add(masks: &mut [u128], rule: usize, bits: u128) -> bool
    requires { rule < length masks.old }
    ensures { IsAdded masks.old masks.new rule bits result }
{
    let old = masks[rule];
    let new = old | bits;
    masks[rule] = new;
    new != old
}

/// Marks each rule that can be empty.
#[derive(Drop)]
pub(crate) struct EmptyPass<'a> {
    pub(crate) rules: &'a RuleList,
    pub(crate) steps: &'a [Step],
}

impl Pass for EmptyPass<'_> {
    ghost valid = { λ s. IsWellFormed s.rules.now × ListsSteps s.rules.now s.steps.now };

    ghost rules = { λ s. length s.rules.now };

    ghost items = { λ s. length s.steps.now };

    ghost reason = { λ s _ r. CanBeEmpty s.rules.now (Rule r ∷ []) };

    ghost settled = { λ s masks k. At s.steps.now k (λ step. EachBit (λ i. EmptyAt s.rules.now (marked masks i) step)) };

    fn len(&self) -> usize {
        self.steps.len()
    }

    fn mark(&self, item: usize, masks: &mut [u128]) -> bool {
        let step = self.steps[item];
        let symbols = self.rules.symbols(step.rule, step.alternative);
        let bits = can_be_empty(symbols, masks);
        add(masks, usize::from(step.rule), bits)
    }
}

/// Marks each rule with the tokens that it can begin with, of those whose bits begin at bit `base`.
#[derive(Drop)]
pub(crate) struct FirstPass<'a> {
    pub(crate) rules: &'a RuleList,
    pub(crate) steps: &'a [Step],
    pub(crate) base: usize,
    pub(crate) nullable: &'a [u128],
}

impl Pass for FirstPass<'_> {
    ghost valid = { λ s. IsWellFormed s.rules.now × ListsSteps s.rules.now s.steps.now × (length s.nullable.now ≡ length s.rules.now) × EachBit (λ i. EmptySound s.rules.now (marked s.nullable.now i)) };

    ghost rules = { λ s. length s.rules.now };

    ghost items = { λ s. length s.steps.now };

    ghost reason = { λ s i r. CanBegin s.rules.now (Rule r ∷ []) (token_at (s.base + i)) };

    ghost settled = { λ s masks k. At s.steps.now k (λ step. EachBit (λ i. FirstAt s.rules.now (marked s.nullable.now i) (token_at (s.base + i)) (marked masks i) step)) };

    fn len(&self) -> usize {
        self.steps.len()
    }

    fn mark(&self, item: usize, masks: &mut [u128]) -> bool {
        let step = self.steps[item];
        let symbols = self.rules.symbols(step.rule, step.alternative);
        let bits = can_begin(symbols, self.base, 0, self.nullable, masks);
        add(masks, usize::from(step.rule), bits)
    }
}

/// The rule that is named at this place, and the symbols after it, or none where a token stands there.
fn named_at(rules: &RuleList, place: Place) -> Option<(u16, &[Sym])>
    requires { IsPlaceOf rules.now place }
    ensures rule { IfSome result (λ named. IsNamedAt rules.now place named.0 named.1.now) }
    ensures token { IfNone result ((r : ℕ) (after : List Sym) → IsNamedAt rules.now place r after → ⊥) }
{
    let symbols = rules.symbols(place.step.rule, place.step.alternative);
    match symbols[place.symbol] {
        Sym::Token(_) => None,
        Sym::Rule(named) => Some((named, &symbols[place.symbol + 1..])),
    }
}

/// Marks each rule that stands in some sentential form.
#[derive(Drop)]
pub(crate) struct ReachPass<'a> {
    pub(crate) rules: &'a RuleList,
    pub(crate) steps: &'a [Step],
    pub(crate) places: &'a [Place],
}

impl Pass for ReachPass<'_> {
    ghost valid = { λ s. IsWellFormed s.rules.now × ListsPlaces s.rules.now s.steps.now s.places.now };

    ghost rules = { λ s. length s.rules.now };

    ghost items = { λ s. length s.places.now };

    ghost reason = { λ s _ r. IsReached s.rules.now r };

    ghost settled = { λ s masks k. At s.places.now k (λ place. EachBit (λ i. ReachAt s.rules.now (marked masks i) place)) };

    fn len(&self) -> usize {
        self.places.len()
    }

    fn mark(&self, item: usize, masks: &mut [u128]) -> bool {
        let place = self.places[item];
        let bits = masks[usize::from(place.step.rule)];
        match named_at(self.rules, place) {
            None => false,
            Some((named, _)) => add(masks, usize::from(named), bits),
        }
    }
}

/// Marks each rule with the tokens that follow it in some sentence.
#[derive(Drop)]
pub(crate) struct FollowPass<'a> {
    pub(crate) rules: &'a RuleList,
    pub(crate) steps: &'a [Step],
    pub(crate) places: &'a [Place],
    pub(crate) base: usize,
    pub(crate) nullable: &'a [u128],
    pub(crate) first: &'a [u128],
    pub(crate) reached: &'a [u128],
}

impl Pass for FollowPass<'_> {
    ghost valid = { λ s. FollowsFrom s.rules.now s.steps.now s.places.now s.base s.nullable.now s.first.now s.reached.now };

    ghost rules = { λ s. length s.rules.now };

    ghost items = { λ s. length s.places.now };

    ghost reason = { λ s i r. Follows s.rules.now r (token_at (s.base + i)) };

    ghost settled = { λ s masks k. At s.places.now k (λ place. EachBit (λ i. FollowAt s.rules.now (marked s.nullable.now i) (marked s.first.now i) (marked s.reached.now i) (token_at (s.base + i)) (marked masks i) place)) };

    fn len(&self) -> usize {
        self.places.len()
    }

    fn mark(&self, item: usize, masks: &mut [u128]) -> bool {
        let place = self.places[item];
        let rule = usize::from(place.step.rule);
        match named_at(self.rules, place) {
            None => false,
            Some((named, after)) => {
                let bits = can_begin(after, self.base, masks[rule], self.nullable, self.first);
                add(masks, usize::from(named), self.reached[rule] & bits)
            }
        }
    }
}
