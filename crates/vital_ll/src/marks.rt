ghost use Rattle.std.specs.Prelude.{◌≡◌, ℕ, ◌<◌, List, length};
ghost use Rattle.vital_ll.specs.Marks.{IsTurn, IsSaturated};

/// A pass over the items of a grammar that sets bits in the masks of rules, each for a reason.
pub(crate) trait Pass {
    /// What the items and the marks so far are known to be.
    ghost valid: { Self → Type 0 };

    /// How many rules there are, and how many items.
    ghost rules: { Self → ℕ };

    ghost items: { Self → ℕ };

    /// What a bit says of a rule.
    ghost reason: { Self → ℕ → ℕ → Type 0 };

    /// There is nothing more to mark at an item.
    ghost settled: { Self → List ℕ → ℕ → Type 0 };

    /// How many items there are.
    fn len(&self) -> usize
        ensures { result ≡ items self.now };

    /// Marks what this item asks for, and says whether that is anything new.
    fn mark(&self, item: usize, masks: &mut [u128]) -> bool
        requires valid { valid self.now }
        requires item { item < items self.now }
        requires rules { length masks.old ≡ rules self.now }
        ensures { IsTurn (reason self.now) (λ m. settled self.now m item) masks.old masks.new result };
}

/// Goes over the items once, and says whether anything new was marked.
fn sweep<P: Pass>(pass: &P, masks: &mut [u128]) -> bool
    requires valid { P.valid pass.now }
    requires rules { length masks.old ≡ P.rules pass.now }
    ensures { IsTurn (P.reason pass.now) (λ m. (k : ℕ) → k < P.items pass.now → P.settled pass.now m k)
        masks.old masks.new result }
{
    let mut changed = false;
    for item in 0..pass.len() {
        changed |= pass.mark(item, masks);
    }
    changed
}

/// Marks rules until there is nothing more to mark.
fn saturate<P: Pass>(pass: &P, masks: &mut [u128])
    requires valid { P.valid pass.now }
    requires rules { length masks.old ≡ P.rules pass.now }
    ensures { IsSaturated (P.reason pass.now) (λ m. (k : ℕ) → k < P.items pass.now → P.settled pass.now m k)
        masks.old masks.new }
{
    while sweep(pass, masks) {}
}

/// These masks, and all that the pass adds to them.
pub(crate) fn saturated<P: Pass>(pass: &P, mut masks: Vec<u128>) -> Vec<u128>
    requires valid { P.valid pass.now }
    requires rules { length masks.items ≡ P.rules pass.now }
    ensures { IsSaturated (P.reason pass.now) (λ m. (k : ℕ) → k < P.items pass.now → P.settled pass.now m k)
        masks.items result.items }
{
    saturate(pass, &mut masks);
    masks
}
