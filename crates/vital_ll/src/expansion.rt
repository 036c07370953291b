ghost use Rattle.std.specs.Prelude.{◌≡◌, ℕ, ◌++◌, length, All, Some, None, IfOk, IfSome, OnOk, slice_index_or};
ghost use Rattle.vital_ll.specs.declared.expansion.Expansion.{Expansion};
ghost use Rattle.vital_ll.specs.Choice.{IsNamed, IsWellFormed};
ghost use Rattle.vital_ll.specs.Listing.{IsStepOf};
ghost use Rattle.vital_ll.specs.Expansion.{AreInside, AreLonger, AreExpansions, IsDecided, IsFirstExpansion, IsInside, IsPassed, IsExpansion, more_in, steps_in, symbols_in};

use crate::derivation::Step;
use crate::grammar::{RuleList, Sym};
use std::alloc::AllocError;

/// A part of a list.
#[derive(Clone, Copy)]
pub(crate) struct Part {
    pub(crate) start: usize,
    pub(crate) end: usize,
}

/// What a rule comes to before the next token is taken: the step that the token decides for, the steps that it decides for
/// after it, and the symbols that they leave. The last two are parts of the lists of all expansions. Most expansions have
/// one step, which is at hand without the lists.
#[derive(Clone, Copy)]
pub(crate) struct Expansion {
    pub(crate) step: Step,
    pub(crate) more: Part,
    pub(crate) symbols: Part,
}

/// The steps after the first and the symbols of all expansions, one expansion after another.
#[derive(Drop)]
pub(crate) struct Expansions {
    pub(crate) steps: Vec<Step>,
    pub(crate) symbols: Vec<Sym>,
}

/// The expansion of the rule that the symbols begin with, and the symbols after the rule, where there is such a rule and
/// it has one.
fn first_expansion<'a>(
    symbols: &'a [Sym],
    column: &[Option<Expansion>],
) -> Option<(Expansion, &'a [Sym])>
    requires { All (IsNamed (length column.now)) symbols.now }
    ensures { IfSome result (λ first. IsFirstExpansion symbols.now column.now first.0 first.1.now) }
{
    if symbols.is_empty() {
        return None;
    }
    match symbols[0] {
        Sym::Token(_) => None,
        Sym::Rule(rule) => match column[usize::from(rule)] {
            None => None,
            Some(expansion) => Some((expansion, &symbols[1..])),
        },
    }
}

impl Expansions {
    /// Appends the steps and the symbols of an expansion once more.
    fn repeat(&mut self, expansion: Expansion) -> Result<(), AllocError>
        requires { IsInside self.old expansion }
        ensures steps { OnOk result (self.new.steps.items ≡ self.old.steps.items ++ steps_in self.old expansion) }
        ensures symbols { OnOk result (self.new.symbols.items ≡ self.old.symbols.items ++ symbols_in self.old expansion) }
    {
        self.steps.push(expansion.step)?;
        self.steps
            .extend_from_within(expansion.more.start..expansion.more.end)?;
        self.symbols
            .extend_from_within(expansion.symbols.start..expansion.symbols.end)
    }

    /// Appends the steps of the rules that the symbols begin with and that come to nothing, and gives the symbols after
    /// these rules.
    fn pass_empty<'a>(
        &mut self,
        symbols: &'a [Sym],
        column: &[Option<Expansion>],
    ) -> Result<&'a [Sym], AllocError>
        requires named { All (IsNamed (length column.now)) symbols.now }
        requires inside { AreInside self.old column.now }
        ensures named { IfOk result (λ left. All (IsNamed (length column.now)) left.now) }
        ensures symbols { OnOk result (self.new.symbols.items ≡ self.old.symbols.items) }
        ensures passed { IfOk result (λ left. IsPassed self.old self.new column.now symbols.now left.now) }
    {
        let mut left = symbols;
        while let Some((expansion, rest)) = first_expansion(left, column) {
            if expansion.symbols.start < expansion.symbols.end {
                return Ok(left);
            }
            self.repeat(expansion)?;
            left = rest;
        }
        Ok(left)
    }

    /// Appends the expansion of a rule for which a token decides by this step. Where the alternative begins with rules that
    /// have expansions in the column of the token, it goes on with theirs.
    pub(crate) fn push(
        &mut self,
        rules: &RuleList,
        step: Step,
        column: &[Option<Expansion>],
    ) -> Result<Expansion, AllocError>
        requires well_formed { IsWellFormed rules.now }
        requires there { IsStepOf rules.now step }
        requires size { length column.now ≡ length rules.now }
        requires inside { AreInside self.old column.now }
        ensures kept { IfOk result (λ expansion. AreLonger self.old self.new) }
        ensures expansion { IfOk result (λ expansion. (bit : ℕ) → AreExpansions rules.now bit self.old column.now
            → IsDecided rules.now bit step.rule step.alternative → IsExpansion rules.now bit self.new step.rule expansion) }
    {
        let more_start = self.steps.len();
        let symbols_start = self.symbols.len();
        let symbols = rules.symbols(step.rule, step.alternative);
        let left = self.pass_empty(symbols, column)?;
        match first_expansion(left, column) {
            None => self.symbols.extend_from_slice(left)?,
            Some((expansion, rest)) => {
                self.repeat(expansion)?;
                self.symbols.extend_from_slice(rest)?;
            }
        }
        let more = Part {
            start: more_start,
            end: self.steps.len(),
        };
        let symbols = Part {
            start: symbols_start,
            end: self.symbols.len(),
        };
        Ok(Expansion {
            step,
            more,
            symbols,
        })
    }

    /// The steps of an expansion after the first.
    pub(crate) fn more(&self, expansion: Expansion) -> &[Step]
        requires { IsInside self.now expansion }
        ensures { result.now ≡ more_in self.now expansion }
    {
        &self.steps[expansion.more.start..expansion.more.end]
    }

    /// The symbols that an expansion leaves.
    pub(crate) fn symbols(&self, expansion: Expansion) -> &[Sym]
        requires { IsInside self.now expansion }
        ensures { result.now ≡ symbols_in self.now expansion }
    {
        &self.symbols[expansion.symbols.start..expansion.symbols.end]
    }
}
