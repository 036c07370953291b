ghost use Rattle.std.specs.Prelude.{◌≡◌, ◌*◌, ◌<◌, Some, None, IsSome, if◌then◌else◌, length, slice_index_or, IfOk, IfErr, IfSome, IfNone};
ghost use Rattle.vital_ll.specs.Choice.{HasConflict, IsWellFormed};
ghost use Rattle.vital_ll.specs.Conflict.{IsConflictAt};
ghost use Rattle.vital_ll.specs.Grammar.{alternative_of};
ghost use Rattle.vital_ll.specs.Marks.{has};
ghost use Rattle.vital_ll.specs.Passes.{AreBlocks, EachBit, IsBlock};
ghost use Rattle.vital_ll.specs.Table.{AreRows, IsChoiceMask, IsRow, entry_at};

use crate::beginnings::can_begin;
use crate::blocks::{Analysis, Block};
use crate::prediction::RulesError;
use std::alloc::Global;
use std::marker::Model;

/// The alternatives of a rule that the tokens decide for: a row of 128 entries for each block of tokens.
/// Contracts see the list of rows.
#[derive(Drop)]
pub(crate) struct Rows {
    rows: Vec<[Option<u16>; 128]>,
}

impl Model for Rows {
    ghost use Rattle.std.specs.Prelude.{ℕ, List, Option};

    ghost Value = { List (List (Option ℕ)) };

    ghost view = { λ r. r.rows.items };
}

/// Enters the alternative at each bit of the mask.
fn choose(choices: &mut [Option<u16>; 128], mask: u128, alternative: u16)
    ensures { EachBit (λ i. slice_index_or choices.new i None
        ≡ (if has mask i then Some alternative else slice_index_or choices.old i None)) }
{
    let mut left = mask;
    while left != 0 {
        let bit = left.trailing_zeros();
        choices[bit as usize] = Some(alternative);
        left &= !(1u128 << bit);
    }
}

impl Analysis<'_> {
    /// The tokens of the block that are in the choice set of an alternative.
    fn choice_mask(&self, rule: u16, alternative: u16, block: &Block) -> u128
        requires well_formed { IsWellFormed self.now.rules.now }
        requires there { IsSome (alternative_of self.now.rules.now rule alternative) }
        requires block { IsBlock self.now.rules.now self.now.nullable.now block.now.base block.now }
        ensures { IsChoiceMask self.now.rules.now rule alternative block.now.base result }
    {
        let symbols = self.rules.symbols(rule, alternative);
        let after = block.follow[usize::from(rule)];
        can_begin(symbols, block.base, after, self.nullable, &block.first)
    }

    /// The alternatives that the tokens of the block decide for at a rule, or none where two share a token.
    fn row(&self, rule: u16, block: &Block) -> Option<[Option<u16>; 128]>
        requires well_formed { IsWellFormed self.now.rules.now }
        requires rule { rule < length self.now.rules.now }
        requires block { IsBlock self.now.rules.now self.now.nullable.now block.now.base block.now }
        ensures row { IfSome result (IsRow self.now.rules.now rule block.now.base) }
        ensures conflict { IfNone result (HasConflict self.now.rules.now rule) }
    {
        let mut choices = [None; 128];
        let mut seen = 0;
        for alternative in 0..self.rules.alternative_count(usize::from(rule)) as u16 {
            let mask = self.choice_mask(rule, alternative, block);
            if seen & mask != 0 {
                return None;
            }
            seen |= mask;
            choose(&mut choices, mask, alternative);
        }
        Some(choices)
    }

    /// The alternatives that the tokens decide for at a rule. It is refused where two alternatives share a token.
    pub(crate) fn rows(
        &self,
        alloc: Global,
        rule: u16,
        blocks: &[Block],
    ) -> Result<Rows, RulesError>
        requires well_formed { IsWellFormed self.now.rules.now }
        requires rule { rule < length self.now.rules.now }
        requires blocks { AreBlocks self.now.rules.now self.now.nullable.now blocks.now }
        ensures rows { IfOk result (AreRows self.now.rules.now rule (length blocks.now)) }
        ensures conflict { IfErr result (IsConflictAt self.now.rules.now rule) }
    {
        let mut rows = Vec::with_capacity(alloc, blocks.len())?;
        for block in blocks {
            let Some(row) = self.row(rule, block) else {
                return Err(RulesError::NotPredictive { rule });
            };
            rows.push(row)?;
        }
        Ok(Rows { rows })
    }
}

impl Rows {
    /// The entry of the token at this bit.
    pub(crate) fn at(&self, bit: usize) -> Option<u16>
        requires { bit < 128 * length self.now }
        ensures { result ≡ entry_at self.now bit }
    {
        self.rows[bit / 128][bit % 128]
    }
}
