ghost use Rattle.std.specs.Prelude.{◌≡◌, ℕ, ◌<◌, ◌*◌, length, IfOk, IfErr, OnOk};
ghost use Rattle.vital_ll.specs.declared.prediction.RulesError.TheVariants.{NoMemory};
ghost use Rattle.vital_ll.specs.Masks.{bit_of};
ghost use Rattle.vital_ll.specs.Sentence.{Next};
ghost use Rattle.vital_ll.specs.Choice.{IsChoice, IsPredictive, IsWellFormed};
ghost use Rattle.vital_ll.specs.Conflict.{IsConflict};
ghost use Rattle.vital_ll.specs.Passes.{AreBlocks};
ghost use Rattle.vital_ll.specs.Table.{HasRows, IsTable};

use crate::blocks::{Analysis, Block};
use crate::grammar::RuleList;
use crate::listing::{places, steps, steps_backward};
use crate::rows::Rows;
use crate::sets::{nullable_masks, reached_masks};
use crate::table::Table;
use crate::width::width_of;
use std::alloc::{AllocError, AllocFailed, Global};
use std::marker::Model;

/// Why a grammar has no table.
#[derive(Clone, Copy, Debug, PartialEq, Eq)]
pub enum RulesError {
    /// The next token does not decide between two alternatives of this rule, the first such rule.
    NotPredictive { rule: u16 },
    /// There was no memory for the table.
    NoMemory,
}

impl From<AllocError> for RulesError {
    ghost from_gives = { λ _ e. e ≡ NoMemory };

    fn from(_error: AllocError) -> RulesError {
        RulesError::NoMemory
    }
}

impl<T: Drop> From<AllocFailed<T>> for RulesError {
    ghost from_gives = { λ _ e. e ≡ NoMemory };

    fn from(_error: AllocFailed<T>) -> RulesError {
        RulesError::NoMemory
    }
}

impl Analysis<'_> {
    /// The rows of each rule. The grammar is refused where the choice sets of two alternatives of a rule meet, with
    /// the first such rule.
    fn all_rows(&self, alloc: Global, blocks: &[Block]) -> Result<Vec<Rows>, RulesError>
        requires well_formed { IsWellFormed self.now.rules.now }
        requires blocks { AreBlocks self.now.rules.now self.now.nullable.now blocks.now }
        requires within { (r a : ℕ) (t : Next) → IsChoice self.now.rules.now r a t → bit_of t < 128 * length blocks.now }
        ensures rows { IfOk result (λ rows. HasRows self.now.rules.now (128 * length blocks.now) rows.items) }
        ensures predictive { OnOk result (IsPredictive self.now.rules.now) }
        ensures conflict { IfErr result (IsConflict self.now.rules.now) }
    {
        let mut all = Vec::with_capacity(alloc, self.rules.len())?;
        for rule in 0..self.rules.len() {
            all.push(self.rows(alloc, rule as u16, blocks)?)?;
        }
        Ok(all)
    }
}

/// A predictive grammar with its table: for each rule and each next token, the end among them, what the rule comes to
/// by the alternatives that the token begins or follows. Contracts see the grammar.
#[derive(Drop)]
pub struct Rules {
    grammar: RuleList,
    table: Table,
}

impl Model for Rules {
    ghost use Rattle.std.specs.Prelude.{List};
    ghost use Rattle.vital_ll.specs.declared.grammar.Sym.{Sym};

    ghost Value = { List (List (List Sym)) };

    ghost view = { λ r. r.grammar };

    ghost use Rattle.vital_ll.specs.Table.{IsTable};

    ghost invariant = { λ r. IsTable r.grammar r.table };
}

impl Rules {
    /// A grammar with its table. It is refused where the choice sets of two alternatives of a rule meet, with
    /// the first such rule.
    pub fn make(alloc: Global, grammar: RuleList) -> Result<Rules, RulesError>
        requires { IsWellFormed grammar }
        ensures grammar { IfOk result (λ made. made ≡ grammar) }
        ensures predictive { OnOk result (IsPredictive grammar) }
        ensures conflict { IfErr result (IsConflict grammar) }
    {
        let steps = steps(alloc, &grammar)?;
        let places = places(alloc, &grammar, &steps)?;
        let backward = steps_backward(alloc, &grammar)?;
        let nullable = nullable_masks(alloc, &grammar, &backward)?;
        let reached = reached_masks(alloc, &grammar, &steps, &places)?;
        let analysis = Analysis {
            rules: &grammar,
            steps: &backward,
            places: &places,
            nullable: &nullable,
            reached: &reached,
        };
        // Bit 0 is the end's, so there is one bit more than kinds.
        let count = width_of(&grammar, &steps) / 128 + 1;
        let blocks = analysis.blocks(alloc, count)?;
        let rows = analysis.all_rows(alloc, &blocks)?;
        let table = Table::make(alloc, &grammar, &rows, 128 * count)?;
        Ok(Rules { grammar, table })
    }

    /// The table.
    pub(crate) fn table(&self) -> &Table
        ensures { IsTable self.now result.now }
    {
        &self.table
    }
}
