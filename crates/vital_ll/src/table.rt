ghost use Rattle.std.specs.Prelude.{◌≡◌, ℕ, ◌<◌, length, replicate, None, IfOk};
ghost use Rattle.vital_ll.specs.Choice.{IsWellFormed};
ghost use Rattle.vital_ll.specs.Expansion.{AreLonger};
ghost use Rattle.vital_ll.specs.Table.{HasRows, IsColumn, IsColumnFrom, IsTable};

use crate::derivation::Step;
use crate::expansion::{Expansion, Expansions};
use crate::grammar::RuleList;
use crate::rows::Rows;
use std::alloc::{AllocError, Global};
use std::marker::Model;

/// For each rule what it comes to before one token. Contracts see the list.
#[derive(Drop)]
pub(crate) struct Column {
    entries: Vec<Option<Expansion>>,
}

impl Model for Column {
    ghost use Rattle.std.specs.Prelude.{List, Option};
    ghost use Rattle.vital_ll.specs.declared.expansion.Expansion.{Expansion};

    ghost Value = { List (Option Expansion) };

    ghost view = { λ c. c.entries.items };
}

/// The table of a grammar: a column for each token's bit, and the expansions of all columns.
#[derive(Drop)]
pub(crate) struct Table {
    pub(crate) columns: Vec<Column>,
    pub(crate) expansions: Expansions,
}

/// The column of the token at this bit. `none` is the column of a token that decides for nothing. The last rule is the
/// first: what a rule comes to mostly rests on rules that come after it.
fn make_column(
    alloc: Global,
    rules: &RuleList,
    rows: &[Rows],
    expansions: &mut Expansions,
    none: &[Option<Expansion>],
    bit: usize,
) -> Result<Column, AllocError>
    requires well_formed { IsWellFormed rules.now }
    requires rows { (bits : ℕ) × HasRows rules.now bits rows.now × (bit < bits) }
    requires none { none.now ≡ replicate (length rows.now) None }
    ensures kept { IfOk result (λ column. AreLonger expansions.old expansions.new) }
    ensures column { IfOk result (IsColumnFrom rules.now bit expansions.new 0) }
{
    let mut column = Vec::from_slice(alloc, none)?;
    let mut rule = rows.len();
    while rule > 0 {
        rule -= 1;
        // Most tokens decide for nothing at most rules.
        if let Some(alternative) = rows[rule].at(bit) {
            let step = Step {
                rule: rule as u16,
                alternative,
            };
            column[rule] = Some(expansions.push(rules, step, &column)?);
        }
    }
    Ok(Column { entries: column })
}

impl Table {
    /// The table with these rows, which tell for `bits` tokens which alternative they decide for.
    pub(crate) fn make(
        alloc: Global,
        rules: &RuleList,
        rows: &[Rows],
        bits: usize,
    ) -> Result<Table, AllocError>
        requires well_formed { IsWellFormed rules.now }
        requires bits { 0 < bits }
        requires rows { HasRows rules.now bits rows.now }
        ensures { IfOk result (IsTable rules.now) }
    {
        let mut expansions = Expansions {
            steps: Vec::new(alloc),
            symbols: Vec::new(alloc),
        };
        let none = vec![in alloc; None; rows.len()]?;
        let mut columns = Vec::with_capacity(alloc, bits)?;
        for bit in 0..bits {
            columns.push(make_column(alloc, rules, rows, &mut expansions, &none, bit)?)?;
        }
        Ok(Table {
            columns,
            expansions,
        })
    }

    /// The column of this token, or some column where no sentence has it.
    pub(crate) fn column(&self, next: Option<u16>) -> &[Option<Expansion>]
        requires some { 0 < length self.now.columns.items }
        ensures { IsColumn self.now.columns.items next result.now }
    {
        let bit = match next {
            None => 0,
            Some(kind) => usize::from(kind) + 1,
        };
        let bit = if bit < self.columns.len() { bit } else { 0 };
        self.columns[bit].entries.as_slice()
    }
}
