//! The table of the grammar.

ghost use Rattle.std.specs.Prelude.{◌≡◌, IfOk};
ghost use Rattle.vital_sdf_grammar.specs.Grammar.{grammar};

use crate::grammar::grammar_rules;
use std::alloc::{AllocError, Global};
use vital_ll::{Rules, RulesError, masks_decide, ranks_derive};

/// The grammar of SDF files with its table, by which a file is read. It is predictive, so that it is never refused; one table
/// serves all files.
pub fn sdf_rules(alloc: Global) -> Result<Rules, AllocError>
    ensures { IfOk result (λ rules. rules ≡ grammar) }
{
    masks_decide();
    ranks_derive();
    let grammar = grammar_rules(alloc)?;
    match Rules::make(alloc, grammar) {
        Ok(rules) => Ok(rules),
        Err(RulesError::NoMemory) => Err(AllocError),
        Err(RulesError::NotPredictive { .. }) => unreachable!(),
    }
}
