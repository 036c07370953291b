ghost use Rattle.std.specs.Prelude.{◌≡◌, ℕ, ◌^◌, ◌<◌, ◌++◌, List, length, IfOk, OnOk, IfErr, IsTrue, Some, ◌↔◌, slice_get};
ghost use Rattle.vital_ll.specs.declared.derivation.Step.{Step};
ghost use Rattle.vital_ll.specs.declared.reading.ParseError.TheVariants.{NoMemory};
ghost use Rattle.vital_ll.specs.Sentence.{IsTreeOf};
ghost use Rattle.vital_ll.specs.Refusal.{IsRefusal};

use crate::derivation::{Step, Tree};
use crate::grammar::Sym;
use crate::pending::{next, push};
use crate::prediction::Rules;
use std::alloc::{AllocError, AllocFailed, Global};

/// Why a list of tokens was not read.
#[derive(Clone, Copy, Debug, PartialEq, Eq)]
pub enum ParseError {
    /// Tokens 0 to `token` begin no sentence, and `token` is the least such number; the end counts as the
    /// last token.
    Refused { token: u32 },
    /// There was no memory for the derivation.
    NoMemory,
}

impl From<AllocError> for ParseError {
    ghost from_gives = { λ _ e. e ≡ NoMemory };

    fn from(_error: AllocError) -> ParseError {
        ParseError::NoMemory
    }
}

impl<T: Drop> From<AllocFailed<T>> for ParseError {
    ghost from_gives = { λ _ e. e ≡ NoMemory };

    fn from(_error: AllocFailed<T>) -> ParseError {
        ParseError::NoMemory
    }
}

/// The token of this number, or none after the last.
fn token_at(kinds: &[u16], index: usize) -> Option<u16>
    ensures { result ≡ slice_get kinds.now index }
{
    if index < kinds.len() {
        Some(kinds[index])
    } else {
        None
    }
}

/// Is the next token of this kind?
fn is_kind(next: Option<u16>, kind: u16) -> bool
    ensures { IsTrue result ↔ (next ≡ Some kind) }
{
    match next {
        Some(found) => found == kind,
        None => false,
    }
}

/// Appends steps. There are few, so that a loop costs less than a call that copies.
fn append(steps: &mut Vec<Step>, more: &[Step]) -> Result<(), AllocError>
    ensures { OnOk result (steps.new.items ≡ steps.old.items ++ more.now) }
{
    for step in more {
        steps.push(*step)?;
    }
    Ok(())
}

/// The derivation of the tokens of these kinds, of which there is one where there is any. Else the first
/// token that no sentence goes on with.
///
/// What a rule comes to before the next token is found by one look-up in the token's column, and each step is written
/// once. Each turn takes a token or writes a step, so the call ends: a list of steps without an end would end in
/// want of memory.
pub fn parse(alloc: Global, rules: &Rules, kinds: &[u16]) -> Result<Tree, ParseError>
    requires { length kinds.now < 2 ^ 32 }
    ensures tree { IfOk result (IsTreeOf rules.now kinds.now) }
    ensures only { IfOk result (λ tree.
        (other : List Step) → IsTreeOf rules.now kinds.now other → other ≡ tree) }
    ensures refused { IfErr result (IsRefusal rules.now kinds.now) }
{
    let table = rules.table();
    let first = [Sym::Rule(0)];
    let mut left = first.as_slice();
    let mut stack = Vec::new(alloc);
    let mut steps = Vec::new(alloc);
    let mut taken = 0usize;
    let mut column = table.column(token_at(kinds, 0));
    while let Some(symbol) = next(&mut left, &mut stack) {
        match symbol {
            Sym::Token(kind) => {
                if !is_kind(token_at(kinds, taken), kind) {
                    let token = taken as u32;
                    return Err(ParseError::Refused { token });
                }
                taken += 1;
                column = table.column(token_at(kinds, taken));
            }
            Sym::Rule(rule) => {
                let Some(expansion) = column[usize::from(rule)] else {
                    let token = taken as u32;
                    return Err(ParseError::Refused { token });
                };
                steps.push(expansion.step)?;
                append(&mut steps, table.expansions.more(expansion))?;
                push(&mut left, &mut stack, table.expansions.symbols(expansion))?;
            }
        }
    }
    if taken < kinds.len() {
        let token = taken as u32;
        return Err(ParseError::Refused { token });
    }
    Ok(Tree::from_vec(steps))
}
