ghost use Rattle.std.specs.Prelude.{◌≡◌, ◌∷◌, ◌++◌, [], All, MatchOption, OnOk};
ghost use Rattle.vital_ll.specs.Pending.{IsFilled, symbols_of};

use crate::grammar::Sym;
use std::alloc::AllocError;

/// Takes the next symbol: of those that are left of the alternative that is being read, then of those on the stack, the
/// topmost first.
pub(crate) fn next<'a>(left: &mut &'a [Sym], stack: &mut Vec<&'a [Sym]>) -> Option<Sym>
    requires filled { All IsFilled stack.old.items }
    ensures filled { All IsFilled stack.new.items }
    ensures taken { MatchOption result (symbols_of left.old.now stack.old.items ≡ [])
        (λ symbol. symbols_of left.old.now stack.old.items ≡ symbol ∷ symbols_of left.new.now stack.new.items) }
{
    if left.is_empty() {
        let Some(symbols) = stack.pop() else {
            return None;
        };
        *left = &symbols[1..];
        return Some(symbols[0]);
    }
    let symbol = left[0];
    *left = &left[1..];
    Some(symbol)
}

/// Puts symbols before those that are left.
pub(crate) fn push<'a>(
    left: &mut &'a [Sym],
    stack: &mut Vec<&'a [Sym]>,
    symbols: &'a [Sym],
) -> Result<(), AllocError>
    requires filled { All IsFilled stack.old.items }
    ensures filled { OnOk result (All IsFilled stack.new.items) }
    ensures pushed { OnOk result
        (symbols_of left.new.now stack.new.items ≡ symbols.now ++ symbols_of left.old.now stack.old.items) }
{
    if symbols.is_empty() {
        return Ok(());
    }
    if !left.is_empty() {
        stack.push(*left)?;
    }
    *left = symbols;
    Ok(())
}
