//! Masks of rows as numbers.

ghost use Rattle.std.specs.Prelude.{◌≡◌, ◌==◌, ◌^◌, ◌<◌, ◌≤◌, None, Some, true, bit_or, length, if◌then◌else◌};
ghost use Rattle.std.specs.Int.Count.{count_trailing_zeros};
ghost use Rattle.vital_table.specs.Masks.{mask_of};

use sqlite_items::Items;

/// A mask to which the bit of a row is added, if the row passes.
pub(crate) fn with_row(mask: u128, number: usize, passes: bool) -> u128
    requires { number < 128 }
    ensures { result ≡ (if passes then bit_or mask (2 ^ number) else mask) }
{
    if passes {
        mask | (1u128 << number)
    } else {
        mask
    }
}

/// The mask of all rows.
pub(crate) fn all_rows(rows: &[Items<u8>]) -> u128
    requires { length rows.now ≤ 128 }
    ensures { result ≡ mask_of (λ row. true) rows.now }
{
    let count = rows.len();
    if count == 0 {
        0
    } else {
        u128::MAX >> (128 - count)
    }
}

/// The number of the first row of a mask, where it has one.
pub(crate) fn first_of(mask: u128) -> Option<u32>
    ensures { result ≡ (if mask == 0 then None else Some (count_trailing_zeros 128 mask)) }
{
    if mask == 0 {
        None
    } else {
        Some(mask.trailing_zeros())
    }
}
