//! The closure of rows.

ghost use Rattle.std.specs.Prelude.{◌≡◌, ℕ, ◌<◌, ◌&&◌, ◌||◌, true, IfOk, OnOk, vec_len};
ghost use Rattle.book_lists_reach.specs.Bits.{bit};
ghost use Rattle.book_lists_reach.specs.Pairs.{has_bit};

use crate::bits::Bits;
use std::alloc::{AllocError, Global};

/// The row takes over the numbers of another, where it has this number.
fn take_row(row: &mut Bits, number: usize, taken: &Bits) -> Result<(), AllocError>
    ensures { OnOk result ((j : ℕ) → bit row.new j
        ≡ (bit row.old j || (bit row.old number && bit taken.now j))) }
{
    if row.has(number) {
        row.add_all(taken)?;
    }
    Ok(())
}

/// All numbers of some rows.
pub(crate) fn numbers_of(alloc: Global, rows: &[Bits]) -> Result<Bits, AllocError>
    ensures { IfOk result (λ numbers. (i j : ℕ)
        → has_bit rows.now i j ≡ true → bit numbers j ≡ true) }
{
    let mut numbers = Bits::new(alloc);
    for row in rows {
        numbers.add_all(row)?;
    }
    Ok(numbers)
}

/// Each row that has the number takes over the row at it.
fn take_over(rows: &mut Vec<Bits>, number: usize) -> Result<(), AllocError>
    requires { number < vec_len rows.old }
    ensures len { vec_len rows.new ≡ vec_len rows.old }
    ensures ok { OnOk result ((i j : ℕ) → has_bit rows.new.items i j ≡ (has_bit rows.old.items i j
        || (has_bit rows.old.items i number && has_bit rows.old.items number j))) }
{
    let taken = rows[number].clone()?;
    if taken.is_bare() {
        return Ok(());
    }
    for i in 0..rows.len() {
        take_row(&mut rows[i], number, &taken)?;
    }
    Ok(())
}

/// The same, where some row may have the number.
pub(crate) fn take_over_of(
    rows: &mut Vec<Bits>,
    numbers: &Bits,
    number: usize,
) -> Result<(), AllocError>
    requires within { number < vec_len rows.old }
    requires numbers { (i j : ℕ) → has_bit rows.old.items i j ≡ true → bit numbers.now j ≡ true }
    ensures len { vec_len rows.new ≡ vec_len rows.old }
    ensures ok { OnOk result ((i j : ℕ) → has_bit rows.new.items i j ≡ (has_bit rows.old.items i j
        || (has_bit rows.old.items i number && has_bit rows.old.items number j))) }
{
    if !numbers.has(number) {
        return Ok(());
    }
    take_over(rows, number)
}
