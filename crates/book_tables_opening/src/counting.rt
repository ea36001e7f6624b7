//! How often keys are there.

ghost use Rattle.std.specs.Prelude.{◌≡◌, ◌↔◌, IsTrue, IfOk};
ghost use Rattle.book_tables_opening.specs.Opening.{AreAtMost};

use std::alloc::{AllocError, Global};
use std::collections::BTreeMap;

/// Whether no key is there more often than so many times. It takes a number of comparisons that grows as the number of
/// keys times its logarithm. An error is want of memory.
pub fn are_at_most(alloc: Global, limit: usize, keys: &[(i64, i64)]) -> Result<bool, AllocError>
    ensures { IfOk result (λ are. IsTrue are ↔ AreAtMost limit keys.now) }
{
    let mut counts: BTreeMap<(i64, i64), usize> = BTreeMap::new(alloc);
    for key in keys {
        let count = counts.get(key).copied().unwrap_or(0);
        if count >= limit {
            return Ok(false);
        }
        counts.insert(*key, count + 1)?;
    }
    Ok(true)
}
