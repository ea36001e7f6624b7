//! Removed names that are forgotten.

ghost use Rattle.std.specs.Prelude.{◌≡◌, ◌≢◌, ◌≤◌, ◌++◌, [], IfErr, IfOk, OnOk, decimal, map, string_bytes};
ghost use Rattle.book_limits.specs.declared.TheConstants.{LAST_NUMBER};
ghost use Rattle.book_dumps_changes.specs.Removals.{forgotten, removed_line, told_forgetting, told_removals, without_removed};

use crate::changed::{ChangeFault, Changed, raised};
use book_dumps::{Line, Removed};
use book_dumps_reading::Dumped;
use book_office_values::{Items, Path, Text};
use std::alloc::{AllocError, Global};

/// Adds a number at the end of a text. An error is want of memory.
pub(crate) fn push_number(alloc: Global, text: &mut String, number: u64) -> Result<(), AllocError>
    ensures { OnOk result (string_bytes text.new ≡ string_bytes text.old ++ decimal number) }
{
    let digits = format!(in alloc; "{number}")?;
    text.push_str(digits.as_str())
}

/// Tells how many removed names a resource had, if it had one: `removed PATH N`. An error is want of memory.
fn push_removed(
    alloc: Global,
    told: &mut String,
    path: &Path,
    removed: &[Removed],
) -> Result<(), AllocError>
    ensures { OnOk result (string_bytes told.new ≡
        string_bytes told.old ++ removed_line path.now removed.now) }
{
    if removed.is_empty() {
        return Ok(());
    }
    told.push_str("removed ")?;
    path.push_text(told)?;
    told.push_str(" ")?;
    push_number(alloc, told, removed.len() as u64)?;
    told.push_str("\n")
}

/// What becomes of a resource. An error is want of memory.
fn forget(alloc: Global, told: &mut String, line: Line) -> Result<Line, AllocError>
    ensures line { IfOk result (λ after. after ≡ forgotten line) }
    ensures told { OnOk result (string_bytes told.new ≡
        string_bytes told.old ++ told_forgetting line) }
{
    push_removed(alloc, told, &line.path, line.removed.as_slice())?;
    let mut line = line;
    line.removed = Items::new(alloc);
    Ok(line)
}

/// What becomes of resources. An error is want of memory.
fn forget_all(
    alloc: Global,
    told: &mut String,
    lines: Items<Line>,
) -> Result<Items<Line>, AllocError>
    ensures lines { IfOk result (λ after. after ≡ map forgotten lines) }
    ensures told { OnOk result (string_bytes told.new ≡
        string_bytes told.old ++ told_removals lines) }
{
    let mut after = Vec::with_capacity(alloc, lines.len())?;
    for line in lines.into_vec() {
        after.push(forget(alloc, told, line)?)?;
    }
    Ok(Items::from_vec(after))
}

/// Forgets the removed names of each book; all else is as it was. `removed PATH N` is told of each book that had some,
/// with their number. The epoch is one more where there is one, so that tokens of before are refused.
///
/// # Errors
///
/// `LastNumber` where the epoch was the last. `Memory` where memory was refused, in place of any other answer.
pub fn forget_removed(alloc: Global, dumped: Dumped) -> Result<Changed, ChangeFault>
    ensures ok { IfOk result (λ changed. changed ≡ without_removed dumped) }
    ensures within { IfOk result (λ changed. dumped.epoch ≤ LAST_NUMBER
        → changed.dumped.epoch ≤ LAST_NUMBER) }
    ensures known { IfErr result (λ fault. fault ≢ ChangeFault.UnknownPrincipal) }
    ensures last { IfErr result (λ fault. fault ≡ ChangeFault.LastNumber
        → (told_removals dumped.lines ≢ []) × (LAST_NUMBER ≤ dumped.epoch)) }
{
    let Dumped { epoch, lines } = dumped;
    let mut told = String::new(alloc);
    let lines = forget_all(alloc, &mut told, lines)?;
    let told = Text::from_string(told);
    let epoch = raised(epoch, &told)?;
    Ok(Changed {
        dumped: Dumped { epoch, lines },
        told,
    })
}
