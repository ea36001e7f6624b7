//! The first row of `ace2` that breaks a rule.

ghost use Rattle.std.specs.Prelude.{◌≡◌, IfOk, IfSome, IfNone};
ghost use Rattle.std.specs.List.{AllByRecursion};
ghost use Rattle.book_tables_opening.specs.Opening.{IsEntryRow};
ghost use Rattle.book_tables_findings.specs.Findings.{BreaksEntry, IsFirst};
ghost use Rattle.book_tables_findings.specs.Names as names;

use crate::findings::EntryRule;
use crate::names::entry_name;
use book_office_values::Items;
use book_tables_opening::{Directory, is_of_kind, is_protected, is_spelled_entry, knows};
use sqlite::Row;
use std::alloc::{AllocError, Global};

/// The rule that a row breaks.
fn entry_rule(directory: &Directory, row: &Row) -> Option<EntryRule>
    ensures found { IfSome result (BreaksEntry directory.now row.now) }
    ensures none { IfNone result (IsEntryRow directory.now row.now) }
{
    if !is_spelled_entry(row) {
        return Some(EntryRule::Form);
    }
    let Some(node) = directory.of(row, 0) else {
        return Some(EntryRule::Node);
    };
    if is_of_kind(node, 5) && is_protected(row) {
        return Some(EntryRule::Protected);
    }
    if !knows(directory, row, 4) {
        return Some(EntryRule::Principal);
    }
    None
}

/// The first row that breaks a rule, and the rule. An error is want of memory.
pub(crate) fn broken_entry(
    alloc: Global,
    directory: &Directory,
    entries: &[Row],
) -> Result<Option<(Items<u8>, EntryRule)>, AllocError>
    ensures found { IfOk result (λ found. IfSome found
        (λ f. IsFirst names.entry_name (IsEntryRow directory.now)
        (λ row. BreaksEntry directory.now row f.1) entries.now f.0)) }
    ensures none { IfOk result (λ found. IfNone found
        (AllByRecursion (IsEntryRow directory.now) entries.now)) }
{
    for row in entries {
        if let Some(rule) = entry_rule(directory, row) {
            let name = entry_name(alloc, row)?;
            return Ok(Some((name, rule)));
        }
    }
    Ok(None)
}
