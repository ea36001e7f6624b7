//! The first row of `gone` that breaks a rule.

ghost use Rattle.std.specs.Prelude.{◌≡◌, IfOk, IfSome, IfNone};
ghost use Rattle.std.specs.List.{AllByRecursion};
ghost use Rattle.book_tables_opening.specs.Opening.{IsGoneRow};
ghost use Rattle.book_tables_findings.specs.Findings.{BreaksGone, IsFirst};
ghost use Rattle.book_tables_findings.specs.Names as names;

use crate::findings::GoneRule;
use crate::names::gone_row_name;
use book_office_values::Items;
use book_tables_opening::{Directory, is_free, is_name, is_natural, is_of_kind, text_at};
use sqlite::Row;
use std::alloc::{AllocError, Global};

/// The rule that a row breaks. An error is want of memory.
fn gone_rule(
    alloc: Global,
    directory: &Directory,
    row: &Row,
) -> Result<Option<GoneRule>, AllocError>
    ensures found { IfOk result (λ found. IfSome found (BreaksGone directory.now row.now)) }
    ensures none { IfOk result (λ found. IfNone found (IsGoneRow directory.now row.now)) }
{
    let Some(book) = directory.of(row, 0) else {
        return Ok(Some(GoneRule::Book));
    };
    if !is_of_kind(book, 4) {
        return Ok(Some(GoneRule::Book));
    }
    let Some(name) = text_at(row, 1) else {
        return Ok(Some(GoneRule::Name));
    };
    if !is_name(alloc, name)? {
        return Ok(Some(GoneRule::Name));
    }
    let path = match text_at(book, 1) {
        Some(path) => path,
        None => b"",
    };
    if !is_free(alloc, directory, path, name)? {
        return Ok(Some(GoneRule::Free));
    }
    if !is_natural(row, 2) {
        return Ok(Some(GoneRule::Number));
    }
    Ok(None)
}

/// The first row that breaks a rule, and the rule. An error is want of memory.
pub(crate) fn broken_gone(
    alloc: Global,
    directory: &Directory,
    gone: &[Row],
) -> Result<Option<(Items<u8>, GoneRule)>, AllocError>
    ensures found { IfOk result (λ found. IfSome found
        (λ f. IsFirst names.gone_row_name (IsGoneRow directory.now)
        (λ row. BreaksGone directory.now row f.1) gone.now f.0)) }
    ensures none { IfOk result (λ found. IfNone found
        (AllByRecursion (IsGoneRow directory.now) gone.now)) }
{
    for row in gone {
        if let Some(rule) = gone_rule(alloc, directory, row)? {
            let name = gone_row_name(alloc, row)?;
            return Ok(Some((name, rule)));
        }
    }
    Ok(None)
}
