//! What is at fault in tables.

ghost use Rattle.std.specs.Prelude.{◌≡◌, List, IfOk, IfSome, IfNone, is_none};
ghost use Rattle.sqlite.specs.Held.{state};
ghost use Rattle.sqlite.specs.State.{HasCleanDisk, Survives};
ghost use Rattle.book_tables_rows.specs.Rows.{IsBook, rows_of};
ghost use Rattle.book_tables_rows.specs.Steps.{Keeps, Spares};
ghost use Rattle.book_tables_opening.specs.Opening.{AreTextlessRows, HaveForm};
ghost use Rattle.book_tables_opening.specs.Reading.{TellsStanding};
ghost use Rattle.book_tables_findings.specs.Findings.{BreaksIn, BreaksRows};
ghost use Rattle.sqlite.specs.Order.{Row as Shown};

use crate::entry_rules::broken_entry;
use crate::findings::Finding;
use crate::gone_rules::broken_gone;
use crate::limit_rules::broken_limit;
use crate::member_rules::broken_member;
use crate::node_rules::{broken_node, missing_home};
use crate::texts::broken_text;
use book_tables_opening::{Directory, are_meta, read_tables};
use sqlite::{Alter, Error, Row, Transaction};
use std::alloc::{AllocError, Global};

/// The first row that breaks a rule for the rows of its table. An error is want of memory.
fn broken_row(
    alloc: Global,
    directory: &Directory,
    entries: &[Row],
    members: &[Row],
    gone: &[Row],
) -> Result<Option<Finding>, AllocError>
    ensures found { IfOk result (λ found. IfSome found (λ f. (meta : List Shown)
        → BreaksRows directory.now entries.now members.now gone.now meta f)) }
    ensures none { IfOk result (λ found. IfNone found
        (HaveForm directory.now entries.now members.now gone.now)) }
{
    if let Some((name, rule)) = broken_node(alloc, directory)? {
        return Ok(Some(Finding::Node(name, rule)));
    }
    if let Some(home) = missing_home(directory) {
        return Ok(Some(Finding::Missing(home)));
    }
    if let Some((name, rule)) = broken_entry(alloc, directory, entries)? {
        return Ok(Some(Finding::Entry(name, rule)));
    }
    if let Some((name, rule)) = broken_member(alloc, directory, members)? {
        return Ok(Some(Finding::Member(name, rule)));
    }
    if let Some((name, rule)) = broken_gone(alloc, directory, gone)? {
        return Ok(Some(Finding::Gone(name, rule)));
    }
    Ok(None)
}

/// What is at fault in rows, but for the texts of cards. An error is want of memory.
fn broken_rows(
    alloc: Global,
    directory: &Directory,
    entries: &[Row],
    members: &[Row],
    gone: &[Row],
    meta: &[Row],
) -> Result<Option<Finding>, AllocError>
    ensures found { IfOk result (λ found. IfSome found
        (BreaksRows directory.now entries.now members.now gone.now meta.now)) }
    ensures none { IfOk result (λ found. IfNone found
        (AreTextlessRows directory.now entries.now members.now gone.now meta.now)) }
{
    if !are_meta(meta) {
        return Ok(Some(Finding::Meta));
    }
    if let Some(finding) = broken_row(alloc, directory, entries, members, gone)? {
        return Ok(Some(finding));
    }
    if let Some(limit) = broken_limit(alloc, directory, entries, members, gone)? {
        return Ok(Some(Finding::Limit(limit)));
    }
    Ok(None)
}

/// The first row of the tables that breaks a rule of a sound Office, or the first limit that they do not keep; none
/// exactly where the rows are those of a sound Office, as `is_office` tells. First `meta` is looked at, then `node` but for
/// its texts, `ace2`, `member` and `gone`, each in the order in which it is read, then what is counted over rows, and then
/// one text after the other. A limit is told of its table, and not of a row. It takes what `is_office` takes.
pub fn find_broken<S: Alter>(
    alloc: Global,
    transaction: &mut Transaction<'_, S>,
) -> Result<Option<Finding>, Error>
    ensures same_reference { transaction.new.conn.ghost_name ≡ transaction.old.conn.ghost_name }
    ensures survives { Survives (state S.Store transaction.old.conn.now)
        (state S.Store transaction.new.conn.now) (λ _. ⊥) }
    ensures kept { Keeps (state S.Store transaction.old.conn.now)
        (state S.Store transaction.new.conn.now) }
    ensures stays { Spares (state S.Store transaction.old.conn.now)
        (state S.Store transaction.new.conn.now) result }
    ensures told { HasCleanDisk (state S.Store transaction.new.conn.now)
        → IfOk result (λ found. TellsStanding (state S.Store transaction.old.conn.now)
        (is_none found)) }
    ensures broken { HasCleanDisk (state S.Store transaction.new.conn.now)
        → IfOk result (λ found. IsBook (state S.Store transaction.old.conn.now).now
        → IfSome found (BreaksIn
        (rows_of (state S.Store transaction.old.conn.now).now.trees))) }
{
    let rows = read_tables(transaction)?;
    let directory = Directory::new(alloc, rows.nodes)?;
    let found = broken_rows(
        alloc,
        &directory,
        &rows.lists.0,
        &rows.lists.1,
        &rows.rest.0,
        &rows.rest.1,
    )?;
    if let Some(finding) = found {
        return Ok(Some(finding));
    }
    if let Some(name) = broken_text(alloc, transaction, directory.rows())? {
        return Ok(Some(Finding::Text(name)));
    }
    Ok(None)
}
