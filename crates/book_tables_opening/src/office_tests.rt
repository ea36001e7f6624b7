//! Whether rows are those of a sound Office, but for the texts of its cards.

ghost use Rattle.std.specs.Prelude.{◌↔◌, IsTrue, IfOk};
ghost use Rattle.book_tables_opening.specs.Opening.{HaveForm, AreTextlessRows};

use crate::directories::Directory;
use crate::entry_tests::are_entry_rows;
use crate::gone_tests::are_gone;
use crate::limit_tests::keep_limits;
use crate::member_tests::are_members;
use crate::meta_tests::are_meta;
use crate::node_tests::{are_nodes, has_homes};
use sqlite::Row;
use std::alloc::{AllocError, Global};

/// Whether each row is one of its table in a sound Office, but for the texts of nodes. An error is want of memory.
fn have_form(
    alloc: Global,
    directory: &Directory,
    entries: &[Row],
    members: &[Row],
    gone: &[Row],
) -> Result<bool, AllocError>
    ensures { IfOk result (λ have. IsTrue have
        ↔ HaveForm directory.now entries.now members.now gone.now) }
{
    if !are_nodes(alloc, directory)? {
        return Ok(false);
    }
    if !are_gone(alloc, directory, gone)? {
        return Ok(false);
    }
    if !has_homes(directory) {
        return Ok(false);
    }
    if !are_entry_rows(directory, entries) {
        return Ok(false);
    }
    Ok(are_members(directory, members))
}

#[tactic(auto, using(crate::proofs::OfficeParts::whole, crate::proofs::OfficeParts::form, crate::proofs::OfficeParts::limits))]
/// Whether the rows of the five tables, as whole reads show them, are those of a sound Office, but for the texts of
/// nodes, which are not looked at. It takes a number of look-ups and comparisons that grows as the number of rows times
/// its logarithm. An error is want of memory.
pub(crate) fn are_textless_rows(
    alloc: Global,
    directory: &Directory,
    entries: &[Row],
    members: &[Row],
    gone: &[Row],
    meta: &[Row],
) -> Result<bool, AllocError>
    ensures { IfOk result (λ are. IsTrue are
        ↔ AreTextlessRows directory.now entries.now members.now gone.now meta.now) }
{
    if !have_form(alloc, directory, entries, members, gone)? {
        return Ok(false);
    }
    if !keep_limits(alloc, directory, entries, members, gone)? {
        return Ok(false);
    }
    Ok(are_meta(meta))
}
