//! The first row of `node` that breaks a rule, and the homes.

ghost use Rattle.std.specs.Prelude.{◌≡◌, ◌≢◌, IfOk, IfSome, IfNone, None, codes};
ghost use Rattle.std.specs.List.{AllByRecursion};
ghost use Rattle.book_office_values.specs.Paths.{IsPath, kind_of};
ghost use Rattle.book_tables_opening.specs.Opening.{HasContent, HasHomes, IsTextlessRow};
ghost use Rattle.book_tables_findings.specs.Findings.{BreaksAt, BreaksNode, IsFirst, IsMissing, KeepsAt};
ghost use Rattle.book_tables_findings.specs.Names as names;

use crate::findings::{Home, NodeRule};
use crate::names::node_name;
use book_office_values::{Items, Path};
use book_tables_opening::{
    Directory, has_change_number, has_kind, has_label, has_natural, is_below, knows, path_at,
};
use sqlite::Row;
use std::alloc::{AllocError, Global};

/// The rule that owner, label or change number of a row break, at a path.
fn content_rule(directory: &Directory, path: &Path, row: &Row) -> Option<NodeRule>
    ensures found { IfSome result (BreaksAt directory.now path.now row.now) }
    ensures none { IfNone result (HasContent directory.now (kind_of path.now) row.now) }
{
    if !knows(directory, row, 4) {
        return Some(NodeRule::Owner);
    }
    if !has_label(row) {
        return Some(NodeRule::Label);
    }
    if !has_natural(row) || !has_change_number(path.kind(), row) {
        return Some(NodeRule::Number);
    }
    None
}

/// The rule that a row breaks, at a path. An error is want of memory.
fn rule_at(
    alloc: Global,
    directory: &Directory,
    path: &Path,
    row: &Row,
) -> Result<Option<NodeRule>, AllocError>
    ensures found { IfOk result (λ found. IfSome found
        (BreaksAt directory.now path.now row.now)) }
    ensures none { IfOk result (λ found. IfNone found (KeepsAt directory.now path.now row.now)) }
{
    if !is_below(alloc, directory, path, row)? {
        return Ok(Some(NodeRule::Parent));
    }
    if !has_kind(path.kind(), row) {
        return Ok(Some(NodeRule::Kind));
    }
    Ok(content_rule(directory, path, row))
}

/// The rule that a row breaks. An error is want of memory.
fn node_rule(
    alloc: Global,
    directory: &Directory,
    row: &Row,
) -> Result<Option<NodeRule>, AllocError>
    ensures found { IfOk result (λ found. IfSome found (BreaksNode directory.now row.now)) }
    ensures none { IfOk result (λ found. IfNone found (IsTextlessRow directory.now row.now)) }
{
    let Some(path) = path_at(alloc, row)? else {
        return Ok(Some(NodeRule::Path));
    };
    rule_at(alloc, directory, &path, row)
}

/// The first row that breaks a rule, and the rule. An error is want of memory.
pub(crate) fn broken_node(
    alloc: Global,
    directory: &Directory,
) -> Result<Option<(Items<u8>, NodeRule)>, AllocError>
    ensures found { IfOk result (λ found. IfSome found
        (λ f. IsFirst names.node_name (IsTextlessRow directory.now)
        (λ row. BreaksNode directory.now row f.1) directory.now f.0)) }
    ensures none { IfOk result (λ found. IfNone found
        (AllByRecursion (IsTextlessRow directory.now) directory.now)) }
{
    let rows = directory.rows();
    for row in rows {
        if let Some(rule) = node_rule(alloc, directory, row)? {
            let name = node_name(alloc, row)?;
            return Ok(Some((name, rule)));
        }
    }
    Ok(None)
}

/// The first of the root and the three homes that is not there.
pub(crate) fn missing_home(directory: &Directory) -> Option<Home>
    ensures found { IfSome result (IsMissing directory.now) }
    ensures none { IfNone result (HasHomes directory.now) }
{
    if directory.at(b"/").is_none() {
        return Some(Home::Root);
    }
    if directory.at(b"/people").is_none() {
        return Some(Home::People);
    }
    if directory.at(b"/groups").is_none() {
        return Some(Home::Groups);
    }
    if directory.at(b"/books").is_none() {
        return Some(Home::Books);
    }
    None
}
