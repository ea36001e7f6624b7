//! The first row of `member` that breaks a rule.

ghost use Rattle.std.specs.Prelude.{◌≡◌, IfOk, IfSome, IfNone};
ghost use Rattle.std.specs.List.{AllByRecursion};
ghost use Rattle.book_tables_opening.specs.Opening.{IsMemberRow};
ghost use Rattle.book_tables_findings.specs.Findings.{BreaksMember, IsFirst};
ghost use Rattle.book_tables_findings.specs.Names as names;

use crate::findings::MemberRule;
use crate::names::member_name;
use book_office_values::Items;
use book_tables_opening::{Directory, has_group, has_principal, text_at};
use sqlite::Row;
use std::alloc::{AllocError, Global};

/// The rule that a row breaks.
fn member_rule(directory: &Directory, row: &Row) -> Option<MemberRule>
    ensures found { IfSome result (BreaksMember directory.now row.now) }
    ensures none { IfNone result (IsMemberRow directory.now row.now) }
{
    let Some(group) = text_at(row, 0) else {
        return Some(MemberRule::Group);
    };
    if !has_group(directory, group) {
        return Some(MemberRule::Group);
    }
    let Some(member) = text_at(row, 1) else {
        return Some(MemberRule::Member);
    };
    if !has_principal(directory, member) {
        return Some(MemberRule::Member);
    }
    None
}

/// The first row that breaks a rule, and the rule. An error is want of memory.
pub(crate) fn broken_member(
    alloc: Global,
    directory: &Directory,
    members: &[Row],
) -> Result<Option<(Items<u8>, MemberRule)>, AllocError>
    ensures found { IfOk result (λ found. IfSome found
        (λ f. IsFirst names.member_name (IsMemberRow directory.now)
        (λ row. BreaksMember directory.now row f.1) members.now f.0)) }
    ensures none { IfOk result (λ found. IfNone found
        (AllByRecursion (IsMemberRow directory.now) members.now)) }
{
    for row in members {
        if let Some(rule) = member_rule(directory, row) {
            let name = member_name(alloc, row)?;
            return Ok(Some((name, rule)));
        }
    }
    Ok(None)
}
