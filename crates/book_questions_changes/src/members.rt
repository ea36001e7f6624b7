//! The direct memberships that one Office has and another has not, as lines of text.

ghost use Rattle.std.specs.Prelude.{◌≡◌, ◌∷◌, ◌++◌, [], codes, map, IfOk, OnOk};
ghost use Rattle.std.specs.FinMap as maps;
ghost use Rattle.std.specs.List.{flat_map};
ghost use Rattle.book_office_audit.specs.Audits.{Block, gathered, member_line};
ghost use Rattle.book_questions_changes.specs.Members.{IsMembersText, missing_in, signed_block};

use book_lists::{Membership, Pairs};
use book_office_values::Text;
use book_questions_rights::Blocks;
use std::alloc::{AllocError, Global};

/// The line of a direct membership, without its end.
fn member_line(alloc: Global, membership: &Membership) -> Result<Text, AllocError>
    ensures { IfOk result (λ line. line ≡ member_line membership.now) }
{
    let mut line = String::from_str(alloc, "member ")?;
    line.push_str(membership.group.text())?;
    line.push_str(" ")?;
    line.push_str(membership.member.text())?;
    Ok(Text::from_string(line))
}

/// A line after a sign, with its end.
fn signed(alloc: Global, sign: &str, line: &str) -> Result<Text, AllocError>
    ensures { IfOk result (λ text. text ≡ sign.now ++ (line.now ++ codes "\n")) }
{
    let mut text = String::from_str(alloc, sign)?;
    text.push_str(line)?;
    text.push_str("\n")?;
    Ok(Text::from_string(text))
}

/// Adds the line of a membership after a sign, unless it is among others.
fn add_one(
    alloc: Global,
    blocks: &mut Blocks,
    sign: &str,
    others: &Pairs,
    membership: &Membership,
) -> Result<(), AllocError>
    ensures { OnOk result (blocks.new ≡ gathered blocks.old
        (map (signed_block sign.now) (missing_in others.now (membership.now ∷ [])))) }
{
    if others.has(&membership.group, &membership.member) {
        return Ok(());
    }
    let line = member_line(alloc, membership)?;
    let text = signed(alloc, sign, line.as_str())?;
    blocks.add(line, text)
}

/// Adds the line of each membership that is not among others after a sign.
fn add_missing(
    alloc: Global,
    blocks: &mut Blocks,
    sign: &str,
    others: &Pairs,
    list: &[Membership],
) -> Result<(), AllocError>
    ensures { OnOk result (blocks.new ≡ gathered blocks.old
        (map (signed_block sign.now) (missing_in others.now list.now))) }
{
    for membership in list {
        add_one(alloc, blocks, sign, others, membership)?;
    }
    Ok(())
}

/// The texts of blocks.
pub(crate) fn text_of(alloc: Global, blocks: &Blocks) -> Result<Text, AllocError>
    ensures { IfOk result (λ text. text ≡ flat_map (λ (b : Block). b.1) (maps.entries blocks.now)) }
{
    let mut text = String::new(alloc);
    blocks.push_all(&mut text)?;
    Ok(Text::from_string(text))
}

/// The memberships in which two Offices differ.
pub(crate) fn members_text(alloc: Global, before: &Pairs, after: &Pairs) -> Result<Text, AllocError>
    ensures { IfOk result (λ text. IsMembersText before.now after.now text) }
{
    let gone = before.list()?;
    let added = after.list()?;
    let mut blocks = Blocks::new(alloc);
    add_missing(alloc, &mut blocks, "- ", after, gone.as_slice())?;
    add_missing(alloc, &mut blocks, "+ ", before, added.as_slice())?;
    Ok(text_of(alloc, &blocks)?)
}
