//! What stays, as lines of text.

ghost use Rattle.std.specs.Prelude.{◌≡◌, ◌++◌, codes, false, IfOk, OnOk, string_bytes};
ghost use Rattle.book_office_audit.specs.Audits.{member_line};
ghost use Rattle.book_office_audit.specs.EntryLines.{entry_line};
ghost use Rattle.book_questions_stays.specs.Stays.{card_key, list_stays, name_stays, own_stays, stays};

use book_lists::{Entry, Membership};
use book_office::Listed;
use book_office_audit::push_entry;
use book_office_values::Text;
use std::alloc::{AllocError, Global};

/// The line of a direct membership, without its end.
pub(crate) fn member_line(alloc: Global, membership: &Membership) -> Result<Text, AllocError>
    ensures { IfOk result (λ line. line ≡ member_line membership.now) }
{
    let mut line = String::from_str(alloc, "member ")?;
    line.push_str(membership.group.text())?;
    line.push_str(" ")?;
    line.push_str(membership.member.text())?;
    Ok(Text::from_string(line))
}

/// A line that tells that something stays.
pub(crate) fn stays(alloc: Global, fact: &str) -> Result<Text, AllocError>
    ensures { IfOk result (λ line. line ≡ stays (fact.now ++ codes "\n")) }
{
    let mut line = String::from_str(alloc, "stays ")?;
    line.push_str(fact)?;
    line.push_str("\n")?;
    Ok(Text::from_string(line))
}

/// Adds the line of a resource, unless it is named.
fn push_name(text: &mut String, named: bool, at: &str) -> Result<(), AllocError>
    ensures { OnOk result (string_bytes text.new ≡
        string_bytes text.old ++ name_stays named at.now) }
{
    if named {
        return Ok(());
    }
    text.push_str("stays ")?;
    text.push_str(at)?;
    text.push_str("\n")
}

/// Adds the line of an entry of an own list.
fn push_one(alloc: Global, text: &mut String, at: &str, entry: &Entry) -> Result<(), AllocError>
    ensures { OnOk result (string_bytes text.new ≡
        string_bytes text.old ++ stays (at.now ++ entry_line false entry.now)) }
{
    text.push_str("stays ")?;
    text.push_str(at)?;
    push_entry(alloc, text, false, entry)
}

/// Adds the lines of an own list.
fn push_own(alloc: Global, text: &mut String, at: &str, own: &[Entry]) -> Result<(), AllocError>
    ensures { OnOk result (string_bytes text.new ≡
        string_bytes text.old ++ own_stays at.now own.now) }
{
    for entry in own {
        push_one(alloc, text, at, entry)?;
    }
    Ok(())
}

/// Adds the lines of an own list, unless it is given anew.
fn push_list(
    alloc: Global,
    text: &mut String,
    given: bool,
    at: &str,
    own: &[Entry],
) -> Result<(), AllocError>
    ensures { OnOk result (string_bytes text.new ≡
        string_bytes text.old ++ list_stays given at.now own.now) }
{
    if given {
        return Ok(());
    }
    push_own(alloc, text, at, own)
}

/// The lines of a resource that is no card.
pub(crate) fn place_lines(
    alloc: Global,
    named: bool,
    given: bool,
    at: &str,
    own: &[Entry],
) -> Result<Text, AllocError>
    ensures { IfOk result
        (λ lines. lines ≡ name_stays named at.now ++ list_stays given at.now own.now) }
{
    let mut text = String::new(alloc);
    push_name(&mut text, named, at)?;
    push_list(alloc, &mut text, given, at, own)?;
    Ok(Text::from_string(text))
}

/// The text of the path of a card.
pub(crate) fn card_key(alloc: Global, book: &str, card: &Listed) -> Result<Text, AllocError>
    ensures { IfOk result (λ key. key ≡ card_key book.now card.now) }
{
    let mut key = String::from_str(alloc, book)?;
    key.push_str("/")?;
    key.push_str(card.name.text())?;
    Ok(Text::from_string(key))
}

/// The lines of an own list.
pub(crate) fn own_lines(alloc: Global, at: &str, own: &[Entry]) -> Result<Text, AllocError>
    ensures { IfOk result (λ lines. lines ≡ own_stays at.now own.now) }
{
    let mut text = String::new(alloc);
    push_own(alloc, &mut text, at, own)?;
    Ok(Text::from_string(text))
}
