//! The members of a card: what its MEMBER lines lead to, and what steps reach.

ghost use Rattle.std.specs.Prelude.{◌≡◌, ◌++◌, ◌∷◌, [], ℕ, List, true, IfOk, OnOk, map};
ghost use Rattle.std.specs.FinSet as set;
ghost use Rattle.std.specs.Option.{option_copied};
ghost use Rattle.book_lists.specs.Circles.{has_path};
ghost use Rattle.book_office_members.specs.Reaching.{AreLinks, HasNamesOf, line_by, names_at, pushed_at, uid_among, uid_in};
ghost use Rattle.book_office_members.specs.Steps.{AreMembers, AreMembersOf, AreNamesOf, IsReached, card_named, member_line};

use crate::card_refs::{CardRef, card_named};
use crate::links::Links;
use crate::text_sets::TextSet;
use book_lists::Name;
use book_office_values::{Items, Text, TextMap};
use std::alloc::{AllocError, Global};

/// A MEMBER line of a card.
#[derive(Debug, Drop)]
pub struct MemberLine {
    /// Its value, as written.
    pub value: Text,
    /// The names of the cards whose UID is this value byte for byte, in byte order.
    pub names: Items<Name>,
}

/// The members of a card.
#[derive(Debug, Drop)]
pub struct Members {
    /// One for each MEMBER line, in order.
    pub lines: Items<MemberLine>,
    /// The names of the cards to which one or more steps by members lead, in byte order. The card itself is among them
    /// where steps lead back to it.
    pub reached: Items<Name>,
}

/// Adds a name to those of a UID.
fn push_name(
    alloc: Global,
    index: &mut TextMap<Items<Name>>,
    uid: &Text,
    name: Name,
) -> Result<(), AllocError>
    ensures { OnOk result (index.new ≡ pushed_at index.old uid.now name) }
{
    let mut names = match index.remove(uid) {
        Some(names) => names,
        None => Items::new(alloc),
    };
    names.push(name)?;
    index.insert(uid.clone()?, names)?;
    Ok(())
}

/// The UID of the card, if it has one that is wanted.
fn wanted_uid<'a>(wanted: &TextSet, card: &'a CardRef) -> Option<&'a Text>
    ensures { option_copied result ≡ uid_among wanted.now card.entry.now.uid }
{
    match &card.uid {
        Some(uid) if wanted.has(uid) => Some(uid),
        _ => None,
    }
}

/// The names of the cards by their UIDs, where these are wanted, those of each UID in the order of the cards.
fn names_by_uid(
    alloc: Global,
    cards: &[CardRef],
    wanted: &TextSet,
) -> Result<TextMap<Items<Name>>, AllocError>
    ensures { IfOk result (HasNamesOf cards.now wanted.now) }
{
    let mut index = TextMap::new(alloc);
    for card in cards {
        if let Some(uid) = wanted_uid(wanted, card) {
            push_name(alloc, &mut index, uid, card.name.clone()?)?;
        }
    }
    Ok(index)
}

/// The texts of a list, as a set.
fn set_of(alloc: Global, texts: &[Text]) -> Result<TextSet, AllocError>
    ensures { IfOk result (λ s. (q : List ℕ) → set.contains s q ≡ has_path texts.now q) }
{
    let mut set = TextSet::new(alloc);
    set.insert_all(texts)?;
    Ok(set)
}

/// Copies of the names of a UID.
fn copied_names(
    alloc: Global,
    index: &TextMap<Items<Name>>,
    uid: &Text,
) -> Result<Items<Name>, AllocError>
    ensures { IfOk result (λ names. names ≡ names_at index.now uid.now) }
{
    match index.get(uid) {
        Some(names) => names.clone(),
        None => Ok(Items::new(alloc)),
    }
}

/// The MEMBER lines with these values, each with its names in the index.
fn lines_by(
    alloc: Global,
    index: &TextMap<Items<Name>>,
    values: &[Text],
) -> Result<Vec<MemberLine>, AllocError>
    ensures { IfOk result (λ lines. lines.items ≡ map (line_by index.now) values.now) }
{
    let mut lines = Vec::new(alloc);
    for value in values {
        let names = copied_names(alloc, index, value)?;
        let value = value.clone()?;
        lines.push(MemberLine { value, names })?;
    }
    Ok(lines)
}

/// The MEMBER lines with these values, each with the names of its cards.
fn lines_of(
    alloc: Global,
    cards: &[CardRef],
    values: &[Text],
) -> Result<Vec<MemberLine>, AllocError>
    ensures { IfOk result (λ lines. lines.items ≡ map (member_line cards.now) values.now) }
{
    let wanted = set_of(alloc, values)?;
    let index = names_by_uid(alloc, cards, &wanted)?;
    lines_by(alloc, &index, values)
}

/// The links from the UID of each card to its members.
fn links_of(alloc: Global, cards: &[CardRef]) -> Result<Links, AllocError>
    ensures { IfOk result (AreLinks cards.now) }
{
    let mut links = Links::new(alloc);
    for card in cards {
        if let Some(uid) = &card.uid {
            links.add_all(uid, card.members.as_slice())?;
        }
    }
    Ok(links)
}

/// Whether the card has a UID that was found.
fn is_found(found: &TextSet, card: &CardRef) -> bool
    ensures { result ≡ uid_in found.now card.now.uid }
{
    match &card.uid {
        Some(uid) => found.has(uid),
        None => false,
    }
}

/// The names of the cards that have a UID that was found.
fn found_names(alloc: Global, found: &TextSet, cards: &[CardRef]) -> Result<Vec<Name>, AllocError>
    ensures { IfOk result (λ names. AreNamesOf
        (λ q. uid_in found.now q.uid ≡ true) cards.now names.items) }
{
    let mut names = Vec::new(alloc);
    for card in cards {
        if !is_found(found, card) {
            continue;
        }
        names.push(card.name.clone()?)?;
    }
    Ok(names)
}

/// The names of the cards to which one or more steps lead from the card, in the order of the cards.
fn reached(alloc: Global, cards: &[CardRef], card: &CardRef) -> Result<Items<Name>, AllocError>
    ensures { IfOk result (AreNamesOf (IsReached cards.now card.now) cards.now) }
{
    let links = links_of(alloc, cards)?;
    let found = links.reached_from(card.members.as_slice())?;
    let names = found_names(alloc, &found, cards)?;
    Ok(Items::from_vec(names))
}

/// The members of the card.
fn members_of(alloc: Global, cards: &[CardRef], card: &CardRef) -> Result<Members, AllocError>
    ensures { IfOk result (AreMembers cards.now card.now) }
{
    let lines = lines_of(alloc, cards, card.members.as_slice())?;
    let reached = reached(alloc, cards, card)?;
    Ok(Members {
        lines: Items::from_vec(lines),
        reached,
    })
}

/// The members of the card with the name among these cards (RFC 6350, section 6.6.5); none where no card has the name.
/// An error is want of memory.
///
/// Each UID is looked for among the values of the card's MEMBER lines, and among what steps reach; only cards that have
/// members are held by their UIDs. Beside that the cost is that of the names that are answered.
pub fn members_among(alloc: Global, cards: &[CardRef], name: &Name) -> Result<Members, AllocError>
    ensures { IfOk result (AreMembersOf cards.now (card_named cards.now name.now)) }
{
    match card_named(cards, name) {
        Some(card) => members_of(alloc, cards, card),
        None => Ok(Members {
            lines: Items::new(alloc),
            reached: Items::new(alloc),
        }),
    }
}
