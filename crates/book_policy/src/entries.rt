//! The entries of a policy's text as parts of a policy: their principals and their privileges are read.

ghost use Rattle.std.specs.Prelude.{◌≡◌, false, map, IfOk, IfSome, IfNone};
ghost use Rattle.std.specs.List.{AllByRecursion};
ghost use Rattle.book_policy_faults.specs.Values.{is_word};
ghost use Rattle.book_policy.specs.Passes.{HasPrivileges, IsReadable, SpellsWho};
ghost use Rattle.book_policy.specs.Rules.{IsPrivilegeName, entry_part, leaves_of, who_of};

use crate::parts::EntryText;
use book_lists::{Entry, Principal, Who};
use book_office_values::{Items, Text};
use book_policy_values::EntryPart;
use book_rights::{LeafSet, Privilege};
use std::alloc::{AllocError, Global};

/// The form that the text is a word for, if it is one.
fn form_of(text: &str) -> Option<Who>
    ensures some { IfSome result (λ who. who ≡ who_of text.now) }
    ensures none { IfNone result (is_word text.now ≡ false) }
{
    if text == "all" {
        Some(Who::Everyone)
    } else if text == "authenticated" {
        Some(Who::Authenticated)
    } else if text == "unauthenticated" {
        Some(Who::Unauthenticated)
    } else if text == "owner" {
        Some(Who::Owner)
    } else if text == "self" {
        Some(Who::Own)
    } else {
        None
    }
}

/// The form that the text is a word for, or else the principal whose path it spells.
fn who_of(alloc: Global, text: &str) -> Result<Option<Who>, AllocError>
    ensures some { IfOk result (λ found. IfSome found (λ who. who ≡ who_of text.now)) }
    ensures none { IfOk result (λ found. IfNone found (SpellsWho text.now → ⊥)) }
{
    if let Some(who) = form_of(text) {
        return Ok(Some(who));
    }
    match Principal::parse(alloc, text)? {
        Some(principal) => Ok(Some(Who::Href(principal))),
        None => Ok(None),
    }
}

/// The leaves of the privileges with these names, if each is one.
fn leaves_of(names: &[Text]) -> Option<LeafSet>
    ensures some { IfSome result (λ set. (set ≡ leaves_of names.now)
        × AllByRecursion IsPrivilegeName names.now) }
    ensures none { IfNone result (AllByRecursion IsPrivilegeName names.now → ⊥) }
{
    let mut set = LeafSet::empty();
    for name in names {
        let Some(privilege) = Privilege::from_name(name.as_str()) else {
            return None;
        };
        set = set.union(privilege.leaves());
    }
    Some(set)
}

/// The entry as a part of a policy, if its principal and its privileges can be read.
fn entry_part(alloc: Global, entry: EntryText) -> Result<Option<EntryPart>, AllocError>
    ensures some { IfOk result (λ found. IfSome found (λ part.
        (part ≡ entry_part entry) × HasPrivileges entry)) }
    ensures none { IfOk result (λ found. IfNone found (IsReadable entry → ⊥)) }
{
    let Some(set) = leaves_of(entry.names.as_slice()) else {
        return Ok(None);
    };
    let Some(who) = who_of(alloc, entry.who.as_str())? else {
        return Ok(None);
    };
    Ok(Some(EntryPart {
        at: entry.at,
        protected: entry.protected,
        entry: Entry {
            who,
            invert: entry.invert,
            deny: entry.deny,
            set,
        },
    }))
}

/// The entries as parts of a policy, if all can be read.
pub(crate) fn entry_parts(
    alloc: Global,
    entries: Items<EntryText>,
) -> Result<Option<Items<EntryPart>>, AllocError>
    ensures some { IfOk result (λ found. IfSome found (λ parts. (parts ≡ map entry_part entries)
        × AllByRecursion HasPrivileges entries)) }
    ensures none { IfOk result (λ found. IfNone found (AllByRecursion IsReadable entries → ⊥)) }
{
    let mut parts = Vec::new(alloc);
    for entry in entries.into_vec() {
        let Some(part) = entry_part(alloc, entry)? else {
            return Ok(None);
        };
        parts.push(part)?;
    }
    Ok(Some(Items::from_vec(parts)))
}
