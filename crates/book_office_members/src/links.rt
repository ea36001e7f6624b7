//! Links from texts to texts, and what chains of them lead to.

ghost use Rattle.std.specs.Prelude.{◌≡◌, ◌++◌, ◌&&◌, ◌||◌, ℕ, List, IfOk, OnOk, map};
ghost use Rattle.std.specs.FinSet as set;
ghost use Rattle.std.specs.BTreeMap.{IsOrdered};
ghost use Rattle.std.specs.Str.{bytes_eq};
ghost use Rattle.book_lists.specs.Circles.{has_path};
ghost use Rattle.book_lists.specs.GroupEntries.{pairs_in, groups_at};
ghost use Rattle.book_lists.specs.PrincipalSets.{ListsAll};
ghost use Rattle.book_lists.specs.Principals.{path_cmp};
ghost use Rattle.book_office_members.specs.Reaching.{IsReachable};

use crate::text_sets::TextSet;
use book_office_values::Text;
use std::alloc::{AllocError, Global};
use std::collections::BTreeMap;
use std::marker::Model;

/// Links, seen as a set of pairs, as memberships are: `group` is the text to which a link leads, and `member` the one
/// where it begins.
#[derive(Debug, Drop)]
pub(crate) struct Links {
    alloc: Global,
    targets: BTreeMap<Text, TextSet>,
}

impl Model for Links {
    ghost use Rattle.std.specs.FinSet as set;
    ghost use Rattle.std.specs.BTreeMap.{IsOrdered};
    ghost use Rattle.book_lists.specs.Principals.{path_cmp};
    ghost use Rattle.book_lists.specs.GroupEntries.{pairs_in};
    ghost use Rattle.book_lists.specs.Memberships.{membership_cmp, coded_membership};

    ghost Value = { set.FinSet membership_cmp };

    ghost coded = { set.code coded_membership };

    ghost view = { λ p. pairs_in p.targets.entries };

    ghost invariant = { λ p. IsOrdered path_cmp p.targets };
}

impl Links {
    /// No links. Takes no memory until links are added.
    pub(crate) fn new(alloc: Global) -> Links
        ensures { result ≡ set.empty }
    {
        Links {
            alloc,
            targets: BTreeMap::new(alloc),
        }
    }

    /// Adds a link from a text to each of others. The text is looked up and copied once, where there are any. An error is
    /// want of memory.
    pub(crate) fn add_all(&mut self, start: &Text, ends: &[Text]) -> Result<(), AllocError>
        ensures { OnOk result ((to from : List ℕ)
            → set.contains self.new (record { group = to; member = from }) ≡
            ((bytes_eq start.now from && has_path ends.now to) || set.contains self.old
            (record { group = to; member = from }))) }
    {
        if ends.is_empty() {
            return Ok(());
        }
        add_targets(self.alloc, &mut self.targets, start, ends)
    }

    /// These texts, and each text to which a chain of links leads from one of them. An error is want of memory.
    pub(crate) fn reached_from(&self, starts: &[Text]) -> Result<TextSet, AllocError>
        ensures { IfOk result (IsReachable self.now starts.now) }
    {
        search(self.alloc, &self.targets, starts)
    }
}

/// Adds targets to those of a text.
fn add_targets(
    alloc: Global,
    groups: &mut BTreeMap<Text, TextSet>,
    start: &Text,
    ends: &[Text],
) -> Result<(), AllocError>
    requires { IsOrdered path_cmp groups.old }
    ensures ordered { IsOrdered path_cmp groups.new }
    ensures ok { OnOk result ((to from : List ℕ)
        → set.contains (pairs_in groups.new.entries) (record { group = to; member = from }) ≡
        ((bytes_eq start.now from && has_path ends.now to) || set.contains
        (pairs_in groups.old.entries) (record { group = to; member = from }))) }
{
    let mut targets = match groups.remove(start) {
        Some(targets) => targets,
        None => TextSet::new(alloc),
    };
    targets.insert_all(ends)?;
    groups.insert(start.clone()?, targets)?;
    Ok(())
}

/// Adds the targets of a text to the work of a search.
fn push_targets<'a>(
    groups: &'a BTreeMap<Text, TextSet>,
    member: &Text,
    work: &mut Vec<&'a Text>,
) -> Result<(), AllocError>
    ensures { OnOk result ((added : List (List ℕ))
        × ListsAll (groups_at groups.entry.now.entries member.now) added
        × (map (λ w. w.now) work.new.items ≡ map (λ w. w.now) work.old.items ++ added)) }
{
    match groups.get(member) {
        Some(direct) => direct.append_to(work),
        None => Ok(()),
    }
}

/// The texts as the work of a search.
fn work_of(alloc: Global, starts: &[Text]) -> Result<Vec<&Text>, AllocError>
    ensures { IfOk result (λ work. map (λ w. w.now) work.items ≡ starts.now) }
{
    let mut work = Vec::new(alloc);
    for start in starts {
        work.push(start)?;
    }
    Ok(work)
}

/// Searches from the texts. The work is what was reached and not yet looked at; each link adds to it once.
fn search(
    alloc: Global,
    groups: &BTreeMap<Text, TextSet>,
    starts: &[Text],
) -> Result<TextSet, AllocError>
    requires { IsOrdered path_cmp groups.now }
    ensures { IfOk result (IsReachable (pairs_in groups.now.entries) starts.now) }
{
    let mut work = work_of(alloc, starts)?;
    let mut found = TextSet::new(alloc);
    while let Some(member) = work.pop() {
        if found.has(member) {
            continue;
        }
        found.insert(member.clone()?)?;
        push_targets(groups, member, &mut work)?;
    }
    Ok(found)
}
