//! A person who is gone.

ghost use Rattle.std.specs.Prelude.{◌≡◌, ◌≢◌, ◌≤◌, ◌++◌, All, Some, codes, false, filter, true, IfErr, IfOk, OnOk, string_bytes};
ghost use Rattle.std.specs.List.{flat_map};
ghost use Rattle.std.specs.Option.{option_to_list};
ghost use Rattle.book_limits.specs.declared.TheConstants.{LAST_NUMBER};
ghost use Rattle.book_lists.specs.declared.entries.Who.TheVariants as form;
ghost use Rattle.book_office_values.specs.Paths.{path_text};
ghost use Rattle.book_dumps_changes.specs.Leavers.{end_word, entries_without, entry_without, heir_text, is_other, line_without, lines_without, names, owner_without};
ghost use Rattle.book_dumps_changes.specs.Leavers.{told_entries, told_entry, told_leaving, told_line, told_member, told_members, told_owner, told_parts, without_person, IsFreeOf, MayLeave};

use crate::changed::{ChangeFault, Changed, check_principal, is_line_of, raised};
use crate::owners::is_owner;
use book_dumps::Line;
use book_dumps_reading::Dumped;
use book_lists::{Entry, Principal, Who};
use book_office_audit::push_entry;
use book_office_values::{Items, Path, Text};
use std::alloc::{AllocError, Global};

/// Whether a form names the person.
fn names(person: &Principal, who: &Who) -> bool
    ensures { result ≡ names person.now who.now }
{
    match who {
        Who::Href(principal) => *principal == *person,
        Who::Everyone | Who::Authenticated | Who::Unauthenticated | Who::Owner | Who::Own => false,
    }
}

/// The word that tells what became of an entry of the person.
fn end_word(invert: bool) -> &'static str
    ensures { result.now ≡ end_word invert }
{
    if invert { "all " } else { "gone " }
}

/// The entry for everybody that an inverted one of the person becomes.
fn for_everyone(entry: Entry) -> Entry
    ensures { result ≡ record entry { who = form.Everyone; invert = false } }
{
    let Entry { deny, set, .. } = entry;
    Entry {
        who: Who::Everyone,
        invert: false,
        deny,
        set,
    }
}

/// Tells of an entry, if it names the person. An error is want of memory.
fn tell_entry(
    alloc: Global,
    told: &mut String,
    person: &Principal,
    path: &Path,
    protected: bool,
    entry: &Entry,
) -> Result<(), AllocError>
    ensures { OnOk result (string_bytes told.new ≡
        string_bytes told.old ++ told_entry person.now path.now protected entry.now) }
{
    if !names(person, &entry.who) {
        return Ok(());
    }
    told.push_str(end_word(entry.invert))?;
    path.push_text(told)?;
    push_entry(alloc, told, protected, entry)
}

/// What becomes of an entry, if it does not go.
fn entry_after(person: &Principal, entry: Entry) -> Option<Entry>
    ensures { option_to_list result ≡ entry_without person.now entry }
{
    if !names(person, &entry.who) {
        Some(entry)
    } else if entry.invert {
        Some(for_everyone(entry))
    } else {
        None
    }
}

/// What becomes of entries. An error is want of memory.
fn release_entries(
    alloc: Global,
    told: &mut String,
    person: &Principal,
    path: &Path,
    protected: bool,
    entries: Items<Entry>,
) -> Result<Items<Entry>, AllocError>
    ensures entries { IfOk result (λ after. after ≡ entries_without person.now entries) }
    ensures told { OnOk result (string_bytes told.new ≡
        string_bytes told.old ++ told_entries person.now path.now protected entries) }
{
    let mut after = Items::new(alloc);
    for entry in entries.into_vec() {
        tell_entry(alloc, told, person, path, protected, &entry)?;
        if let Some(entry) = entry_after(person, entry) {
            after.push(entry)?;
        }
    }
    Ok(after)
}

/// Tells that a principal of a resource is gone: one line. An error is want of memory.
fn push_line(
    told: &mut String,
    word: &str,
    path: &Path,
    principal: &Principal,
) -> Result<(), AllocError>
    ensures { OnOk result (string_bytes told.new ≡ string_bytes told.old
        ++ (word.now ++ (path_text path.now ++ (codes " " ++ principal.now)))) }
{
    told.push_str(word)?;
    path.push_text(told)?;
    told.push_str(" ")?;
    told.push_str(principal.text())
}

/// Tells of a member, if it is the person. An error is want of memory.
fn tell_member(
    told: &mut String,
    person: &Principal,
    path: &Path,
    member: &Principal,
) -> Result<(), AllocError>
    ensures { OnOk result (string_bytes told.new ≡
        string_bytes told.old ++ told_member person.now path.now member.now) }
{
    if *member != *person {
        return Ok(());
    }
    push_line(told, "member ", path, member)?;
    told.push_str("\n")
}

/// What becomes of members. An error is want of memory.
fn release_members(
    alloc: Global,
    told: &mut String,
    person: &Principal,
    path: &Path,
    members: Items<Principal>,
) -> Result<Items<Principal>, AllocError>
    ensures members { IfOk result (λ after. after ≡ filter (is_other person.now) members) }
    ensures told { OnOk result (string_bytes told.new ≡
        string_bytes told.old ++ told_members person.now path.now members) }
{
    let mut after = Items::new(alloc);
    for member in members.into_vec() {
        tell_member(told, person, path, &member)?;
        if member != *person {
            after.push(member)?;
        }
    }
    Ok(after)
}

/// The text of an heir; `nobody` where there is none.
fn heir_text(heir: &Option<Principal>) -> &str
    ensures { result.now ≡ heir_text heir.now }
{
    match heir {
        Some(heir) => heir.text(),
        None => "nobody",
    }
}

/// Tells who has what the person owned. An error is want of memory.
fn tell_owner(
    told: &mut String,
    person: &Principal,
    heir: &Option<Principal>,
    line: &Line,
) -> Result<(), AllocError>
    ensures { OnOk result (string_bytes told.new ≡
        string_bytes told.old ++ told_owner person.now heir.now line.now) }
{
    if !is_owner(person, &line.owner) {
        return Ok(());
    }
    push_line(told, "owner ", &line.path, person)?;
    told.push_str(" -> ")?;
    told.push_str(heir_text(heir))?;
    told.push_str("\n")
}

/// The owner after the person is gone. An error is want of memory.
fn owner_after(
    person: &Principal,
    heir: &Option<Principal>,
    owner: Option<Principal>,
) -> Result<Option<Principal>, AllocError>
    ensures { IfOk result (λ after. after ≡ owner_without person.now heir.now owner) }
{
    if !is_owner(person, &owner) {
        return Ok(owner);
    }
    match heir {
        Some(heir) => Ok(Some(heir.clone()?)),
        None => Ok(None),
    }
}

/// What becomes of a resource that is not the person. An error is want of memory.
fn release_line(
    alloc: Global,
    told: &mut String,
    person: &Principal,
    heir: &Option<Principal>,
    line: Line,
) -> Result<Line, AllocError>
    ensures line { IfOk result (λ after. after ≡ line_without person.now heir.now line) }
    ensures told { OnOk result (string_bytes told.new ≡
        string_bytes told.old ++ told_parts person.now heir.now line) }
{
    tell_owner(told, person, heir, &line)?;
    let Line {
        path,
        owner,
        label,
        protected,
        own,
        members,
        number,
        removed,
        text,
    } = line;
    let owner = owner_after(person, heir, owner)?;
    let protected = release_entries(alloc, told, person, &path, true, protected)?;
    let own = release_entries(alloc, told, person, &path, false, own)?;
    let members = release_members(alloc, told, person, &path, members)?;
    Ok(Line {
        path,
        owner,
        label,
        protected,
        own,
        members,
        number,
        removed,
        text,
    })
}

/// Tells that the person's line goes. An error is want of memory.
fn tell_person(told: &mut String, person: &Principal) -> Result<(), AllocError>
    ensures { OnOk result (string_bytes told.new ≡
        string_bytes told.old ++ (codes "person " ++ (person.now ++ codes "\n"))) }
{
    told.push_str("person ")?;
    told.push_str(person.text())?;
    told.push_str("\n")
}

/// What becomes of a line, if it does not go. An error is want of memory.
fn release(
    alloc: Global,
    told: &mut String,
    person: &Principal,
    heir: &Option<Principal>,
    line: Line,
) -> Result<Option<Line>, AllocError>
    ensures line { IfOk result (λ after.
        option_to_list after ≡ lines_without person.now heir.now line) }
    ensures told { OnOk result (string_bytes told.new ≡
        string_bytes told.old ++ told_line person.now heir.now line) }
{
    if is_line_of(alloc, &line, person)? {
        drop(line);
        tell_person(told, person)?;
        return Ok(None);
    }
    Ok(Some(release_line(alloc, told, person, heir, line)?))
}

/// What becomes of lines. An error is want of memory.
fn release_all(
    alloc: Global,
    told: &mut String,
    person: &Principal,
    heir: &Option<Principal>,
    lines: Items<Line>,
) -> Result<Items<Line>, AllocError>
    ensures lines { IfOk result (λ after. after ≡ flat_map
        (lines_without person.now heir.now) lines) }
    ensures told { OnOk result (string_bytes told.new ≡
        string_bytes told.old ++ told_leaving person.now heir.now lines) }
{
    let mut after = Items::new(alloc);
    for line in lines.into_vec() {
        if let Some(line) = release(alloc, told, person, heir, line)? {
            after.push(line)?;
        }
    }
    Ok(after)
}

/// The person is a person with a line, and the heir, if there is one, is somebody else with a line. It is
/// `UnknownPrincipal` else.
fn check_heirs(
    alloc: Global,
    lines: &[Line],
    person: &Principal,
    heir: &Option<Principal>,
) -> Result<(), ChangeFault>
    ensures ok { OnOk result (MayLeave lines.now person.now heir.now) }
    ensures unknown { IfErr result (λ fault. fault ≡ ChangeFault.UnknownPrincipal
        → MayLeave lines.now person.now heir.now → ⊥) }
    ensures below { IfErr result (λ fault. fault ≢ ChangeFault.LastNumber) }
{
    if person.is_group() {
        return Err(ChangeFault::UnknownPrincipal);
    }
    check_principal(alloc, lines, person)?;
    let Some(heir) = heir else {
        return Ok(());
    };
    if *heir == *person {
        return Err(ChangeFault::UnknownPrincipal);
    }
    check_principal(alloc, lines, heir)
}

/// Takes a person away: the line goes, the person is a member of nothing, and what the person owned is the heir's, or
/// nobody's. An entry for the person goes; an inverted one, which applied to everybody else, becomes one for `all`, so
/// that a place that was closed is not opened. All else is as it was. The lines that are told: `person PATH`; `owner
/// PATH PERSON -> HEIR`, or `nobody`; `gone PATH LIST ENTRY` of an entry that goes, and `all PATH LIST ENTRY` of one
/// that is for `all` then, with what it was; `member PATH PERSON`. The epoch is one more.
///
/// # Errors
///
/// `UnknownPrincipal` where the person is a group, where the person or the heir has no line, or the heir is the person.
/// `LastNumber` where the epoch was the last. `Memory` where memory was refused, in place of any other answer.
pub fn without(
    alloc: Global,
    dumped: Dumped,
    person: &Principal,
    heir: &Option<Principal>,
) -> Result<Changed, ChangeFault>
    ensures ok { IfOk result (λ changed. changed ≡ without_person person.now heir.now dumped) }
    ensures gone { IfOk result (λ changed. All (IsFreeOf person.now) changed.dumped.lines) }
    ensures known { OnOk result (MayLeave dumped.lines person.now heir.now) }
    ensures within { IfOk result (λ changed. dumped.epoch ≤ LAST_NUMBER
        → changed.dumped.epoch ≤ LAST_NUMBER) }
    ensures unknown { IfErr result (λ fault. fault ≡ ChangeFault.UnknownPrincipal
        → MayLeave dumped.lines person.now heir.now → ⊥) }
    ensures last { IfErr result (λ fault. fault ≡ ChangeFault.LastNumber
        → LAST_NUMBER ≤ dumped.epoch) }
{
    check_heirs(alloc, dumped.lines.as_slice(), person, heir)?;
    let Dumped { epoch, lines } = dumped;
    let mut told = String::new(alloc);
    let lines = release_all(alloc, &mut told, person, heir, lines)?;
    let told = Text::from_string(told);
    let epoch = raised(epoch, &told)?;
    Ok(Changed {
        dumped: Dumped { epoch, lines },
        told,
    })
}
