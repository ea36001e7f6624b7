//! The policies of the examples, and adopting them.

use crate::checks::{check_fact, check_text};
use crate::words::{entry, number, text, word};
use book_machine::{AdoptFault, Machine};
use book_office::{BookPart, EntryPart, GroupPart, Items, Keeper, PersonPart, Policy, Text};
use std::alloc::Global;
use std::process::Abort;

/// Three persons, one group and two books of one owner. A line is `person NAME LABEL`, `group NAME LABEL MEMBER ..`,
/// `book NAME OWNER LABEL`, `protected PATH grant WHO NAME ..` or `own PATH grant WHO NAME ..`; a dash is no owner,
/// and an empty label.
pub(crate) const OFFICE_POLICY: &[&str] = &[
    "person ann",
    "person bob",
    "person gus",
    "group staff - /people/ann /people/bob",
    "book sales /people/ann Sales",
    "book law /people/ann",
    "protected /books/sales grant /people/ann all",
    "own /books/sales grant /groups/staff read bind",
    "protected /books/law grant owner all",
    "own /books/law grant /people/bob read unbind",
    "protected /groups grant /people/ann read write-properties",
];

/// The same and one more: ann may make and remove books.
const WIDER_POLICY: &[&str] = &[
    "person ann",
    "person bob",
    "person gus",
    "group staff - /people/ann /people/bob",
    "book sales /people/ann Sales",
    "book law /people/ann",
    "protected /books/sales grant /people/ann all",
    "own /books/sales grant /groups/staff read bind",
    "protected /books/law grant owner all",
    "own /books/law grant /people/bob read unbind",
    "protected /groups grant /people/ann read write-properties",
    "own /books grant /people/ann bind unbind",
];

/// Other labels, another owner, another member, and other entries, of which two stand at one book.
const OTHER_POLICY: &[&str] = &[
    "person ann Ann",
    "person gus Gus",
    "person zoe",
    "group staff Staff /people/gus",
    "group crew - /groups/staff",
    "book sales /groups/staff Sold",
    "book parts - Parts",
    "own /books/sales deny not /groups/crew read write",
    "own /books/sales grant /people/gus all",
    "protected /people grant self read",
    "protected / grant authenticated read-acl",
];

/// Nothing but the persons, the group without members, and the book of sales without owner and label.
const BARE_POLICY: &[&str] = &["person ann", "person bob", "group staff", "book sales"];

/// A thousand books.
const THOUSAND_BOOKS: &[&str] = &["person ann", "books 1000"];

fn lines_of(name: &str) -> &'static [&'static str] {
    match name {
        "office" => OFFICE_POLICY,
        "wider" => WIDER_POLICY,
        "other" => OTHER_POLICY,
        "bare" => BARE_POLICY,
        _ => THOUSAND_BOOKS,
    }
}

/// The parts of a policy.
#[derive(Drop)]
struct Parts {
    persons: Items<PersonPart>,
    groups: Items<GroupPart>,
    books: Items<BookPart>,
    entries: Items<EntryPart>,
}

fn no_parts(alloc: Global) -> Parts {
    Parts {
        persons: Items::new(alloc),
        groups: Items::new(alloc),
        books: Items::new(alloc),
        entries: Items::new(alloc),
    }
}

/// The label; empty at a dash.
fn label(rt: &impl Abort, alloc: Global, word: &str) -> Text {
    match word {
        "-" => text(rt, alloc, ""),
        _ => text(rt, alloc, word),
    }
}

fn person(rt: &impl Abort, alloc: Global, name: &str, label: Text) -> PersonPart {
    PersonPart {
        name: text(rt, alloc, name),
        label,
    }
}

/// The words of the line after the third.
fn members(rt: &impl Abort, alloc: Global, line: &str) -> Items<Text> {
    let mut members = Items::new(alloc);
    for member in line.split(' ').skip(3) {
        members.push(text(rt, alloc, member)).expect(rt, "memory");
    }
    members
}

fn group(rt: &impl Abort, alloc: Global, line: &str) -> GroupPart {
    GroupPart {
        name: text(rt, alloc, word(line, 1)),
        label: label(rt, alloc, word(line, 2)),
        members: members(rt, alloc, line),
    }
}

fn book_owner(rt: &impl Abort, alloc: Global, word: &str) -> Option<Text> {
    match word {
        "-" | "" => None,
        _ => Some(text(rt, alloc, word)),
    }
}

fn book(rt: &impl Abort, alloc: Global, line: &str) -> BookPart {
    BookPart {
        name: text(rt, alloc, word(line, 1)),
        label: label(rt, alloc, word(line, 3)),
        owner: book_owner(rt, alloc, word(line, 2)),
    }
}

fn entry_part(rt: &impl Abort, alloc: Global, line: &str) -> EntryPart {
    EntryPart {
        at: text(rt, alloc, word(line, 1)),
        protected: word(line, 0) == "protected",
        entry: entry(rt, alloc, line),
    }
}

/// A person whose label has so many bytes.
fn add_labelled(rt: &impl Abort, alloc: Global, parts: &mut Parts, bytes: u64) {
    let mut label = String::new(alloc);
    for _ in 0..bytes {
        label.push('x').expect(rt, "memory");
    }
    let part = person(rt, alloc, "zed", Text::from_string(label));
    parts.persons.push(part).expect(rt, "memory");
}

/// So many persons.
fn add_persons(rt: &impl Abort, alloc: Global, parts: &mut Parts, count: u64) {
    for number in 0..count {
        let name = format!(in alloc; "p{number}").expect(rt, "memory");
        let part = person(rt, alloc, name.as_str(), text(rt, alloc, ""));
        parts.persons.push(part).expect(rt, "memory");
    }
}

/// So many groups.
fn add_groups(rt: &impl Abort, alloc: Global, parts: &mut Parts, count: u64) {
    for number in 0..count {
        let line = format!(in alloc; "group g{number}").expect(rt, "memory");
        let part = group(rt, alloc, line.as_str());
        parts.groups.push(part).expect(rt, "memory");
    }
}

/// So many books.
fn add_books(rt: &impl Abort, alloc: Global, parts: &mut Parts, count: u64) {
    for number in 0..count {
        let line = format!(in alloc; "book b{number}").expect(rt, "memory");
        let part = book(rt, alloc, line.as_str());
        parts.books.push(part).expect(rt, "memory");
    }
}

/// A group of so many persons, and of one member more.
fn add_large_group(rt: &impl Abort, alloc: Global, parts: &mut Parts, count: u64, one_more: &str) {
    let mut part = group(rt, alloc, "group many");
    for number in 0..count {
        let path = format!(in alloc; "/people/p{number}").expect(rt, "memory");
        part.members
            .push(Text::from_string(path))
            .expect(rt, "memory");
    }
    part.members
        .push(text(rt, alloc, one_more))
        .expect(rt, "memory");
    parts.groups.push(part).expect(rt, "memory");
}

/// So many entries of one list.
fn add_entries(rt: &impl Abort, alloc: Global, parts: &mut Parts, count: u64, line: &str) {
    for _ in 0..count {
        let part = entry_part(rt, alloc, line);
        parts.entries.push(part).expect(rt, "memory");
    }
}

fn add(rt: &impl Abort, alloc: Global, parts: &mut Parts, line: &str) {
    match word(line, 0) {
        "person" => {
            let label = label(rt, alloc, word(line, 2));
            let part = person(rt, alloc, word(line, 1), label);
            parts.persons.push(part).expect(rt, "memory");
        }
        "group" => {
            let part = group(rt, alloc, line);
            parts.groups.push(part).expect(rt, "memory");
        }
        "book" => {
            let part = book(rt, alloc, line);
            parts.books.push(part).expect(rt, "memory");
        }
        "label" => add_labelled(rt, alloc, parts, number(rt, word(line, 1))),
        "persons" => add_persons(rt, alloc, parts, number(rt, word(line, 1))),
        "groups" => add_groups(rt, alloc, parts, number(rt, word(line, 1))),
        "books" => add_books(rt, alloc, parts, number(rt, word(line, 1))),
        "many" => {
            let count = number(rt, word(line, 1));
            add_large_group(rt, alloc, parts, count, word(line, 2));
        }
        "entries" => {
            let count = number(rt, word(line, 1));
            add_entries(rt, alloc, parts, count, "own /groups grant owner bind");
        }
        "protecteds" => {
            let count = number(rt, word(line, 1));
            add_entries(
                rt,
                alloc,
                parts,
                count,
                "protected /groups grant owner bind",
            );
        }
        _ => {
            let part = entry_part(rt, alloc, line);
            parts.entries.push(part).expect(rt, "memory");
        }
    }
}

fn all_parts(rt: &impl Abort, alloc: Global, lines: &[&str], more: &[&str]) -> Parts {
    let mut parts = no_parts(alloc);
    for line in lines {
        add(rt, alloc, &mut parts, line);
    }
    for line in more {
        add(rt, alloc, &mut parts, line);
    }
    parts
}

/// The policy that the lines say, if they say one.
pub(crate) fn policy_of(
    rt: &impl Abort,
    alloc: Global,
    lines: &[&str],
    more: &[&str],
) -> Option<Policy> {
    let Parts {
        persons,
        groups,
        books,
        entries,
    } = all_parts(rt, alloc, lines, more);
    Policy::new(alloc, persons, groups, books, entries).expect(rt, "memory")
}

/// The policy of this name.
pub(crate) fn policy(rt: &impl Abort, alloc: Global, name: &str) -> Policy {
    policy_of(rt, alloc, lines_of(name), &[]).expect(rt, "a policy")
}

/// Adopts a policy, and tells what came of it.
pub(crate) fn adopted<K: Keeper>(
    rt: &impl Abort,
    alloc: Global,
    machine: &mut Machine<K>,
    policy: &Policy,
) -> String {
    match machine.adopt(alloc, policy) {
        Ok(adopted) => {
            let what = if adopted.changed {
                "changed"
            } else {
                "unchanged"
            };
            let epoch = adopted.epoch;
            format!(in alloc; "{what}, epoch {epoch}").expect(rt, "memory")
        }
        Err(AdoptFault::Full) => String::from_str(alloc, "full").expect(rt, "memory"),
        Err(AdoptFault::Unavailable) => {
            String::from_str(alloc, "unavailable").expect(rt, "memory")
        }
    }
}

/// What makes parts no policy: to the parts of the office's policy such a line is added, or several.
const FAULTS: &[&[&str]] = &[
    &["label 257"],
    &["person .zed"],
    &["person "],
    &["person ann"],
    &["person ann Other"],
    &["group staff"],
    &["book sales"],
    &["group more - /people/zoe"],
    &["group more - /books/sales"],
    &["group more - owner"],
    &["book more /groups/none"],
    &["book more /people/zoe"],
    &["book more /books/sales"],
    &["book more self"],
    &["own / grant /people/zoe read"],
    &["own / grant /groups/none read"],
    &["own / grant all"],
    &["own /books/none grant all read"],
    &["own /people/zoe grant all read"],
    &["own /books/sales/a.vcf grant all read"],
    &["own // grant all read"],
    &["own  grant all read"],
    &["persons 998"],
    &["groups 1000"],
    &["books 999"],
    &["protecteds 64"],
    &["entries 65"],
    &["persons 997", "many 997 /people/ann", "many 1 /people/p0"],
    &["persons 997", "many 997 /people/zoe"],
];

/// What may be added to a policy. Names of persons, groups and books are apart; repeated members count once.
const FINE: &[&[&str]] = &[
    &["label 256"],
    &["person staff", "person sales", "group ann", "book ann"],
    &["group more - /groups/staff /groups/more /people/ann/"],
    &["book more /groups/staff/"],
    &["own / grant self read"],
    &["own /groups/staff deny not self all"],
    &["own /people/ann/ grant unauthenticated bind"],
    &["persons 997"],
    &["groups 999"],
    &["books 998"],
    &["protecteds 63", "entries 64"],
    &["persons 997", "many 997 /people/p0"],
];

fn is_policy(rt: &impl Abort, alloc: Global, more: &[&str]) -> bool {
    let policy = policy_of(rt, alloc, OFFICE_POLICY, more);
    let is_one = policy.is_some();
    drop(policy);
    is_one
}

/// The first of several lines.
fn first<'a>(lines: &[&'a str]) -> &'a str {
    match lines.first() {
        Some(line) => *line,
        None => "",
    }
}

#[test]
fn faulty_parts_make_no_policy(rt: HostRuntime) {
    for more in FAULTS {
        check_fact(&rt, !is_policy(&rt, rt.alloc(), more), first(more));
    }
}

#[test]
fn parts_within_the_limits_make_a_policy(rt: HostRuntime) {
    for more in FINE {
        check_fact(&rt, is_policy(&rt, rt.alloc(), more), first(more));
    }
}

/// A group may have 1,000 direct members: 999 persons and one more, however often it is named, and not two more.
const MEMBERS: &[(&[&str], bool)] = &[
    (&["persons 1000", "many 1000 /people/p0"], true),
    (&["persons 999", "many 999 /groups/many"], true),
    (&["persons 1000", "many 1000 /groups/many"], false),
    (&["persons 1001"], false),
];

#[test]
fn a_group_may_have_1000_members(rt: HostRuntime) {
    for (lines, is_one) in MEMBERS {
        let policy = policy_of(&rt, rt.alloc(), lines, &[]);
        let made = policy.is_some();
        drop(policy);
        check_fact(&rt, made == *is_one, first(lines));
    }
}

/// What a policy says: a line for each person's and each group's label, each book's label and owner, and the counts
/// of the members and entries.
fn tell_tables(rt: &impl Abort, answer: &mut String, policy: &Policy) {
    let tables = policy.tables();
    for (name, label) in tables.persons.iter() {
        let (name, label) = (name.text(), label.as_str());
        write!(answer, "{name} [{label}], ").expect(rt, "memory");
    }
    for (name, book) in tables.books.iter() {
        let owner = book.owner.as_ref().map_or("-", |owner| owner.text());
        let (name, label) = (name.text(), book.label.as_str());
        write!(answer, "{name} of {owner} [{label}], ").expect(rt, "memory");
    }
    let (members, entries) = (tables.members.len(), tables.entries.len());
    write!(answer, "{members} members, {entries} entries").expect(rt, "memory");
}

/// What the policy `other` says.
const OTHER: &str =
    "ann [Ann], gus [Gus], zoe [], parts of - [Parts], sales of /groups/staff [Sold], 2 members, 4 entries";

#[test]
fn policies_say_what_their_parts_say(rt: HostRuntime) {
    let alloc = rt.alloc();
    let sales = text(&rt, alloc, "/books/sales");
    let root = text(&rt, alloc, "/");
    let mut answer = String::new(alloc);
    let policy = policy(&rt, alloc, "other");
    tell_tables(&rt, &mut answer, &policy);
    let owned = policy.own_at(&sales).map(|list| list.len());
    let protected = policy.protected_at(&root).map(|list| list.len());
    let without = policy.own_at(&root).is_none();
    drop(policy);
    check_text(&rt, answer.as_str(), OTHER, "other");
    check_fact(&rt, owned == Some(2), "an own list");
    check_fact(&rt, protected == Some(1), "a protected list");
    check_fact(&rt, without, "no own list");
}
