//! Questions to a keeper, and the texts of its answers.

use crate::words::{name, number, path, principal, word};
use book_lists::{Caller, Entry, Principal, Who};
use book_lists_explain::short_privileges;
use book_office::{Changed, Items, Keeper, Kind, Level, Listed, Node, Text, effective};
use std::alloc::Global;
use std::process::Abort;

pub(crate) fn tell_who(who: &Who) -> &str {
    match who {
        Who::Href(principal) => principal.text(),
        Who::Everyone => "all",
        Who::Authenticated => "authenticated",
        Who::Unauthenticated => "unauthenticated",
        Who::Owner => "owner",
        Who::Own => "self",
    }
}

/// A line: where the entry stands, in which list, what it does, to whom, and the short names of its leaves.
fn tell_entry(
    rt: &impl Abort,
    alloc: Global,
    answer: &mut String,
    at: &str,
    list: &str,
    entry: &Entry,
) {
    let action = if entry.deny { "deny" } else { "grant" };
    let not = if entry.invert { " not" } else { "" };
    let who = tell_who(&entry.who);
    write!(answer, "{at} {list} {action}{not} {who}").expect(rt, "memory");
    let names = short_privileges(alloc, entry.set).expect(rt, "memory");
    for privilege in names.iter() {
        let name = privilege.name();
        write!(answer, " {name}").expect(rt, "memory");
    }
    answer.push('\n').expect(rt, "memory");
}

fn tell_list(
    rt: &impl Abort,
    alloc: Global,
    answer: &mut String,
    at: &str,
    list: &str,
    entries: &Items<Entry>,
) {
    for entry in entries.as_slice() {
        tell_entry(rt, alloc, answer, at, list, entry);
    }
}

/// The kind, the number and the owner, and the label.
fn tell_resource(
    rt: &impl Abort,
    answer: &mut String,
    kind: Kind,
    number: u64,
    owner: &Option<Principal>,
    label: &Text,
) {
    let owner = owner.as_ref().map_or("nobody", |owner| owner.text());
    let label = label.as_str();
    write!(answer, "{kind:?} {number} of {owner} [{label}]").expect(rt, "memory");
}

/// The same, with the bytes of a card's text.
fn tell_node(rt: &impl Abort, answer: &mut String, node: &Node) {
    tell_resource(rt, answer, node.kind, node.number, &node.owner, &node.label);
    if let Some(text) = &node.text {
        let len = text.len();
        write!(answer, " {len} bytes").expect(rt, "memory");
    }
}

fn ask_node<K: Keeper>(
    rt: &impl Abort,
    alloc: Global,
    keeper: &mut K,
    answer: &mut String,
    at: &str,
) {
    let at = path(rt, alloc, at);
    let found = keeper.find(alloc, &at).expect(rt, "memory");
    match &found {
        Some(node) => tell_node(rt, answer, node),
        None => answer.push_str("nothing").expect(rt, "memory"),
    }
    drop(found);
}

/// A line for a child, and then its lists.
fn tell_child(rt: &impl Abort, alloc: Global, answer: &mut String, child: &Listed) {
    let name = child.name.text();
    write!(answer, "{name}: ").expect(rt, "memory");
    tell_resource(
        rt,
        answer,
        child.kind,
        child.number,
        &child.owner,
        &child.label,
    );
    answer.push('\n').expect(rt, "memory");
    tell_list(rt, alloc, answer, name, "protected", &child.protected);
    tell_list(rt, alloc, answer, name, "own", &child.own);
}

fn ask_children<K: Keeper>(
    rt: &impl Abort,
    alloc: Global,
    keeper: &mut K,
    answer: &mut String,
    at: &str,
) {
    let at = path(rt, alloc, at);
    let children = keeper.children(alloc, &at).expect(rt, "memory");
    for child in children.as_slice() {
        tell_child(rt, alloc, answer, child);
    }
    drop(children);
}

fn tell_level(rt: &impl Abort, alloc: Global, answer: &mut String, level: &Level) {
    let at = level.path.text(alloc).expect(rt, "memory");
    tell_list(
        rt,
        alloc,
        answer,
        at.as_str(),
        "protected",
        &level.protected,
    );
    tell_list(rt, alloc, answer, at.as_str(), "own", &level.own);
}

fn ask_lists<K: Keeper>(
    rt: &impl Abort,
    alloc: Global,
    keeper: &mut K,
    answer: &mut String,
    at: &str,
) {
    let at = path(rt, alloc, at);
    let lists = keeper.lists(alloc, &at).expect(rt, "memory");
    for level in lists.levels.as_slice() {
        tell_level(rt, alloc, answer, level);
    }
    drop(lists);
}

fn ask_effective<K: Keeper>(
    rt: &impl Abort,
    alloc: Global,
    keeper: &mut K,
    answer: &mut String,
    at: &str,
) {
    let at = path(rt, alloc, at);
    let entries = effective(alloc, keeper, &at).expect(rt, "memory");
    for found in entries.as_slice() {
        let from = found.path.text(alloc).expect(rt, "memory");
        let list = if found.protected { "protected" } else { "own" };
        tell_entry(rt, alloc, answer, from.as_str(), list, &found.entry);
    }
    drop(entries);
}

/// The number, the name, and the bytes of the card's text with its label, or that the name was removed.
fn tell_change(rt: &impl Abort, answer: &mut String, change: &Changed) {
    let number = change.number;
    let name = change.name.text();
    match &change.card {
        Some(card) => {
            let len = card.text.len();
            let label = card.label.as_str();
            write!(answer, "{number} {name} [{label}] {len} bytes\n").expect(rt, "memory");
        }
        None => write!(answer, "{number} {name} removed\n").expect(rt, "memory"),
    }
}

fn most_said(rt: &impl Abort, most: &str) -> Option<u32> {
    match most {
        "" => None,
        said => Some(u32::try_from(number(rt, said)).ok().expect(rt, "a count")),
    }
}

fn ask_changes<K: Keeper>(
    rt: &impl Abort,
    alloc: Global,
    keeper: &mut K,
    answer: &mut String,
    book: &str,
    after: &str,
    most: &str,
) {
    let book = name(rt, alloc, book);
    let changes = keeper.changes_after(alloc, &book, number(rt, after), most_said(rt, most));
    let changes = changes.expect(rt, "memory");
    for change in changes.as_slice() {
        tell_change(rt, answer, change);
    }
    drop(changes);
}

fn ask_cards<K: Keeper>(
    rt: &impl Abort,
    alloc: Global,
    keeper: &mut K,
    answer: &mut String,
    book: &str,
    after: &str,
    most: &str,
) {
    let book = name(rt, alloc, book);
    let cards = keeper.cards_after(alloc, &book, number(rt, after), most_said(rt, most));
    let cards = cards.expect(rt, "memory");
    for change in cards.as_slice() {
        tell_change(rt, answer, change);
    }
    drop(cards);
}

fn belongs<K: Keeper>(
    rt: &impl Abort,
    alloc: Global,
    keeper: &mut K,
    person: &str,
    within: &str,
) -> bool {
    let caller = match person {
        "-" => Caller::Nobody,
        _ => Caller::Known(principal(rt, alloc, person)),
    };
    let circle = keeper.circle(alloc, &caller).expect(rt, "memory");
    drop(caller);
    let belongs = circle.has(&principal(rt, alloc, within));
    drop(circle);
    belongs
}

/// A count of the keeper's: its failures, its pairs, or the epoch.
fn count<K: Keeper>(rt: &impl Abort, alloc: Global, keeper: &mut K, what: &str) -> u64 {
    match what {
        "failures" => keeper.failures(),
        "pairs" => keeper.pairs(alloc).expect(rt, "memory").len() as u64,
        _ => keeper.epoch().expect(rt, "the epoch"),
    }
}

/// The answer to a question.
pub(crate) fn ask<K: Keeper>(rt: &impl Abort, alloc: Global, keeper: &mut K, line: &str) -> String {
    let mut answer = String::new(alloc);
    let at = word(line, 1);
    match word(line, 0) {
        "node" => ask_node(rt, alloc, keeper, &mut answer, at),
        "children" => ask_children(rt, alloc, keeper, &mut answer, at),
        "lists" => ask_lists(rt, alloc, keeper, &mut answer, at),
        "effective" => ask_effective(rt, alloc, keeper, &mut answer, at),
        "changes" => ask_changes(
            rt,
            alloc,
            keeper,
            &mut answer,
            at,
            word(line, 2),
            word(line, 3),
        ),
        "cards" => ask_cards(
            rt,
            alloc,
            keeper,
            &mut answer,
            at,
            word(line, 2),
            word(line, 3),
        ),
        "belongs" => {
            let belongs = belongs(rt, alloc, keeper, at, word(line, 2));
            write!(answer, "{belongs}").expect(rt, "memory");
        }
        what => {
            let count = count(rt, alloc, keeper, what);
            write!(answer, "{count}").expect(rt, "memory");
        }
    }
    answer
}
