//! Decisions as texts that `explain` reads, and its answers, in the company of `departments`.

use crate::checks::check_text;
use crate::making::set_list;
use crate::questions_departments::company;
use book_lists::{Entry, Who};
use book_lists_explain::explain;
use book_machine::{Machine, Refusal};
use book_office::{Items, Keeper, Path, Text};
use book_questions_asked::ask;
use book_rights::Privilege;
use std::alloc::Global;
use std::process::Abort;

/// The caller, the path, the privilege, the text, and the answer of `explain` to it; or the name of a refusal, and nothing.
type Asked = (
    Option<&'static str>,
    &'static str,
    &'static str,
    &'static str,
    &'static str,
);

const ASKED: &[Asked] = &[
    // Memberships that do not lead to ben are not stated.
    (
        Some("ben"),
        "/books/sales/d.vcf",
        "write-content",
        "member /groups/assistants /people/ben\n\
         member /groups/office /groups/sales\n\
         member /groups/sales /groups/assistants\n\
         caller /people/ben\n\
         owner /people/finn\n\
         need write-content\n\
         grant /groups/sales write\n\
         grant /people/finn bind\n\
         grant owner read write-content\n\
         grant /groups/admins all\n\
         grant /groups/office read\n",
        "allowed\ngranted: read write\n",
    ),
    // An inverted entry, and one that stands in a protected list.
    (
        Some("dora"),
        "/books/board",
        "read",
        "member /groups/admins /people/dora\n\
         caller /people/dora\n\
         need read\n\
         deny not /groups/board all\n\
         grant /groups/board read write\n\
         grant /groups/admins all\n\
         grant /groups/office read\n",
        "denied read by 1\ngranted: -\n",
    ),
    // Nobody, at a resource that is a principal.
    (
        None,
        "/people/ann",
        "all",
        "caller -\n\
         here /people/ann\n\
         need all\n\
         grant /groups/admins all\n\
         grant /groups/office read\n",
        "denied read, none granted\ngranted: -\n",
    ),
    (Some("zoe"), "/books/none", "read", "unknown-caller", ""),
    (Some("ann"), "/books/none", "read", "not-found", ""),
];

/// Compares a text with what explains it, or the name of a refusal.
fn check_restated(
    rt: &impl Abort,
    alloc: Global,
    asked: Result<Option<Text>, Refusal>,
    wanted: &str,
    answer: &str,
) {
    match &asked {
        Ok(Some(text)) => {
            check_text(rt, text.as_str(), wanted);
            let told = explain(alloc, text.as_str()).expect(rt, "an answer");
            check_text(rt, told.as_str(), answer);
        }
        Ok(None) => check_text(rt, "too many", wanted),
        Err(refusal) => check_text(rt, refusal.name(), wanted),
    }
    drop(asked);
}

fn compare<K: Keeper>(rt: &impl Abort, alloc: Global, machine: &mut Machine<K>, asked: &Asked) {
    let (name, path, word, wanted, answer) = asked;
    let privilege = Privilege::from_name(word).expect(rt, "a privilege");
    let path = Path::parse(alloc, path).ok();
    let asked = ask(alloc, machine, *name, &path, privilege.leaves());
    check_restated(rt, alloc, asked, wanted, answer);
}

/// More entries are in force than are told.
const TOO_MANY: Asked = (Some("ann"), "/books/sales/a.vcf", "read", "too many", "");

/// Gives a card 62 entries of its own, with which 67 are in force.
fn lengthen<K: Keeper>(rt: &impl Abort, alloc: Global, machine: &mut Machine<K>) {
    let mut entries = Items::new(alloc);
    for _ in 0..62 {
        let entry = Entry {
            who: Who::Everyone,
            invert: false,
            deny: false,
            set: Privilege::Read.leaves(),
        };
        entries.push(entry).expect(rt, "memory");
    }
    set_list(rt, alloc, &mut machine.keeper, "a.vcf", entries);
}

#[test]
fn a_decision_is_told_so_that_it_is_worked_out_again(rt: HostRuntime) {
    let alloc = rt.alloc();
    let mut machine = company(&rt, alloc);
    for asked in ASKED {
        compare(&rt, alloc, &mut machine, asked);
    }
    lengthen(&rt, alloc, &mut machine);
    compare(&rt, alloc, &mut machine, &TOO_MANY);
    drop(machine);
}
