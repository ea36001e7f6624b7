//! The texts that `explain` answers.

use crate::checks::check_text;
use crate::entry_lines::leaves;
use book_lists_explain::{
    ExplainFault, ExplainFaultKind, answers_are_one, answers_exclude_faults, explain,
    explain_faults_are_one, short_privileges, texts_have_answers_or_faults,
};
use std::alloc::Global;
use std::process::Abort;

/// A question, and its answer.
const ANSWERS: &[(&str, &str)] = &[
    // an empty list grants nothing
    (
        "caller /people/ann\nneed read\n",
        "denied read, none granted\ngranted: -\n",
    ),
    // the first entry that applies decides each leaf, and the denial is named
    (
        "caller /people/ann\nneed read write-content\ngrant all read\ndeny all all\ngrant all write\n",
        "denied write-content by 2\ngranted: read\n",
    ),
    // a grant before a denial stands
    (
        "caller /people/ann\nneed all\ngrant all all\ndeny all all\n",
        "allowed\ngranted: all\n",
    ),
    // an inverted entry applies to nobody, who belongs to nothing
    (
        "caller -\nneed read\ndeny not /groups/staff read\ngrant all read\n",
        "denied read by 1\ngranted: -\n",
    ),
    // groups within each other
    (
        "member /groups/a /groups/b\nmember /groups/b /groups/a\nmember /groups/b /people/cem\n\
         caller /people/cem\nneed bind\ngrant /groups/a write\n",
        "allowed\ngranted: write\n",
    ),
    // comments, empty lines, no line end at the last line, a slash at the end of a path
    (
        "# a question\n\ncaller /people/ann/\n#\n\nneed read-acl\ngrant /people/ann read-acl bind",
        "allowed\ngranted: bind read-acl\n",
    ),
    // the owner and the resource itself
    (
        "caller /people/ann\nneed read\nowner /groups/staff\nhere /people/ann\n\
         deny owner read\ngrant self read unbind\n",
        "allowed\ngranted: read unbind\n",
    ),
    // a known person, and nobody
    (
        "caller /people/ann\nneed read\ndeny unauthenticated all\ngrant authenticated read\n",
        "allowed\ngranted: read\n",
    ),
    (
        "caller -\nneed read\ngrant authenticated all\ndeny unauthenticated read\n",
        "denied read by 2\ngranted: -\n",
    ),
    (
        "caller -\nneed bind\ngrant not authenticated bind\n",
        "allowed\ngranted: bind\n",
    ),
    // where there is no owner, `owner` applies to nobody and `not owner` to everybody
    (
        "caller /people/ann\nneed read\ndeny owner read\ngrant not owner read\n",
        "allowed\ngranted: read\n",
    ),
    (
        "caller -\nneed read\ndeny not owner read\ngrant all read\n",
        "denied read by 1\ngranted: -\n",
    ),
    // an owner that is a group, and a resource that is none of the caller's
    (
        "member /groups/staff /people/ann\ncaller /people/ann\nneed read\nowner /groups/staff\n\
         here /people/bob\ndeny self read\ngrant owner read\n",
        "allowed\ngranted: read\n",
    ),
    // `not self` where the resource is no principal
    (
        "caller /people/ann\nneed write-acl\ngrant not self write-acl\n",
        "allowed\ngranted: write-acl\n",
    ),
    // of one denying entry the least needed leaf, of several the earliest
    (
        "caller -\nneed bind read-acl\ndeny all read-acl bind\n",
        "denied bind by 1\ngranted: -\n",
    ),
    (
        "caller -\nneed read bind\ndeny all bind\ndeny all read\n",
        "denied bind by 1\ngranted: -\n",
    ),
    // a denial comes before a leaf that nothing decides
    (
        "caller -\nneed read bind\ndeny all bind\n",
        "denied bind by 1\ngranted: -\n",
    ),
    // `read` is the two leaves of texts and names; each may be decided by itself, and is then named by itself
    (
        "caller /people/gus\nneed read\ndeny all x-read-names\ngrant all read\n",
        "denied x-read-names by 1\ngranted: x-read-texts\n",
    ),
    (
        "caller /people/gus\nneed read\ndeny all x-read-texts\ngrant all read\n",
        "denied read by 1\ngranted: x-read-names\n",
    ),
    (
        "caller /people/gus\nneed x-read-names\ngrant all x-read-names\n",
        "allowed\ngranted: x-read-names\n",
    ),
    (
        "caller /people/gus\nneed read\ngrant all x-read-names\n",
        "denied read, none granted\ngranted: x-read-names\n",
    ),
    (
        "caller /people/gus\nneed x-read-texts\ndeny all read\n",
        "denied x-read-texts by 1\ngranted: -\n",
    ),
    (
        "caller /people/gus\nneed read\ngrant all x-read-names\ngrant all x-read-texts\n",
        "allowed\ngranted: read\n",
    ),
];

/// A text, and the first of its faults.
const FAULTS: &[(&str, &str)] = &[
    // no form
    ("caller -\nfrob /people/ann\n", "line 2: bad-line\n"),
    ("member /groups/a\n", "line 1: bad-line\n"),
    ("need\n", "line 1: bad-line\n"),
    ("grant all\n", "line 1: bad-line\n"),
    ("grant not not read\n", "line 1: bad-line\n"),
    // words are separated by exactly one space, and a line by LF alone
    ("# \n\nneed  read\n", "line 3: bad-line\n"),
    ("need read \n", "line 1: bad-line\n"),
    (" # note\n", "line 1: bad-line\n"),
    ("caller -\n\r\n", "line 2: bad-line\n"),
    ("caller -\nneed read\r\n", "line 2: unknown-privilege\n"),
    // no principal, no group, no person
    ("caller -\nowner /books/law\n", "line 2: bad-name\n"),
    ("grant everyone read\n", "line 1: bad-name\n"),
    ("member /people/ann /people/bob\n", "line 1: bad-name\n"),
    ("caller /groups/staff\n", "line 1: bad-name\n"),
    ("need read unlock\n", "line 1: unknown-privilege\n"),
    ("caller -\ndeny all lock\n", "line 2: unknown-privilege\n"),
    // what may stand once
    ("caller -\ncaller -\n", "line 2: twice\n"),
    ("need read\n\nneed read\n", "line 3: twice\n"),
    ("owner /people/ann\nowner /people/ann\n", "line 2: twice\n"),
    ("here /groups/a\nhere /groups/b\n", "line 2: twice\n"),
    // what must stand
    ("", "line 0: missing\n"),
    ("need read\n", "line 0: missing\n"),
    ("caller -\ngrant all all\n", "line 0: missing\n"),
    // of one line the least fault
    ("grant everyone unlock\n", "line 1: bad-name\n"),
    ("caller -\ncaller nobody\n", "line 2: bad-name\n"),
    ("need read\nneed unlock\n", "line 2: unknown-privilege\n"),
    // of several lines the first
    ("need unlock\nfrob\n", "line 1: unknown-privilege\n"),
    ("here /groups/a\nhere /groups/a\nfrob\n", "line 2: twice\n"),
    ("need read\nfrob\n", "line 2: bad-line\n"),
];

/// The answer, or the fault.
fn explained(rt: &impl Abort, alloc: Global, text: &str) -> String {
    match explain(alloc, text) {
        Ok(answer) => answer,
        Err(fault) => format!(in alloc; "{fault}\n").expect(rt, "memory"),
    }
}

fn check(rt: &impl Abort, alloc: Global, text: &str, wanted: &str) {
    let told = explained(rt, alloc, text);
    check_text(rt, told.as_str(), wanted, text);
}

#[test]
fn questions_are_answered(rt: HostRuntime) {
    for (text, wanted) in ANSWERS {
        check(&rt, rt.alloc(), text, wanted);
    }
}

#[test]
fn the_first_fault_is_named(rt: HostRuntime) {
    for (text, wanted) in FAULTS {
        check(&rt, rt.alloc(), text, wanted);
    }
    let memory = ExplainFault {
        kind: ExplainFaultKind::Memory,
        line: 0,
    };
    let told = format!(in rt.alloc(); "{memory}").expect(&rt, "memory");
    check_text(&rt, told.as_str(), "line 0: memory", "memory");
}

/// A question with one line so many times, and then the rest.
fn repeated(rt: &impl Abort, alloc: Global, line: &str, times: usize, rest: &str) -> String {
    let mut text = String::new(alloc);
    text.push_str("caller /people/ann\nneed read\n")
        .expect(rt, "memory");
    for _ in 0..times {
        text.push_str(line).expect(rt, "memory");
    }
    text.push_str(rest).expect(rt, "memory");
    text
}

/// A line, how often it stands, the rest, and the answer.
const COUNTED: &[(&str, usize, &str, &str)] = &[
    (
        "member /groups/a /people/ann\n",
        1_000,
        "grant all read\n",
        "allowed\ngranted: read\n",
    ),
    (
        "member /groups/a /people/ann\n",
        1_001,
        "",
        "line 1003: too-many\n",
    ),
    (
        "member /groups/a /people/ann\n",
        1_000,
        "member a b\n",
        "line 1003: bad-name\n",
    ),
    ("grant all read\n", 64, "", "allowed\ngranted: read\n"),
    ("grant all read\n", 65, "", "line 67: too-many\n"),
    (
        "grant all read\n",
        64,
        "grant all lock\n",
        "line 67: unknown-privilege\n",
    ),
];

#[test]
fn members_and_entries_are_counted(rt: HostRuntime) {
    for (line, times, rest, wanted) in COUNTED {
        let text = repeated(&rt, rt.alloc(), line, *times, rest);
        check(&rt, rt.alloc(), text.as_str(), wanted);
    }
}

/// Privileges whose leaves make a set, and the short names of that set.
const SHORT: &[(&str, &str)] = &[
    ("-", ""),
    ("all", " all"),
    ("write+read+read-acl", " read write read-acl"),
    // half of `read` is named by its leaf
    ("write+x-read-texts", " x-read-texts write"),
    ("x-read-names+bind", " bind x-read-names"),
];

fn check_short(rt: &impl Abort, alloc: Global, names: &str, wanted: &str) {
    let set = leaves(names).expect(rt, names);
    let short = short_privileges(alloc, set).expect(rt, "memory");
    let mut told = String::new(alloc);
    for privilege in short.iter() {
        told.push(' ').expect(rt, "memory");
        told.push_str(privilege.name()).expect(rt, "memory");
    }
    check_text(rt, told.as_str(), wanted, names);
}

#[test]
fn short_names_stand_for_whole_aggregates(rt: HostRuntime) {
    for (names, wanted) in SHORT {
        check_short(&rt, rt.alloc(), names, wanted);
    }
}

#[test]
fn laws_are_called() {
    answers_are_one();
    answers_exclude_faults();
    explain_faults_are_one();
    texts_have_answers_or_faults();
}
