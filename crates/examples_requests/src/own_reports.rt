//! The reports of own profile: the members of a group card, and which entry decides each leaf.
//!
//! The members of a card have the book, then a line for each MEMBER line, `VALUE NAME ..`, and then `reached NAME ..`.
//! Rulings have a line for each leaf, `LEAF grant by NUMBER PATH`, `LEAF deny by NUMBER PATH` or `LEAF -`.

use crate::scripts::{Step, run_on_new};
use book_lists::Name;
use book_machine::{MemberLine, Members, Ruling};
use std::alloc::Global;
use std::process::Abort;

fn tell_names(rt: &impl Abort, answer: &mut String, names: &[Name]) {
    for name in names {
        let name = name.text();
        write!(answer, " {name}").expect(rt, "memory");
    }
}

fn tell_line(rt: &impl Abort, answer: &mut String, line: &MemberLine) {
    let value = line.value.as_str();
    write!(answer, "\n{value}").expect(rt, "memory");
    tell_names(rt, answer, line.names.as_slice());
}

/// The book, a line for each MEMBER line, and what is reached.
pub(crate) fn tell_members(
    rt: &impl Abort,
    alloc: Global,
    book: &Name,
    members: &Members,
) -> String {
    let book = book.text();
    let mut answer = format!(in alloc; " {book}").expect(rt, "memory");
    for line in members.lines.as_slice() {
        tell_line(rt, &mut answer, line);
    }
    answer.push_str("\nreached").expect(rt, "memory");
    tell_names(rt, &mut answer, members.reached.as_slice());
    answer
}

fn tell_ruling(rt: &impl Abort, alloc: Global, answer: &mut String, ruling: &Ruling) {
    let leaf = ruling.leaf.name();
    match &ruling.entry {
        Some(entry) => {
            let word = if ruling.grant { "grant" } else { "deny" };
            let number = entry.number;
            let from = entry.from.text(alloc).expect(rt, "memory");
            write!(answer, "\n{leaf} {word} by {number} {from}").expect(rt, "memory");
        }
        None => {
            let word = if ruling.grant { "grant by none" } else { "-" };
            write!(answer, "\n{leaf} {word}").expect(rt, "memory");
        }
    }
}

/// A line for each leaf.
pub(crate) fn tell_rulings(rt: &impl Abort, alloc: Global, rulings: &[Ruling]) -> String {
    let mut answer = String::new(alloc);
    for ruling in rulings {
        tell_ruling(rt, alloc, &mut answer, ruling);
    }
    answer
}

/// A member that is there and one that is not; cards of equal UID in byte order; what the caller may not read is not
/// told of, and who may read it is told.
const MEMBERS: &[Step] = &[
    ("adopt office", "changed, epoch 1"),
    ("ann PUT /books/sales/p.vcf CARD_P", "201"),
    ("ann PUT /books/sales/g.vcf GROUP_G", "201"),
    (
        "bob REPORT /books/sales/g.vcf group-members",
        "200 sales\nurn:uuid:p p.vcf\nurn:uuid:q\nreached p.vcf",
    ),
    (
        "bob REPORT /books/sales/p.vcf group-members",
        "200 sales\nreached",
    ),
    ("ann PUT /books/sales/a.vcf CARD_P", "201"),
    (
        "bob REPORT /books/sales/g.vcf group-members",
        "200 sales\nurn:uuid:p a.vcf p.vcf\nurn:uuid:q\nreached a.vcf p.vcf",
    ),
    (
        "ann ACL /books/sales/p.vcf list deny /people/bob read",
        "200",
    ),
    (
        "bob REPORT /books/sales/g.vcf group-members",
        "200 sales\nurn:uuid:p a.vcf\nurn:uuid:q\nreached a.vcf",
    ),
    (
        "ann REPORT /books/sales/g.vcf group-members",
        "200 sales\nurn:uuid:p a.vcf p.vcf\nurn:uuid:q\nreached a.vcf p.vcf",
    ),
    ("ann DELETE /books/sales/a.vcf", "204"),
    (
        "bob REPORT /books/sales/g.vcf group-members",
        "200 sales\nurn:uuid:p\nurn:uuid:q\nreached",
    ),
    ("epoch", "2"),
];

#[test]
fn members_are_those_that_the_caller_may_read(rt: HostRuntime) {
    run_on_new(&rt, rt.alloc(), MEMBERS);
}

/// Two group cards, each a member of the other: each is reached from itself.
const CYCLE: &[Step] = &[
    ("adopt office", "changed, epoch 1"),
    ("ann PUT /books/law/x.vcf GROUP_X", "201"),
    (
        "ann REPORT /books/law/x.vcf group-members",
        "200 law\nurn:uuid:y\nreached",
    ),
    ("ann PUT /books/law/y.vcf GROUP_Y", "201"),
    (
        "ann REPORT /books/law/x.vcf group-members",
        "200 law\nurn:uuid:y y.vcf\nreached x.vcf y.vcf",
    ),
    (
        "bob REPORT /books/law/y.vcf group-members",
        "200 law\nurn:uuid:x x.vcf\nreached x.vcf y.vcf",
    ),
];

#[test]
fn steps_may_come_back(rt: HostRuntime) {
    run_on_new(&rt, rt.alloc(), CYCLE);
}

/// The deciding entries stand at two levels, and nothing decides the other leaves. They are those for who is asked
/// about, and not for who asks. The report needs `read` and `read-acl`.
const RULINGS: &[Step] = &[
    ("adopt office", "changed, epoch 1"),
    ("ann PUT /books/law/a.vcf BELL", "201"),
    (
        "ann ACL /books/law/a.vcf list deny /people/ann all ; deny /people/bob read",
        "200",
    ),
    ("ann MOVE /books/law/a.vcf /books/sales/f.vcf", "201"),
    (
        "ann REPORT /books/sales/f.vcf effective /people/bob",
        "200\nx-read-texts deny by 3 /books/sales/f.vcf\nwrite-content -\nwrite-properties -\n\
         bind grant by 4 /books/sales\nunbind -\nread-acl -\nwrite-acl -\n\
         read-current-user-privilege-set -\n\
         x-read-names deny by 3 /books/sales/f.vcf",
    ),
    (
        "ann REPORT /books/sales/f.vcf effective /people/ann",
        "200\nx-read-texts grant by 1 /books/sales\nwrite-content grant by 1 /books/sales\n\
         write-properties grant by 1 /books/sales\nbind grant by 1 /books/sales\n\
         unbind grant by 1 /books/sales\nread-acl grant by 1 /books/sales\n\
         write-acl grant by 1 /books/sales\n\
         read-current-user-privilege-set grant by 1 /books/sales\n\
         x-read-names grant by 1 /books/sales",
    ),
    (
        "ann REPORT /books/sales/f.vcf effective",
        "200\nx-read-texts -\nwrite-content -\nwrite-properties -\nbind -\nunbind -\nread-acl -\nwrite-acl -\n\
         read-current-user-privilege-set -\n\
         x-read-names -",
    ),
    (
        "ann REPORT /books/sales effective /people/bob",
        "200\nx-read-texts grant by 2 /books/sales\nwrite-content -\nwrite-properties -\n\
         bind grant by 2 /books/sales\nunbind -\nread-acl -\nwrite-acl -\n\
         read-current-user-privilege-set -\n\
         x-read-names grant by 2 /books/sales",
    ),
    (
        "ann REPORT /books/sales/f.vcf effective /people/zoe",
        "403 recognized-principal",
    ),
    (
        "bob REPORT /books/sales/f.vcf effective /people/bob",
        "403 need-privileges read /books/sales/f.vcf /books/sales/f.vcf 3",
    ),
    (
        "bob REPORT /books/sales effective /people/zoe",
        "403 need-privileges read-acl /books/sales null",
    ),
    (
        "ann REPORT /groups effective /people/ann",
        "403 need-privileges read-acl /groups null",
    ),
    ("epoch", "2"),
];

#[test]
fn rulings_are_for_who_is_asked_about(rt: HostRuntime) {
    run_on_new(&rt, rt.alloc(), RULINGS);
}

/// `owner` is read at the card, also in an entry of its book, and in a sync report: bob owns one card, and ann the other
/// and the book. `self` is read at the person, also in an entry of the home.
const READ_AT: &[Step] = &[
    ("adopt office", "changed, epoch 1"),
    ("bob PUT /books/sales/b.vcf BELL", "201"),
    ("ann MOVE /books/sales/b.vcf /books/law/b.vcf", "201"),
    (
        "bob REPORT /books/law/b.vcf effective /people/bob",
        "200\nx-read-texts grant by 1 /books/law\nwrite-content grant by 1 /books/law\n\
         write-properties grant by 1 /books/law\nbind grant by 1 /books/law\n\
         unbind grant by 1 /books/law\nread-acl grant by 1 /books/law\n\
         write-acl grant by 1 /books/law\n\
         read-current-user-privilege-set grant by 1 /books/law\n\
         x-read-names grant by 1 /books/law",
    ),
    (
        "bob REPORT /books/law/b.vcf effective /people/ann",
        "200\nx-read-texts -\nwrite-content -\nwrite-properties -\nbind -\nunbind -\nread-acl -\nwrite-acl -\n\
         read-current-user-privilege-set -\n\
         x-read-names -",
    ),
    ("ann PUT /books/law/c.vcf BO", "201"),
    (
        "ann REPORT /books/law sync",
        "207\n2 c.vcf [] 44 bytes\ndata:,law/1/2",
    ),
    ("adopt other", "changed, epoch 2"),
    (
        "gus REPORT /people/gus effective /people/gus",
        "200\nx-read-texts grant by 1 /people\nwrite-content -\nwrite-properties -\nbind -\nunbind -\n\
         read-acl grant by 2 /\nwrite-acl -\nread-current-user-privilege-set -\n\
         x-read-names grant by 1 /people",
    ),
    (
        "gus REPORT /people/gus effective /people/zoe",
        "200\nx-read-texts -\nwrite-content -\nwrite-properties -\nbind -\nunbind -\nread-acl grant by 2 /\nwrite-acl -\n\
         read-current-user-privilege-set -\n\
         x-read-names -",
    ),
];

#[test]
fn owner_and_self_are_read_at_the_resource(rt: HostRuntime) {
    run_on_new(&rt, rt.alloc(), READ_AT);
}

/// Members are those of a card. The path is looked at before any privilege.
const REFUSED: &[Step] = &[
    ("adopt office", "changed, epoch 1"),
    (
        "gus REPORT /books/sales group-members",
        "405 not-allowed ACL, DELETE, OPTIONS, PROPFIND, PROPPATCH, REPORT",
    ),
    (
        "gus REPORT /books group-members",
        "405 not-allowed ACL, OPTIONS, PROPFIND, REPORT",
    ),
    (
        "gus REPORT /groups/staff group-members",
        "405 not-allowed ACL, OPTIONS, PROPFIND, PROPPATCH, REPORT",
    ),
    (
        "gus REPORT /books/sales/none.vcf group-members",
        "404 not-found",
    ),
    (
        "gus REPORT /books/sales/none.vcf effective /people/zoe",
        "404 not-found",
    ),
    ("ann PUT /books/sales/g.vcf GROUP_G", "201"),
    (
        "gus REPORT /books/sales/g.vcf group-members",
        "403 need-privileges read /books/sales/g.vcf null",
    ),
    ("gus REPORT / effective", "403 need-privileges read / null"),
];

#[test]
fn members_are_asked_of_cards(rt: HostRuntime) {
    run_on_new(&rt, rt.alloc(), REFUSED);
}
