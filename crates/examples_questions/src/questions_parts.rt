//! Audits of parts of the company of `departments`.

use crate::checks::check_told;
use crate::making::{act, name};
use crate::questions_departments::company;
use book_machine::Machine;
use book_office::{Edit, Keeper, Path, Text};
use book_questions_audit::{Wanted, audit_part};
use std::alloc::Global;
use std::process::Abort;

/// The path, whether cards need a list of their own, whether labels are told, and the answer; or the name of a refusal.
type Asked = (&'static str, bool, bool, &'static str);

const ASKED: &[Asked] = &[
    // The cards without own lists are left out, and what stands beside the book is.
    (
        "/books/sales",
        true,
        false,
        "/books/sales owner /people/ann\n\
         \x20 own grant /groups/sales write\n\
         \x20 own grant /people/finn bind\n\
         \x20 own grant owner read write-content\n\
         /books/sales/c.vcf owner /people/ann\n\
         \x20 own grant /people/gus read\n",
    ),
    (
        "/books/board",
        false,
        false,
        "/books/board owner -\n\
         \x20 protected deny not /groups/board all\n\
         \x20 own grant /groups/board read write\n",
    ),
    // A label is a JSON text.
    (
        "/books/sales/d.vcf",
        false,
        true,
        "/books/sales/d.vcf owner /people/finn label \"\"\n",
    ),
    (
        "/people/gus",
        false,
        true,
        "/people/gus owner - label \"a \\\"guest\\\"\\n\"\n",
    ),
    (
        "/people",
        false,
        false,
        "/people owner -\n\
         /people/ann owner -\n\
         /people/ben owner -\n\
         /people/cleo owner -\n\
         /people/dora owner -\n\
         /people/eve owner -\n\
         /people/finn owner -\n\
         /people/gus owner -\n",
    ),
    ("/books/none", false, false, "not-found"),
];

fn compare<K: Keeper>(rt: &impl Abort, alloc: Global, machine: &mut Machine<K>, asked: &Asked) {
    let (text, listed, labels, wanted) = asked;
    let path = Path::parse(alloc, text).ok();
    let words = Wanted {
        listed: *listed,
        labels: *labels,
    };
    let told = audit_part(alloc, machine, &path, words);
    check_told(rt, told, wanted);
}

/// Labels gus.
fn set_label<K: Keeper>(rt: &impl Abort, alloc: Global, machine: &mut Machine<K>) {
    let edit = Edit::SetLabel {
        path: Path::Person(name(rt, alloc, "gus")),
        label: Text::copy_of(alloc, "a \"guest\"\n").expect(rt, "memory"),
    };
    act(rt, alloc, &mut machine.keeper, edit);
}

#[test]
fn parts_are_told_in_the_words_of_an_audit(rt: HostRuntime) {
    let alloc = rt.alloc();
    let mut machine = company(&rt, alloc);
    set_label(&rt, alloc, &mut machine);
    for asked in ASKED {
        compare(&rt, alloc, &mut machine, asked);
    }
    drop(machine);
}
