//! To whom a privilege is granted. At `/books/sales` the list in force is
//!
//! 1. of it protected, `grant /people/ann all`;
//! 2. of `/books` protected, `deny /people/gus all`;
//! 3. of `/` protected, `grant /people/ann read`;
//! 4. of it, `grant /groups/crew bind`;
//! 5. of `/books`, `deny /people/bob read`;
//! 6. of `/`, `grant all read bind`.

use crate::checks::check_told;
use crate::questions_offices::machine;
use book_machine::Machine;
use book_office::{Keeper, Path};
use book_questions::who;
use book_rights::Privilege;
use std::alloc::Global;
use std::process::Abort;

/// The privilege, the path, whether those are asked for to whom it is denied, and the answer; or the name of a refusal.
type Asked = (&'static str, &'static str, bool, &'static str);

/// Nobody is asked about first, then each person; each is told in one of the two answers.
const ASKED: &[Asked] = &[
    (
        "bind",
        "/books/sales",
        false,
        "nobody\n bind granted by 6, 1 at /\n  own grant all read bind\n\
         /people/ann\n bind granted by 1, 1 at /books/sales\n  protected grant /people/ann all\n\
         /people/bob\n bind granted by 4, 1 at /books/sales\n  own grant /groups/crew bind\n  by /people/bob in /groups/staff in /groups/crew\n",
    ),
    (
        "bind",
        "/books/sales",
        true,
        "/people/gus\n bind denied by 2, 1 at /books\n  protected deny /people/gus all\n",
    ),
    // Of a privilege with two leaves, an entry for each.
    (
        "read",
        "/books/sales",
        true,
        "/people/bob\n \
         x-read-texts denied by 5, 1 at /books\n  own deny /people/bob read\n \
         x-read-names denied by 5, 1 at /books\n  own deny /people/bob read\n\
         /people/gus\n \
         x-read-texts denied by 2, 1 at /books\n  protected deny /people/gus all\n \
         x-read-names denied by 2, 1 at /books\n  protected deny /people/gus all\n",
    ),
    ("write-acl", "/", false, ""),
    ("read", "/books/none", false, "not-found"),
];

fn compare<K: Keeper>(rt: &impl Abort, alloc: Global, machine: &mut Machine<K>, asked: &Asked) {
    let (word, text, denied, wanted) = asked;
    let privilege = Privilege::from_name(word).expect(rt, "a privilege");
    let path = Path::parse(alloc, text).ok();
    let told = who(alloc, machine, privilege, &path, *denied);
    check_told(rt, told, wanted);
}

#[test]
fn everybody_is_told_to_whom_it_is_granted(rt: HostRuntime) {
    let alloc = rt.alloc();
    let mut machine = machine(&rt, alloc);
    for asked in ASKED {
        compare(&rt, alloc, &mut machine, asked);
    }
    drop(machine);
}
