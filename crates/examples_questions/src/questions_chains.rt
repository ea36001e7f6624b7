//! By which chain of groups an entry applies.

use crate::checks::check_text;
use crate::making::adopted;
use book_machine::Machine;
use book_office::MemoryKeeper;
use book_questions::{question_of, why};
use std::alloc::Global;
use std::process::Abort;

/// Ann is in a, which is in b and in c; b is in c, and c is in a: from c two chains lead to her, and a cycle.
const POLICY: &str = "version = 1\n\
    [[person]]\nname = \"ann\"\n[[person]]\nname = \"bob\"\n\
    [[group]]\nname = \"a\"\nmembers = [\"/people/ann\", \"/groups/c\"]\n\
    [[group]]\nname = \"b\"\nmembers = [\"/groups/a\"]\n\
    [[group]]\nname = \"c\"\nmembers = [\"/groups/b\", \"/groups/a\"]\n\
    [[book]]\nname = \"sales\"\nowner = \"/groups/b\"\n\
    [[entry]]\nat = \"/\"\nwho = \"/groups/c\"\ngrant = [\"bind\"]\n\
    [[entry]]\nat = \"/books/sales\"\nwho = \"owner\"\ngrant = [\"unbind\"]\n\
    [[entry]]\nat = \"/books/sales\"\nwho = \"/groups/a\"\ninvert = true\ndeny = [\"bind\"]\n\
    [[entry]]\nat = \"/groups\"\nwho = \"self\"\ngrant = [\"write-properties\"]\n\
    [[entry]]\nat = \"/people\"\nwho = \"self\"\ngrant = [\"write-properties\"]\n";

/// The caller, the privilege and the path, and the lines of the leaf.
const ASKED: &[(&str, &str, &str, &str)] = &[
    // A shortest chain.
    (
        "ann",
        "bind",
        "/",
        " bind granted by 1, 1 at /\n  own grant /groups/c bind\n  by /people/ann in /groups/a in /groups/c\n",
    ),
    // To the owner.
    (
        "ann",
        "unbind",
        "/books/sales",
        " unbind granted by 1, 1 at /books/sales\n  own grant owner unbind\n  by /people/ann in /groups/a in /groups/b\n",
    ),
    // To the resource; to the caller itself leads none.
    (
        "ann",
        "write-properties",
        "/groups/a",
        " write-properties granted by 1, 1 at /groups\n  own grant self write-properties\n  by /people/ann in /groups/a\n",
    ),
    (
        "ann",
        "write-properties",
        "/people/ann",
        " write-properties granted by 1, 1 at /people\n  own grant self write-properties\n",
    ),
    // An inverted entry has none.
    (
        "bob",
        "bind",
        "/books/sales",
        " bind denied by 2, 2 at /books/sales\n  own deny not /groups/a bind\n",
    ),
];

fn machine(rt: &impl Abort, alloc: Global) -> Machine<MemoryKeeper> {
    Machine::new(adopted(rt, alloc, POLICY))
}

/// What follows the line of the need.
fn leaf_lines(text: &str) -> &str {
    text.splitn(3, '\n').nth(2).unwrap_or("")
}

#[test]
fn the_chain_by_which_an_entry_applies_is_told(rt: HostRuntime) {
    let alloc = rt.alloc();
    let mut machine = machine(&rt, alloc);
    for (caller, privilege, path, wanted) in ASKED {
        let question = question_of(alloc, privilege, path, None).expect(&rt, "memory");
        let question = question.expect(&rt, "a privilege");
        let text = why(alloc, &mut machine, Some(caller), &question).expect(&rt, "mapped");
        check_text(&rt, leaf_lines(text.as_str()), wanted);
    }
    drop(machine);
}
