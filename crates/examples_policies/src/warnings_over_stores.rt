//! What a policy leaves open over an Office that has more than the policy names. In the Office the book law is closed to
//! whoever is not in the group law, by the book's own list; dan is in it, and so is the group partners, in which nobody is;
//! nobody may set the members of the group law. The policies name ada, dan and the book law, and no group.

use crate::checks::{check_fact, check_text};
use book_machine::AdoptFault;
use book_office_copies::copy_without_cards;
use book_office_values::{Items, Office};
use book_policy::read_policy;
use book_policy_openings::adopted;
use book_policy_warnings::{Told, ToldOver, Warning, tell_policy_over, warnings_of, warnings_over};
use std::alloc::Global;
use std::process::Abort;

/// What was adopted before.
const STORE: &str = "version = 1\n\
    [[person]]\nname = \"ada\"\n[[person]]\nname = \"dan\"\n\
    [[group]]\nname = \"law\"\nmembers = [\"/people/dan\", \"/groups/partners\"]\n\
    [[group]]\nname = \"partners\"\n\
    [[book]]\nname = \"law\"\n\
    [[entry]]\nat = \"/books/law\"\nwho = \"/groups/law\"\ninvert = true\ndeny = [\"read\"]\n\
    [[entry]]\nat = \"/books/law\"\nwho = \"/groups/law\"\ngrant = [\"read\"]\n\
    [[entry]]\nat = \"/groups/law\"\nwho = \"all\"\ndeny = [\"write-properties\"]\n";

/// What stands in each policy.
const NAMED: &str = "version = 1\n\
    [[person]]\nname = \"ada\"\n[[person]]\nname = \"dan\"\n[[book]]\nname = \"law\"\n";

/// Entries that a policy has more, the lines of openings over the Office, and those of the policy alone.
const EXAMPLES: &[(&str, &str, &str)] = &[
    // Nothing is granted to her.
    ("", "", ""),
    // She may set the members of every group whose own list does not deny it.
    (
        "[[entry]]\nat = \"/groups\"\nwho = \"/people/ada\"\ngrant = [\"write-properties\"]\n",
        "ada: PROPPATCH /groups/partners (+ /people/ada); then GET /books/law/* is granted\n",
        "",
    ),
    // A list of the policy takes the place of the book's own list, which granted: she grants herself all above it.
    (
        "[[entry]]\nat = \"/books/law\"\nwho = \"/people/dan\"\ngrant = [\"read\"]\n\
         [[entry]]\nat = \"/books\"\nwho = \"/people/ada\"\ngrant = [\"write-acl\"]\n\
         [[entry]]\nat = \"/books/law\"\nwho = \"all\"\ndeny = [\"write-acl\"]\n",
        "ada: ACL /books (grant /people/ada all); then GET /books/law/* is granted\n",
        "ada: ACL /books (grant /people/ada all); then GET /books/law/* is granted\n",
    ),
    // Behind the book's own list what she grants herself above it is denied.
    (
        "[[entry]]\nat = \"/books\"\nwho = \"/people/ada\"\ngrant = [\"write-acl\"]\n\
         [[entry]]\nat = \"/books\"\nwho = \"all\"\ndeny = [\"all\"]\n\
         [[entry]]\nat = \"/books/law\"\nwho = \"all\"\ndeny = [\"write-acl\"]\nprotected = true\n",
        "",
        "ada: ACL /books (grant /people/ada all); then GET /books/law/* is granted\n",
    ),
];

/// The Office that the first policy makes of an empty one.
fn store(rt: &impl Abort, alloc: Global) -> Office {
    let policy = read_policy(alloc, STORE).expect(rt, "a policy");
    let mut machine = adopted(alloc, &policy).expect(rt, "memory");
    drop(policy);
    let office = copy_without_cards(alloc, &mut machine.keeper).expect(rt, "memory");
    drop(machine);
    office
}

/// The lines of openings among warnings are these.
fn check_openings(rt: &impl Abort, alloc: Global, warnings: Items<Warning>, wanted: &str) {
    let mut told = String::new(alloc);
    for warning in warnings.as_slice() {
        if matches!(warning, Warning::Opens(_)) {
            warning.push_line(alloc, &mut told).expect(rt, "memory");
        }
    }
    drop(warnings);
    check_text(rt, told.as_str(), wanted);
}

/// Compares what is told over the Office, and of the policy alone.
fn compare(rt: &impl Abort, alloc: Global, example: &(&str, &str, &str)) {
    let (more, over, alone) = *example;
    let text = format!(in alloc; "{NAMED}{more}").expect(rt, "memory");
    let policy = read_policy(alloc, text.as_str()).expect(rt, "a policy");
    let warnings = warnings_over(alloc, &policy, store(rt, alloc)).expect(rt, "room");
    check_openings(rt, alloc, warnings, over);
    let warnings = warnings_of(alloc, &policy).expect(rt, "memory");
    drop(policy);
    check_openings(rt, alloc, warnings, alone);
}

#[test]
fn openings_over_an_office_are_told(rt: HostRuntime) {
    for example in EXAMPLES {
        compare(&rt, rt.alloc(), example);
    }
}

/// What is told of a policy's file over an Office whose epoch is this.
fn told_at(rt: &impl Abort, alloc: Global, epoch: u64) -> (ToldOver, Vec<u8>) {
    let named = String::from_str(alloc, NAMED).expect(rt, "memory");
    let mut lines = Vec::new(alloc);
    let mut errors = Vec::new(alloc);
    let mut start = store(rt, alloc);
    start.epoch = epoch;
    let told = tell_policy_over(alloc, named.into_bytes(), start, &mut lines, &mut errors);
    check_fact(rt, errors.is_empty(), "no fault");
    (told, lines)
}

/// Nobody may change the list of the root, and so of nothing below it; that is told of the root alone.
const LINES: &str = "group partners: nobody is in it\n\
    person ada: has no right at any book\n\
    /: nobody may change its list\n";

#[test]
fn a_file_is_told_over_an_office(rt: HostRuntime) {
    let alloc = rt.alloc();
    let (told, lines) = told_at(&rt, alloc, 1);
    let sound = told == ToldOver::Told(Told::Sound(true));
    check_fact(&rt, sound, "a policy with warnings");
    let text = str::from_utf8(lines.as_slice()).expect(&rt, "a text");
    check_text(&rt, text, LINES);
    // At the last epoch, 2^53 - 1, no policy is adopted.
    let (told, lines) = told_at(&rt, alloc, 9_007_199_254_740_991);
    check_fact(&rt, told == ToldOver::Full, "no room");
    check_fact(&rt, lines.is_empty(), "nothing is written");
}
