//! Every fault of a policy's text, with its place (own profile).

use crate::checks::check_text;
use book_policy_checks::check_policy;
use std::alloc::Global;
use std::process::Abort;

/// A text, and the lines that tell of it.
const TEXTS: &[(&str, &str)] = &[
    (
        "version = 1\n[[person]]\nname = \"ann\"\n[[entry]]\nat = \"/people/ann/\"\nwho = \"self\"\ndeny = [\"all\"]\n",
        "",
    ),
    (
        "version = 1\nversion = 2\n",
        "line 2, column 1: not-toml: duplicate key\n",
    ),
    // a name that is there twice is told at the second table, and what it names is known
    (
        "version = 1\nperson = [{name = \"ann\"}, {name = \"bob\"}, {name = \"ann\"}]\n\
         [[group]]\nname = \"g\"\nmembers = [\"/people/ann/\", \"/people/zoe\", \"/books/b\"]\n\
         [[book]]\nname = \"b\"\nowner = \"/people/g\"\n",
        "person 3 (ann): name-twice, also person 1\n\
         group 1 (g): members 2: unknown-principal: /people/zoe\n\
         group 1 (g): members 3: unknown-principal: /books/b\n\
         book 1 (b): owner: unknown-principal: /people/g\n",
    ),
    // every fault of an entry
    (
        "[[entry]]\nat = \"/books\"\nwho = \"al\"\ndeny = [\"read\", \"reed\"]\nprotect = true\n\
         [[entry]]\nat = \"/books/b\"\nwho = \"all\"\n",
        "top: version: other-version: is missing, and 1 is wanted\n\
         entry 1: key \"protect\": bad-key, did you mean \"protected\"?\n\
         entry 1 (at /books, who al): who: unknown-principal\n\
         entry 1 (at /books, who al): deny 2: unknown-privilege: reed\n\
         entry 2 (at /books/b, who all): at: unknown-resource\n\
         entry 2: grant: is missing, and one of grant and deny is wanted\n",
    ),
];

/// The lines that tell of a text.
fn lines_of(rt: &impl Abort, alloc: Global, text: &str) -> String {
    let report = check_policy(alloc, text).expect(rt, "memory");
    report.text(alloc).expect(rt, "memory")
}

#[test]
fn each_fault_is_told_with_its_place(rt: HostRuntime) {
    for (text, wanted) in TEXTS {
        let told = lines_of(&rt, rt.alloc(), text);
        check_text(&rt, told.as_str(), wanted, text);
    }
}

/// A policy with so many entries at the root, each spelled in the same way.
fn with_entries(rt: &impl Abort, alloc: Global, count: usize) -> String {
    let mut text = String::from_str(alloc, "version = 1\n").expect(rt, "memory");
    for _ in 0..count {
        text.push_str("[[entry]]\nat = \"/\"\nwho = \"all\"\ngrant = [\"read\"]\n")
            .expect(rt, "memory");
    }
    text
}

#[test]
fn the_65th_entry_of_a_list_is_told(rt: HostRuntime) {
    let text = with_entries(&rt, rt.alloc(), 64);
    let told = lines_of(&rt, rt.alloc(), text.as_str());
    check_text(&rt, told.as_str(), "", "64");
    let text = with_entries(&rt, rt.alloc(), 67);
    let told = lines_of(&rt, rt.alloc(), text.as_str());
    check_text(
        &rt,
        told.as_str(),
        "entry 65 (at /, who all): too-many: its list has more than 64 entries\n",
        "67",
    );
}
