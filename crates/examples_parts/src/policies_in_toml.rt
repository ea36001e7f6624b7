//! Policies in TOML, and texts that are none (own profile).

use crate::checks::{check_fact, check_text};
use book_limits::MAX_POLICY_BYTES;
use book_lists::{Pairs, Who};
use book_office_values::{NameMap, Text};
use book_policy::{
    PolicyFault, policies_are_one, policies_exclude_faults, policy_faults_are_one, read_policy,
};
use book_policy_values::{Policy, PolicyBook, PolicyEntry};
use book_rights::Leaf;
use std::alloc::Global;
use std::process::Abort;

/// Three persons, one group of two of them, two books of the first, and five entries, three of them protected.
const OFFICE: &str = "version = 1\n\
[[person]]\nname = \"ann\"\n[[person]]\nname = \"bob\"\n[[person]]\nname = \"gus\"\n\
[[group]]\nname = \"staff\"\nmembers = [\"/people/ann\", \"/people/bob\"]\n\
[[book]]\nname = \"sales\"\nlabel = \"Sales\"\nowner = \"/people/ann\"\n\
[[book]]\nname = \"law\"\nowner = \"/people/ann\"\n\
[[entry]]\nat = \"/books/sales\"\nwho = \"/people/ann\"\ngrant = [\"all\"]\nprotected = true\n\
[[entry]]\nat = \"/books/sales\"\nwho = \"/groups/staff\"\ngrant = [\"read\", \"bind\"]\n\
[[entry]]\nat = \"/books/law\"\nwho = \"owner\"\ngrant = [\"all\"]\nprotected = true\n\
[[entry]]\nat = \"/books/law\"\nwho = \"/people/bob\"\ngrant = [\"read\", \"unbind\"]\n\
[[entry]]\nat = \"/groups\"\nwho = \"/people/ann\"\ngrant = [\"read\", \"write-properties\"]\nprotected = true\n";

/// A text, and what the policy of it says: the labels of persons and groups, the books, the members, and the entries in
/// their order.
const POLICIES: &[(&str, &str)] = &[
    (
        OFFICE,
        "person ann []\nperson bob []\nperson gus []\ngroup staff []\n\
         book law [] of /people/ann\nbook sales [Sales] of /people/ann\n\
         member /groups/staff /people/ann\nmember /groups/staff /people/bob\n\
         protected /books/sales grant /people/ann 123456789\n\
         own /books/sales grant /groups/staff 149\n\
         protected /books/law grant owner 123456789\n\
         own /books/law grant /people/bob 159\n\
         protected /groups grant /people/ann 139\n",
    ),
    // nothing but the version, with a comment
    ("# empty\nversion = 1", ""),
    // arrays of tables are arrays; empty ones have nothing
    (
        "version = 1\nperson = [{name = \"a\", label = \"A\"}]\ngroup = []\nbook = []\nentry = []",
        "person a [A]\n",
    ),
    // tables may stand in any order; a slash at the end of a path is dropped, and members that are repeated count once
    (
        "version = 1\n[[group]]\nname = \"g\"\nmembers = [\"/people/a/\", \"/groups/g\", \"/people/a\"]\n\
         [[person]]\nname = \"a\"\n[[book]]\nname = \"b\"\nowner = \"/groups/g/\"\n\
         [[entry]]\nat = \"/books/b/\"\nwho = \"/groups/g/\"\ndeny = [\"read-acl\"]\n",
        "person a []\ngroup g []\nbook b [] of /groups/g\n\
         member /groups/g /groups/g\nmember /groups/g /people/a\nown /books/b deny /groups/g 6\n",
    ),
    // a person, a group and a book may have one name; a book may have no owner
    (
        "version = 1\n[[person]]\nname = \"x\"\n[[group]]\nname = \"x\"\n[[book]]\nname = \"x\"\n",
        "person x []\ngroup x []\nbook x []\n",
    ),
    // the words for forms, inversion, and the places
    (
        "version = 1\nperson = [{name = \"a\"}]\ngroup = [{name = \"g\"}]\n\
         [[entry]]\nat = \"/\"\nwho = \"all\"\ngrant = [\"read\"]\ninvert = false\nprotected = false\n\
         [[entry]]\nat = \"/people\"\nwho = \"authenticated\"\ninvert = true\ndeny = [\"write-content\"]\n\
         [[entry]]\nat = \"/groups\"\nwho = \"unauthenticated\"\ngrant = [\"unbind\"]\n\
         [[entry]]\nat = \"/books\"\nwho = \"owner\"\ngrant = [\"write-acl\"]\n\
         [[entry]]\nat = \"/people/a\"\nwho = \"self\"\ngrant = [\"write-properties\"]\n\
         [[entry]]\nat = \"/groups/g\"\nwho = \"self\"\ngrant = [\"read-current-user-privilege-set\"]\n",
        "person a []\ngroup g []\nown / grant all 19\nown /people deny not authenticated 2\n\
         own /groups grant unauthenticated 5\nown /books grant owner 7\nown /people/a grant self 3\n\
         own /groups/g grant self 8\n",
    ),
    // aggregates and names that are repeated; 16 names
    (
        "version = 1\n[[entry]]\nat = \"/\"\nwho = \"all\"\ndeny = [\"write\", \"read\", \"bind\", \"read\"]\n\
         [[entry]]\nat = \"/\"\nwho = \"all\"\ngrant = [\"bind\", \"bind\", \"bind\", \"bind\", \"bind\", \"bind\", \
         \"bind\", \"bind\", \"bind\", \"bind\", \"bind\", \"bind\", \"bind\", \"bind\", \"bind\", \"bind\"]\n",
        "own / deny all 123459\nown / grant all 4\n",
    ),
];

/// What an entry says: its list, its place, its action, its form, and the numbers of its leaves, from 1.
fn tell_entry(rt: &impl Abort, answer: &mut String, entry: &PolicyEntry) {
    let list = if entry.protected { "protected" } else { "own" };
    let action = if entry.entry.deny { "deny" } else { "grant" };
    let invert = if entry.entry.invert { "not " } else { "" };
    let who = match &entry.entry.who {
        Who::Href(principal) => principal.text(),
        Who::Everyone => "all",
        Who::Authenticated => "authenticated",
        Who::Unauthenticated => "unauthenticated",
        Who::Owner => "owner",
        Who::Own => "self",
    };
    let at = entry.at.as_str();
    write!(answer, "{list} {at} {action} {invert}{who} ").expect(rt, "memory");
    for (place, leaf) in Leaf::ALL.into_iter().enumerate() {
        if entry.entry.set.has(leaf) {
            let number = place + 1;
            write!(answer, "{number}").expect(rt, "memory");
        }
    }
    answer.push('\n').expect(rt, "memory");
}

/// The names and labels of persons or groups.
fn tell_labels(rt: &impl Abort, answer: &mut String, kind: &str, labels: &NameMap<Text>) {
    for (name, label) in labels.iter() {
        let (name, label) = (name.text(), label.as_str());
        writeln!(answer, "{kind} {name} [{label}]").expect(rt, "memory");
    }
}

fn tell_books(rt: &impl Abort, answer: &mut String, books: &NameMap<PolicyBook>) {
    for (name, book) in books.iter() {
        let (name, label) = (name.text(), book.label.as_str());
        let of = if book.owner.is_some() { " of " } else { "" };
        let owner = book.owner.as_ref().map_or("", |owner| owner.text());
        writeln!(answer, "book {name} [{label}]{of}{owner}").expect(rt, "memory");
    }
}

fn tell_members(rt: &impl Abort, answer: &mut String, members: &Pairs) {
    for pair in members.list().expect(rt, "memory") {
        let (group, member) = (pair.group.text(), pair.member.text());
        writeln!(answer, "member {group} {member}").expect(rt, "memory");
    }
}

/// What a policy says, line by line.
fn told(rt: &impl Abort, alloc: Global, policy: &Policy) -> String {
    let mut answer = String::new(alloc);
    let tables = policy.tables();
    tell_labels(rt, &mut answer, "person", &tables.persons);
    tell_labels(rt, &mut answer, "group", &tables.groups);
    tell_books(rt, &mut answer, &tables.books);
    tell_members(rt, &mut answer, &tables.members);
    for entry in tables.entries.as_slice() {
        tell_entry(rt, &mut answer, entry);
    }
    answer
}

#[test]
fn policies_are_read(rt: HostRuntime) {
    let alloc = rt.alloc();
    for (text, wanted) in POLICIES {
        let answer = match read_policy(alloc, text) {
            Ok(policy) => {
                let told = told(&rt, alloc, &policy);
                drop(policy);
                told
            }
            Err(fault) => format!(in alloc; "{fault}").expect(&rt, "memory"),
        };
        check_text(&rt, answer.as_str(), wanted, text);
    }
    policies_are_one();
    policy_faults_are_one();
    policies_exclude_faults();
}

/// A text that is no policy, and its fault.
const FAULTS: &[(&str, &str)] = &[
    // not TOML
    ("version = ", "not-toml"),
    ("version = 1\nversion = 1\n", "not-toml"),
    // another version
    ("", "other-version"),
    ("version = 2\n", "other-version"),
    ("version = -1\n", "other-version"),
    ("version = \"1\"\n", "other-version"),
    ("version = 1.0\n", "other-version"),
    ("version = true\n", "other-version"),
    // keys and values
    ("version = 1\nnote = 1\n", "bad-key"),
    ("version = 1\nperson = 1\n", "bad-key"),
    ("version = 1\n[person]\nname = \"a\"\n", "bad-key"),
    ("version = 1\n[[person]]\n", "bad-key"),
    ("version = 1\nperson = [\"a\"]\n", "bad-key"),
    ("version = 1\n[[person]]\nname = 1\n", "bad-key"),
    (
        "version = 1\n[[person]]\nname = \"a\"\nlabel = 1\n",
        "bad-key",
    ),
    (
        "version = 1\n[[person]]\nname = \"a\"\nmembers = []\n",
        "bad-key",
    ),
    (
        "version = 1\n[[group]]\nname = \"a\"\nmembers = [1]\n",
        "bad-key",
    ),
    (
        "version = 1\n[[group]]\nname = \"a\"\nowner = \"/groups/a\"\n",
        "bad-key",
    ),
    (
        "version = 1\n[[book]]\nname = \"a\"\nowner = false\n",
        "bad-key",
    ),
    (
        "version = 1\n[[entry]]\nat = \"/\"\ngrant = [\"read\"]\n",
        "bad-key",
    ),
    (
        "version = 1\n[[entry]]\nwho = \"all\"\ngrant = [\"read\"]\n",
        "bad-key",
    ),
    (
        "version = 1\n[[entry]]\nat = \"/\"\nwho = \"all\"\n",
        "bad-key",
    ),
    (
        "version = 1\n[[entry]]\nat = \"/\"\nwho = \"all\"\ngrant = [\"read\"]\ndeny = [\"read\"]\n",
        "bad-key",
    ),
    (
        "version = 1\n[[entry]]\nat = \"/\"\nwho = \"all\"\ngrant = []\n",
        "bad-key",
    ),
    (
        "version = 1\n[[entry]]\nat = \"/\"\nwho = \"all\"\ngrant = \"read\"\n",
        "bad-key",
    ),
    (
        "version = 1\n[[entry]]\nat = \"/\"\nwho = \"all\"\ngrant = [\"bind\", \"bind\", \"bind\", \"bind\", \"bind\", \
         \"bind\", \"bind\", \"bind\", \"bind\", \"bind\", \"bind\", \"bind\", \"bind\", \"bind\", \"bind\", \"bind\", \
         \"bind\"]\n",
        "bad-key",
    ),
    (
        "version = 1\n[[entry]]\nat = \"/\"\nwho = \"all\"\ngrant = [\"read\"]\ninvert = 0\n",
        "bad-key",
    ),
    (
        "version = 1\n[[entry]]\nat = \"/\"\nwho = \"all\"\ngrant = [\"read\"]\nprotected = \"no\"\n",
        "bad-key",
    ),
    // names
    ("version = 1\n[[person]]\nname = \"\"\n", "bad-name"),
    ("version = 1\n[[group]]\nname = \".a\"\n", "bad-name"),
    ("version = 1\n[[book]]\nname = \"a b\"\n", "bad-name"),
    // names twice in one array
    (
        "version = 1\n[[person]]\nname = \"a\"\n[[person]]\nname = \"a\"\n",
        "name-twice",
    ),
    (
        "version = 1\n[[group]]\nname = \"a\"\n[[group]]\nname = \"a\"\n",
        "name-twice",
    ),
    (
        "version = 1\n[[book]]\nname = \"a\"\n[[book]]\nname = \"a\"\n",
        "name-twice",
    ),
    // principals
    (
        "version = 1\n[[group]]\nname = \"g\"\nmembers = [\"/people/zoe\"]\n",
        "unknown-principal",
    ),
    (
        "version = 1\n[[group]]\nname = \"g\"\nmembers = [\"all\"]\n",
        "unknown-principal",
    ),
    (
        "version = 1\n[[book]]\nname = \"b\"\nowner = \"/groups/g\"\n",
        "unknown-principal",
    ),
    (
        "version = 1\n[[book]]\nname = \"b\"\nowner = \"self\"\n",
        "unknown-principal",
    ),
    (
        "version = 1\n[[person]]\nname = \"zoe\"\n[[entry]]\nat = \"/\"\nwho = \"/groups/zoe\"\ngrant = [\"read\"]\n",
        "unknown-principal",
    ),
    (
        "version = 1\n[[person]]\nname = \"zoe\"\n[[entry]]\nat = \"/\"\nwho = \"/people/zoe//\"\ngrant = [\"read\"]\n",
        "unknown-principal",
    ),
    (
        "version = 1\n[[entry]]\nat = \"/\"\nwho = \"everybody\"\ngrant = [\"read\"]\n",
        "unknown-principal",
    ),
    // places
    (
        "version = 1\n[[entry]]\nat = \"/books/b\"\nwho = \"all\"\ngrant = [\"read\"]\n",
        "unknown-resource",
    ),
    (
        "version = 1\n[[book]]\nname = \"b\"\n[[entry]]\nat = \"/books/b/c.vcf\"\nwho = \"all\"\ngrant = [\"read\"]\n",
        "unknown-resource",
    ),
    (
        "version = 1\n[[entry]]\nat = \"all\"\nwho = \"all\"\ngrant = [\"read\"]\n",
        "unknown-resource",
    ),
    // privileges
    (
        "version = 1\n[[entry]]\nat = \"/\"\nwho = \"all\"\ngrant = [\"read\", \"Read\"]\n",
        "unknown-privilege",
    ),
    // two faults that are neighbours in the order: the earlier one, wherever it stands
    ("version = 2\n[", "not-toml"),
    ("version = 2\nnote = 1\n", "other-version"),
    (
        "version = 1\n[[person]]\nname = \".a\"\n[[entry]]\nat = \"/\"\n",
        "bad-key",
    ),
    (
        "version = 1\n[[person]]\nname = \"a\"\n[[person]]\nname = \"a\"\n[[book]]\nname = \".a\"\n",
        "bad-name",
    ),
    (
        "version = 1\n[[group]]\nname = \"g\"\nmembers = [\"/people/zoe\"]\n\
         [[book]]\nname = \"b\"\n[[book]]\nname = \"b\"\n",
        "name-twice",
    ),
    (
        "version = 1\n[[entry]]\nat = \"/books/b\"\nwho = \"all\"\ngrant = [\"read\"]\n\
         [[entry]]\nat = \"/\"\nwho = \"/people/zoe\"\ngrant = [\"read\"]\n",
        "unknown-principal",
    ),
    (
        "version = 1\n[[entry]]\nat = \"/\"\nwho = \"all\"\ngrant = [\"fly\"]\n\
         [[entry]]\nat = \"/books/b\"\nwho = \"all\"\ngrant = [\"read\"]\n",
        "unknown-resource",
    ),
];

/// The name of the fault of a text; `none` where it has none.
fn fault_of(rt: &impl Abort, alloc: Global, text: &str) -> String {
    match read_policy(alloc, text) {
        Ok(policy) => {
            drop(policy);
            String::from_str(alloc, "none").expect(rt, "memory")
        }
        Err(fault) => format!(in alloc; "{fault}").expect(rt, "memory"),
    }
}

#[test]
fn the_least_fault_is_told(rt: HostRuntime) {
    for (text, wanted) in FAULTS {
        let fault = fault_of(&rt, rt.alloc(), text);
        check_text(&rt, fault.as_str(), wanted, text);
    }
    let memory = format!(in rt.alloc(); "{}", PolicyFault::Memory).expect(&rt, "memory");
    check_text(&rt, memory.as_str(), "memory", "memory");
}

/// Texts in three pieces, the middle one so many times, each with its number behind it where it ends in `#`; and the
/// fault of the whole.
const COUNTED: &[(&str, &str, usize, &str, &str)] = &[
    (
        "version = 1\n",
        "[[person]]\nname = \"p#",
        1_000,
        "",
        "none",
    ),
    (
        "version = 1\n",
        "[[person]]\nname = \"p#",
        1_001,
        "",
        "too-many",
    ),
    (
        "version = 1\n",
        "[[group]]\nname = \"p#",
        1_001,
        "",
        "too-many",
    ),
    (
        "version = 1\n",
        "[[book]]\nname = \"p#",
        1_001,
        "",
        "too-many",
    ),
    // members of one group, of which repeated ones count once
    (
        "version = 1\nperson = [{name = \"a\"}]\n[[group]]\nname = \"g\"\nmembers = [",
        "\"/people/a\",",
        1_001,
        "]\n",
        "none",
    ),
    // entries of one list
    (
        "version = 1\n",
        "[[entry]]\nat = \"/\"\nwho = \"all\"\ngrant = [\"read\"]\n",
        64,
        "[[entry]]\nat = \"/\"\nwho = \"all\"\ngrant = [\"read\"]\nprotected = true\n",
        "none",
    ),
    (
        "version = 1\n",
        "[[entry]]\nat = \"/\"\nwho = \"all\"\ngrant = [\"read\"]\n",
        65,
        "",
        "too-many",
    ),
    // too many, and a privilege that is none
    (
        "version = 1\n",
        "[[entry]]\nat = \"/\"\nwho = \"all\"\ngrant = [\"read\"]\n",
        65,
        "[[entry]]\nat = \"/\"\nwho = \"all\"\ngrant = [\"fly\"]\n",
        "unknown-privilege",
    ),
    // a label of 256 bytes, and of 257
    (
        "version = 1\n[[person]]\nname = \"a\"\nlabel = \"",
        "x",
        256,
        "\"",
        "none",
    ),
    (
        "version = 1\n[[person]]\nname = \"a\"\nlabel = \"",
        "x",
        257,
        "\"",
        "bad-key",
    ),
    // 1,048,576 bytes, and one more, whatever else there is
    ("", " ", 1_048_576, "", "other-version"),
    ("", " ", 1_048_577, "", "too-many"),
    ("[", " ", 1_048_575, "", "not-toml"),
    ("[", " ", 1_048_576, "", "too-many"),
];

/// The pieces in one text.
fn repeated(
    rt: &impl Abort,
    alloc: Global,
    front: &str,
    piece: &str,
    times: usize,
    rest: &str,
) -> String {
    let mut text = String::from_str(alloc, front).expect(rt, "memory");
    for number in 0..times {
        match piece.strip_suffix('#') {
            Some(plain) => writeln!(text, "{plain}{number}\"").expect(rt, "memory"),
            None => text.push_str(piece).expect(rt, "memory"),
        }
    }
    text.push_str(rest).expect(rt, "memory");
    text
}

#[test]
fn parts_and_bytes_are_counted(rt: HostRuntime) {
    check_fact(&rt, MAX_POLICY_BYTES == 1_048_576, "bytes");
    for (front, piece, times, rest, wanted) in COUNTED {
        let text = repeated(&rt, rt.alloc(), front, piece, *times, rest);
        let fault = fault_of(&rt, rt.alloc(), text.as_str());
        check_text(&rt, fault.as_str(), wanted, piece);
    }
}

/// Every front of a policy is read or refused, never for want of memory.
#[test]
fn every_front_is_answered(rt: HostRuntime) {
    for end in 0..=OFFICE.len() {
        if let Some(front) = OFFICE.get(..end) {
            let fault = fault_of(&rt, rt.alloc(), front);
            check_fact(&rt, fault.as_str() != "memory", front);
        }
    }
}
