//! The kinds of edits, each of the Office that `START` makes, and a round of three.

use crate::stops::plans::Plan;

/// The policy in force at the start.
const POLICY: &str = "version = 1
[[person]]
name = \"ann\"
label = \"Ann\"
[[person]]
name = \"bob\"
[[group]]
name = \"staff\"
members = [\"/people/ann\"]
[[book]]
name = \"law\"
owner = \"/people/ann\"
[[entry]]
at = \"/\"
who = \"/people/ann\"
grant = [\"all\"]
protected = true
[[entry]]
at = \"/books/law\"
who = \"/groups/staff\"
grant = [\"read\"]
";

/// Another policy: a person, a group and a book are new, and a label, an owner, the members of a group and lists change.
const OTHER_POLICY: &str = "version = 1
[[person]]
name = \"ann\"
label = \"Ann Hill\"
[[person]]
name = \"eve\"
[[group]]
name = \"staff\"
members = [\"/people/eve\", \"/groups/board\"]
[[group]]
name = \"board\"
[[book]]
name = \"law\"
owner = \"/groups/board\"
[[book]]
name = \"press\"
[[entry]]
at = \"/\"
who = \"/groups/board\"
grant = [\"all\"]
protected = true
[[entry]]
at = \"/books/press\"
who = \"/people/eve\"
deny = [\"write\"]
";

/// The edits of an empty Office that make the one at the start: the books law and sales, cards of both, one with a label
/// and an own list, and a removed name.
pub(crate) const START: [Plan; 9] = [
    Plan::Adopt(POLICY),
    Plan::AddBook("sales"),
    Plan::Put(("law", "a.vcf"), "one"),
    Plan::Put(("law", "b.vcf"), "two"),
    Plan::Put(("law", "c.vcf"), "three"),
    Plan::Remove(("law", "c.vcf")),
    Plan::Put(("sales", "d.vcf"), "four"),
    Plan::Label("/books/law/a.vcf", "First"),
    Plan::Deny("/books/law/a.vcf"),
];

/// A kind of edit: its name, and the edit; or a round of three.
#[derive(Clone, Copy)]
pub(crate) struct Case {
    pub(crate) name: &'static str,
    pub(crate) plans: Plans,
}

/// One edit, or three in a round.
#[derive(Clone, Copy)]
pub(crate) enum Plans {
    One(Plan),
    Round(Plan, Plan, Plan),
}

/// Every kind.
pub(crate) const CASES: &[Case] = &[
    Case {
        name: "put-new",
        plans: Plans::One(Plan::Put(("law", "e.vcf"), "five")),
    },
    Case {
        name: "put-over",
        plans: Plans::One(Plan::Put(("law", "a.vcf"), "six")),
    },
    // Under a name that was removed.
    Case {
        name: "put-again",
        plans: Plans::One(Plan::Put(("law", "c.vcf"), "seven")),
    },
    Case {
        name: "remove-card",
        plans: Plans::One(Plan::Remove(("law", "a.vcf"))),
    },
    Case {
        name: "copy-new",
        plans: Plans::One(Plan::Copy(("law", "a.vcf"), ("sales", "e.vcf"))),
    },
    Case {
        name: "copy-over",
        plans: Plans::One(Plan::Copy(("law", "a.vcf"), ("sales", "d.vcf"))),
    },
    Case {
        name: "move-within",
        plans: Plans::One(Plan::Move(("law", "a.vcf"), ("law", "e.vcf"))),
    },
    // To another book, over a card.
    Case {
        name: "move-between",
        plans: Plans::One(Plan::Move(("law", "a.vcf"), ("sales", "d.vcf"))),
    },
    Case {
        name: "add-book",
        plans: Plans::One(Plan::AddBook("press")),
    },
    // With cards and a removed name.
    Case {
        name: "remove-book",
        plans: Plans::One(Plan::RemoveBook("law")),
    },
    Case {
        name: "label-card",
        plans: Plans::One(Plan::Label("/books/law/b.vcf", "Second")),
    },
    Case {
        name: "label-book",
        plans: Plans::One(Plan::Label("/books/law", "Law")),
    },
    Case {
        name: "set-list",
        plans: Plans::One(Plan::Deny("/books/law")),
    },
    Case {
        name: "set-members",
        plans: Plans::One(Plan::SetMember("/groups/staff", "/people/bob")),
    },
    Case {
        name: "adopt-other",
        plans: Plans::One(Plan::Adopt(OTHER_POLICY)),
    },
    // The policy in force, which changes nothing.
    Case {
        name: "adopt-same",
        plans: Plans::One(Plan::Adopt(POLICY)),
    },
    // Three edits, of which each needs the one before.
    Case {
        name: "round",
        plans: Plans::Round(
            Plan::AddBook("press"),
            Plan::Put(("press", "e.vcf"), "five"),
            Plan::Move(("press", "e.vcf"), ("law", "e.vcf")),
        ),
    },
];

impl Case {
    /// The kind with this name; none where there is none.
    pub(crate) fn named(word: &str) -> Option<Case> {
        for case in CASES {
            if case.name == word {
                return Some(*case);
            }
        }
        None
    }
}
