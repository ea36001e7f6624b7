//! Entries that change no decision. In each policy ann is in the group staff, nobody is in the group crew, and nobody
//! owns the book sales.

use crate::warnings_comparing::{Example, compare};

/// What stands in each policy.
const SALES: &str = "version = 1\n\
    [[person]]\nname = \"ann\"\n[[person]]\nname = \"bob\"\n\
    [[group]]\nname = \"staff\"\nmembers = [\"/people/ann\"]\n\
    [[group]]\nname = \"crew\"\n\
    [[book]]\nname = \"sales\"\n";

const EXAMPLES: &[Example] = &[
    // Behind an entry that decides all for all.
    (
        "[[entry]]\nat = \"/books/sales\"\nwho = \"all\"\ndeny = [\"all\"]\n\
         [[entry]]\nat = \"/books/sales\"\nwho = \"/groups/staff\"\ngrant = [\"read\"]\n",
        "entry 2 (at /books/sales, who /groups/staff): never decides: behind own entry 1 at /books/sales\n",
    ),
    // Before it. Nothing is granted behind the entry that denies all, and yet it is not told: it closes the book.
    (
        "[[entry]]\nat = \"/books/sales\"\nwho = \"/groups/staff\"\ngrant = [\"read\"]\n\
         [[entry]]\nat = \"/books/sales\"\nwho = \"all\"\ndeny = [\"all\"]\n",
        "",
    ),
    // It decides for who owns a card.
    (
        "[[entry]]\nat = \"/books/sales\"\nwho = \"owner\"\ngrant = [\"all\"]\n",
        "",
    ),
    // And for the staff alone, where the others are denied all before.
    (
        "[[entry]]\nat = \"/books/sales\"\nwho = \"/groups/staff\"\ninvert = true\ndeny = [\"all\"]\n\
         [[entry]]\nat = \"/books/sales\"\nwho = \"owner\"\ngrant = [\"all\"]\n",
        "",
    ),
    // No person has an owner, and no book is a principal.
    (
        "[[entry]]\nat = \"/people\"\nwho = \"owner\"\ngrant = [\"read\"]\n\
         [[entry]]\nat = \"/books\"\nwho = \"self\"\ngrant = [\"read\"]\n\
         [[entry]]\nat = \"/people\"\nwho = \"self\"\ngrant = [\"read\"]\n",
        "entry 1 (at /people, who owner): never decides: it is for nobody\n\
         entry 2 (at /books, who self): never decides: it is for nobody\n",
    ),
    // Nobody is in the group; everybody is outside of it.
    (
        "[[entry]]\nat = \"/books\"\nwho = \"/groups/crew\"\ngrant = [\"read\"]\n\
         [[entry]]\nat = \"/books\"\nwho = \"/groups/crew\"\ninvert = true\ngrant = [\"read\"]\n",
        "entry 1 (at /books, who /groups/crew): never decides: it is for nobody\n",
    ),
    // It decides for who is not known. Without it the last would deny the names alone.
    (
        "[[entry]]\nat = \"/\"\nwho = \"authenticated\"\ngrant = [\"read\"]\n\
         [[entry]]\nat = \"/\"\nwho = \"all\"\ndeny = [\"read\"]\n\
         [[entry]]\nat = \"/\"\nwho = \"unauthenticated\"\ndeny = [\"x-read-names\"]\n",
        "entry 3 (at /, who unauthenticated): never decides: behind own entry 2 at /\n",
    ),
    // The second decides what the first leaves, and grants what the first does.
    (
        "[[entry]]\nat = \"/\"\nwho = \"all\"\ngrant = [\"read\"]\n\
         [[entry]]\nat = \"/\"\nwho = \"all\"\ngrant = [\"all\"]\n\
         [[entry]]\nat = \"/\"\nwho = \"/people/bob\"\ndeny = [\"write\"]\n",
        "entry 1 (at /, who all): can be left out: without it the same is decided\n\
         entry 3 (at /, who /people/bob): never decides: behind own entry 2 at /\n",
    ),
    // A protected entry above comes first.
    (
        "[[entry]]\nat = \"/books/sales\"\nwho = \"all\"\ndeny = [\"read\"]\n\
         [[entry]]\nat = \"/\"\nwho = \"all\"\ngrant = [\"read\"]\nprotected = true\n",
        "entry 1 (at /books/sales, who all): never decides: behind protected entry 2 at /\n",
    ),
    // The first two decide for everybody together, and the third without either of them.
    (
        "[[entry]]\nat = \"/books/sales\"\nwho = \"/groups/staff\"\ngrant = [\"read\"]\n\
         [[entry]]\nat = \"/books/sales\"\nwho = \"/groups/staff\"\ninvert = true\ngrant = [\"read\"]\n\
         [[entry]]\nat = \"/books/sales\"\nwho = \"all\"\ngrant = [\"read\"]\n",
        "entry 1 (at /books/sales, who /groups/staff): can be left out: without it the same is decided\n\
         entry 2 (at /books/sales, who /groups/staff): can be left out: without it the same is decided\n\
         entry 3 (at /books/sales, who all): never decides: behind the entries before it\n",
    ),
    // Of two entries that it is behind, the first in the order of decision is told, and not the first of the policy.
    (
        "[[entry]]\nat = \"/books\"\nwho = \"all\"\ndeny = [\"read\"]\nprotected = true\n\
         [[entry]]\nat = \"/books/sales\"\nwho = \"all\"\ndeny = [\"all\"]\nprotected = true\n\
         [[entry]]\nat = \"/books/sales\"\nwho = \"/people/bob\"\ngrant = [\"read\"]\n",
        "entry 3 (at /books/sales, who /people/bob): never decides: behind protected entry 2 at /books/sales\n",
    ),
    // Nothing grants what these deny, and yet they are not told: requests may put entries behind them.
    (
        "[[entry]]\nat = \"/books/sales\"\nwho = \"all\"\ndeny = [\"read\"]\nprotected = true\n\
         [[entry]]\nat = \"/books/sales\"\nwho = \"all\"\ndeny = [\"bind\"]\n",
        "",
    ),
    // Without the first, the second denies the same: of two own entries it is told.
    (
        "[[entry]]\nat = \"/books/sales\"\nwho = \"all\"\ndeny = [\"read\"]\n\
         [[entry]]\nat = \"/books\"\nwho = \"all\"\ndeny = [\"read\"]\n",
        "entry 1 (at /books/sales, who all): can be left out: without it the same is decided\n",
    ),
    // The first is protected: an own list that requests make stands between the two, and may grant.
    (
        "[[entry]]\nat = \"/books/sales\"\nwho = \"all\"\ndeny = [\"read\"]\nprotected = true\n\
         [[entry]]\nat = \"/books\"\nwho = \"all\"\ndeny = [\"read\"]\n",
        "",
    ),
    // It may deny, too.
    (
        "[[entry]]\nat = \"/books/sales\"\nwho = \"all\"\ngrant = [\"read\"]\nprotected = true\n\
         [[entry]]\nat = \"/books\"\nwho = \"all\"\ngrant = [\"read\"]\n",
        "",
    ),
    // The second would deny the same as the first, which is not told all the same: it closes the book.
    (
        "[[entry]]\nat = \"/books/sales\"\nwho = \"all\"\ndeny = [\"all\"]\n\
         [[entry]]\nat = \"/books\"\nwho = \"all\"\ndeny = [\"all\"]\n",
        "",
    ),
    // For bob the entry above the book grants the same, and for nobody it does not.
    (
        "[[entry]]\nat = \"/books/sales\"\nwho = \"all\"\ngrant = [\"read\"]\n\
         [[entry]]\nat = \"/books\"\nwho = \"authenticated\"\ngrant = [\"read\"]\n",
        "",
    ),
];

#[test]
fn entries_that_change_nothing_are_told(rt: HostRuntime) {
    for example in EXAMPLES {
        compare(&rt, rt.alloc(), SALES, example);
    }
}
