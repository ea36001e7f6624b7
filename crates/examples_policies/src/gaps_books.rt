//! Books that others reach: from above, as owners who left, and by a listing.

use crate::gaps_telling::compare;

/// An entry at `/books` lets everybody read. Of the books, `a` says nothing; `b` denies who is not known; `c` closes to all,
/// `d` and `e` to who is not staff, by one list or the other; `f` denies staff; `g` closes the reading alone; `h` grants it
/// itself; `i` denies the names.
const OPENED: &str = "version = 1\n\
    [[person]]\nname = \"ann\"\n[[person]]\nname = \"bob\"\n\
    [[group]]\nname = \"staff\"\nmembers = [\"/people/ann\", \"/people/bob\"]\n\
    [[book]]\nname = \"a\"\n[[book]]\nname = \"b\"\n[[book]]\nname = \"c\"\n[[book]]\nname = \"d\"\n[[book]]\nname = \"e\"\n\
    [[book]]\nname = \"f\"\n[[book]]\nname = \"g\"\n[[book]]\nname = \"h\"\n[[book]]\nname = \"i\"\n\
    [[entry]]\nat = \"/\"\nwho = \"/groups/staff\"\ngrant = [\"write-acl\"]\nprotected = true\n\
    [[entry]]\nat = \"/books\"\nwho = \"all\"\ngrant = [\"read\"]\n\
    [[entry]]\nat = \"/books/b\"\nwho = \"unauthenticated\"\ndeny = [\"all\"]\n\
    [[entry]]\nat = \"/books/c\"\nwho = \"all\"\ndeny = [\"all\"]\n\
    [[entry]]\nat = \"/books/d\"\nwho = \"/groups/staff\"\ninvert = true\ndeny = [\"all\"]\n\
    [[entry]]\nat = \"/books/e\"\nwho = \"/groups/staff\"\ninvert = true\ndeny = [\"all\"]\nprotected = true\n\
    [[entry]]\nat = \"/books/f\"\nwho = \"/groups/staff\"\ndeny = [\"all\"]\n\
    [[entry]]\nat = \"/books/g\"\nwho = \"/groups/staff\"\ninvert = true\ndeny = [\"read\"]\n\
    [[entry]]\nat = \"/books/h\"\nwho = \"all\"\ngrant = [\"read\"]\n\
    [[entry]]\nat = \"/books/i\"\nwho = \"all\"\ndeny = [\"x-read-names\"]\n";

/// Of the books, `a` grants to owners before it closes; `b` closes before, `c` in its protected list, and `h` to all; `d`
/// closes the reading alone; `e` denies, and `f` grants to who is not the owner; `g` grants in its protected list before it
/// closes; `i` grants to who is not staff before.
const KEPT: &str = "version = 1\n\
    [[person]]\nname = \"ann\"\n[[group]]\nname = \"staff\"\nmembers = [\"/people/ann\"]\n\
    [[book]]\nname = \"a\"\n[[book]]\nname = \"b\"\n[[book]]\nname = \"c\"\n[[book]]\nname = \"d\"\n[[book]]\nname = \"e\"\n\
    [[book]]\nname = \"f\"\n[[book]]\nname = \"g\"\n[[book]]\nname = \"h\"\n[[book]]\nname = \"i\"\n\
    [[entry]]\nat = \"/\"\nwho = \"/groups/staff\"\ngrant = [\"write-acl\"]\nprotected = true\n\
    [[entry]]\nat = \"/books/i\"\nwho = \"/groups/staff\"\ninvert = true\ngrant = [\"all\"]\n\
    [[entry]]\nat = \"/books/i\"\nwho = \"owner\"\ngrant = [\"read\"]\n\
    [[entry]]\nat = \"/books/a\"\nwho = \"owner\"\ngrant = [\"read\"]\n\
    [[entry]]\nat = \"/books/a\"\nwho = \"/groups/staff\"\ninvert = true\ndeny = [\"all\"]\n\
    [[entry]]\nat = \"/books/b\"\nwho = \"/groups/staff\"\ninvert = true\ndeny = [\"all\"]\n\
    [[entry]]\nat = \"/books/b\"\nwho = \"owner\"\ngrant = [\"read\"]\n\
    [[entry]]\nat = \"/books/c\"\nwho = \"owner\"\ngrant = [\"read\"]\n\
    [[entry]]\nat = \"/books/c\"\nwho = \"/groups/staff\"\ninvert = true\ndeny = [\"all\"]\nprotected = true\n\
    [[entry]]\nat = \"/books/d\"\nwho = \"/groups/staff\"\ninvert = true\ndeny = [\"read\"]\n\
    [[entry]]\nat = \"/books/d\"\nwho = \"owner\"\ngrant = [\"read\"]\n\
    [[entry]]\nat = \"/books/e\"\nwho = \"owner\"\ndeny = [\"bind\"]\n\
    [[entry]]\nat = \"/books/f\"\nwho = \"owner\"\ninvert = true\ngrant = [\"read\"]\n\
    [[entry]]\nat = \"/books/g\"\nwho = \"owner\"\ngrant = [\"read\"]\nprotected = true\n\
    [[entry]]\nat = \"/books/g\"\nwho = \"/groups/staff\"\ninvert = true\ndeny = [\"all\"]\nprotected = true\n\
    [[entry]]\nat = \"/books/h\"\nwho = \"all\"\ndeny = [\"all\"]\n\
    [[entry]]\nat = \"/books/h\"\nwho = \"owner\"\ngrant = [\"read\"]\n";

/// At `/books` a protected entry grants to owners, and an own one. Of the books, `a` closes in its own list, which comes
/// behind; `b` in its protected list, before.
const PROTECTED: &str = "version = 1\n\
    [[person]]\nname = \"ann\"\n[[group]]\nname = \"staff\"\nmembers = [\"/people/ann\"]\n\
    [[book]]\nname = \"a\"\n[[book]]\nname = \"b\"\n\
    [[entry]]\nat = \"/\"\nwho = \"/groups/staff\"\ngrant = [\"write-acl\"]\nprotected = true\n\
    [[entry]]\nat = \"/books\"\nwho = \"owner\"\ngrant = [\"read\"]\nprotected = true\n\
    [[entry]]\nat = \"/books\"\nwho = \"owner\"\ngrant = [\"bind\"]\n\
    [[entry]]\nat = \"/books/a\"\nwho = \"/groups/staff\"\ninvert = true\ndeny = [\"all\"]\n\
    [[entry]]\nat = \"/books/b\"\nwho = \"/groups/staff\"\ninvert = true\ndeny = [\"all\"]\nprotected = true\n";

/// At `/books` an own entry grants to owners, and no entry closes the book: that is told of books' own lists alone.
const ABOVE: &str = "version = 1\n\
    [[person]]\nname = \"ann\"\n[[book]]\nname = \"a\"\n\
    [[entry]]\nat = \"/\"\nwho = \"/people/ann\"\ngrant = [\"write-acl\"]\nprotected = true\n\
    [[entry]]\nat = \"/books\"\nwho = \"owner\"\ngrant = [\"read\"]\n";

/// The gateway lists the books, and two of three deny it. Ann reads what she owns by an entry at `/books`, and lists none.
/// Zoe lists the books, and each lets her read it.
const LISTED: &str = "version = 1\n\
    [[person]]\nname = \"ann\"\n[[person]]\nname = \"gateway\"\n[[person]]\nname = \"zoe\"\n\
    [[book]]\nname = \"law\"\n[[book]]\nname = \"reception\"\nowner = \"/people/ann\"\n[[book]]\nname = \"sales\"\n\
    [[entry]]\nat = \"/\"\nwho = \"/people/ann\"\ngrant = [\"write-acl\"]\nprotected = true\n\
    [[entry]]\nat = \"/books\"\nwho = \"/people/gateway\"\ngrant = [\"read\"]\n\
    [[entry]]\nat = \"/books\"\nwho = \"/people/zoe\"\ngrant = [\"read\"]\n\
    [[entry]]\nat = \"/books\"\nwho = \"owner\"\ngrant = [\"read\"]\n\
    [[entry]]\nat = \"/books/law\"\nwho = \"/people/gateway\"\ndeny = [\"all\"]\n\
    [[entry]]\nat = \"/books/law\"\nwho = \"/people/zoe\"\ngrant = [\"read\"]\n\
    [[entry]]\nat = \"/books/reception\"\nwho = \"/people/zoe\"\ngrant = [\"read\"]\n\
    [[entry]]\nat = \"/books/sales\"\nwho = \"/people/gateway\"\ndeny = [\"all\"]\n\
    [[entry]]\nat = \"/books/sales\"\nwho = \"/people/zoe\"\ngrant = [\"read\"]\n";

/// The policy, and what is told of it.
const TOLD: &[(&str, &str)] = &[
    (
        OPENED,
        "/books/a: a caller who is not known reads it by an entry at /books, and no entry of its lists closes it\n\
         /books/b: /people/ann reads it by an entry at /books, and no entry of its lists closes it\n\
         /books/f: a caller who is not known reads it by an entry at /books, and no entry of its lists closes it\n\
         /books/g: /people/ann reads it by an entry at /books, and no entry of its lists closes it\n\
         person ann: lists /books, and so reads /books/a\nperson bob: lists /books, and so reads /books/a\n",
    ),
    (
        KEPT,
        "/books/a: what it grants to owners stays with who leaves a group\n\
         /books/d: what it grants to owners stays with who leaves a group\n\
         /books/g: what a protected entry at /books/g grants to owners stays with who leaves a group\n\
         /books/i: what it grants to owners stays with who leaves a group\n",
    ),
    (
        PROTECTED,
        "/books/a: what a protected entry at /books grants to owners stays with who leaves a group\n",
    ),
    (ABOVE, ""),
    (
        LISTED,
        "/books/reception: /people/ann reads it by an entry at /books, and no entry of its lists closes it\n\
         person gateway: lists /books, and so reads /books/reception\n",
    ),
];

#[test]
fn books_that_others_reach_are_told(rt: HostRuntime) {
    compare(&rt, rt.alloc(), TOLD);
}
