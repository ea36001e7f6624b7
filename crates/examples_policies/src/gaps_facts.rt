//! A policy for each fact of one resource or one caller, one that has none, and one that has each fact once.

use crate::gaps_telling::compare;

/// Ann and bob are staff, who may do everything with the book, and change each list.
const SOUND: &str = "version = 1\n\
    [[person]]\nname = \"ann\"\n[[person]]\nname = \"bob\"\n\
    [[group]]\nname = \"staff\"\nmembers = [\"/people/ann\", \"/people/bob\"]\n\
    [[book]]\nname = \"sales\"\nowner = \"/people/ann\"\n\
    [[entry]]\nat = \"/\"\nwho = \"/groups/staff\"\ngrant = [\"write-acl\"]\n\
    [[entry]]\nat = \"/books/sales\"\nwho = \"/groups/staff\"\ngrant = [\"all\"]\n";

/// Ann is in b, and so in a. The groups c and d are in each other, and e has no member.
const GROUPS: &str = "version = 1\n\
    [[person]]\nname = \"ann\"\n\
    [[group]]\nname = \"e\"\n\
    [[group]]\nname = \"d\"\nmembers = [\"/groups/c\"]\n\
    [[group]]\nname = \"c\"\nmembers = [\"/groups/d\"]\n\
    [[group]]\nname = \"b\"\nmembers = [\"/people/ann\"]\n\
    [[group]]\nname = \"a\"\nmembers = [\"/groups/b\"]\n\
    [[entry]]\nat = \"/\"\nwho = \"all\"\ngrant = [\"write-acl\"]\n[[book]]\nname = \"law\"\n";

/// Ann has one right at each book, bob at one, cleo has one as an owner, and zoe has rights at places that are no books.
const RIGHTS: &str = "version = 1\n\
    [[person]]\nname = \"ann\"\n[[person]]\nname = \"bob\"\n[[person]]\nname = \"cleo\"\n\
    [[person]]\nname = \"dan\"\n[[person]]\nname = \"zoe\"\n\
    [[book]]\nname = \"law\"\nowner = \"/people/cleo\"\n[[book]]\nname = \"sales\"\n\
    [[entry]]\nat = \"/\"\nwho = \"/people/zoe\"\ndeny = [\"all\"]\n\
    [[entry]]\nat = \"/\"\nwho = \"/people/zoe\"\ngrant = [\"all\"]\n\
    [[entry]]\nat = \"/\"\nwho = \"/people/ann\"\ngrant = [\"write-acl\"]\n\
    [[entry]]\nat = \"/people\"\nwho = \"/people/zoe\"\ngrant = [\"all\"]\n\
    [[entry]]\nat = \"/books/law\"\nwho = \"/people/zoe\"\ndeny = [\"all\"]\n\
    [[entry]]\nat = \"/books/law\"\nwho = \"all\"\ninvert = true\ndeny = [\"all\"]\n\
    [[entry]]\nat = \"/books/law\"\nwho = \"owner\"\ngrant = [\"read\"]\n\
    [[entry]]\nat = \"/books/sales\"\nwho = \"/people/bob\"\ngrant = [\"bind\"]\n";

/// Ann may change each list but where an entry denies it. At `/groups` who is nobody may, and at `/books/fair` its owner.
const LISTS: &str = "version = 1\n\
    [[person]]\nname = \"ann\"\n\
    [[group]]\nname = \"staff\"\nmembers = [\"/people/ann\"]\n\
    [[book]]\nname = \"law\"\n[[book]]\nname = \"fair\"\nowner = \"/people/ann\"\n\
    [[entry]]\nat = \"/\"\nwho = \"/people/ann\"\ngrant = [\"write-acl\"]\n\
    [[entry]]\nat = \"/people\"\nwho = \"authenticated\"\ndeny = [\"write-acl\"]\n\
    [[entry]]\nat = \"/groups\"\nwho = \"authenticated\"\ndeny = [\"write-acl\"]\n\
    [[entry]]\nat = \"/groups\"\nwho = \"unauthenticated\"\ngrant = [\"write-acl\"]\n\
    [[entry]]\nat = \"/books/fair\"\nwho = \"owner\"\ngrant = [\"read\", \"write-acl\"]\n\
    [[entry]]\nat = \"/books/fair\"\nwho = \"all\"\ndeny = [\"write-acl\"]\n\
    [[entry]]\nat = \"/books/law\"\nwho = \"all\"\ndeny = [\"write-acl\"]\nprotected = true\n";

/// Ann may read what she owns. Dan may read texts and no names, bob may see names alone. Accounts is owned by a group of which
/// nobody may read it, minutes by one of which ann does, and old by a group of nobody.
const OWNERS: &str = "version = 1\n\
    [[person]]\nname = \"ann\"\n[[person]]\nname = \"bob\"\n[[person]]\nname = \"dan\"\n\
    [[group]]\nname = \"clerks\"\nmembers = [\"/people/bob\"]\n\
    [[group]]\nname = \"staff\"\nmembers = [\"/people/ann\", \"/groups/clerks\"]\n[[group]]\nname = \"none\"\n\
    [[book]]\nname = \"sales\"\nowner = \"/people/ann\"\n[[book]]\nname = \"law\"\nowner = \"/people/dan\"\n\
    [[book]]\nname = \"fair\"\nowner = \"/people/bob\"\n[[book]]\nname = \"accounts\"\nowner = \"/groups/clerks\"\n\
    [[book]]\nname = \"minutes\"\nowner = \"/groups/staff\"\n[[book]]\nname = \"old\"\nowner = \"/groups/none\"\n\
    [[entry]]\nat = \"/\"\nwho = \"/people/ann\"\ngrant = [\"write-acl\"]\n\
    [[entry]]\nat = \"/books/sales\"\nwho = \"/people/ann\"\ngrant = [\"all\"]\n\
    [[entry]]\nat = \"/books/accounts\"\nwho = \"/people/ann\"\ngrant = [\"read\"]\n\
    [[entry]]\nat = \"/books/minutes\"\nwho = \"/people/ann\"\ngrant = [\"read\"]\n\
    [[entry]]\nat = \"/books/law\"\nwho = \"/people/dan\"\ndeny = [\"x-read-names\"]\n\
    [[entry]]\nat = \"/books/law\"\nwho = \"/people/dan\"\ngrant = [\"read\"]\n\
    [[entry]]\nat = \"/books/fair\"\nwho = \"/people/bob\"\ngrant = [\"x-read-names\"]\n";

/// Each fact once or more.
const ALL: &str = "version = 1\n\
    [[person]]\nname = \"bob\"\n[[person]]\nname = \"ann\"\n[[group]]\nname = \"none\"\n\
    [[book]]\nname = \"law\"\nowner = \"/people/bob\"\n[[book]]\nname = \"sales\"\n\
    [[entry]]\nat = \"/\"\nwho = \"/people/ann\"\ngrant = [\"read\"]\n\
    [[entry]]\nat = \"/\"\nwho = \"/people/bob\"\ngrant = [\"write-acl\"]\n\
    [[entry]]\nat = \"/books\"\nwho = \"/people/bob\"\ndeny = [\"all\"]\n\
    [[entry]]\nat = \"/books/sales\"\nwho = \"owner\"\ngrant = [\"read\"]\n";

/// The policy, and what is told of it.
const TOLD: &[(&str, &str)] = &[
    (SOUND, ""),
    (
        GROUPS,
        "group c: nobody is in it\ngroup d: nobody is in it\ngroup e: nobody is in it\n",
    ),
    (
        RIGHTS,
        "person dan: has no right at any book\nperson zoe: has no right at any book\n\
         /books/law: what it grants to owners stays with who leaves a group\n",
    ),
    (
        LISTS,
        "/people: nobody may change its list\n\
         /books/law: nobody may change its list\n\
         /books/fair: what it grants to owners stays with who leaves a group\n",
    ),
    (
        OWNERS,
        "group none: nobody is in it\n\
         /books/accounts: its owner /groups/clerks may not read it\n\
         /books/fair: its owner /people/bob may not read it\n\
         /books/law: its owner /people/dan may not read it\n",
    ),
    (
        ALL,
        "group none: nobody is in it\nperson bob: has no right at any book\n\
         /books: nobody may change its list\n\
         /books/law: its owner /people/bob may not read it\n\
         /books/law: /people/ann reads it by an entry at /, and no entry of its lists closes it\n\
         /books/sales: /people/ann reads it by an entry at /, and no entry of its lists closes it\n\
         /books/sales: what it grants to owners stays with who leaves a group\n\
         person ann: lists /books, and so reads /books/law\n",
    ),
];

#[test]
fn each_fact_is_told_where_it_holds(rt: HostRuntime) {
    compare(&rt, rt.alloc(), TOLD);
}
