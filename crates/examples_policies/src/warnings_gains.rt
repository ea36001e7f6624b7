//! Who may get leaves at a resource. Two persons, ada and dan, are in each policy of the first examples, and the book law,
//! which the group law reads; dan is in it, and so is the group partners, in which nobody is.

use crate::warnings_comparing::{Example, compare_gains};

/// What stands in each policy.
const LAW: &str = "version = 1\n\
    [[person]]\nname = \"ada\"\n[[person]]\nname = \"dan\"\n\
    [[group]]\nname = \"law\"\nmembers = [\"/people/dan\", \"/groups/partners\"]\n\
    [[group]]\nname = \"partners\"\n\
    [[book]]\nname = \"law\"\n\
    [[entry]]\nat = \"/books/law\"\nwho = \"/groups/law\"\ninvert = true\ndeny = [\"read\"]\n\
    [[entry]]\nat = \"/books/law\"\nwho = \"/groups/law\"\ngrant = [\"read\"]\n";

const EXAMPLES: &[Example] = &[
    // Nobody may send a request that changes a right.
    ("", ""),
    // She adds herself to the group, or to a group that is in it.
    (
        "[[entry]]\nat = \"/groups/law\"\nwho = \"/people/ada\"\ngrant = [\"write-properties\"]\n",
        "ada: PROPPATCH /groups/law (+ /people/ada); then at /books/law is granted: read\n",
    ),
    (
        "[[entry]]\nat = \"/groups/partners\"\nwho = \"/people/ada\"\ngrant = [\"write\"]\n",
        "ada: PROPPATCH /groups/partners (+ /people/ada); then at /books/law is granted: read\n",
    ),
    // Each person replaces the book's list, and gets all but what they had.
    (
        "[[entry]]\nat = \"/books/law\"\nwho = \"authenticated\"\ngrant = [\"write-acl\"]\n",
        "ada: ACL /books/law (grant /people/ada all); then at /books/law is granted: read write read-acl \
         read-current-user-privilege-set\n\
         dan: ACL /books/law (grant /people/dan all); then at /books/law is granted: write read-acl \
         read-current-user-privilege-set\n",
    ),
    // A list that clashes with a protected entry is refused (RFC 3744, section 8.1.1): hers grants what that does not deny.
    (
        "[[entry]]\nat = \"/books/law\"\nwho = \"/people/ada\"\ndeny = [\"write-content\"]\nprotected = true\n\
         [[entry]]\nat = \"/books/law\"\nwho = \"/people/ada\"\ngrant = [\"write-acl\"]\n",
        "ada: ACL /books/law (grant /people/ada read write-properties bind unbind read-acl write-acl \
         read-current-user-privilege-set); then at /books/law is granted: read write-properties bind unbind read-acl \
         read-current-user-privilege-set\n",
    ),
    // What a protected entry denies to others too is not got.
    (
        "[[entry]]\nat = \"/books/law\"\nwho = \"authenticated\"\ndeny = [\"write-content\"]\nprotected = true\n\
         [[entry]]\nat = \"/books/law\"\nwho = \"/people/ada\"\ngrant = [\"write-acl\"]\n",
        "ada: ACL /books/law (grant /people/ada all); then at /books/law is granted: read write-properties bind unbind \
         read-acl read-current-user-privilege-set\n",
    ),
    // One request gets leaves at the group, and only two get them at the book.
    (
        "[[entry]]\nat = \"/groups/law\"\nwho = \"/people/ada\"\ngrant = [\"write-acl\"]\n",
        "ada: ACL /groups/law (grant /people/ada all); then at /groups/law is granted: read write read-acl \
         read-current-user-privilege-set\n\
         ada: ACL /groups/law (grant /people/ada all); PROPPATCH /groups/law (+ /people/ada); \
         then at /books/law is granted: read\n",
    ),
    (
        "[[group]]\nname = \"clerks\"\n\
         [[entry]]\nat = \"/groups/clerks\"\nwho = \"/people/ada\"\ngrant = [\"write-properties\"]\n\
         [[entry]]\nat = \"/groups/law\"\nwho = \"/groups/clerks\"\ngrant = [\"write-properties\"]\n",
        "ada: PROPPATCH /groups/clerks (+ /people/ada); then at /groups/law is granted: write-properties\n\
         ada: PROPPATCH /groups/clerks (+ /people/ada); PROPPATCH /groups/law (+ /people/ada); \
         then at /books/law is granted: read\n",
    ),
    // A list that is replaced at the home of the persons holds at each of them.
    (
        "[[entry]]\nat = \"/people\"\nwho = \"/people/ada\"\ngrant = [\"all\"]\n\
         [[entry]]\nat = \"/people\"\nwho = \"/people/dan\"\ngrant = [\"read\", \"write\", \"write-acl\", \"read-acl\"]\n",
        "dan: ACL /people (grant /people/dan all); then at /people is granted: read-current-user-privilege-set\n\
         dan: ACL /people (grant /people/dan all); then at /people/ada is granted: read-current-user-privilege-set\n\
         dan: ACL /people (grant /people/dan all); then at /people/dan is granted: read-current-user-privilege-set\n",
    ),
    // A caller who is not known replaces the list too, and can't be a member.
    (
        "[[entry]]\nat = \"/books/law\"\nwho = \"unauthenticated\"\ngrant = [\"write-acl\"]\n\
         [[entry]]\nat = \"/groups/law\"\nwho = \"unauthenticated\"\ngrant = [\"write-properties\"]\n",
        "a caller who is not known: ACL /books/law (grant unauthenticated all); then at /books/law is granted: read write \
         read-acl read-current-user-privilege-set\n",
    ),
    // Two groups together: the one is denied nothing, the other is granted something.
    (
        "[[group]]\nname = \"clerks\"\n[[book]]\nname = \"files\"\n\
         [[entry]]\nat = \"/books/files\"\nwho = \"/groups/law\"\ninvert = true\ndeny = [\"bind\"]\n\
         [[entry]]\nat = \"/books/files\"\nwho = \"/groups/clerks\"\ngrant = [\"bind\"]\n\
         [[entry]]\nat = \"/groups/clerks\"\nwho = \"/people/ada\"\ngrant = [\"write-properties\"]\n\
         [[entry]]\nat = \"/groups/partners\"\nwho = \"/people/ada\"\ngrant = [\"write-properties\"]\n",
        "ada: PROPPATCH /groups/clerks (+ /people/ada); PROPPATCH /groups/partners (+ /people/ada); \
         then at /books/files is granted: bind\n\
         ada: PROPPATCH /groups/partners (+ /people/ada); then at /books/law is granted: read\n",
    ),
    // Who holds everything gets nothing.
    (
        "[[entry]]\nat = \"/\"\nwho = \"/people/ada\"\ngrant = [\"all\"]\nprotected = true\n",
        "",
    ),
];

/// Of two groups that she may join, the second gets more.
const JOINED: &str = "version = 1\n\
    [[person]]\nname = \"ada\"\n[[group]]\nname = \"few\"\n[[group]]\nname = \"many\"\n[[group]]\nname = \"none\"\n\
    [[book]]\nname = \"team\"\n\
    [[entry]]\nat = \"/books/team\"\nwho = \"/groups/few\"\ngrant = [\"read\"]\n\
    [[entry]]\nat = \"/books/team\"\nwho = \"/groups/many\"\ngrant = [\"read\", \"write\"]\n";

const OF_MANY: &[Example] = &[
    (
        "[[entry]]\nat = \"/groups\"\nwho = \"/people/ada\"\ngrant = [\"write-properties\"]\n",
        "ada: PROPPATCH /groups/many (+ /people/ada); then at /books/team is granted: read write\n",
    ),
    // By two requests she would get more at the book; one gets her some, and is told.
    (
        "[[entry]]\nat = \"/groups/few\"\nwho = \"/people/ada\"\ngrant = [\"write-properties\"]\n\
         [[entry]]\nat = \"/groups/many\"\nwho = \"/groups/few\"\ngrant = [\"write-properties\"]\n",
        "ada: PROPPATCH /groups/few (+ /people/ada); then at /groups/many is granted: write-properties\n\
         ada: PROPPATCH /groups/few (+ /people/ada); then at /books/team is granted: read\n",
    ),
];

#[test]
fn gains_are_told(rt: HostRuntime) {
    for example in EXAMPLES {
        compare_gains(&rt, rt.alloc(), LAW, example);
    }
    for example in OF_MANY {
        compare_gains(&rt, rt.alloc(), JOINED, example);
    }
}
