//! Who may open what is closed. In each policy the book law is closed to whoever is not in the group law; dan is in it,
//! and ada is in no group. An entry that changes no decision is told too, before them.

use crate::warnings_comparing::{Example, compare};

/// What stands in each policy.
const LAW: &str = "version = 1\n\
    [[person]]\nname = \"ada\"\n[[person]]\nname = \"dan\"\n\
    [[group]]\nname = \"law\"\nmembers = [\"/people/dan\", \"/groups/partners\"]\n\
    [[group]]\nname = \"partners\"\n\
    [[book]]\nname = \"law\"\n\
    [[entry]]\nat = \"/books/law\"\nwho = \"/groups/law\"\ninvert = true\ndeny = [\"read\"]\n\
    [[entry]]\nat = \"/books/law\"\nwho = \"/groups/law\"\ngrant = [\"read\"]\n";

const EXAMPLES: &[Example] = &[
    // Nothing is granted to her.
    ("", ""),
    // She adds herself to the group that the closing entry names.
    (
        "[[entry]]\nat = \"/groups/law\"\nwho = \"/people/ada\"\ngrant = [\"write-properties\"]\n",
        "ada: PROPPATCH /groups/law (+ /people/ada); then GET /books/law/* is granted\n",
    ),
    // Or to a group that is in it.
    (
        "[[entry]]\nat = \"/groups/partners\"\nwho = \"/people/ada\"\ngrant = [\"write\"]\n",
        "ada: PROPPATCH /groups/partners (+ /people/ada); then GET /books/law/* is granted\n",
    ),
    // A protected entry at the group comes first.
    (
        "[[entry]]\nat = \"/groups/law\"\nwho = \"all\"\ndeny = [\"write-properties\"]\nprotected = true\n\
         [[entry]]\nat = \"/groups/law\"\nwho = \"/people/ada\"\ngrant = [\"write-properties\"]\n",
        "entry 4 (at /groups/law, who /people/ada): never decides: behind protected entry 3 at /groups/law\n",
    ),
    // She replaces the list with the closing entry.
    (
        "[[entry]]\nat = \"/books/law\"\nwho = \"authenticated\"\ngrant = [\"write-acl\"]\n",
        "ada: ACL /books/law (grant /people/ada all); then GET /books/law/* is granted\n",
    ),
    // She may not grant herself what a protected entry denies her (RFC 3744, section 8.1.1), and grants the rest.
    (
        "[[entry]]\nat = \"/books/law\"\nwho = \"/people/ada\"\ndeny = [\"bind\"]\nprotected = true\n\
         [[entry]]\nat = \"/books/law\"\nwho = \"/people/ada\"\ngrant = [\"write-acl\"]\n",
        "ada: ACL /books/law (grant /people/ada read write-content write-properties unbind read-acl write-acl \
         read-current-user-privilege-set); then GET /books/law/* is granted\n",
    ),
    // Who is not known may do so too, but where a protected entry denies it.
    (
        "[[entry]]\nat = \"/books/law\"\nwho = \"all\"\ngrant = [\"write-acl\"]\n\
         [[entry]]\nat = \"/books/law\"\nwho = \"unauthenticated\"\ndeny = [\"write-acl\"]\nprotected = true\n",
        "ada: ACL /books/law (grant /people/ada all); then GET /books/law/* is granted\n",
    ),
    (
        "[[entry]]\nat = \"/books/law\"\nwho = \"all\"\ngrant = [\"write-acl\"]\n\
         [[entry]]\nat = \"/books/law\"\nwho = \"unauthenticated\"\ndeny = [\"unbind\"]\nprotected = true\n",
        "a caller who is not known: ACL /books/law (grant unauthenticated read write-content write-properties bind read-acl \
         write-acl read-current-user-privilege-set); then GET /books/law/* is granted\n\
         ada: ACL /books/law (grant /people/ada all); then GET /books/law/* is granted\n",
    ),
    // What she grants above the book comes behind the closing entry there.
    (
        "[[entry]]\nat = \"/books\"\nwho = \"/people/ada\"\ngrant = [\"write-acl\"]\n\
         [[entry]]\nat = \"/books/law\"\nwho = \"all\"\ndeny = [\"write-acl\"]\n",
        "",
    ),
    // A protected closing entry stays whatever list she replaces.
    (
        "[[entry]]\nat = \"/books/law\"\nwho = \"/people/dan\"\ninvert = true\ndeny = [\"all\"]\nprotected = true\n\
         [[entry]]\nat = \"/books\"\nwho = \"/people/ada\"\ngrant = [\"all\"]\n",
        "entry 1 (at /books/law, who /groups/law): never decides: behind protected entry 3 at /books/law\n",
    ),
    // She gets the right to set the members first.
    (
        "[[entry]]\nat = \"/groups/law\"\nwho = \"/people/ada\"\ngrant = [\"write-acl\"]\n",
        "ada: ACL /groups/law (grant /people/ada all); PROPPATCH /groups/law (+ /people/ada); \
         then GET /books/law/* is granted\n",
    ),
    // By the one group she may set the members of the other.
    (
        "[[group]]\nname = \"clerks\"\n\
         [[entry]]\nat = \"/groups/clerks\"\nwho = \"/people/ada\"\ngrant = [\"write-properties\"]\n\
         [[entry]]\nat = \"/groups/law\"\nwho = \"/groups/clerks\"\ngrant = [\"write-properties\"]\n",
        "entry 4 (at /groups/law, who /groups/clerks): never decides: it is for nobody\n\
         ada: PROPPATCH /groups/clerks (+ /people/ada); PROPPATCH /groups/law (+ /people/ada); \
         then GET /books/law/* is granted\n",
    ),
    // Of three requests none is looked for.
    (
        "[[group]]\nname = \"clerks\"\n\
         [[entry]]\nat = \"/groups/clerks\"\nwho = \"/people/ada\"\ngrant = [\"write-acl\"]\n\
         [[entry]]\nat = \"/groups/law\"\nwho = \"/groups/clerks\"\ngrant = [\"write-properties\"]\n",
        "entry 4 (at /groups/law, who /groups/clerks): never decides: it is for nobody\n",
    ),
    // What she may read is not closed to her.
    (
        "[[entry]]\nat = \"/\"\nwho = \"/people/ada\"\ngrant = [\"all\"]\nprotected = true\n",
        "",
    ),
];

#[test]
fn openings_are_told(rt: HostRuntime) {
    for example in EXAMPLES {
        compare(&rt, rt.alloc(), LAW, example);
    }
}
