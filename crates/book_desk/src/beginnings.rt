//! The texts of the files that `init` makes. They are literals, since the language reads no file into a constant.

use book_desk_app::Beginning;

/// The policy.
const POLICY: &str = "\
# A policy to begin with: an administrator, a colleague, their group, its book, and the person as whom the gateway asks.
# Change the names, and adopt it: book_desk import --store office.db policy.toml. POLICY in the manual page has every key,
# and office.toml of the examples is a whole office.
#
# book_desk check tells two things that it leaves open, and both are meant: the gateway's person has no right at any book,
# and the administrator reads each of them.
#
# Importing it is one step: all of it, or nothing. What a policy leaves out stays in the store, so nothing is revoked by
# deleting it here: TAKING RIGHTS AWAY in the manual page has what is.
version = 1

[[person]]
name = \"admin\"
label = \"Administrator\"

[[person]]
name = \"ann\"
label = \"Ann, who works with the book\"

# As this person the gateway asks for the names of books. Nobody signs in as it. Without the gateway, leave it out.
[[person]]
name = \"lister\"
label = \"Lists books for the gateway\"

# A person who joins gets a [[person]], and stands here too. Who may set the members of a group has its rights: here that is
# the administrator alone.
[[group]]
name = \"staff\"
label = \"Staff\"
members = [\"/people/admin\", \"/people/ann\"]

[[book]]
name = \"office\"
label = \"Office\"
owner = \"/people/admin\"

# Of the entries that are for the caller, the first that names a privilege decides it: protected entries come first, then
# those at the place itself, and then those above it.

# The administrator may do everything. No request changes a protected entry.
[[entry]]
at = \"/\"
who = \"/people/admin\"
grant = [\"all\"]
protected = true

# Each known person may ask what they may do, where they may read.
[[entry]]
at = \"/\"
who = \"authenticated\"
grant = [\"read-current-user-privilege-set\"]

# The staff see who is there, and which groups there are. Each person sets what is shown of that person.
[[entry]]
at = \"/people\"
who = \"/groups/staff\"
grant = [\"read\"]

[[entry]]
at = \"/people\"
who = \"self\"
grant = [\"write-properties\"]

[[entry]]
at = \"/groups\"
who = \"/groups/staff\"
grant = [\"read\"]

# The staff and the gateway's person see the list of books. What stands here holds in every book too, but where an entry at
# the book denies it: so each book has a closing entry.
[[entry]]
at = \"/books\"
who = \"/groups/staff\"
grant = [\"read\"]

[[entry]]
at = \"/books\"
who = \"/people/lister\"
grant = [\"read\"]

# The closing entry: nobody but the staff may do anything in the book, neither the gateway's person nor a caller who is not
# known. It stands before the owner's, so who leaves the group keeps nothing of what they made.
[[entry]]
at = \"/books/office\"
who = \"/groups/staff\"
invert = true
deny = [\"all\"]

# Who made a card may do everything with it. The staff read, add and change cards.
[[entry]]
at = \"/books/office\"
who = \"owner\"
grant = [\"all\"]

[[entry]]
at = \"/books/office\"
who = \"/groups/staff\"
grant = [\"read\", \"write-content\", \"bind\", \"read-current-user-privilege-set\"]
";

/// The settings of the gateway.
const SETTINGS: &str = "\
# Settings of the gateway to begin with: office-gateway gateway.toml. People reach it at http://127.0.0.1:8090/page/, from
# this machine alone. README.md of the gateway has every key.
[listen]
port = 8090
# Behind nginx: under which addresses people reach it, and the field in which nginx names the address of who asks.
# origins = [\"https://office.example\"]
# address_field = \"X-Real-IP\"

[server]
port = 8080
keep_connections = true
connections = 16

[people]
# A file beside this one, with a line for each person, as htpasswd -B writes it.
passwords = \"passwords\"
# The person of the policy as whom the gateway asks for the names of books.
service = \"lister\"

# Login names that are not the person's own name.
[people.names]
# \"admin@office.example\" = \"admin\"
";

/// What comes next.
const NEXT: &str = "\
policy.toml and gateway.toml are made. Next, in their folder:
  book_desk import --store office.db policy.toml
  book_desk audit --store office.db
  htpasswd -B -C 12 -c passwords admin
  book_desk serve --port 8080 --forever --at-once 64 --idle 75 --existing --store office.db
  office-gateway gateway.toml
";

/// What is made to begin with.
pub const BEGINNING: Beginning<'static> = Beginning {
    policy: POLICY,
    settings: SETTINGS,
    next: NEXT,
};
