//! The policies that are adopted (own profile).

/// Ann owns two books; the staff, ann and bob, read one of them and add cards to it; bob reads the other, and takes cards
/// out of it.
pub(crate) const TWO_BOOKS: &str = "\
version = 1
[[person]]
name = \"ann\"
[[person]]
name = \"bob\"
[[person]]
name = \"gus\"
[[group]]
name = \"staff\"
members = [\"/people/ann\", \"/people/bob\"]
[[book]]
name = \"sales\"
label = \"Sales\"
owner = \"/people/ann\"
[[book]]
name = \"law\"
owner = \"/people/ann\"
[[entry]]
at = \"/books/sales\"
who = \"/people/ann\"
grant = [\"all\"]
protected = true
[[entry]]
at = \"/books/sales\"
who = \"/groups/staff\"
grant = [\"read\", \"bind\"]
[[entry]]
at = \"/books/law\"
who = \"owner\"
grant = [\"all\"]
protected = true
[[entry]]
at = \"/books/law\"
who = \"/people/bob\"
grant = [\"read\", \"unbind\"]
[[entry]]
at = \"/groups\"
who = \"/people/ann\"
grant = [\"read\", \"write-properties\"]
protected = true
";

/// One more entry: ann makes books and removes them.
pub(crate) const NEW_BOOKS: &str = "\
[[entry]]
at = \"/books\"
who = \"/people/ann\"
grant = [\"bind\", \"unbind\"]
";

/// Two more entries at the top: ann may do all, and the staff may read and write.
pub(crate) const ALL_BOOKS: &str = "\
[[entry]]
at = \"/\"
who = \"/people/ann\"
grant = [\"all\"]
protected = true
[[entry]]
at = \"/\"
who = \"/groups/staff\"
grant = [\"read\", \"write\"]
";
