//! Sets of leaves by the names of privileges.

ghost use Rattle.std.specs.Prelude.{map};
ghost use Rattle.book_wire_json.specs.Privileges.{AreLeavesIn};

use book_rights::{LeafSet, Privilege};

/// The leaves of the privileges with these names (RFC 3744, section 3); none where a name is no privilege's.
pub(crate) fn leaves(names: &[&str]) -> Option<LeafSet>
    ensures { AreLeavesIn (map (λ n. n.now) names.now) result }
{
    let mut set = LeafSet::empty();
    for name in names {
        match Privilege::from_name(name) {
            Some(privilege) => set = set.union(privilege.leaves()),
            None => return None,
        }
    }
    Some(set)
}
