//! Sets of leaves as masks (own profile): bit 0 is `x-read-texts`, and each leaf has the bit of its place.

use crate::checks::check_fact;
use crate::entry_lines::leaves;
use book_rights::LeafSet;

/// Privileges, and the mask of their leaves.
const MASKS: &[(&str, u16)] = &[
    ("-", 0),
    ("x-read-texts", 1),
    ("write-content", 2),
    ("write-properties", 4),
    ("bind", 8),
    ("unbind", 16),
    ("read-acl", 32),
    ("write-acl", 64),
    ("read-current-user-privilege-set", 128),
    ("x-read-names", 256),
    ("read", 257),
    ("write", 30),
    ("all", 511),
    ("read+write-acl", 321),
    ("write+bind+read-acl", 62),
];

#[test]
fn sets_have_masks(rt: HostRuntime) {
    for (names, mask) in MASKS {
        let set = leaves(names).expect(&rt, names);
        check_fact(&rt, set.mask() == *mask, names);
        check_fact(&rt, LeafSet::from_mask(*mask) == Some(set), names);
    }
    for mask in [512, 513, 767, 1_023, 65_535] {
        check_fact(&rt, LeafSet::from_mask(mask).is_none(), "no mask");
    }
}
