//! What a person holds at a resource. Ann is in the group staff, and bob owns the book sales.

use crate::checks::check_fact;
use crate::making::adopted;
use book_lists::{Caller, Circle, Name, Principal};
use book_office::Keeper;
use book_office_values::Path;
use book_policy_gaps::held_at;
use book_rights::{Leaf, LeafSet, Privilege};
use std::alloc::Global;
use std::process::Abort;

const POLICY: &str = "version = 1\n\
    [[person]]\nname = \"ann\"\n[[person]]\nname = \"bob\"\n\
    [[group]]\nname = \"staff\"\nmembers = [\"/people/ann\"]\n\
    [[book]]\nname = \"sales\"\nowner = \"/people/bob\"\n\
    [[entry]]\nat = \"/\"\nwho = \"all\"\ndeny = [\"write-acl\"]\nprotected = true\n\
    [[entry]]\nat = \"/books\"\nwho = \"/groups/staff\"\ngrant = [\"all\"]\n\
    [[entry]]\nat = \"/people\"\nwho = \"self\"\ngrant = [\"bind\"]\n\
    [[entry]]\nat = \"/books/sales\"\nwho = \"owner\"\ngrant = [\"read\", \"write-acl\"]\n\
    [[entry]]\nat = \"/books/sales\"\nwho = \"/groups/staff\"\ninvert = true\ndeny = [\"all\"]\n";

/// The principals to which a person belongs.
fn circle<K: Keeper>(rt: &impl Abort, alloc: Global, keeper: &mut K, person: &str) -> Circle {
    let parsed = Name::parse(alloc, person).expect(rt, "memory");
    let name = parsed.expect(rt, "a name");
    let caller = Caller::Known(Principal::person(alloc, &name).expect(rt, "memory"));
    keeper.circle(alloc, &caller).expect(rt, "memory")
}

/// Compares what a person holds at a path.
fn compare(rt: &impl Abort, alloc: Global, person: &str, at: &str, wanted: LeafSet) {
    let path = Path::parse(alloc, at).expect(rt, "a path");
    let mut keeper = adopted(rt, alloc, POLICY);
    let circle = circle(rt, alloc, &mut keeper, person);
    let held = held_at(alloc, &mut keeper, &circle, &path).expect(rt, "memory");
    drop(keeper);
    drop(circle);
    drop(path);
    check_fact(rt, held == wanted, at);
}

#[test]
fn what_a_person_holds_is_told(rt: HostRuntime) {
    let alloc = rt.alloc();
    let most = Privilege::All
        .leaves()
        .minus(LeafSet::empty().with(Leaf::WriteAcl));
    // By the entry above the book she holds all but what a protected entry denies; the entries at the book are not for her.
    compare(&rt, alloc, "ann", "/books/sales", most);
    compare(&rt, alloc, "ann", "/books", most);
    // He owns the book; all others than the staff are denied the rest.
    compare(&rt, alloc, "bob", "/books/sales", Privilege::Read.leaves());
    // Each person adds at their own path alone, and nothing is granted at the root.
    compare(
        &rt,
        alloc,
        "bob",
        "/people/bob",
        LeafSet::empty().with(Leaf::Bind),
    );
    compare(&rt, alloc, "bob", "/people/ann", LeafSet::empty());
    compare(&rt, alloc, "ann", "/", LeafSet::empty());
}
