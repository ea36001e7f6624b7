//! The Office of the examples: the empty one adopted a policy, then ann put a card into the book sales, and the card got
//! a list of its own.

use crate::making::{adopted, push_entry, put_card, set_list};
use book_machine::Machine;
use book_office::{Items, Keeper, MemoryKeeper};
use book_rights::{Leaf, LeafSet, Privilege};
use std::alloc::Global;
use std::process::Abort;

/// Persons ann, bob and gus. The group staff has ann and bob, and the group crew has staff. Entries stand in both lists
/// of the root, of the home of books and of the book sales.
const POLICY: &str = "version = 1\n\
    [[person]]\nname = \"ann\"\n[[person]]\nname = \"bob\"\n[[person]]\nname = \"gus\"\n\
    [[group]]\nname = \"staff\"\nmembers = [\"/people/ann\", \"/people/bob\"]\n\
    [[group]]\nname = \"crew\"\nmembers = [\"/groups/staff\"]\n\
    [[book]]\nname = \"sales\"\nowner = \"/people/ann\"\n\
    [[entry]]\nat = \"/\"\nwho = \"/people/ann\"\ngrant = [\"read\"]\nprotected = true\n\
    [[entry]]\nat = \"/books\"\nwho = \"/people/gus\"\ndeny = [\"all\"]\nprotected = true\n\
    [[entry]]\nat = \"/books/sales\"\nwho = \"/people/ann\"\ngrant = [\"all\"]\nprotected = true\n\
    [[entry]]\nat = \"/\"\nwho = \"all\"\ngrant = [\"read\", \"bind\"]\n\
    [[entry]]\nat = \"/books\"\nwho = \"/people/bob\"\ndeny = [\"read\"]\n\
    [[entry]]\nat = \"/books/sales\"\nwho = \"/groups/crew\"\ngrant = [\"bind\"]\n";

/// Gives the card its own list: `deny not /groups/staff read`, `deny /people/bob write-content`.
fn set_own<K: Keeper>(rt: &impl Abort, alloc: Global, keeper: &mut K) {
    let mut entries = Items::new(alloc);
    let read = Privilege::Read.leaves();
    push_entry(rt, alloc, &mut entries, "/groups/staff", true, true, read);
    let write = LeafSet::empty().with(Leaf::WriteContent);
    push_entry(rt, alloc, &mut entries, "/people/bob", false, true, write);
    set_list(rt, alloc, keeper, "b.vcf", entries);
}

/// A machine over the Office.
pub(crate) fn machine(rt: &impl Abort, alloc: Global) -> Machine<MemoryKeeper> {
    let mut keeper = adopted(rt, alloc, POLICY);
    put_card(rt, alloc, &mut keeper, "b.vcf", "/people/ann");
    set_own(rt, alloc, &mut keeper);
    Machine::new(keeper)
}
