//! The two Offices of the examples. Each is the empty one that adopted a policy; then cards were put into the book sales.

use crate::making::{adopted, push_entry, put_card, set_list};
use book_office::{Items, Keeper, MemoryKeeper};
use book_rights::Privilege;
use std::alloc::Global;
use std::process::Abort;

/// Persons ann and bob. The group staff has ann, and may read the book sales.
const BEFORE: &str = "version = 1\n\
    [[person]]\nname = \"ann\"\n[[person]]\nname = \"bob\"\n\
    [[group]]\nname = \"staff\"\nmembers = [\"/people/ann\"]\n\
    [[book]]\nname = \"sales\"\n\
    [[entry]]\nat = \"/books/sales\"\nwho = \"/groups/staff\"\ngrant = [\"read\"]\n";

/// Persons ann, bob and cyd. The group staff has bob, and may read the book sales; an owner may add there. Everybody may
/// read the book new.
const AFTER: &str = "version = 1\n\
    [[person]]\nname = \"ann\"\n[[person]]\nname = \"bob\"\n[[person]]\nname = \"cyd\"\n\
    [[group]]\nname = \"staff\"\nmembers = [\"/people/bob\"]\n\
    [[book]]\nname = \"new\"\n[[book]]\nname = \"sales\"\nowner = \"/people/ann\"\n\
    [[entry]]\nat = \"/books/new\"\nwho = \"all\"\ngrant = [\"read\"]\n\
    [[entry]]\nat = \"/books/sales\"\nwho = \"/groups/staff\"\ngrant = [\"read\"]\n\
    [[entry]]\nat = \"/books/sales\"\nwho = \"owner\"\ngrant = [\"bind\"]\n";

/// Gives the card `c.vcf` its own list: `deny /people/bob read`.
fn deny_bob<K: Keeper>(rt: &impl Abort, alloc: Global, keeper: &mut K) {
    let mut entries = Items::new(alloc);
    let read = Privilege::Read.leaves();
    push_entry(rt, alloc, &mut entries, "/people/bob", false, true, read);
    set_list(rt, alloc, keeper, "c.vcf", entries);
}

/// A keeper of the empty Office that adopted a policy, with two cards.
fn keeper(rt: &impl Abort, alloc: Global, policy: &str) -> MemoryKeeper {
    let mut keeper = adopted(rt, alloc, policy);
    put_card(rt, alloc, &mut keeper, "a.vcf", "/people/bob");
    put_card(rt, alloc, &mut keeper, "b.vcf", "/people/bob");
    keeper
}

/// The Office before.
pub(crate) fn before(rt: &impl Abort, alloc: Global) -> MemoryKeeper {
    keeper(rt, alloc, BEFORE)
}

/// The Office after, with a third card.
pub(crate) fn after(rt: &impl Abort, alloc: Global) -> MemoryKeeper {
    let mut keeper = keeper(rt, alloc, AFTER);
    put_card(rt, alloc, &mut keeper, "c.vcf", "/people/bob");
    deny_bob(rt, alloc, &mut keeper);
    keeper
}
