//! What adopting a policy would leave and change. The Office is the empty one that adopted a policy; then bob's card was put
//! into the book sales, and it got a list of its own.

use crate::checks::check_text;
use crate::making::{adopted, push_entry, put_card, set_list};
use book_office::{Items, Keeper, MemoryKeeper};
use book_policy::read_policy;
use book_questions_plans::plan;
use book_rights::Privilege;
use std::alloc::Global;
use std::process::Abort;

/// Persons ann and bob. The group staff has ann, and may read the book sales; the group old has bob.
const BEFORE: &str = "version = 1\n\
    [[person]]\nname = \"ann\"\n[[person]]\nname = \"bob\"\n\
    [[group]]\nname = \"staff\"\nmembers = [\"/people/ann\"]\n\
    [[group]]\nname = \"old\"\nmembers = [\"/people/bob\"]\n\
    [[book]]\nname = \"sales\"\n\
    [[entry]]\nat = \"/books/sales\"\nwho = \"/groups/staff\"\ngrant = [\"read\"]\n";

/// Persons ann, bob and cyd. The group staff has bob, and may read the book sales, which ann owns; an owner may add there.
/// The group old is not named.
const AFTER: &str = "version = 1\n\
    [[person]]\nname = \"ann\"\n[[person]]\nname = \"bob\"\n[[person]]\nname = \"cyd\"\n\
    [[group]]\nname = \"staff\"\nmembers = [\"/people/bob\"]\n\
    [[book]]\nname = \"sales\"\nowner = \"/people/ann\"\n\
    [[entry]]\nat = \"/books/sales\"\nwho = \"/groups/staff\"\ngrant = [\"read\"]\n\
    [[entry]]\nat = \"/books/sales\"\nwho = \"owner\"\ngrant = [\"bind\"]\n";

/// What the policy AFTER does not name.
const STAYS: &str = "stays member /groups/old /people/bob\n\
    stays /books/sales/a.vcf  own deny /people/bob read\n\
    stays /groups/old\n";

/// What it would change. The own list of the card denies bob to read it by the group; its owner is bob, and not ann.
const CHANGES: &str = "- member /groups/staff /people/ann\n\
    + member /groups/staff /people/bob\n\
    - /books/sales owner -\n\
    + /books/sales owner /people/ann\n\
    - /books/sales  own grant /groups/staff read\n\
    + /books/sales  own grant /groups/staff read\n\
    + /books/sales  own grant owner bind\n\
    + /people/cyd owner -\n\
    + /people/cyd label \"\"\n\
    lost /books/sales /people/ann read\n\
    gained /books/sales /people/ann bind\n\
    gained /books/sales /people/bob read\n\
    lost /books/sales/a.vcf of 1 /people/ann read\n\
    gained /books/sales/a.vcf of 1 /people/bob bind\n\
    differs in 14\n";

/// Gives the card its own list: `deny /people/bob read`.
fn deny_bob<K: Keeper>(rt: &impl Abort, alloc: Global, keeper: &mut K) {
    let mut entries = Items::new(alloc);
    let read = Privilege::Read.leaves();
    push_entry(rt, alloc, &mut entries, "/people/bob", false, true, read);
    set_list(rt, alloc, keeper, "a.vcf", entries);
}

/// A keeper of the Office.
fn keeper(rt: &impl Abort, alloc: Global) -> MemoryKeeper {
    let mut keeper = adopted(rt, alloc, BEFORE);
    put_card(rt, alloc, &mut keeper, "a.vcf", "/people/bob");
    deny_bob(rt, alloc, &mut keeper);
    keeper
}

/// Compares what adopting a policy would leave and change.
fn compare<K: Keeper>(
    rt: &impl Abort,
    alloc: Global,
    keeper: &mut K,
    policy: &str,
    stays: &str,
    changes: &str,
) {
    let policy = read_policy(alloc, policy).expect(rt, "a policy");
    let told = plan(alloc, keeper, &policy).expect(rt, "memory");
    check_text(rt, told.stays.as_str(), stays);
    check_text(rt, told.changes.as_str(), changes);
    drop(policy);
    drop(told);
}

#[test]
fn what_an_adoption_would_leave_and_change_is_told(rt: HostRuntime) {
    let alloc = rt.alloc();
    let mut keeper = keeper(&rt, alloc);
    compare(&rt, alloc, &mut keeper, AFTER, STAYS, CHANGES);
    // Nothing was adopted: the policy that was adopted changes nothing.
    let card = "stays /books/sales/a.vcf  own deny /people/bob read\n";
    compare(&rt, alloc, &mut keeper, BEFORE, card, "unchanged\n");
    drop(keeper);
}
