//! How the Offices of the examples are made: a policy is adopted, then edits are made.

use book_office::{Edit, Keeper, MemoryKeeper};
use book_policy::read_policy;
use std::alloc::Global;
use std::process::Abort;

pub(crate) fn act<K: Keeper>(rt: &impl Abort, alloc: Global, keeper: &mut K, edit: Edit) {
    keeper.act(alloc, &edit).expect(rt, "memory");
    drop(edit);
}

/// A keeper of the empty Office that adopted a policy.
pub(crate) fn adopted(rt: &impl Abort, alloc: Global, policy: &str) -> MemoryKeeper {
    let policy = read_policy(alloc, policy).expect(rt, "a policy");
    let mut keeper = MemoryKeeper::new(alloc);
    act(rt, alloc, &mut keeper, Edit::Adopt { policy });
    keeper
}
