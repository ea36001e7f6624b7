//! What is told of a policy that the empty Office adopts.

use crate::checks::check_text;
use crate::making::adopted;
use book_policy_gaps::{gaps_of, push_gap_line};
use std::alloc::Global;
use std::process::Abort;

/// The sentences of the facts that the policy leaves open.
fn told(rt: &impl Abort, alloc: Global, policy: &str) -> String {
    let mut keeper = adopted(rt, alloc, policy);
    let gaps = gaps_of(alloc, &mut keeper).expect(rt, "memory");
    drop(keeper);
    let mut text = String::new(alloc);
    for gap in gaps.as_slice() {
        push_gap_line(&mut text, gap).expect(rt, "memory");
    }
    drop(gaps);
    text
}

/// Policies, and the sentences of each.
pub(crate) fn compare(rt: &impl Abort, alloc: Global, rows: &[(&str, &str)]) {
    for (policy, wanted) in rows {
        let text = told(rt, alloc, policy);
        check_text(rt, text.as_str(), wanted);
    }
}
