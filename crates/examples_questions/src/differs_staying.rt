//! What a policy leaves that names less than the Office after has: neither the persons bob and cyd nor the group staff.

use crate::checks::check_text;
use crate::differs_offices::after;
use book_policy::read_policy;
use book_questions_stays::stays;
use std::process::Abort;

/// Person ann. Books new and sales; the policy has an own entry for the book new, and none for the book sales.
const LESS: &str = "version = 1\n\
    [[person]]\nname = \"ann\"\n\
    [[book]]\nname = \"new\"\n[[book]]\nname = \"sales\"\n\
    [[entry]]\nat = \"/books/new\"\nwho = \"all\"\ngrant = [\"read\"]\n";

/// The own list of the book new becomes that of the policy. That of the book sales stays, and so does that of the card.
const LEFT: &str = "stays member /groups/staff /people/bob\n\
    stays /books/sales  own grant /groups/staff read\n\
    stays /books/sales  own grant owner bind\n\
    stays /books/sales/c.vcf  own deny /people/bob read\n\
    stays /groups/staff\n\
    stays /people/bob\n\
    stays /people/cyd\n";

#[test]
fn what_is_not_named_stays(rt: HostRuntime) {
    let alloc = rt.alloc();
    let mut keeper = after(&rt, alloc);
    let policy = read_policy(alloc, LESS).expect(&rt, "a policy");
    let text = stays(alloc, &mut keeper, &policy).expect(&rt, "memory");
    check_text(&rt, text.as_str(), LEFT);
    drop(policy);
    drop(keeper);
}
