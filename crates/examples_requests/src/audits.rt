//! The audit text, byte for byte (own profile).

use crate::checks::check_text;
use crate::edited_offices::{add_book, keeper, put, set_list};
use book_office::Keeper;
use book_office_audit::audit_text;
use std::alloc::Global;
use std::process::Abort;

fn compare<K: Keeper>(rt: &impl Abort, alloc: Global, keeper: &mut K, wanted: &str) {
    let text = audit_text(alloc, keeper).expect(rt, "memory");
    check_text(rt, text.as_str(), wanted, "an audit");
}

/// The Office of the policy alone.
const OF_THE_POLICY: &str = "epoch 1\n\
    member /groups/staff /people/ann\n\
    member /groups/staff /people/bob\n\
    / owner -\n\
    /books owner -\n\
    /books/law owner /people/ann\n  protected grant owner all\n  own grant /people/bob read unbind\n\
    /books/sales owner /people/ann\n  protected grant /people/ann all\n  own grant /groups/staff read bind\n\
    /groups owner -\n  protected grant /people/ann read write-properties\n\
    /groups/staff owner -\n\
    /people owner -\n\
    /people/ann owner -\n\
    /people/bob owner -\n\
    /people/gus owner -\n";

/// The byte order of whole paths is not the order of the tree: a hyphen and a dot stand before a slash, so that books
/// come between the book `a` and its card. Each form of a principal and each kind of list once; a set that is nearly
/// all; a card has no protected entries.
const IN_BYTE_ORDER: &str = "epoch 4\n\
    member /groups/staff /people/ann\n\
    member /groups/staff /people/bob\n\
    / owner -\n  own grant authenticated read\n  own deny not self write-acl\n\
    /books owner -\n\
    /books/a owner -\n\
    /books/a-b owner -\n\
    /books/a-b/z.vcf owner /people/bob\n\
    /books/a.b owner -\n\
    /books/a/c.vcf owner /people/ann\n  own deny unauthenticated all\n  own grant not owner read write read-acl write-acl\n\
    /books/a0 owner -\n  own grant all write-content bind\n\
    /books/law owner /people/ann\n  protected grant owner all\n  own grant /people/bob read unbind\n\
    /books/sales owner /people/ann\n  protected grant /people/ann all\n  own grant /groups/staff read bind\n\
    /groups owner -\n  protected grant /people/ann read write-properties\n\
    /groups/staff owner -\n\
    /people owner -\n\
    /people/ann owner -\n\
    /people/bob owner -\n\
    /people/gus owner -\n";

#[test]
fn an_audit_tells_every_list_in_byte_order_of_paths(rt: HostRuntime) {
    let alloc = rt.alloc();
    let mut keeper = keeper(&rt, alloc);
    compare(&rt, alloc, &mut keeper, OF_THE_POLICY);
    for book in ["a0", "a", "a.b", "a-b"] {
        add_book(&rt, alloc, &mut keeper, book);
    }
    put(
        &rt,
        alloc,
        &mut keeper,
        ("a", "c.vcf"),
        "/people/ann",
        "any",
    );
    put(
        &rt,
        alloc,
        &mut keeper,
        ("a-b", "z.vcf"),
        "/people/bob",
        "any",
    );
    let root = &["grant authenticated read", "deny not self write-acl"];
    set_list(&rt, alloc, &mut keeper, "/", root);
    let card = &[
        "deny unauthenticated all",
        "grant not owner read write read-acl write-acl",
    ];
    set_list(&rt, alloc, &mut keeper, "/books/a/c.vcf", card);
    set_list(
        &rt,
        alloc,
        &mut keeper,
        "/books/a0",
        &["grant all write-content bind"],
    );
    compare(&rt, alloc, &mut keeper, IN_BYTE_ORDER);
    drop(keeper);
}
