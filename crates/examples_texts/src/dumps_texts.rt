//! The text of the Office, and the lines of single resources.

use crate::checks::{check_fact, check_text};
use crate::dumps_offices::{card_path, keeper, name};
use book_dumps::{dump, show};
use book_office::{Keeper, MemoryKeeper, Path};
use std::alloc::Global;
use std::process::Abort;

/// The card: its own list has an inverted entry, and one of no name.
const CARD: &str =
    "{\"path\":\"/books/sales/b.vcf\",\"owner\":\"/people/ann\",\"label\":\"Bo\\nß \\\"q\\\" \\\\\",\
    \"own\":[{\"who\":\"/groups/staff\",\"invert\":true,\"deny\":[\"read\"]},{\"who\":\"self\",\"grant\":[]}],\
    \"number\":6,\"text\":\"BEGIN:VCARD\\r\\nFN:Bo\\r\\nEND:VCARD\\r\\n\"}\n";

/// The lines before the card. The book sales-old stands between the book sales and its card. Removed names stand in order
/// of their numbers, and privileges in the order of their leaves.
const BEFORE: &str = "{\"epoch\":2}\n\
    {\"path\":\"/\",\"protected\":[{\"who\":\"/people/ann\",\"grant\":[\"read\"]}],\
    \"own\":[{\"who\":\"all\",\"grant\":[\"read\",\"bind\"]}]}\n\
    {\"path\":\"/books\",\"protected\":[{\"who\":\"/people/gus\",\"deny\":[\"all\"]}]}\n\
    {\"path\":\"/books/sales\",\"owner\":\"/people/ann\",\"label\":\"Sales\",\
    \"own\":[{\"who\":\"/groups/crew\",\"grant\":[\"write\",\"read-acl\"]}],\
    \"number\":6,\"removed\":{\"d.vcf\":4,\"c.vcf\":5}}\n\
    {\"path\":\"/books/sales-old\",\"number\":0}\n";

/// The lines after the card. Members stand in byte order.
const AFTER: &str = "{\"path\":\"/groups\"}\n\
    {\"path\":\"/groups/crew\",\"label\":\"The crew\",\"members\":[\"/groups/staff\"]}\n\
    {\"path\":\"/groups/staff\",\"members\":[\"/people/ann\",\"/people/bob\"]}\n\
    {\"path\":\"/people\"}\n\
    {\"path\":\"/people/ann\"}\n\
    {\"path\":\"/people/bob\"}\n\
    {\"path\":\"/people/gus\"}\n\
    {\"lines\":13}\n";

/// The text of an Office.
fn dumped<K: Keeper>(rt: &impl Abort, alloc: Global, keeper: &mut K) -> String {
    let mut bytes = Vec::new(alloc);
    let dumped = dump(alloc, keeper, &mut bytes);
    check_fact(rt, dumped.is_ok(), "memory");
    String::from_utf8(bytes).expect(rt, "a text")
}

#[test]
fn an_office_is_dumped_as_text(rt: HostRuntime) {
    let alloc = rt.alloc();
    let mut keeper = keeper(&rt, alloc);
    let text = dumped(&rt, alloc, &mut keeper);
    drop(keeper);
    let rest = text
        .as_str()
        .strip_prefix(BEFORE)
        .expect(&rt, "the lines before the card");
    let rest = rest.strip_prefix(CARD).expect(&rt, "the card");
    check_text(&rt, rest, AFTER);
}

#[test]
fn an_empty_office_is_dumped_as_text(rt: HostRuntime) {
    let alloc = rt.alloc();
    let mut keeper = MemoryKeeper::new(alloc);
    let text = dumped(&rt, alloc, &mut keeper);
    drop(keeper);
    let wanted =
        "{\"epoch\":0}\n{\"path\":\"/\"}\n{\"path\":\"/books\"}\n{\"path\":\"/groups\"}\n{\"path\":\"/people\"}\n{\"lines\":5}\n";
    check_text(&rt, text.as_str(), wanted);
}

#[test]
fn a_resource_is_shown_as_its_line(rt: HostRuntime) {
    let alloc = rt.alloc();
    let mut keeper = keeper(&rt, alloc);
    let path = card_path(&rt, alloc);
    let shown = show(alloc, &mut keeper, &path).expect(&rt, "memory");
    let line = shown.expect(&rt, "a card");
    check_text(&rt, line.as_str(), CARD);
    let removed = Path::Card(name(&rt, alloc, "sales"), name(&rt, alloc, "c.vcf"));
    let none = show(alloc, &mut keeper, &removed).expect(&rt, "memory");
    drop(keeper);
    check_fact(&rt, none.is_none(), "a removed name is no resource");
}
