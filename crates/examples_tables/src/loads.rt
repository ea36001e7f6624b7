//! Dumps that become stores, and copies of stores. What a store stands for is told by its dump, and by what is found in
//! it.

use crate::acts::Acts;
use crate::checks::{check, check_fact, check_number};
use crate::new_tables::{check_epoch, found, name, tables, text};
use book_dumps_loading::{LoadFault, copy, dumped_of, is_dump, load, office_text};
use book_dumps_reading::{Dumped, read_dump};
use book_office::Keeper;
use book_office_values::Items;
use book_tables::Tables;
use book_tables_schema::Unopened;
use sqlite::{Connection, MemStore};
use std::alloc::Global;
use std::process::Abort;

/// The dump of an Office. The persons own each other, and the group staff is owned by the one of which it is a member.
/// In the book sales two names are removed; its cards stand behind the book sales-old.
const DUMP: &str = "{\"epoch\":7}\n\
    {\"path\":\"/\",\"owner\":\"/groups/crew\",\"protected\":[{\"who\":\"/people/ann\",\"grant\":[\"read\"]}],\
    \"own\":[{\"who\":\"all\",\"grant\":[\"read\",\"bind\"]}]}\n\
    {\"path\":\"/books\",\"protected\":[{\"who\":\"/people/bob\",\"deny\":[\"all\"]}]}\n\
    {\"path\":\"/books/sales\",\"owner\":\"/people/ann\",\"label\":\"Sales\",\
    \"own\":[{\"who\":\"/groups/crew\",\"grant\":[\"write\",\"read-acl\"]}],\
    \"number\":6,\"removed\":{\"d.vcf\":4,\"c.vcf\":5}}\n\
    {\"path\":\"/books/sales-old\",\"number\":0}\n\
    {\"path\":\"/books/sales/b.vcf\",\"owner\":\"/people/ann\",\"label\":\"Bo\",\
    \"own\":[{\"who\":\"/groups/staff\",\"invert\":true,\"deny\":[\"read\"]},{\"who\":\"self\",\"grant\":[]}],\
    \"number\":6,\"text\":\"BEGIN:VCARD\\r\\nFN:Bo\\r\\nEND:VCARD\\r\\n\"}\n\
    {\"path\":\"/books/sales/e.vcf\",\"number\":3,\"text\":\"BEGIN:VCARD\\r\\nFN:Eve\\r\\nEND:VCARD\\r\\n\"}\n\
    {\"path\":\"/groups\"}\n\
    {\"path\":\"/groups/crew\",\"label\":\"The crew\",\"members\":[\"/groups/staff\"]}\n\
    {\"path\":\"/groups/staff\",\"owner\":\"/groups/crew\",\"members\":[\"/people/ann\",\"/people/bob\"]}\n\
    {\"path\":\"/people\"}\n\
    {\"path\":\"/people/ann\",\"owner\":\"/people/bob\"}\n\
    {\"path\":\"/people/bob\",\"owner\":\"/people/ann\"}\n\
    {\"lines\":13}\n";

/// A store with no tables.
fn bare(rt: &impl Abort, alloc: Global) -> Connection<MemStore> {
    Connection::open_in_memory(alloc).expect(rt, "memory")
}

/// What the dump tells.
fn dumped(rt: &impl Abort, alloc: Global) -> Dumped {
    let dumped = read_dump(alloc, DUMP.as_bytes());
    dumped.ok().expect(rt, "a dump")
}

fn loaded(rt: &impl Abort, alloc: Global, dumped: &Dumped) -> Tables<MemStore> {
    let tables = load(alloc, bare(rt, alloc), dumped);
    tables.ok().expect(rt, "a store")
}

/// Whether the dump of tables is a text.
fn check_dumps(
    rt: &impl Abort,
    alloc: Global,
    tables: &mut Tables<MemStore>,
    text: &str,
    wanted: bool,
) {
    let is = is_dump(alloc, tables, text.as_bytes()).expect(rt, "memory");
    check_fact(rt, is == wanted, text);
}

/// The fault of a load into a store with no tables.
fn check_fault(rt: &impl Abort, alloc: Global, dumped: Dumped, wanted: LoadFault) {
    let refused = load(alloc, bare(rt, alloc), &dumped).err();
    drop(dumped);
    let (fault, left) = refused.expect(rt, "a dump of no Office");
    drop(left);
    check_fact(rt, fault == wanted, "the fault");
}

/// The dump without its line at a place.
fn without_line(rt: &impl Abort, alloc: Global, place: usize) -> Dumped {
    let Dumped { epoch, lines } = dumped(rt, alloc);
    let mut lines = lines.into_vec();
    if place < lines.len() {
        drop(lines.remove(place));
    }
    Dumped {
        epoch,
        lines: Items::from_vec(lines),
    }
}

#[test]
fn a_dump_becomes_a_store(rt: HostRuntime) {
    let alloc = rt.alloc();
    let mut tables = loaded(&rt, alloc, &dumped(&rt, alloc));
    check_dumps(&rt, alloc, &mut tables, DUMP, true);
    let whole = office_text(alloc, &mut tables).expect(&rt, "memory");
    check_fact(&rt, whole.as_slice() == DUMP.as_bytes(), "the same text");
    drop(whole);
    check_epoch(&rt, &mut tables, 7);
    let (book, card) = (name(&rt, alloc, "sales"), name(&rt, alloc, "c.vcf"));
    let put = tables.put_card(alloc, &book, &card, &None, &text(&rt, alloc, "two"));
    put.expect(&rt, "a card");
    for (at, wanted) in [
        ("/books/sales", "\"Sales\" - 7"),
        (
            "/books/sales/b.vcf",
            "\"Bo\" BEGIN:VCARD\r\nFN:Bo\r\nEND:VCARD\r\n 6",
        ),
        ("/books/sales/c.vcf", "\"\" two 7"),
        ("/people/ann", "\"\" - 0"),
    ] {
        check(&rt, found(&rt, alloc, &mut tables, at), wanted);
    }
    check_number(&rt, tables.failures(), 0);
    drop(tables);
}

#[test]
fn a_text_is_the_dump_of_one_office(rt: HostRuntime) {
    let alloc = rt.alloc();
    let cut = DUMP.get(..DUMP.len() - 1).expect(&rt, "a beginning");
    let longer = format!(in alloc; "{DUMP}x").expect(&rt, "memory");
    let mut tables = loaded(&rt, alloc, &dumped(&rt, alloc));
    for other in ["", cut, longer.as_str()] {
        check_dumps(&rt, alloc, &mut tables, other, false);
    }
    let removed = tables.remove_card(
        alloc,
        &name(&rt, alloc, "sales"),
        &name(&rt, alloc, "e.vcf"),
    );
    removed.expect(&rt, "a card");
    check_dumps(&rt, alloc, &mut tables, DUMP, false);
    drop(tables);
}

/// How many tables a store has that was given back open; none where it was closed.
fn tables_of(left: Unopened<MemStore>) -> usize {
    match left {
        Unopened::Connection(connection) => {
            let count = connection.schema().tables.len();
            drop(connection);
            count
        }
        Unopened::Store(store) => {
            drop(store);
            0
        }
    }
}

#[test]
fn a_store_with_tables_stays(rt: HostRuntime) {
    let alloc = rt.alloc();
    let taken = tables(&rt, alloc).release();
    let (fault, left) = load(alloc, taken, &dumped(&rt, alloc))
        .err()
        .expect(&rt, "a store with tables");
    check_fact(&rt, fault == LoadFault::Exists, "it exists");
    check_fact(&rt, tables_of(left) == 7, "the connection comes back");
}

/// Lines count from that of the root, 0: without the home of the books another dump is read back; without the book
/// sales, or bob, its cards, or what names him, are refused.
#[test]
fn what_is_no_office_is_refused(rt: HostRuntime) {
    let alloc = rt.alloc();
    for (place, wanted) in [
        (1, LoadFault::Unequal),
        (2, LoadFault::Refused),
        (11, LoadFault::Refused),
    ] {
        let dumped = without_line(&rt, alloc, place);
        check_fault(&rt, alloc, dumped, wanted);
    }
    let mut late = dumped(&rt, alloc);
    late.epoch = 9_007_199_254_740_992;
    check_fault(&rt, alloc, late, LoadFault::Refused);
    let Dumped { epoch, lines } = dumped(&rt, alloc);
    let mut lines = lines.into_vec();
    assert!(rt; lines.len() > 5, "the lines of two cards");
    lines.swap(4, 5);
    let lines = Items::from_vec(lines);
    let other = Dumped { epoch, lines };
    check_fault(&rt, alloc, other, LoadFault::Unequal);
}

#[test]
fn a_store_is_copied(rt: HostRuntime) {
    let alloc = rt.alloc();
    let mut source = loaded(&rt, alloc, &dumped(&rt, alloc));
    let copied = copy(alloc, &mut source, bare(&rt, alloc));
    let mut copied = copied.ok().expect(&rt, "a copy");
    check_dumps(&rt, alloc, &mut copied, DUMP, true);
    check_dumps(&rt, alloc, &mut source, DUMP, true);
    let told = dumped_of(alloc, &mut copied).ok().expect(&rt, "a dump");
    check_number(&rt, told.epoch, 7);
    drop(copied);
    let taken = tables(&rt, alloc).release();
    let refused = copy(alloc, &mut source, taken).err();
    let (fault, left) = refused.expect(&rt, "a store with tables");
    drop(left);
    check_fact(&rt, fault == LoadFault::Exists, "it exists");
    let there = found(&rt, alloc, &mut source, "/books/sales/e.vcf");
    drop(source);
    check_fact(&rt, there.as_str() != "none", "the source stays");
}
