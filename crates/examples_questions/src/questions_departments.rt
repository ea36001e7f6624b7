//! A company of departments, of which it is asked who holds which leaves where.
//!
//! Ann is in the group sales, and ben in its group of assistants; cleo is in the reception; sales and the reception are
//! in the group office. Dora administers, eve is on the board, finn is an external, and gus a guest. The root grants
//! administrators all, and the office `read`. The book board is closed to all but the board by a protected entry; sales is
//! written by sales, and finn may add to it; of the lobby all may see the names. A card of sales is shared with gus, and
//! one is finn's.

use crate::checks::check_told;
use crate::making::{adopted, push_entry, put_card, set_list};
use book_machine::Machine;
use book_office::{Items, Keeper, MemoryKeeper, Path};
use book_questions_rights::rights;
use book_rights::Privilege;
use std::alloc::Global;
use std::process::Abort;

const POLICY: &str = "version = 1\n\
    [[person]]\nname = \"ann\"\n[[person]]\nname = \"ben\"\n[[person]]\nname = \"cleo\"\n\
    [[person]]\nname = \"dora\"\n[[person]]\nname = \"eve\"\n[[person]]\nname = \"finn\"\n\
    [[person]]\nname = \"gus\"\n\
    [[group]]\nname = \"assistants\"\nmembers = [\"/people/ben\"]\n\
    [[group]]\nname = \"sales\"\nmembers = [\"/people/ann\", \"/groups/assistants\"]\n\
    [[group]]\nname = \"reception\"\nmembers = [\"/people/cleo\"]\n\
    [[group]]\nname = \"office\"\nmembers = [\"/groups/sales\", \"/groups/reception\"]\n\
    [[group]]\nname = \"admins\"\nmembers = [\"/people/dora\"]\n\
    [[group]]\nname = \"board\"\nmembers = [\"/people/eve\"]\n\
    [[book]]\nname = \"board\"\n\
    [[book]]\nname = \"lobby\"\n\
    [[book]]\nname = \"sales\"\nowner = \"/people/ann\"\n\
    [[entry]]\nat = \"/\"\nwho = \"/groups/admins\"\ngrant = [\"all\"]\n\
    [[entry]]\nat = \"/\"\nwho = \"/groups/office\"\ngrant = [\"read\"]\n\
    [[entry]]\nat = \"/books/board\"\nwho = \"/groups/board\"\ninvert = true\ndeny = [\"all\"]\nprotected = true\n\
    [[entry]]\nat = \"/books/board\"\nwho = \"/groups/board\"\ngrant = [\"read\", \"write\"]\n\
    [[entry]]\nat = \"/books/lobby\"\nwho = \"all\"\ngrant = [\"x-read-names\"]\n\
    [[entry]]\nat = \"/books/sales\"\nwho = \"/groups/sales\"\ngrant = [\"write\"]\n\
    [[entry]]\nat = \"/books/sales\"\nwho = \"/people/finn\"\ngrant = [\"bind\"]\n\
    [[entry]]\nat = \"/books/sales\"\nwho = \"owner\"\ngrant = [\"read\", \"write-content\"]\n";

/// Shares the card `c.vcf` with gus.
fn share<K: Keeper>(rt: &impl Abort, alloc: Global, keeper: &mut K) {
    let mut entries = Items::new(alloc);
    let read = Privilege::Read.leaves();
    push_entry(rt, alloc, &mut entries, "/people/gus", false, false, read);
    set_list(rt, alloc, keeper, "c.vcf", entries);
}

/// A machine over the company.
pub(crate) fn company(rt: &impl Abort, alloc: Global) -> Machine<MemoryKeeper> {
    let mut keeper = adopted(rt, alloc, POLICY);
    put_card(rt, alloc, &mut keeper, "a.vcf", "/people/ann");
    put_card(rt, alloc, &mut keeper, "b.vcf", "/people/ann");
    put_card(rt, alloc, &mut keeper, "c.vcf", "/people/ann");
    put_card(rt, alloc, &mut keeper, "d.vcf", "/people/finn");
    share(rt, alloc, &mut keeper);
    Machine::new(keeper)
}

/// The name of the person who alone is asked about, the path, whether shared cards alone are told, and the answer; or the
/// name of a refusal.
type Asked = (Option<&'static str>, &'static str, bool, &'static str);

const ASKED: &[Asked] = &[
    // Each book by itself: the board is closed to dora, nobody sees the names of the lobby, and finn adds to sales. Two
    // cards of sales are alike, and finn holds more at the one that is his.
    (
        None,
        "/books",
        false,
        "/books /people/ann read\n\
         /books /people/ben read\n\
         /books /people/cleo read\n\
         /books /people/dora all\n\
         /books/board /people/eve read write\n\
         /books/lobby nobody x-read-names\n\
         /books/lobby /people/ann read\n\
         /books/lobby /people/ben read\n\
         /books/lobby /people/cleo read\n\
         /books/lobby /people/dora all\n\
         /books/lobby /people/eve x-read-names\n\
         /books/lobby /people/finn x-read-names\n\
         /books/lobby /people/gus x-read-names\n\
         /books/sales /people/ann read write\n\
         /books/sales /people/ben read write\n\
         /books/sales /people/cleo read\n\
         /books/sales /people/dora all\n\
         /books/sales /people/finn bind\n\
         /books/sales/a.vcf of 2 /people/ann read write\n\
         /books/sales/a.vcf of 2 /people/ben read write\n\
         /books/sales/a.vcf of 2 /people/cleo read\n\
         /books/sales/a.vcf of 2 /people/dora all\n\
         /books/sales/a.vcf of 2 /people/finn bind\n\
         /books/sales/c.vcf of 1 /people/ann read write\n\
         /books/sales/c.vcf of 1 /people/ben read write\n\
         /books/sales/c.vcf of 1 /people/cleo read\n\
         /books/sales/c.vcf of 1 /people/dora all\n\
         /books/sales/c.vcf of 1 /people/finn bind\n\
         /books/sales/c.vcf of 1 /people/gus read\n\
         /books/sales/d.vcf of 1 /people/ann read write\n\
         /books/sales/d.vcf of 1 /people/ben read write\n\
         /books/sales/d.vcf of 1 /people/cleo read\n\
         /books/sales/d.vcf of 1 /people/dora all\n\
         /books/sales/d.vcf of 1 /people/finn read write-content bind\n",
    ),
    // The guest holds something at one card alone, wherever it is looked for.
    (
        Some("gus"),
        "/",
        false,
        "/books/lobby /people/gus x-read-names\n/books/sales/c.vcf of 1 /people/gus read\n",
    ),
    // Cards whose own lists give more; finn's own card is his by an entry of its book.
    (
        None,
        "/",
        true,
        "/books/sales/c.vcf of 1 /people/ann read write\n\
         /books/sales/c.vcf of 1 /people/ben read write\n\
         /books/sales/c.vcf of 1 /people/cleo read\n\
         /books/sales/c.vcf of 1 /people/dora all\n\
         /books/sales/c.vcf of 1 /people/finn bind\n\
         /books/sales/c.vcf of 1 /people/gus read\n",
    ),
    (Some("finn"), "/", true, ""),
    (
        Some("gus"),
        "/",
        true,
        "/books/sales/c.vcf of 1 /people/gus read\n",
    ),
    // A card is told by itself.
    (
        Some("ben"),
        "/books/sales/b.vcf",
        false,
        "/books/sales/b.vcf of 1 /people/ben read write\n",
    ),
    // Persons and groups, without what stands beside them.
    (
        Some("cleo"),
        "/groups",
        false,
        "/groups /people/cleo read\n\
         /groups/admins /people/cleo read\n\
         /groups/assistants /people/cleo read\n\
         /groups/board /people/cleo read\n\
         /groups/office /people/cleo read\n\
         /groups/reception /people/cleo read\n\
         /groups/sales /people/cleo read\n",
    ),
    (
        Some("dora"),
        "/people/dora",
        false,
        "/people/dora /people/dora all\n",
    ),
    (Some("zoe"), "/books/none", false, "unknown-caller"),
    (Some("ann"), "/books/none", false, "not-found"),
];

fn compare<K: Keeper>(rt: &impl Abort, alloc: Global, machine: &mut Machine<K>, asked: &Asked) {
    let (name, text, shared, wanted) = asked;
    let path = Path::parse(alloc, text).ok();
    let told = rights(alloc, machine, *name, &path, *shared);
    check_told(rt, told, wanted);
}

#[test]
fn the_leaves_that_each_holds_are_told(rt: HostRuntime) {
    let alloc = rt.alloc();
    let mut machine = company(&rt, alloc);
    for asked in ASKED {
        compare(&rt, alloc, &mut machine, asked);
    }
    drop(machine);
}
