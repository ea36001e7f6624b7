//! Rounds: what is edited in one is kept by one commit, or nothing of it is.

ghost use Rattle.book_office.specs.Keeping.{FallsBack};

use crate::checks::{check, check_fact};
use crate::new_tables::{found, name, path, tables, text};
use book_office::{Edit, Keeper, Rounds, StoreFault, Work};
use book_office_values::Path;
use book_tables::Tables;
use sqlite::MemStore;
use std::alloc::Global;
use std::process::Abort;

/// Two edits, or none, and then a look at a path.
#[derive(Drop)]
struct TwoAndALook<'e> {
    edits: Option<(&'e Edit, &'e Edit)>,
    at: &'e Path,
    /// Whether the edits were made.
    are_made: bool,
    /// Whether something was at the path then.
    is_there: bool,
}

/// Makes the edits, if there are any: whether both were made.
fn made<K: Keeper>(alloc: Global, keeper: &mut K, edits: Option<(&Edit, &Edit)>) -> bool
    ensures { FallsBack (K.standing keeper.old).fallback (K.standing keeper.new).fallback }
{
    let Some((first, second)) = edits else {
        return true;
    };
    let is_first = keeper.act(alloc, first).is_ok();
    let is_second = keeper.act(alloc, second).is_ok();
    is_first && is_second
}

/// Whether something is at a path.
fn is_there<K: Keeper>(alloc: Global, keeper: &mut K, at: &Path) -> bool
    ensures { FallsBack (K.standing keeper.old).fallback (K.standing keeper.new).fallback }
{
    keeper.find(alloc, at).is_ok_and(|node| node.is_some())
}

impl Work for TwoAndALook<'_> {
    ghost does = { λ first last old new. Unit {0} };

    fn run<K: Keeper>(&mut self, alloc: Global, keeper: &mut K) {
        self.are_made = made(alloc, keeper, self.edits);
        self.is_there = is_there(alloc, keeper, self.at);
    }
}

/// What a round answers, what the work in it saw, and how often the store has failed then.
fn told(
    rt: &impl Abort,
    alloc: Global,
    tables: &mut Tables<MemStore>,
    edits: Option<(&Edit, &Edit)>,
) -> String {
    let at = path(rt, alloc, "/books/law/a.vcf");
    let mut work = TwoAndALook {
        edits,
        at: &at,
        are_made: false,
        is_there: false,
    };
    let answer = match tables.round(alloc, &mut work) {
        Ok(()) => "kept",
        Err(StoreFault::Memory) => "no memory",
        Err(StoreFault::Store) => "not kept",
    };
    let (are_made, is_there) = (work.are_made, work.is_there);
    drop(work);
    drop(at);
    let failures = tables.failures();
    format!(in alloc; "{answer}, made {are_made}, there {is_there}, {failures} failures").expect(
        rt, "memory",
    )
}

/// MKCOL of a book.
fn add_law(rt: &impl Abort, alloc: Global) -> Edit {
    Edit::AddBook {
        book: name(rt, alloc, "law"),
        owner: None,
    }
}

/// PUT of a card of it.
fn put_card(rt: &impl Abort, alloc: Global) -> Edit {
    Edit::PutCard {
        book: name(rt, alloc, "law"),
        card: name(rt, alloc, "a.vcf"),
        owner: None,
        text: text(rt, alloc, "one"),
    }
}

#[test]
fn edits_of_a_round_are_seen_in_it_and_kept(rt: HostRuntime) {
    let alloc = rt.alloc();
    let mut tables = tables(&rt, alloc);
    let (law, card) = (add_law(&rt, alloc), put_card(&rt, alloc));
    let told = told(&rt, alloc, &mut tables, Some((&law, &card)));
    check(&rt, told, "kept, made true, there true, 0 failures");
    let kept = found(&rt, alloc, &mut tables, "/books/law/a.vcf");
    check(&rt, kept, "\"\" one 1");
    drop(tables);
}

#[test]
fn an_edit_that_fails_undoes_its_round(rt: HostRuntime) {
    let alloc = rt.alloc();
    let mut tables = tables(&rt, alloc);
    let (law, card) = (add_law(&rt, alloc), put_card(&rt, alloc));
    let twice = told(&rt, alloc, &mut tables, Some((&law, &law)));
    check(&rt, twice, "not kept, made false, there false, 2 failures");
    check(&rt, found(&rt, alloc, &mut tables, "/books/law"), "none");
    let again = told(&rt, alloc, &mut tables, Some((&law, &card)));
    check(&rt, again, "kept, made true, there true, 2 failures");
    drop(tables);
}

#[test]
fn a_round_without_edits_leaves_the_office(rt: HostRuntime) {
    let alloc = rt.alloc();
    let mut tables = tables(&rt, alloc);
    let told = told(&rt, alloc, &mut tables, None);
    check(&rt, told, "kept, made true, there false, 0 failures");
    let connection = tables.release();
    check_fact(&rt, connection.is_autocommit(), "no transaction is open");
    drop(connection);
}
