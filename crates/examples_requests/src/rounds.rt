//! Two edits that one commit keeps, over any keeper that has rounds; and what a cache remembers of rounds.

ghost use Rattle.std.specs.Prelude.{◌≡◌, is_some};
ghost use Rattle.book_office.specs.Keeping.{FallsBack, Reads};
ghost use Rattle.book_office.specs.Resources.{node_at};
ghost use Rattle.examples_requests.specs.KeptTogether.{KeepsBoth, MakesBoth};

use crate::checks::check_fact;
use crate::words::name;
use book_office::{Edit, Keeper, MemoryKeeper, Path, Rounds, StoreFault, Work};
use book_office_cache::Cached;
use book_office_faults::Fused;
use std::alloc::Global;
use std::process::Abort;

/// Two edits, one after the other.
#[derive(Drop)]
struct TwoEdits<'e> {
    first: &'e Edit,
    second: &'e Edit,
    /// Whether both were made.
    made: bool,
}

/// Makes an edit, and then another; whether both were made.
fn make_both<K: Keeper>(alloc: Global, keeper: &mut K, first: &Edit, second: &Edit) -> bool
    ensures both { MakesBoth (K.standing keeper.old) (K.standing keeper.new) first.now second.now
        result }
    ensures falls { FallsBack (K.standing keeper.old).fallback
        (K.standing keeper.new).fallback }
{
    match keeper.act(alloc, first) {
        Ok(()) => keeper.act(alloc, second).is_ok(),
        Err(_) => false,
    }
}

impl Work for TwoEdits<'_> {
    ghost use Rattle.examples_requests.specs.KeptTogether.{MakesBoth};

    ghost does = { λ first last old new. MakesBoth first last old.first.now old.second.now new.made };

    fn run<K: Keeper>(&mut self, alloc: Global, keeper: &mut K) {
        self.made = make_both(alloc, keeper, self.first, self.second);
    }
}

/// Two edits in a round: both are kept, or neither is.
fn keep_both<K: Rounds>(
    alloc: Global,
    keeper: &mut K,
    first: &Edit,
    second: &Edit,
) -> Result<bool, StoreFault>
    ensures { KeepsBoth (K.standing keeper.old) (K.standing keeper.new) first.now second.now
        result }
{
    let mut work = TwoEdits {
        first,
        second,
        made: false,
    };
    keeper.round(alloc, &mut work)?;
    Ok(work.made)
}

/// A book without an owner.
fn new_book(rt: &impl Abort, alloc: Global, word: &str) -> Edit {
    Edit::AddBook {
        book: name(rt, alloc, word),
        owner: None,
    }
}

/// Whether there is a book of the name.
fn has_book(rt: &impl Abort, alloc: Global, keeper: &mut MemoryKeeper, word: &str) -> bool {
    let path = Path::Book(name(rt, alloc, word));
    keeper.has(alloc, &path).expect(rt, "memory")
}

#[test]
fn two_edits_are_kept_together(rt: HostRuntime) {
    let alloc = rt.alloc();
    let mut keeper = MemoryKeeper::new(alloc);
    let sales = new_book(&rt, alloc, "sales");
    let law = new_book(&rt, alloc, "law");
    let made = keep_both(alloc, &mut keeper, &sales, &law);
    check_fact(&rt, made.is_ok_and(|made| made), "both are made");
    check_fact(
        &rt,
        has_book(&rt, alloc, &mut keeper, "sales"),
        "the first book",
    );
    check_fact(
        &rt,
        has_book(&rt, alloc, &mut keeper, "law"),
        "the second book",
    );
}

/// The question whether something is at a path.
#[derive(Drop)]
struct Asks<'p> {
    path: &'p Path,
    told: Result<bool, StoreFault>,
}

impl Work for Asks<'_> {
    ghost does = { λ first last old new. Reads first last new.told
        (λ o there. there ≡ is_some (node_at o old.path.now)) };

    fn run<K: Keeper>(&mut self, alloc: Global, keeper: &mut K) {
        self.told = keeper.has(alloc, self.path);
    }
}

/// Whether something is at a path, asked in a round.
fn is_there<K: Rounds>(alloc: Global, keeper: &mut K, path: &Path) -> Result<bool, StoreFault> {
    let mut asks = Asks {
        path,
        told: Err(StoreFault::Memory),
    };
    keeper.round(alloc, &mut asks)?;
    asks.told
}

/// Whether the book of a name is there, which it has to be: asked in a round or else.
fn check_there(
    rt: &impl Abort,
    alloc: Global,
    cached: &mut Cached<Fused<MemoryKeeper>>,
    word: &str,
    in_round: bool,
) {
    let path = Path::Book(name(rt, alloc, word));
    let told = if in_round {
        is_there(alloc, cached, &path)
    } else {
        cached.has(alloc, &path)
    };
    check_fact(rt, told.is_ok_and(|there| there), word);
}

/// What is asked, and whether in a round.
const QUESTIONS: &[(&str, bool)] = &[
    ("sales", false),
    ("sales", true),
    ("law", true),
    ("law", false),
    ("law", true),
];

/// Each book is asked of the keeper behind the cache once. A round is a call too.
#[test]
fn a_round_remembers(rt: HostRuntime) {
    let alloc = rt.alloc();
    let mut keeper = MemoryKeeper::new(alloc);
    let sales = new_book(&rt, alloc, "sales");
    let law = new_book(&rt, alloc, "law");
    let made = keep_both(alloc, &mut keeper, &sales, &law);
    check_fact(&rt, made.is_ok_and(|made| made), "both are made");
    let mut cached = Cached::new(alloc, Fused::new(keeper, 100));
    for (word, in_round) in QUESTIONS {
        check_there(&rt, alloc, &mut cached, word, *in_round);
    }
    let fused = cached.into_inner();
    check_fact(&rt, fused.calls == 95, "three rounds and two questions");
    drop(fused);
}
