//! A keeper whose store fails once, and whose books tell another number.

ghost use Rattle.std.specs.Prelude.{◌≡◌, ℕ};
ghost use Rattle.examples_requests.specs.Unpromised.{unpromised};
ghost use Rattle.book_office.specs.Keeping.{FallsBack, failures_after};

use crate::checks::{check_fact, check_text};
use crate::offices::office;
use crate::scripts::{Step, answer, follow};
use crate::words::name;
use book_lists::{Caller, Circle, Name, Pairs};
use book_machine::Machine;
use book_office::{
    Adoption, Changed, Edit, Items, Keeper, Kind, Level, Listed, Lists, MemoryKeeper, Node, Path,
    Policy, Rounds, StoreFault, Work,
};
use book_office_cache::Cached;
use std::alloc::Global;
use std::mem;
use std::process::Abort;

/// A keeper in memory that answers one call by a fault of its store. It promises nothing.
#[derive(Drop)]
struct Failing {
    keeper: MemoryKeeper,
    /// How many calls are answered before the fault.
    calls: u64,
    /// How many faults there were.
    failures: u64,
    /// What each book tells as its number, if not its own.
    number: Option<u64>,
}

impl Failing {
    fn pass(&mut self) -> Result<(), StoreFault>
        ensures { self.new.failures ≡ failures_after result self.old.failures }
    {
        if self.calls > 0 {
            self.calls -= 1;
            return Ok(());
        }
        self.calls = u64::MAX;
        if self.failures < u64::MAX {
            self.failures += 1;
        }
        Err(StoreFault::Store)
    }
}

/// A fault of memory alone.
fn answered<T>(asked: Result<T, StoreFault>) -> Result<T, StoreFault>
where
    T: Drop,
    ensures { (n : ℕ) → n ≡ failures_after result n }
{
    match asked {
        Ok(value) => Ok(value),
        Err(_) => Err(StoreFault::Memory),
    }
}

fn number_of(node: &Node, number: Option<u64>) -> u64 {
    match number {
        Some(number) if node.kind == Kind::Book => number,
        _ => node.number,
    }
}

/// The resource, with this number if it is a book.
fn renumbered(found: Option<Node>, number: Option<u64>) -> Option<Node> {
    match found {
        Some(mut node) => {
            node.number = number_of(&node, number);
            Some(node)
        }
        None => None,
    }
}

impl Keeper for Failing {
    ghost standing = { λ k. unpromised k.failures };

    fn find(&mut self, alloc: Global, path: &Path) -> Result<Option<Node>, StoreFault> {
        self.pass()?;
        let found = answered(self.keeper.find(alloc, path))?;
        Ok(renumbered(found, self.number))
    }

    fn children(&mut self, alloc: Global, path: &Path) -> Result<Items<Listed>, StoreFault> {
        self.pass()?;
        answered(self.keeper.children(alloc, path))
    }

    fn count(&mut self, alloc: Global, path: &Path) -> Result<usize, StoreFault> {
        self.pass()?;
        answered(self.keeper.count(alloc, path))
    }

    fn lists(&mut self, alloc: Global, path: &Path) -> Result<Lists, StoreFault> {
        self.pass()?;
        answered(self.keeper.lists(alloc, path))
    }

    fn level(&mut self, alloc: Global, path: &Path) -> Result<Level, StoreFault> {
        self.pass()?;
        answered(self.keeper.level(alloc, path))
    }

    fn changes_after(
        &mut self,
        alloc: Global,
        book: &Name,
        number: u64,
        at_most: Option<u32>,
    ) -> Result<Items<Changed>, StoreFault> {
        self.pass()?;
        answered(self.keeper.changes_after(alloc, book, number, at_most))
    }

    fn pairs(&mut self, alloc: Global) -> Result<Pairs, StoreFault> {
        self.pass()?;
        answered(self.keeper.pairs(alloc))
    }

    fn circle(&mut self, alloc: Global, caller: &Caller) -> Result<Circle, StoreFault> {
        self.pass()?;
        answered(self.keeper.circle(alloc, caller))
    }

    fn epoch(&mut self) -> Result<u64, StoreFault> {
        self.pass()?;
        answered(self.keeper.epoch())
    }

    fn adoption(&mut self, alloc: Global, policy: &Policy) -> Result<Adoption, StoreFault> {
        self.pass()?;
        answered(self.keeper.adoption(alloc, policy))
    }

    fn failures(&self) -> u64 {
        self.failures
    }

    fn act(&mut self, alloc: Global, edit: &Edit) -> Result<(), StoreFault> {
        self.pass()?;
        answered(self.keeper.act(alloc, edit))
    }
}

/// No round is kept: what was done in it is undone, where the Office was empty before.
impl Rounds for Failing {
    ghost Inside = { ℕ };

    ghost inside = { λ n. unpromised n };

    fn round<W: Work>(&mut self, alloc: Global, work: &mut W) -> Result<(), StoreFault> {
        work.run(alloc, self);
        drop(mem::replace(&mut self.keeper, MemoryKeeper::new(alloc)));
        Err(StoreFault::Memory)
    }
}

fn failing_keeper(
    rt: &impl Abort,
    alloc: Global,
    lines: &[&str],
    calls: u64,
    number: Option<u64>,
) -> Failing {
    Failing {
        keeper: MemoryKeeper::from_office(office(rt, alloc, lines)),
        calls,
        failures: 0,
        number,
    }
}

/// Everything is granted in books and at their home.
const OPEN: &[&str] = &["own /books grant all all"];

/// Requests with every edit, and one policy.
const STEPS: &[Step] = &[
    ("bob PUT /books/sales/c.vcf BO", "201"),
    ("bob PUT /books/sales/b.vcf BO", "204"),
    ("ann MKCOL /books/new", "201"),
    ("gus DELETE /books/sales/a.vcf", "204"),
    (
        "gus GET /books/sales/c.vcf",
        "200 BEGIN:VCARD\r\nVERSION:4.0\r\nFN:Bo\r\nEND:VCARD\r\n",
    ),
    ("ann DELETE /books/law", "204"),
    ("adopt wider", "changed, epoch 2"),
    ("ann PUT /books/sales/c.vcf BELL", "204"),
];

/// What is left, whichever call failed.
const LEFT: &[Step] = &[
    (
        "children /books/sales",
        "b.vcf: Card 4 of /people/bob [B]\nc.vcf: Card 6 of /people/bob []\n",
    ),
    (
        "changes sales 0",
        "4 b.vcf [B] 44 bytes\n5 a.vcf removed\n6 c.vcf [] 47 bytes\n",
    ),
    ("node /books/new", "Book 0 of /people/ann []"),
    ("epoch", "2"),
];

/// Takes a step; one that is unavailable is taken again.
fn check(rt: &impl Abort, alloc: Global, machine: &mut Machine<Failing>, line: &str, wanted: &str) {
    let told = answer(rt, alloc, machine, line);
    if told.as_str() == "503 unavailable" || told.as_str() == "unavailable" {
        let again = answer(rt, alloc, machine, line);
        check_text(rt, again.as_str(), wanted, line);
    } else {
        check_text(rt, told.as_str(), wanted, line);
    }
}

fn check_all(rt: &impl Abort, alloc: Global, machine: &mut Machine<Failing>) {
    for (line, wanted) in STEPS {
        check(rt, alloc, machine, line, wanted);
    }
    check_fact(rt, machine.keeper.failures() == 1, "one failure");
}

fn memory_of(machine: Machine<Failing>) -> Machine<MemoryKeeper> {
    let Failing { keeper, .. } = machine.release();
    Machine::new(keeper)
}

/// A request that is answered as unavailable has changed nothing: sent again, it is answered as if nothing had been.
fn check_after(rt: &impl Abort, alloc: Global, calls: u64) {
    let mut machine = Machine::new(failing_keeper(rt, alloc, OPEN, calls, None));
    check_all(rt, alloc, &mut machine);
    let mut machine = memory_of(machine);
    follow(rt, alloc, &mut machine, LEFT);
    drop(machine);
}

#[test]
fn a_failed_store_changes_nothing(rt: HostRuntime) {
    for calls in 0..48 {
        check_after(&rt, rt.alloc(), calls);
    }
}

/// The first call of all fails.
const UNAVAILABLE: &[Step] = &[
    ("ann GET /books/sales/a.vcf", "503 unavailable"),
    (
        "ann GET /books/sales/a.vcf",
        "200 BEGIN:VCARD\r\nVERSION:4.0\r\nFN:Bo\r\nEND:VCARD\r\n",
    ),
    ("failures", "1"),
];

#[test]
fn a_failed_store_is_unavailable(rt: HostRuntime) {
    let mut machine = Machine::new(failing_keeper(&rt, rt.alloc(), OPEN, 0, None));
    follow(&rt, rt.alloc(), &mut machine, UNAVAILABLE);
    drop(machine);
}

/// Nothing of a book whose number is the last one changes; all else does.
const LAST_NUMBER: &[Step] = &[
    ("bob PUT /books/sales/b.vcf BO", "507 full"),
    ("bob PUT /books/sales/c.vcf BO", "507 full"),
    ("bob DELETE /books/sales/b.vcf", "507 full"),
    ("bob COPY /books/sales/a.vcf /books/sales/b.vcf", "507 full"),
    ("bob MOVE /books/sales/a.vcf /books/law/a.vcf", "507 full"),
    ("bob PROPPATCH /books/sales/b.vcf label X", "507 full"),
    ("bob PROPPATCH /books/sales label X", "200"),
    (
        "bob PUT /books/sales/b.vcf TWO_UIDS",
        "400 bad-card twice 4",
    ),
    ("bob MKCOL /books/new", "201"),
    ("bob DELETE /books/sales", "204"),
];

/// One number is left. A MOVE within a book takes two.
const LAST_NUMBER_BUT_ONE: &[Step] = &[
    ("bob PUT /books/sales/b.vcf BO", "204"),
    ("bob PUT /books/sales/c.vcf BO", "201"),
    ("bob PROPPATCH /books/sales/b.vcf label X", "200"),
    ("bob DELETE /books/sales/b.vcf", "204"),
    ("bob MOVE /books/sales/a.vcf /books/sales/z.vcf", "507 full"),
    ("bob COPY /books/sales/a.vcf /books/sales/c.vcf", "204"),
    ("bob MOVE /books/sales/a.vcf /books/law/a.vcf", "201"),
];

/// Two numbers are left.
const LAST_NUMBER_BUT_TWO: &[Step] = &[("bob MOVE /books/sales/a.vcf /books/sales/z.vcf", "201")];

#[test]
fn the_last_number_does_not_rise(rt: HostRuntime) {
    for (number, steps) in [
        (9_007_199_254_740_991, LAST_NUMBER),
        (9_007_199_254_740_990, LAST_NUMBER_BUT_ONE),
        (9_007_199_254_740_989, LAST_NUMBER_BUT_TWO),
    ] {
        let keeper = failing_keeper(&rt, rt.alloc(), OPEN, u64::MAX, Some(number));
        let mut machine = Machine::new(keeper);
        follow(&rt, rt.alloc(), &mut machine, steps);
        drop(machine);
    }
}

/// A new book, and whether it is then there.
#[derive(Drop)]
struct AddsBook<'e> {
    edit: &'e Edit,
    path: &'e Path,
    there: bool,
}

/// Makes the edit; whether something is at the path then.
fn make_and_find<K: Keeper>(alloc: Global, keeper: &mut K, edit: &Edit, path: &Path) -> bool
    ensures { FallsBack (K.standing keeper.old).fallback (K.standing keeper.new).fallback }
{
    match keeper.act(alloc, edit) {
        Ok(()) => keeper.has(alloc, path).unwrap_or(false),
        Err(_) => false,
    }
}

impl Work for AddsBook<'_> {
    ghost does = { λ first last old new. FallsBack first.fallback last.fallback };

    fn run<K: Keeper>(&mut self, alloc: Global, keeper: &mut K) {
        self.there = make_and_find(alloc, keeper, self.edit, self.path);
    }
}

#[test]
fn what_a_failed_round_learned_is_forgotten(rt: HostRuntime) {
    let alloc = rt.alloc();
    let path = Path::Book(name(&rt, alloc, "sales"));
    let edit = Edit::AddBook {
        book: name(&rt, alloc, "sales"),
        owner: None,
    };
    let failing = Failing {
        keeper: MemoryKeeper::new(alloc),
        calls: 100,
        failures: 0,
        number: None,
    };
    let mut cached = Cached::new(alloc, failing);
    let mut adds = AddsBook {
        edit: &edit,
        path: &path,
        there: false,
    };
    let kept = cached.round(alloc, &mut adds);
    check_fact(&rt, kept.is_err(), "the round");
    check_fact(&rt, adds.there, "the book in the round");
    let there = cached.has(alloc, &path).unwrap_or(true);
    check_fact(&rt, !there, "no book afterwards");
    drop(cached);
}
