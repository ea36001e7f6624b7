//! A keeper whose disk may have more than it stands for, and what a stop then leaves.

ghost use Rattle.std.specs.Prelude.{◌≡◌, ◌⊎◌, false, true};
ghost use Rattle.examples_requests.specs.Leaving.{leaving};
ghost use Rattle.book_office.specs.Edits.{apply};
ghost use Rattle.book_office.specs.Keeping.{Edits, one_more};
ghost use Rattle.book_office.specs.Sound.{Fits, IsSound};
ghost use Rattle.book_office.specs.declared.keepers.StoreFault.TheVariants.{Store};
ghost use Rattle.book_office_values.specs.declared.offices.Office.{Office};

use crate::offices::office;
use crate::scripts::{Step, follow};
use book_lists::{Caller, Circle, Name, Pairs};
use book_machine::Machine;
use book_office::{
    Adoption, Changed, Edit, Items, Keeper, Level, Listed, Lists, MemoryKeeper, Node, Path, Policy,
    StoreFault,
};
use std::alloc::Global;
use std::process::Abort;

/// A keeper in memory beside a disk, which is what a stop leaves. One edit fails; it may have reached the disk.
#[derive(Drop)]
struct Stopping {
    keeper: MemoryKeeper,
    disk: MemoryKeeper,
    /// How many edits are made before the one that fails.
    edits: u64,
    /// Whether that one reaches the disk.
    reaches: bool,
    /// Whether the disk may have what the keeper does not stand for. No edit is made from there on.
    torn: bool,
    /// How many faults there were.
    failures: u64,
}

impl Stopping {
    /// A fault of the store.
    fn fail(&mut self) -> StoreFault
        ensures fault { result ≡ Store }
        ensures failures { self.new.failures ≡ one_more self.old.failures }
        ensures keeper { self.new.keeper ≡ self.old.keeper }
        ensures disk { self.new.disk ≡ self.old.disk }
        ensures torn { self.new.torn ≡ self.old.torn }
    {
        if self.failures < u64::MAX {
            self.failures += 1;
        }
        StoreFault::Store
    }

    /// The edit on the disk alone.
    fn tear(&mut self, alloc: Global, edit: &Edit)
        ensures torn { self.new.torn ≡ true }
        ensures keeper { self.new.keeper ≡ self.old.keeper }
        ensures failures { self.new.failures ≡ self.old.failures }
        ensures disk { IsSound self.old.disk → Fits self.old.disk edit.now
            → (self.new.disk ≡ self.old.disk) ⊎ (self.new.disk ≡ apply self.old.disk edit.now) }
    {
        self.torn = true;
        match self.disk.act(alloc, edit) {
            Ok(()) => (),
            Err(_) => (),
        }
    }

    /// The edit on the disk, and then in memory.
    fn commit(&mut self, alloc: Global, edit: &Edit) -> Result<(), StoreFault>
        requires { self.old.torn ≡ false }
        ensures { Edits (leaving self.old.keeper self.old.disk self.old.torn self.old.failures) (leaving self.new.keeper self.new.disk self.new.torn self.new.failures) result edit.now }
    {
        if let Err(_) = self.disk.act(alloc, edit) {
            return Err(StoreFault::Memory);
        }
        match self.keeper.act(alloc, edit) {
            Ok(()) => Ok(()),
            Err(_) => {
                self.torn = true;
                Err(StoreFault::Memory)
            }
        }
    }
}

impl Keeper for Stopping {
    ghost standing = { λ k. leaving k.keeper k.disk k.torn k.failures };

    fn find(&mut self, alloc: Global, path: &Path) -> Result<Option<Node>, StoreFault> {
        self.keeper.find(alloc, path)
    }

    fn children(&mut self, alloc: Global, path: &Path) -> Result<Items<Listed>, StoreFault> {
        self.keeper.children(alloc, path)
    }

    fn count(&mut self, alloc: Global, path: &Path) -> Result<usize, StoreFault> {
        self.keeper.count(alloc, path)
    }

    fn lists(&mut self, alloc: Global, path: &Path) -> Result<Lists, StoreFault> {
        self.keeper.lists(alloc, path)
    }

    fn level(&mut self, alloc: Global, path: &Path) -> Result<Level, StoreFault> {
        self.keeper.level(alloc, path)
    }

    fn changes_after(
        &mut self,
        alloc: Global,
        book: &Name,
        number: u64,
        at_most: Option<u32>,
    ) -> Result<Items<Changed>, StoreFault> {
        self.keeper.changes_after(alloc, book, number, at_most)
    }

    fn pairs(&mut self, alloc: Global) -> Result<Pairs, StoreFault> {
        self.keeper.pairs(alloc)
    }

    fn circle(&mut self, alloc: Global, caller: &Caller) -> Result<Circle, StoreFault> {
        self.keeper.circle(alloc, caller)
    }

    fn epoch(&mut self) -> Result<u64, StoreFault> {
        self.keeper.epoch()
    }

    fn adoption(&mut self, alloc: Global, policy: &Policy) -> Result<Adoption, StoreFault> {
        self.keeper.adoption(alloc, policy)
    }

    fn failures(&self) -> u64 {
        self.failures
    }

    fn act(&mut self, alloc: Global, edit: &Edit) -> Result<(), StoreFault> {
        if self.torn {
            return Err(self.fail());
        }
        if self.edits > 0 {
            self.edits -= 1;
            return self.commit(alloc, edit);
        }
        self.edits = u64::MAX;
        if self.reaches {
            self.tear(alloc, edit);
        }
        Err(self.fail())
    }
}

/// The keeper and its disk have one Office.
fn stopping_keeper(rt: &impl Abort, alloc: Global, edits: u64, reaches: bool) -> Stopping {
    Stopping {
        keeper: MemoryKeeper::from_office(office(rt, alloc, OPEN)),
        disk: MemoryKeeper::from_office(office(rt, alloc, OPEN)),
        edits,
        reaches,
        torn: false,
        failures: 0,
    }
}

/// Everything is granted in books and at their home.
const OPEN: &[&str] = &["own /books grant all all"];

/// Takes the steps, and then those of what is kept and of what a stop leaves.
fn check(
    rt: &impl Abort,
    alloc: Global,
    reaches: bool,
    steps: &[Step],
    kept: &[Step],
    left: &[Step],
) {
    let mut machine = Machine::new(stopping_keeper(rt, alloc, 1, reaches));
    follow(rt, alloc, &mut machine, steps);
    let Stopping { keeper, disk, .. } = machine.release();
    check_one(rt, alloc, keeper, kept);
    check_one(rt, alloc, disk, left);
}

fn check_one(rt: &impl Abort, alloc: Global, keeper: MemoryKeeper, steps: &[Step]) {
    let mut machine = Machine::new(keeper);
    follow(rt, alloc, &mut machine, steps);
    drop(machine);
}

/// A request is acknowledged, and one is answered as unavailable; its edit never reached the disk, and one after it is
/// acknowledged.
const NOT_REACHED: &[Step] = &[
    ("bob PUT /books/sales/c.vcf BO", "201"),
    ("bob PUT /books/sales/d.vcf BO", "503 unavailable"),
    ("bob DELETE /books/sales/a.vcf", "204"),
    ("failures", "1"),
];

/// After an acknowledged edit a stop leaves nothing older.
const ACKNOWLEDGED: &[Step] = &[("changes sales 2", "3 c.vcf [] 44 bytes\n4 a.vcf removed\n")];

/// The same, but the edit reached the disk: nothing is acknowledged after it.
const REACHED: &[Step] = &[
    ("bob PUT /books/sales/c.vcf BO", "201"),
    ("bob PUT /books/sales/d.vcf BO", "503 unavailable"),
    ("bob GET /books/sales/d.vcf", "404 not-found"),
    ("bob DELETE /books/sales/a.vcf", "503 unavailable"),
    ("failures", "2"),
];

/// The Office before the request that was answered as unavailable.
const BEFORE: &[Step] = &[("changes sales 2", "3 c.vcf [] 44 bytes\n")];

/// The Office with its edit.
const WITH_THE_EDIT: &[Step] = &[(
    "changes sales 2",
    "3 c.vcf [] 44 bytes\n4 d.vcf [] 44 bytes\n",
)];

#[test]
fn a_stop_leaves_the_acknowledged_edits(rt: HostRuntime) {
    check(
        &rt,
        rt.alloc(),
        false,
        NOT_REACHED,
        ACKNOWLEDGED,
        ACKNOWLEDGED,
    );
}

#[test]
fn a_stop_may_leave_the_edit_of_an_unavailable_request(rt: HostRuntime) {
    check(&rt, rt.alloc(), true, REACHED, BEFORE, WITH_THE_EDIT);
}
