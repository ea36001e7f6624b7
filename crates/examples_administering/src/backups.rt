//! Copies of the Office that is served.

use crate::checks::{check_fact, check_text};
use crate::logs::logged;
use crate::machines::{DUMP, Errand, MORE, compare, machine};
use book_desk_administering::Administered;
use book_desk_answering::Copying;
use book_desk_app::{Lines, Noting, StoreFailure};
use book_desk_keeping::{KeepingFault, tell_fault};
use book_machine::Machine;
use book_tables_opening::open;
use sqlite::{Connection, MemStore};
use std::alloc::Global;
use std::process::Abort;

/// The dump of the Office once the policy with cyd was put.
pub(crate) const DUMP_AFTER: &str = "{\"epoch\":2}\n\
    {\"path\":\"/\"}\n\
    {\"path\":\"/books\"}\n\
    {\"path\":\"/books/sales\",\"owner\":\"/people/ann\",\
    \"own\":[{\"who\":\"owner\",\"grant\":[\"all\"]},{\"who\":\"/groups/staff\",\"grant\":[\"read\"]}],\"number\":1}\n\
    {\"path\":\"/books/sales/a.vcf\",\"owner\":\"/people/ann\",\"number\":1,\"text\":\"any\"}\n\
    {\"path\":\"/groups\"}\n\
    {\"path\":\"/groups/staff\",\"members\":[\"/people/bob\"]}\n\
    {\"path\":\"/people\"}\n\
    {\"path\":\"/people/ann\"}\n\
    {\"path\":\"/people/bob\"}\n\
    {\"path\":\"/people/cyd\"}\n\
    {\"lines\":11}\n";

/// Makes copies in memory, but none where a file would be there.
#[derive(Drop)]
pub(crate) struct Copier {
    alloc: Global,
    /// The last copy.
    made: Option<Connection<MemStore>>,
}

impl Copier {
    /// It made none yet.
    pub(crate) fn new(alloc: Global) -> Copier {
        Copier { alloc, made: None }
    }
}

impl<M: Administered> Copying<M> for Copier {
    ghost copies = { λ _ _ _ _ _ _ _ _ _. Unit {0} };

    #[tactic(auto, using(book_wire_serving::proofs::Servings::runs_none, book_wire_serving::proofs::Servings::stays))]
    fn copy<E: Lines>(&mut self, service: &mut M, to: &str, errors: &mut E) -> u8 {
        if to == "there" {
            return tell_fault(errors, &KeepingFault::BackupExists);
        }
        let Ok(fresh) = Connection::open_in_memory(self.alloc) else {
            return tell_fault(errors, &KeepingFault::Store(StoreFailure::Memory));
        };
        let (status, left) = service.backup(self.alloc, fresh, errors);
        self.made = left;
        status
    }
}

/// The text of the Office for which a store stands.
fn dump_in(rt: &impl Abort, alloc: Global, made: Option<Connection<MemStore>>) -> Vec<u8> {
    let tables = open(alloc, made.expect(rt, "a copy"));
    let mut machine = Machine::new(tables.ok().expect(rt, "an Office"));
    let mut text = Vec::new(alloc);
    let mut errors = Noting::new(Vec::new(alloc));
    let status = machine.dump(alloc, &mut text, &mut errors);
    drop(machine);
    check_fact(rt, status == 0, "the dump of a copy");
    text
}

/// The last copy stands for the Office with this dump.
pub(crate) fn check_copy(rt: &impl Abort, alloc: Global, copier: Copier, wanted: &str) {
    let text = dump_in(rt, alloc, copier.made);
    let told = str::from_utf8(text.as_slice()).expect(rt, "a text");
    check_text(rt, told, wanted, "a copy");
}

/// Copies the Office, and compares what the copy stands for.
fn copies_are<M: Administered>(rt: &impl Abort, alloc: Global, service: &mut M, wanted: &str) {
    let mut copier = Copier::new(alloc);
    let mut errors = Noting::new(Vec::new(alloc));
    let status = copier.copy(service, "b", &mut errors);
    check_fact(rt, status == 0, "the status of a copy");
    check_copy(rt, alloc, copier, wanted);
}

/// A copy has the Office as it is when it is made.
fn compare_copies<M: Administered>(rt: &impl Abort, alloc: Global, service: &mut M) {
    copies_are(rt, alloc, service, DUMP);
    compare(
        rt,
        alloc,
        service,
        &(Errand::Put(MORE), 0, "changed, epoch 2\n", ""),
    );
    copies_are(rt, alloc, service, DUMP_AFTER);
}

#[test]
fn a_machine_is_copied(rt: HostRuntime) {
    let alloc = rt.alloc();
    let mut machine = machine(&rt, alloc);
    compare_copies(&rt, alloc, &mut machine);
    drop(machine);
}

#[test]
fn a_machine_that_keeps_a_log_is_copied(rt: HostRuntime) {
    let alloc = rt.alloc();
    let mut kept = logged(&rt, alloc, 1_000);
    compare_copies(&rt, alloc, &mut kept);
    drop(kept);
}

/// A store that has a table is no place for a copy; it stays as it is.
#[test]
fn a_store_with_tables_is_refused(rt: HostRuntime) {
    let alloc = rt.alloc();
    let mut machine = machine(&rt, alloc);
    let mut copier = Copier::new(alloc);
    let mut errors = Noting::new(Vec::new(alloc));
    let first = copier.copy(&mut machine, "b", &mut errors);
    check_fact(&rt, first == 0, "the first");
    let there = copier.made.expect(&rt, "a copy");
    let (status, left) = machine.backup(alloc, there, &mut errors);
    drop(machine);
    check_fact(&rt, status == 1, "the second");
    let lines = errors.into_inner();
    let told = str::from_utf8(lines.as_slice()).expect(&rt, "a text");
    check_text(&rt, told, "copy: exists\n", "what is told");
    let copier = Copier { alloc, made: left };
    check_copy(&rt, alloc, copier, DUMP);
}
