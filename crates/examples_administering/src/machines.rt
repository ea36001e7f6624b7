//! A served Office is asked, and a policy is put in force.

use crate::checks::{check_fact, check_text};
use crate::logs::logged;
use book_desk_administering::{Administered, Counts};
use book_desk_app::Noting;
use book_desk_questions::{PartWords, WhyWords, Words};
use book_lists::{Name, Principal};
use book_machine::Machine;
use book_office::{Edit, Keeper, MemoryKeeper};
use book_office_values::Text;
use book_policy::read_policy;
use book_questions_audit::Wanted;
use std::alloc::Global;
use std::process::Abort;

/// Ann owns the book of sales and may do all there. Bob, who is of the staff, may read it.
pub(crate) const POLICY: &str = "version = 1\n\
    [[person]]\nname = \"ann\"\n[[person]]\nname = \"bob\"\n\
    [[group]]\nname = \"staff\"\nmembers = [\"/people/bob\"]\n\
    [[book]]\nname = \"sales\"\nowner = \"/people/ann\"\n\
    [[entry]]\nat = \"/books/sales\"\nwho = \"owner\"\ngrant = [\"all\"]\n\
    [[entry]]\nat = \"/books/sales\"\nwho = \"/groups/staff\"\ngrant = [\"read\"]\n";

/// The same, and cyd, who may do nothing.
pub(crate) const MORE: &str = "version = 1\n\
    [[person]]\nname = \"ann\"\n[[person]]\nname = \"bob\"\n[[person]]\nname = \"cyd\"\n\
    [[group]]\nname = \"staff\"\nmembers = [\"/people/bob\"]\n\
    [[book]]\nname = \"sales\"\nowner = \"/people/ann\"\n\
    [[entry]]\nat = \"/books/sales\"\nwho = \"owner\"\ngrant = [\"all\"]\n\
    [[entry]]\nat = \"/books/sales\"\nwho = \"/groups/staff\"\ngrant = [\"read\"]\n";

/// No policy, by two faults.
pub(crate) const FAULTY: &str = "version = 1\n\
    [[person]]\nname = \"ann\"\n\
    [[book]]\nname = \"sales\"\nowner = \"/people/zoe\"\n\
    [[entry]]\nat = \"/books/sales\"\nwho = \"owner\"\ngrant = [\"reed\"]\n";

/// What is told of it.
pub(crate) const FAULTS: &str = "book 1 (sales): owner: unknown-principal: /people/zoe\n\
    entry 1 (at /books/sales, who owner): grant 1: unknown-privilege: reed\n";

/// What the policy leaves open. No list gives the right to change that of the root. Ann, who owns the book and not each card
/// of it, has what she grants herself there.
pub(crate) const OPEN: &str = "/: nobody may change its list\n\
    /books/sales: what it grants to owners stays with who leaves a group\n\
    ann: ACL /books/sales (grant /people/ann all); then GET /books/sales/* is granted\n";

/// The dump of the Office of the policy, with ann's card.
pub(crate) const DUMP: &str = "{\"epoch\":1}\n\
    {\"path\":\"/\"}\n\
    {\"path\":\"/books\"}\n\
    {\"path\":\"/books/sales\",\"owner\":\"/people/ann\",\
    \"own\":[{\"who\":\"owner\",\"grant\":[\"all\"]},{\"who\":\"/groups/staff\",\"grant\":[\"read\"]}],\"number\":1}\n\
    {\"path\":\"/books/sales/a.vcf\",\"owner\":\"/people/ann\",\"number\":1,\"text\":\"any\"}\n\
    {\"path\":\"/groups\"}\n\
    {\"path\":\"/groups/staff\",\"members\":[\"/people/bob\"]}\n\
    {\"path\":\"/people\"}\n\
    {\"path\":\"/people/ann\"}\n\
    {\"path\":\"/people/bob\"}\n\
    {\"lines\":10}\n";

/// What is asked.
#[derive(Clone, Copy, Drop)]
pub(crate) enum Errand {
    /// Why a caller may do something with ann's card, or not.
    Why(&'static str, &'static str),
    /// The resource at a path.
    Show(&'static str),
    /// What stands at a path and below it.
    Part(&'static str),
    Audit,
    Dump,
    Check(&'static str, bool),
    Differs(&'static str, bool),
    Put(&'static str),
}

/// What is asked, the status, what is written, and what is told.
pub(crate) type Row = (Errand, u8, &'static str, &'static str);

/// The bytes of a policy.
fn bytes_of(rt: &impl Abort, alloc: Global, text: &str) -> Vec<u8> {
    let text = String::from_str(alloc, text).expect(rt, "memory");
    text.into_bytes()
}

/// The words of a question about a caller and ann's card.
fn why(caller: &'static str, what: &'static str) -> Words<'static> {
    Words::Why(WhyWords {
        caller,
        what,
        path: "/books/sales/a.vcf",
        destination: None,
        json: false,
    })
}

/// The words of an audit of a part.
fn part(path: &'static str) -> Words<'static> {
    Words::Part(PartWords {
        at: Some(path),
        wanted: Wanted {
            listed: false,
            labels: false,
        },
    })
}

/// Asks, and gives the status.
fn run<M: Administered>(
    rt: &impl Abort,
    alloc: Global,
    service: &mut M,
    errand: Errand,
    writer: &mut Vec<u8>,
    errors: &mut Noting<Vec<u8>>,
) -> u8 {
    match errand {
        Errand::Why(caller, what) => service.ask(alloc, &why(caller, what), writer, errors),
        Errand::Show(path) => service.ask(alloc, &Words::Show(path), writer, errors),
        Errand::Part(path) => service.ask(alloc, &part(path), writer, errors),
        Errand::Audit => service.audit(alloc, writer, errors),
        Errand::Dump => service.dump(alloc, writer, errors),
        Errand::Check(text, strict) => {
            let bytes = bytes_of(rt, alloc, text);
            service.check(alloc, bytes, strict, writer, errors)
        }
        Errand::Differs(text, strict) => {
            let bytes = bytes_of(rt, alloc, text);
            service.differs(alloc, bytes, strict, writer, errors)
        }
        Errand::Put(text) => {
            let bytes = bytes_of(rt, alloc, text);
            service.put_policy(alloc, bytes, writer, errors)
        }
    }
}

/// Asks, and compares the status, what is written and what is told.
pub(crate) fn compare<M: Administered>(rt: &impl Abort, alloc: Global, service: &mut M, row: &Row) {
    let (errand, status, written, told) = row;
    let mut writer = Vec::new(alloc);
    let mut errors = Noting::new(Vec::new(alloc));
    let ended = run(rt, alloc, service, *errand, &mut writer, &mut errors);
    let text = str::from_utf8(writer.as_slice()).expect(rt, "a text");
    check_text(rt, text, written, "what is written");
    let lines = errors.into_inner();
    let text = str::from_utf8(lines.as_slice()).expect(rt, "a text");
    check_text(rt, text, told, "what is told");
    check_fact(rt, ended == *status, told);
}

/// Puts ann's card into the book of sales.
fn put_card(rt: &impl Abort, alloc: Global, keeper: &mut MemoryKeeper) {
    let book = Name::parse(alloc, "sales").expect(rt, "memory");
    let card = Name::parse(alloc, "a.vcf").expect(rt, "memory");
    let owner = Principal::parse(alloc, "/people/ann").expect(rt, "memory");
    let edit = Edit::PutCard {
        book: book.expect(rt, "a name"),
        card: card.expect(rt, "a name"),
        owner,
        text: Text::copy_of(alloc, "any").expect(rt, "memory"),
    };
    keeper.act(alloc, &edit).expect(rt, "memory");
    drop(edit);
}

/// A machine that has adopted the policy, and has ann's card.
pub(crate) fn machine(rt: &impl Abort, alloc: Global) -> Machine<MemoryKeeper> {
    let policy = read_policy(alloc, POLICY).expect(rt, "a policy");
    let mut machine = Machine::new(MemoryKeeper::new(alloc));
    machine
        .adopt(alloc, &policy)
        .ok()
        .expect(rt, "room for the policy");
    drop(policy);
    put_card(rt, alloc, &mut machine.keeper);
    machine
}

const ROWS: &[Row] = &[
    (
        Errand::Why("bob", "GET"),
        0,
        "granted\n\
         need read at /books/sales/a.vcf\n \
         x-read-texts granted by 2, 2 at /books/sales\n  own grant /groups/staff read\n  by /people/bob in /groups/staff\n \
         x-read-names granted by 2, 2 at /books/sales\n  own grant /groups/staff read\n  by /people/bob in /groups/staff\n",
        "",
    ),
    (
        Errand::Why("-", "GET"),
        0,
        "denied read at /books/sales/a.vcf, none granted\n\
         need read at /books/sales/a.vcf\n \
         x-read-texts denied, none granted\n \
         x-read-names denied, none granted\n",
        "",
    ),
    (
        Errand::Why("bob", "reed"),
        1,
        "",
        "why: unknown-privilege\n",
    ),
    (
        Errand::Show("/books/sales/a.vcf"),
        0,
        "{\"path\":\"/books/sales/a.vcf\",\"owner\":\"/people/ann\",\"number\":1,\"text\":\"any\"}\n",
        "",
    ),
    (Errand::Show("/books/none"), 1, "", "show: not-found\n"),
    (
        Errand::Part("/books/sales"),
        0,
        "/books/sales owner /people/ann\n  own grant owner all\n  own grant /groups/staff read\n\
         /books/sales/a.vcf owner /people/ann\n",
        "",
    ),
    (
        Errand::Audit,
        0,
        "epoch 1\n\
         member /groups/staff /people/bob\n\
         / owner -\n\
         /books owner -\n\
         /books/sales owner /people/ann\n  own grant owner all\n  own grant /groups/staff read\n\
         /books/sales/a.vcf owner /people/ann\n\
         /groups owner -\n\
         /groups/staff owner -\n\
         /people owner -\n\
         /people/ann owner -\n\
         /people/bob owner -\n",
        "",
    ),
    (Errand::Dump, 0, DUMP, ""),
    (Errand::Check(POLICY, false), 0, OPEN, ""),
    (Errand::Check(POLICY, true), 1, OPEN, ""),
    (Errand::Check(FAULTY, false), 1, "", FAULTS),
    (Errand::Differs(POLICY, true), 0, "unchanged\n", ""),
    (
        Errand::Differs(MORE, false),
        0,
        "+ /people/cyd owner -\n+ /people/cyd label \"\"\ndiffers in 2\n",
        "",
    ),
    (
        Errand::Differs(MORE, true),
        1,
        "+ /people/cyd owner -\n+ /people/cyd label \"\"\ndiffers in 2\n",
        "",
    ),
    // Here the least fault is told alone.
    (
        Errand::Differs(FAULTY, false),
        1,
        "",
        "policy: unknown-principal\n",
    ),
    (Errand::Put(FAULTY), 1, "", FAULTS),
    (Errand::Put(POLICY), 0, "unchanged, epoch 1\n", ""),
    (Errand::Put(MORE), 0, "changed, epoch 2\n", ""),
    (Errand::Put(MORE), 0, "unchanged, epoch 2\n", ""),
];

/// How much the Office has at first.
const COUNTS: Counts = Counts {
    epoch: 1,
    persons: 2,
    groups: 1,
    books: 1,
    cards: 1,
};

/// How much it has afterwards.
const COUNTS_AFTER: Counts = Counts {
    epoch: 2,
    persons: 3,
    groups: 1,
    books: 1,
    cards: 1,
};

/// Asks all in turn, and counts before and after.
fn compare_all<M: Administered>(rt: &impl Abort, alloc: Global, service: &mut M) {
    let counts = service.counts(alloc).expect(rt, "memory");
    check_fact(rt, counts == COUNTS, "counts before");
    for row in ROWS {
        compare(rt, alloc, service, row);
    }
    let counts = service.counts(alloc).expect(rt, "memory");
    check_fact(rt, counts == COUNTS_AFTER, "counts after");
}

#[test]
fn a_machine_is_asked(rt: HostRuntime) {
    let alloc = rt.alloc();
    let mut machine = machine(&rt, alloc);
    compare_all(&rt, alloc, &mut machine);
    drop(machine);
}

#[test]
fn a_machine_that_keeps_a_log_is_asked(rt: HostRuntime) {
    let alloc = rt.alloc();
    let mut kept = logged(&rt, alloc, 1_000);
    compare_all(&rt, alloc, &mut kept);
    drop(kept);
}
