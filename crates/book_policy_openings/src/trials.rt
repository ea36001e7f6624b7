//! Trials: requests are served over a copy of an Office in memory.

ghost use Rattle.std.specs.Prelude.{◌≡◌, IfOk, IfSome, IsTrue, OnOk, codes, false, true};
ghost use Rattle.std.specs.Str.{IsUtf8};
ghost use Rattle.book_lists.specs.Names.{IsName};
ghost use Rattle.book_office.specs.Edits.{apply};
ghost use Rattle.book_office.specs.Resources.{count_at, node_at};
ghost use Rattle.book_office.specs.Sound.{IsSound};
ghost use Rattle.book_policy_openings.specs.Openings.{Acts, AnswersRead, HasRoomIn, IsDenial, IsOpeningFrom, IsOpeningIn, Leads, MayHaveMore, Reads, read_card, trial_card, trial_office};

use crate::in_memory::{act_in, bare_in, count_in, node_in, serve_in};
use crate::openings::Opening;
use crate::steps::{Step, plain, request_of};
use book_limits::{LAST_NUMBER, MAX_CARDS};
use book_lists::Name;
use book_machine::{Body, Content, Machine, Refusal, Reply, Request, refusals_change_nothing};
use book_office::{Edit, MemoryKeeper, Node, StoreFault, edits_within_the_limits_fit};
use book_office_values::{Path, Text};
use book_rights::Method;
use std::alloc::{AllocError, Global};

/// The name of the card that is read in a trial, and its text.
const CARD: &str = "card";

/// The name of the card.
fn card_name(alloc: Global) -> Result<Name, AllocError>
    ensures name { IfOk result (λ name. name ≡ codes "card") }
    ensures is_name { OnOk result (IsName (codes "card")) }
{
    match Name::parse(alloc, CARD)? {
        Some(name) => Ok(name),
        None => Err(AllocError),
    }
}

/// The text of the card.
fn card_text(alloc: Global) -> Result<Text, AllocError>
    ensures text { IfOk result (λ text. text ≡ codes "card") }
    ensures is_text { OnOk result (IsUtf8 (codes "card")) }
{
    let text = Text::copy_of(alloc, CARD)?;
    text.known();
    Ok(text)
}

/// The edit that puts the card into a book. Nobody owns it.
fn trial_card(alloc: Global, book: &Name) -> Result<Edit, AllocError>
    ensures edit { IfOk result (λ edit. edit ≡ trial_card book.now) }
    ensures is_name { OnOk result (IsName (codes "card")) }
    ensures is_text { OnOk result (IsUtf8 (codes "card")) }
{
    let card = card_name(alloc)?;
    let text = card_text(alloc)?;
    Ok(Edit::PutCard {
        book: book.clone()?,
        card,
        owner: None,
        text,
    })
}

/// The request that reads the card.
fn read_card(alloc: Global, book: &Name) -> Result<Request, AllocError>
    ensures { IfOk result (λ request. request ≡ read_card book.now) }
{
    let path = Path::Card(book.clone()?, card_name(alloc)?);
    Ok(plain(Method::Get, path, Body::Empty))
}

/// Whether a book that is there, as a keeper tells it, has room for one card more.
fn may_have_more(node: &Option<Node>, count: usize) -> bool
    ensures { IsTrue result → MayHaveMore node.now count }
{
    let Some(node) = node else {
        return false;
    };
    if node.number >= LAST_NUMBER {
        return false;
    }
    if count >= MAX_CARDS {
        return false;
    }
    true
}

/// Whether a book is at a path, and has room for one card more.
fn room_at(alloc: Global, keeper: &mut MemoryKeeper, path: &Path) -> Result<bool, StoreFault>
    ensures room { IfOk result (λ room. IsTrue room → IsSound keeper.old
        → MayHaveMore (node_at keeper.old path.now) (count_at keeper.old path.now)) }
    ensures kept { IsSound keeper.old → keeper.new ≡ keeper.old }
{
    let node = node_in(alloc, keeper, path)?;
    let count = count_in(alloc, keeper, path)?;
    Ok(may_have_more(&node, count))
}

/// Whether a book is there, and has room for a card.
fn has_room(alloc: Global, keeper: &mut MemoryKeeper, book: &Name) -> Result<bool, StoreFault>
    ensures room { IfOk result (λ room. IsTrue room → IsSound keeper.old
        → HasRoomIn keeper.old book.now) }
    ensures kept { IsSound keeper.old → keeper.new ≡ keeper.old }
{
    let path = Path::Book(book.clone()?);
    room_at(alloc, keeper, &path)
}

/// Puts the card into a book.
fn put_card(
    alloc: Global,
    machine: &mut Machine<MemoryKeeper>,
    book: &Name,
) -> Result<(), StoreFault>
    ensures office { OnOk result (IsSound machine.old.keeper
        → machine.new.keeper ≡ apply machine.old.keeper (trial_card book.now)) }
    ensures sound { OnOk result (IsSound machine.old.keeper → IsSound machine.new.keeper) }
{
    let room = has_room(alloc, &mut machine.keeper, book)?;
    if !room {
        return Err(StoreFault::Memory);
    }
    edits_within_the_limits_fit();
    let edit = trial_card(alloc, book)?;
    let done = act_in(alloc, &mut machine.keeper, &edit);
    drop(edit);
    done
}

/// A machine over a copy of the Office without its cards, with a card in the book.
fn trial(
    alloc: Global,
    start: &mut MemoryKeeper,
    book: &Name,
) -> Result<Machine<MemoryKeeper>, StoreFault>
    ensures office { IfOk result (λ machine. IsSound start.old
        → machine.keeper ≡ trial_office start.old book.now) }
    ensures sound { IfOk result (λ machine. IsSound start.old → IsSound machine.keeper) }
    ensures kept { IsSound start.old → start.new ≡ start.old }
{
    let office = bare_in(alloc, start)?;
    let mut machine = Machine::new(MemoryKeeper::from_office(office));
    match put_card(alloc, &mut machine, book) {
        Ok(()) => Ok(machine),
        Err(fault) => {
            drop(machine);
            Err(fault)
        }
    }
}

/// Whether a reply has the text of a card.
fn is_card(reply: &Reply) -> bool
    ensures { IsTrue result → AnswersRead reply.now true }
{
    if reply.status != 200 {
        return false;
    }
    match &reply.content {
        Content::Card(_) => true,
        _ => false,
    }
}

/// Whether a refusal tells that a privilege is not granted.
fn is_denial(refusal: &Refusal) -> bool
    ensures { IsTrue result → IsDenial refusal.now }
{
    match refusal {
        Refusal::NeedPrivileges(_) => true,
        _ => false,
    }
}

/// Whether a reply tells that a privilege is not granted.
fn is_denied(reply: &Reply) -> bool
    ensures { IsTrue result → AnswersRead reply.now false }
{
    if reply.status != 403 {
        return false;
    }
    match &reply.content {
        Content::Refusal(refusal) => is_denial(refusal),
        _ => false,
    }
}

/// Whether a reply has the text of a card, or else tells that the privilege to read it is not granted; none where it tells
/// something else.
fn reading(reply: &Reply) -> Option<bool>
    ensures { IfSome result (AnswersRead reply.now) }
{
    if is_card(reply) {
        return Some(true);
    }
    if is_denied(reply) {
        return Some(false);
    }
    None
}

/// Whether a caller may read the card of a book. Nothing changes.
fn may_read(
    alloc: Global,
    machine: &mut Machine<MemoryKeeper>,
    caller: &Option<Name>,
    book: &Name,
) -> Result<bool, StoreFault>
    ensures told { IfOk result (λ may. IsSound machine.old.keeper
        → Reads machine.old.keeper caller.now book.now may) }
    ensures kept { OnOk result (IsSound machine.old.keeper
        → machine.new.keeper ≡ machine.old.keeper) }
{
    refusals_change_nothing();
    let request = read_card(alloc, book)?;
    let reply = serve_in(alloc, machine, caller, &request);
    drop(request);
    let told = reading(&reply);
    drop(reply);
    match told {
        Some(may) => Ok(may),
        None => Err(StoreFault::Memory),
    }
}

/// Serves the request of a step, and tells whether it was a success.
fn acts(
    alloc: Global,
    machine: &mut Machine<MemoryKeeper>,
    caller: &Option<Name>,
    step: &Step,
) -> Result<bool, StoreFault>
    ensures acted { IfOk result (λ acted. IsTrue acted → IsSound machine.old.keeper
        → Acts machine.old.keeper caller.now step.now machine.new.keeper) }
    ensures sound { OnOk result (IsSound machine.old.keeper → IsSound machine.new.keeper) }
{
    let request = request_of(alloc, &mut machine.keeper, caller, step)?;
    let reply = serve_in(alloc, machine, caller, &request);
    drop(request);
    let status = reply.status;
    drop(reply);
    if status >= 300 {
        return Ok(false);
    }
    Ok(true)
}

/// Serves the requests of one step, or of two, and tells whether each was a success.
pub(crate) fn leads(
    alloc: Global,
    machine: &mut Machine<MemoryKeeper>,
    caller: &Option<Name>,
    first: &Step,
    second: &Option<Step>,
) -> Result<bool, StoreFault>
    ensures led { IfOk result (λ led. IsTrue led → IsSound machine.old.keeper
        → Leads machine.old.keeper caller.now first.now second.now machine.new.keeper) }
    ensures sound { OnOk result (IsSound machine.old.keeper → IsSound machine.new.keeper) }
{
    let acted = acts(alloc, machine, caller, first)?;
    if !acted {
        return Ok(false);
    }
    match second {
        Some(second) => acts(alloc, machine, caller, second),
        None => Ok(true),
    }
}

/// Whether an opening is one from the Office that the machine has.
fn opens_from(
    alloc: Global,
    machine: &mut Machine<MemoryKeeper>,
    opening: &Opening,
) -> Result<bool, StoreFault>
    ensures { IfOk result (λ opens. IsTrue opens → IsSound machine.old.keeper
        → IsOpeningFrom machine.old.keeper opening.now) }
{
    let open = may_read(alloc, machine, &opening.caller, &opening.book)?;
    if open {
        return Ok(false);
    }
    let led = leads(
        alloc,
        machine,
        &opening.caller,
        &opening.first,
        &opening.second,
    )?;
    if !led {
        return Ok(false);
    }
    may_read(alloc, machine, &opening.caller, &opening.book)
}

/// Whether an opening is one in the Office: the caller may not read the card of the book, their requests are served with
/// success, and then they may. The Office stays as it is.
pub(crate) fn is_opening(
    alloc: Global,
    start: &mut MemoryKeeper,
    opening: &Opening,
) -> Result<bool, StoreFault>
    ensures opens { IfOk result (λ opens. IsTrue opens → IsSound start.old
        → IsOpeningIn start.old opening.now) }
    ensures kept { IsSound start.old → start.new ≡ start.old }
{
    let mut machine = trial(alloc, start, &opening.book)?;
    let opens = opens_from(alloc, &mut machine, opening);
    drop(machine);
    opens
}
