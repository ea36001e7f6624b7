//! The stages of a request that ask no keeper.

ghost use Rattle.std.specs.Prelude.{◌≡◌, ◌↔◌, ◌<◌, ◌⊎◌, IfOk, IsSomeAnd, IsTrue, option_and_then, option_map};
ghost use Rattle.book_cards.specs.CardText.{card_fault};
ghost use Rattle.book_cards.specs.declared.fault.CardFaultKind.TheVariants.{Memory};
ghost use Rattle.book_office_values.specs.Paths.{parent_of};
ghost use Rattle.book_machine.specs.AllowedMethods.{allowed_of, goes_on};
ghost use Rattle.book_machine.specs.Asked.{destination_in, destination_path};
ghost use Rattle.book_machine.specs.Asking.{Meets, PathOf};
ghost use Rattle.book_lists.specs.ListEdits.{entries_of};
ghost use Rattle.book_machine.specs.Stages.{bad_card, can_change, can_change_twice, check, copy_edit, delete_edit, list_refusal, members_edit, mkcol_edit, move_edit, owner_of, patch_edit, put_edit, put_status, replaceable, replied, suits, suits_target, text_of};
ghost use Rattle.book_machine.specs.Stages.{acl_plan, allow_plan, card_plan, copy_plan, delete_plan, mkcol_plan, move_plan, patch_plan, put_plan};
ghost use Rattle.book_machine.specs.declared.refusals.Refusal.TheVariants.{BadCard, NotAllowed, Unavailable};
ghost use Rattle.book_machine.specs.Targets.{ready_seen, target_seen};
ghost use Rattle.book_office_listings.specs.Verdicts.{principal_of};
ghost use Rattle.book_office.specs.declared.nodes.Node.{Node as NodeOf};
ghost use Rattle.book_machine.specs.Verdicts.{asks_effective, asks_for, asks_names, or_itself, place_path, shape_at};

use crate::allowed_methods::{AllowedMethods, goes_on};
use crate::asked::{Asked, Destination};
use crate::messages::{Content, Patch, Reply, ReportKind};
use crate::plans::{Plan, Ready, Target};
use crate::refusals::Refusal;
use book_cards::{CardFault, CardFaultKind, read_card};
use book_limits::{LAST_NUMBER, MAX_CARDS};
use book_lists::{Caller, EditFault, Entry, Principal, Submitted};
use book_office::{Edit, Items, Kind, Node, Path, Text};
use book_office_listings::{Property, is_asked};
use book_rights::{Method, Place, Shape};
use std::alloc::{AllocError, Global};

/// Refuses where the test fails.
pub(crate) fn check(test: bool, refusal: Refusal) -> Result<(), Refusal>
    ensures { result ≡ check test refusal }
{
    if test { Ok(()) } else { Err(refusal) }
}

/// The kind of a mapped resource: one at which the method goes on.
pub(crate) fn check_kind(method: Method, kind: Kind) -> Result<(), Refusal>
    ensures { result ≡ check (goes_on method kind) (NotAllowed (allowed_of kind)) }
{
    check(
        goes_on(method, kind),
        Refusal::NotAllowed(AllowedMethods::of(kind)),
    )
}

/// Whether a PROPFIND asks for a property.
fn asks_for(property: Property, asked: &Asked) -> bool
    ensures { result ≡ asks_for property asked.now }
{
    match asked {
        Asked::Propfind(find) => is_asked(property, find.properties.as_slice()),
        Asked::Get
        | Asked::Head
        | Asked::Options
        | Asked::Put(_)
        | Asked::Proppatch(_)
        | Asked::Acl(_)
        | Asked::Copy(_)
        | Asked::Move(_)
        | Asked::Delete
        | Asked::Mkcol
        | Asked::Report(_) => false,
    }
}

/// Whether a REPORT asks which entry decides each leaf.
fn asks_effective(asked: &Asked) -> bool
    ensures { result ≡ asks_effective asked.now }
{
    match asked {
        Asked::Report(ReportKind::Effective(_)) => true,
        Asked::Get
        | Asked::Head
        | Asked::Options
        | Asked::Put(_)
        | Asked::Propfind(_)
        | Asked::Proppatch(_)
        | Asked::Acl(_)
        | Asked::Copy(_)
        | Asked::Move(_)
        | Asked::Delete
        | Asked::Mkcol
        | Asked::Report(ReportKind::SyncCollection(_))
        | Asked::Report(ReportKind::GroupMembers)
        | Asked::Report(ReportKind::Names) => false,
    }
}

/// Whether a REPORT asks for names alone.
fn asks_names(asked: &Asked) -> bool
    ensures { result ≡ asks_names asked.now }
{
    match asked {
        Asked::Report(ReportKind::Names) => true,
        Asked::Get
        | Asked::Head
        | Asked::Options
        | Asked::Put(_)
        | Asked::Propfind(_)
        | Asked::Proppatch(_)
        | Asked::Acl(_)
        | Asked::Copy(_)
        | Asked::Move(_)
        | Asked::Delete
        | Asked::Mkcol
        | Asked::Report(ReportKind::SyncCollection(_))
        | Asked::Report(ReportKind::GroupMembers)
        | Asked::Report(ReportKind::Effective(_)) => false,
    }
}

/// What decides the row of needs.
pub(crate) fn shape_at(ready: &Ready<'_>) -> Shape
    ensures { result ≡ shape_at (ready_seen ready.now) }
{
    Shape {
        target_mapped: ready.target.node.is_some(),
        destination_mapped: ready.target.replaces,
        book: ready.target.path.kind() == Kind::Book,
        acl: asks_for(Property::Acl, &ready.asked),
        privileges: asks_for(Property::CurrentUserPrivilegeSet, &ready.asked),
        effective: asks_effective(&ready.asked),
        names: asks_names(&ready.asked),
    }
}

/// The parent of the path; of the root the root itself.
fn parent_or_itself(path: &Path) -> Result<Path, AllocError>
    ensures { IfOk result (λ p. p ≡ or_itself path.now (parent_of path.now)) }
{
    match path.parent()? {
        Some(parent) => Ok(parent),
        None => path.clone(),
    }
}

/// A copy of a path.
fn copy_of(path: &Path) -> Result<Path, AllocError>
    ensures { IfOk result (λ copy. copy ≡ path.now) }
{
    path.clone()
}

/// The path at the destination of what is asked; of a request without one the path itself.
fn destination_or(asked: &Asked, path: &Path) -> Result<Path, AllocError>
    ensures { IfOk result (λ p. p ≡ or_itself path.now
        (option_map destination_path (destination_in asked.now))) }
{
    match asked {
        Asked::Copy(to) => to.path(),
        Asked::Move(to) => to.path(),
        Asked::Get
        | Asked::Head
        | Asked::Options
        | Asked::Put(_)
        | Asked::Propfind(_)
        | Asked::Proppatch(_)
        | Asked::Acl(_)
        | Asked::Delete
        | Asked::Mkcol
        | Asked::Report(_) => path.clone(),
    }
}

/// The path of the book of the destination; of a request without one the path itself.
fn destination_book_or(asked: &Asked, path: &Path) -> Result<Path, AllocError>
    ensures { IfOk result (λ p. p ≡ or_itself path.now
        (option_and_then (λ to. parent_of (destination_path to)) (destination_in asked.now))) }
{
    match asked {
        Asked::Copy(to) => Ok(Path::Book(to.book.clone()?)),
        Asked::Move(to) => Ok(Path::Book(to.book.clone()?)),
        Asked::Get
        | Asked::Head
        | Asked::Options
        | Asked::Put(_)
        | Asked::Propfind(_)
        | Asked::Proppatch(_)
        | Asked::Acl(_)
        | Asked::Delete
        | Asked::Mkcol
        | Asked::Report(_) => path.clone(),
    }
}

/// The resource that a place of what is asked names.
pub(crate) fn place_path(ready: &Ready<'_>, place: Place) -> Result<Path, AllocError>
    ensures { IfOk result (λ p. p ≡ place_path
        (destination_in ready.now.asked) ready.now.target.path.now place) }
{
    let path = ready.target.path;
    match place {
        Place::Target => path.clone(),
        Place::Parent => parent_or_itself(path),
        Place::Destination => destination_or(&ready.asked, path),
        Place::DestinationParent => destination_book_or(&ready.asked, path),
    }
}

/// The resource itself, where it is a principal. An error is want of memory.
pub fn principal_of(alloc: Global, path: &Path) -> Result<Option<Principal>, AllocError>
    ensures { IfOk result (λ principal. principal ≡ principal_of path.now) }
{
    match path {
        Path::Person(name) => Ok(Some(Principal::person(alloc, name)?)),
        Path::Group(name) => Ok(Some(Principal::group(alloc, name)?)),
        Path::Root | Path::People | Path::Groups | Path::Books | Path::Book(_) | Path::Card(_, _) =>
            Ok(None),
    }
}

/// Why a text that is no card is refused.
fn card_refusal(fault: CardFault) -> Refusal
    ensures memory { fault.kind ≡ Memory → result ≡ Unavailable }
    ensures card { ((fault.kind ≡ Memory) × (result ≡ Unavailable)) ⊎ (result ≡ BadCard fault) }
{
    match fault.kind {
        CardFaultKind::Memory => Refusal::Unavailable,
        _ => Refusal::BadCard(fault),
    }
}

/// The text is a card.
pub(crate) fn check_card(alloc: Global, text: &Text) -> Result<(), Refusal>
    ensures { Meets result (bad_card (card_fault text.now)) }
{
    if let Err(fault) = read_card(alloc, text.as_str()) {
        return Err(card_refusal(fault));
    }
    Ok(())
}

/// The path of a principal. An error is want of memory: each principal's text spells a path.
pub(crate) fn path_of(alloc: Global, principal: &Principal) -> Result<Path, Refusal>
    ensures { PathOf principal.now result }
{
    principal.known();
    match Path::parse(alloc, principal.text()) {
        Ok(path) => Ok(path),
        Err(_) => Err(Refusal::Unavailable),
    }
}

/// Why a list is refused.
pub(crate) fn list_refusal(fault: EditFault) -> Refusal
    ensures { result ≡ list_refusal fault }
{
    match fault {
        EditFault::NoProtectedAceConflict => Refusal::NoProtectedAceConflict,
        EditFault::NoInheritedAceConflict => Refusal::NoInheritedAceConflict,
        EditFault::LimitedNumberOfAces => Refusal::LimitedNumberOfAces,
        EditFault::NotSupportedPrivilege => Refusal::NotSupportedPrivilege,
        EditFault::RecognizedPrincipal => Refusal::RecognizedPrincipal,
    }
}

/// Whether what is asked is asked of a resource of this kind: members are set of a group, the reports on changes and on
/// names are of a book, and the members that a report tells are those of a card.
fn suits(asked: &Asked, kind: Kind) -> bool
    ensures { result ≡ suits asked.now kind }
{
    match asked {
        Asked::Proppatch(Patch::GroupMembers(_)) => kind == Kind::Group,
        Asked::Report(ReportKind::SyncCollection(_)) | Asked::Report(ReportKind::Names) => kind
            == Kind::Book,
        Asked::Report(ReportKind::GroupMembers) => kind == Kind::Card,
        Asked::Get
        | Asked::Head
        | Asked::Options
        | Asked::Put(_)
        | Asked::Propfind(_)
        | Asked::Proppatch(Patch::DisplayName(_))
        | Asked::Acl(_)
        | Asked::Copy(_)
        | Asked::Move(_)
        | Asked::Delete
        | Asked::Mkcol
        | Asked::Report(ReportKind::Effective(_)) => true,
    }
}

/// The kind of the resource at which something is asked is one of which it is asked.
pub(crate) fn check_suits(asked: &Asked, target: &Target<'_>) -> Result<(), Refusal>
    ensures { result ≡ suits_target asked.now (target_seen target.now) }
{
    let kind = target.path.kind();
    check(
        suits(asked, kind),
        Refusal::NotAllowed(AllowedMethods::of(kind)),
    )
}

/// What is mapped at a destination may be replaced, or nothing is mapped there.
pub(crate) fn replaceable(overwrite: bool, taken: bool) -> Result<bool, Refusal>
    ensures { result ≡ replaceable overwrite taken }
{
    if taken {
        check(overwrite, Refusal::Overwrite)?;
    }
    Ok(taken)
}

/// Whether the number of a book can rise.
pub(crate) fn can_change(book: &Option<Node>) -> bool
    ensures { result ≡ can_change book.now }
{
    match book {
        Some(book) => book.number < LAST_NUMBER,
        None => false,
    }
}

/// Whether the number of a book can rise twice.
pub(crate) fn can_change_twice(book: &Option<Node>) -> bool
    ensures { result ≡ can_change_twice book.now }
{
    match book {
        Some(book) => book.number < LAST_NUMBER - 1,
        None => false,
    }
}

/// Whether a book has had fewer changes than it may have cards.
pub(crate) fn is_young(book: &Option<Node>) -> bool
    ensures { IsTrue result ↔ IsSomeAnd book.now (λ (node : NodeOf). node.number < MAX_CARDS) }
{
    match book {
        Some(book) => book.number < MAX_CARDS as u64,
        None => false,
    }
}

/// Who owns what is made.
fn owner_of(caller: Caller) -> Option<Principal>
    ensures { result ≡ owner_of caller }
{
    match caller {
        Caller::Nobody => None,
        Caller::Known(person) => Some(person),
    }
}

/// The text of the card that is asked for. Takes no memory.
fn text_of(node: Option<Node>) -> Result<Text, Refusal>
    ensures { result ≡ text_of node }
{
    match node {
        Some(Node { text, .. }) => match text {
            Some(text) => Ok(text),
            None => Err(Refusal::NotFound),
        },
        None => Err(Refusal::NotFound),
    }
}

fn put_edit(caller: Caller, text: Text, path: Path) -> Result<Edit, Refusal>
    ensures { result ≡ put_edit caller text path }
{
    match path {
        Path::Card(book, card) => Ok(Edit::PutCard {
            book,
            card,
            owner: owner_of(caller),
            text,
        }),
        Path::Root
        | Path::People
        | Path::Groups
        | Path::Books
        | Path::Person(_)
        | Path::Group(_)
        | Path::Book(_) => Err(Refusal::NotFound),
    }
}

fn copy_edit(caller: Caller, path: Path, to: Destination) -> Result<Edit, Refusal>
    ensures { result ≡ copy_edit caller path to }
{
    match path {
        Path::Card(book, card) => Ok(Edit::CopyCard {
            from_book: book,
            from_card: card,
            to_book: to.book,
            to_card: to.card,
            owner: owner_of(caller),
        }),
        Path::Root
        | Path::People
        | Path::Groups
        | Path::Books
        | Path::Person(_)
        | Path::Group(_)
        | Path::Book(_) => Err(Refusal::NotFound),
    }
}

fn move_edit(path: Path, to: Destination) -> Result<Edit, Refusal>
    ensures { result ≡ move_edit path to }
{
    match path {
        Path::Card(book, card) => Ok(Edit::MoveCard {
            from_book: book,
            from_card: card,
            to_book: to.book,
            to_card: to.card,
        }),
        Path::Root
        | Path::People
        | Path::Groups
        | Path::Books
        | Path::Person(_)
        | Path::Group(_)
        | Path::Book(_) => Err(Refusal::NotFound),
    }
}

fn delete_edit(path: Path) -> Result<Edit, Refusal>
    ensures { result ≡ delete_edit path }
{
    match path {
        Path::Card(book, card) => Ok(Edit::RemoveCard { book, card }),
        Path::Book(book) => Ok(Edit::RemoveBook { book }),
        Path::Root | Path::People | Path::Groups | Path::Books | Path::Person(_) | Path::Group(_) =>
            Err(Refusal::NotFound),
    }
}

fn mkcol_edit(caller: Caller, path: Path) -> Result<Edit, Refusal>
    ensures { result ≡ mkcol_edit caller path }
{
    match path {
        Path::Book(book) => Ok(Edit::AddBook {
            book,
            owner: owner_of(caller),
        }),
        Path::Root
        | Path::People
        | Path::Groups
        | Path::Books
        | Path::Person(_)
        | Path::Group(_)
        | Path::Card(_, _) => Err(Refusal::NotFound),
    }
}

/// A plan with this reply and this edit.
pub(crate) fn replied(status: u16, content: Content, edit: Option<Edit>) -> Plan
    ensures { result ≡ replied status content edit }
{
    Plan {
        reply: Reply { status, content },
        edit,
    }
}

fn put_status(replaces: bool) -> u16
    ensures { result ≡ put_status replaces }
{
    if replaces { 204 } else { 201 }
}

/// The edit that sets the members of a group.
fn members_edit(alloc: Global, path: Path, members: Items<Principal>) -> Result<Edit, Refusal>
    ensures { Meets result (members_edit path members) }
{
    match path {
        Path::Group(name) => Ok(Edit::SetMembers {
            group: Principal::group(alloc, &name)?,
            members,
        }),
        Path::Root
        | Path::People
        | Path::Groups
        | Path::Books
        | Path::Person(_)
        | Path::Book(_)
        | Path::Card(_, _) => Err(Refusal::NotFound),
    }
}

fn patch_edit(alloc: Global, path: Path, patch: Patch) -> Result<Edit, Refusal>
    ensures { Meets result (patch_edit path patch) }
{
    match patch {
        Patch::DisplayName(label) => Ok(Edit::SetLabel { path, label }),
        Patch::GroupMembers(members) => members_edit(alloc, path, members),
    }
}

/// The entries of a list that is accepted.
fn entries_of(alloc: Global, list: Items<Submitted>) -> Result<Items<Entry>, AllocError>
    ensures { IfOk result (λ entries. entries ≡ entries_of list) }
{
    let mut entries = Vec::with_capacity(alloc, list.len())?;
    for submitted in list.into_vec() {
        if let Some(entry) = submitted.into_entry() {
            entries.push(entry)?;
        }
    }
    Ok(Items::from_vec(entries))
}

/// The text of a card.
pub(crate) fn card_plan(node: Option<Node>) -> Result<Plan, Refusal>
    ensures { Meets result (card_plan node) }
{
    Ok(replied(200, Content::Card(text_of(node)?), None))
}

/// The methods that the resource allows.
pub(crate) fn allow_plan(path: &Path) -> Result<Plan, Refusal>
    ensures { Meets result (allow_plan path.now) }
{
    let methods = AllowedMethods::of(path.kind());
    Ok(replied(200, Content::Allow(methods), None))
}

/// A card is put.
pub(crate) fn put_plan(caller: Caller, text: Text, target: Target<'_>) -> Result<Plan, Refusal>
    ensures { Meets result (put_plan caller text (target_seen target.entry)) }
{
    let Target { path, node, .. } = target;
    let status = put_status(node.is_some());
    let edit = put_edit(caller, text, copy_of(path)?)?;
    Ok(replied(status, Content::Empty, Some(edit)))
}

/// A property is set.
pub(crate) fn patch_plan(alloc: Global, path: &Path, patch: Patch) -> Result<Plan, Refusal>
    ensures { Meets result (patch_plan path.now patch) }
{
    let edit = patch_edit(alloc, copy_of(path)?, patch)?;
    Ok(replied(200, Content::Empty, Some(edit)))
}

/// An own list is set.
pub(crate) fn acl_plan(alloc: Global, path: &Path, list: Items<Submitted>) -> Result<Plan, Refusal>
    ensures { Meets result (acl_plan path.now list) }
{
    let path = copy_of(path)?;
    let entries = entries_of(alloc, list)?;
    let edit = Edit::SetList { path, entries };
    Ok(replied(200, Content::Empty, Some(edit)))
}

/// A card is copied.
pub(crate) fn copy_plan(
    caller: Caller,
    to: Destination,
    target: Target<'_>,
) -> Result<Plan, Refusal>
    ensures { Meets result (copy_plan caller to (target_seen target.entry)) }
{
    let Target { path, replaces, .. } = target;
    let edit = copy_edit(caller, copy_of(path)?, to)?;
    Ok(replied(put_status(replaces), Content::Empty, Some(edit)))
}

/// A card is moved.
pub(crate) fn move_plan(to: Destination, target: Target<'_>) -> Result<Plan, Refusal>
    ensures { Meets result (move_plan to (target_seen target.entry)) }
{
    let Target { path, replaces, .. } = target;
    let edit = move_edit(copy_of(path)?, to)?;
    Ok(replied(put_status(replaces), Content::Empty, Some(edit)))
}

/// A card or a book is removed.
pub(crate) fn delete_plan(path: &Path) -> Result<Plan, Refusal>
    ensures { Meets result (delete_plan path.now) }
{
    let edit = delete_edit(copy_of(path)?)?;
    Ok(replied(204, Content::Empty, Some(edit)))
}

/// A book is made.
pub(crate) fn mkcol_plan(caller: Caller, path: &Path) -> Result<Plan, Refusal>
    ensures { Meets result (mkcol_plan caller path.now) }
{
    let edit = mkcol_edit(caller, copy_of(path)?)?;
    Ok(replied(201, Content::Empty, Some(edit)))
}
