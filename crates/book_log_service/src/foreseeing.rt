//! What an edit is to do, found out before it.

ghost use Rattle.std.specs.Prelude.{◌≡◌, IfOk, IfNone, IfSome, None, Some, is_some, option_and_then, option_map, unwrap_or};
ghost use Rattle.book_log_replies.specs.Effects.{both, card_if, raises_asked, sets_members, touches_destination, touches_path};
ghost use Rattle.book_machine.specs.Named.{path_book};
ghost use Rattle.book_log_service.specs.Foreseeing.{ahead_by, book_number, book_of, foreseen, next_cards, next_of, raised_by, second_ahead};
ghost use Rattle.book_office.specs.Keeping.{Reads};
ghost use Rattle.book_office.specs.declared.nodes.Node.{Node as NodeOf};

use book_lists::Name;
use book_log_lines::Touched;
use book_log_replies::Effect;
use book_machine::{Body, Patch, Request};
use book_office::{Keeper, Node, StoreFault};
use book_office_values::{Items, Path};
use book_rights::Method;
use std::alloc::{AllocError, Global};

/// Whether an edit by the method touches the card that is asked for.
fn touches_path(method: Method) -> bool
    ensures { result ≡ touches_path method }
{
    match method {
        Method::Put | Method::Proppatch | Method::Move | Method::Delete => true,
        Method::Get
        | Method::Head
        | Method::Options
        | Method::Propfind
        | Method::Acl
        | Method::Copy
        | Method::Mkcol
        | Method::Report => false,
    }
}

/// Whether an edit by the method touches the card at its destination.
fn touches_destination(method: Method) -> bool
    ensures { result ≡ touches_destination method }
{
    match method {
        Method::Copy | Method::Move => true,
        Method::Get
        | Method::Head
        | Method::Options
        | Method::Put
        | Method::Propfind
        | Method::Proppatch
        | Method::Acl
        | Method::Delete
        | Method::Mkcol
        | Method::Report => false,
    }
}

/// Whether the body sets the members of a group.
fn sets_members(body: &Body) -> bool
    ensures { result ≡ sets_members body.now }
{
    match body {
        Body::Patch(Patch::GroupMembers(_)) => true,
        Body::Patch(Patch::DisplayName(_))
        | Body::Empty
        | Body::Text(_)
        | Body::Find(_)
        | Body::List(_)
        | Body::Report(_)
        | Body::Unread => false,
    }
}

/// Whether the path is that of a book.
fn is_book(path: &Option<Path>) -> bool
    ensures { result ≡ is_some (option_and_then path_book path.now) }
{
    match path {
        Some(Path::Book(_)) => true,
        Some(
            Path::Root
            | Path::People
            | Path::Groups
            | Path::Books
            | Path::Person(_)
            | Path::Group(_)
            | Path::Card(_, _),
        )
        | None => false,
    }
}

/// Whether an edit raises the epoch: a new own list, new members, or the end of a book.
fn raises(request: &Request) -> bool
    ensures { result ≡ raises_asked request.now.method request.now.path request.now.body }
{
    match request.method {
        Method::Acl => true,
        Method::Proppatch => sets_members(&request.body),
        Method::Delete => is_book(&request.path),
        Method::Get
        | Method::Head
        | Method::Options
        | Method::Put
        | Method::Propfind
        | Method::Copy
        | Method::Move
        | Method::Mkcol
        | Method::Report => false,
    }
}

/// The names of the card at a path and of its book, the book's first, if the path is that of a card and is touched.
fn card_if(wanted: bool, path: &Option<Path>) -> Option<(&Name, &Name)>
    ensures some { IfSome result (λ card. card_if wanted path.now ≡ Some
        (card.0.now, card.1.now)) }
    ensures none { IfNone result (card_if wanted path.now ≡ None) }
{
    if !wanted {
        return None;
    }
    match path {
        Some(Path::Card(book, card)) => Some((book, card)),
        Some(
            Path::Root
            | Path::People
            | Path::Groups
            | Path::Books
            | Path::Person(_)
            | Path::Group(_)
            | Path::Book(_),
        )
        | None => None,
    }
}

/// How many ahead of its book the number of the card at the destination will be: two, where it has the book of the card
/// that is touched before it, and else one.
fn second_ahead(request: &Request) -> u64
    ensures { result ≡ second_ahead
        (book_of (card_if (touches_path request.now.method) request.now.path))
        (book_of (card_if (touches_destination request.now.method) request.now.destination)) }
{
    let Some((book, _)) = card_if(touches_path(request.method), &request.path) else {
        return 1;
    };
    let Some((other, _)) = card_if(touches_destination(request.method), &request.destination) else {
        return 1;
    };
    if book == other { 2 } else { 1 }
}

/// The number of what was found, 0 where it is nothing.
fn number_in(found: Option<Node>) -> u64
    ensures { result ≡ unwrap_or (option_map (λ (node : NodeOf). node.number) found) 0 }
{
    match found {
        Some(node) => node.number,
        None => 0,
    }
}

/// The number of a book, 0 where there is none.
fn book_number<K: Keeper>(keeper: &mut K, alloc: Global, book: &Name) -> Result<u64, StoreFault>
    ensures { Reads (K.standing keeper.old) (K.standing keeper.new) result
        (λ o number. number ≡ book_number o book.now) }
{
    let name = book.clone()?;
    let path = Path::Book(name);
    let node = keeper.find(alloc, &path)?;
    Ok(number_in(node))
}

/// A card with a number so many ahead of its book's.
fn next_of<K: Keeper>(
    keeper: &mut K,
    alloc: Global,
    book: &Name,
    card: &Name,
    ahead: u64,
) -> Result<Touched, StoreFault>
    ensures { Reads (K.standing keeper.old) (K.standing keeper.new) result
        (λ o next. next ≡ next_of o ahead (book.now, card.now)) }
{
    let number = book_number(keeper, alloc, book)?;
    let above = book.clone()?;
    let name = card.clone()?;
    Ok(Touched {
        path: Path::Card(above, name),
        number: number.saturating_add(ahead),
    })
}

/// The card at a path with a number so many ahead of its book's, if the path is that of a card and is touched.
fn next_at<K: Keeper>(
    keeper: &mut K,
    alloc: Global,
    wanted: bool,
    path: &Option<Path>,
    ahead: u64,
) -> Result<Option<Touched>, StoreFault>
    ensures { Reads (K.standing keeper.old) (K.standing keeper.new) result
        (λ o next. next ≡ option_map (next_of o ahead) (card_if wanted path.now)) }
{
    let Some((book, card)) = card_if(wanted, path) else {
        return Ok(None);
    };
    let next = next_of(keeper, alloc, book, card, ahead)?;
    Ok(Some(next))
}

/// The one and the other, of those that there are. An error is want of memory.
fn both(
    alloc: Global,
    first: Option<Touched>,
    second: Option<Touched>,
) -> Result<Items<Touched>, AllocError>
    ensures { IfOk result (λ touched. touched ≡ both first second) }
{
    let mut touched = Items::new(alloc);
    if let Some(first) = first {
        touched.push(first)?;
    }
    if let Some(second) = second {
        touched.push(second)?;
    }
    Ok(touched)
}

/// By how many the epoch rises.
fn raised_by(raises: bool) -> u64
    ensures { result ≡ raised_by raises }
{
    if raises { 1 } else { 0 }
}

/// The epoch after an edit.
fn next_epoch<K: Keeper>(keeper: &mut K, raises: bool) -> Result<u64, StoreFault>
    ensures { Reads (K.standing keeper.old) (K.standing keeper.new) result
        (λ o epoch. epoch ≡ ahead_by o.epoch (raised_by raises)) }
{
    let epoch = keeper.epoch()?;
    Ok(epoch.saturating_add(raised_by(raises)))
}

/// The cards that an edit touches, each with the number that it will have.
fn next_cards<K: Keeper>(
    keeper: &mut K,
    alloc: Global,
    request: &Request,
) -> Result<Items<Touched>, StoreFault>
    ensures { Reads (K.standing keeper.old) (K.standing keeper.new) result
        (λ o touched. touched ≡ next_cards o
        (card_if (touches_path request.now.method) request.now.path)
        (card_if (touches_destination request.now.method) request.now.destination)) }
{
    let of_path = touches_path(request.method);
    let of_destination = touches_destination(request.method);
    let ahead = second_ahead(request);
    let first = next_at(keeper, alloc, of_path, &request.path, 1)?;
    let second = next_at(keeper, alloc, of_destination, &request.destination, ahead)?;
    let touched = both(alloc, first, second)?;
    Ok(touched)
}

/// What an edit is to do: the cards that it touches, each with the number that it will have, and the epoch after it. The
/// keeper is asked for the epoch, and for the number of each book whose card is touched.
pub(crate) fn foreseen<K: Keeper>(
    keeper: &mut K,
    alloc: Global,
    request: &Request,
) -> Result<Effect, StoreFault>
    ensures { Reads (K.standing keeper.old) (K.standing keeper.new) result
        (λ o effect. effect ≡ foreseen o request.now) }
{
    let raises = raises(request);
    let epoch = next_epoch(keeper, raises)?;
    let touched = next_cards(keeper, alloc, request)?;
    Ok(Effect {
        touched,
        epoch: Some(epoch),
    })
}
