//! What each request meets.

ghost use Rattle.book_machine.specs.Asking.{HasPath, HasTexts, IsWellFormed};

use book_machine::{Body, Patch, Request};
use book_office_values::Path;

/// Hands out that the names of a path are names.
fn has_path(path: &Option<Path>)
    ensures { HasPath path.now }
{
    if let Some(path) = path {
        path.known();
    }
}

/// Hands out that the text of a card and a label are UTF-8.
fn has_texts(body: &Body)
    ensures { HasTexts body.now }
{
    match body {
        Body::Text(text) => text.known(),
        Body::Patch(Patch::DisplayName(label)) => label.known(),
        Body::Empty
        | Body::Find(_)
        | Body::Patch(Patch::GroupMembers(_))
        | Body::List(_)
        | Body::Report(_)
        | Body::Unread => {}
    }
}

/// Hands out the rule that each request meets.
pub(crate) fn known(request: &Request)
    ensures { IsWellFormed request.now }
{
    has_path(&request.path);
    has_path(&request.destination);
    has_texts(&request.body);
}
