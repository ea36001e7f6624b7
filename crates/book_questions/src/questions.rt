//! What is asked.

ghost use Rattle.std.specs.Prelude.{◌≡◌, IfOk, option_map};
ghost use Rattle.book_wire_targets.specs.Targets.{method_named};
ghost use Rattle.std.specs.Option.{option_copied};
ghost use Rattle.book_questions.specs.Questions.{IsRequestOf, ReadsDestination, ReadsPath, ReadsQuestion, asking_named, asks_properties, asks_report, asks_usually, usual_body};

use book_lists::Caller;
use book_machine::{
    Body, Depth, Flag, Patch, Property, ReportKind, Request, SyncFrom, SyncRequest,
};
use book_office_values::{Items, Path, PathFault, Text};
use book_rights::{Method, Privilege};
use book_wire_targets::method_named;
use std::alloc::{AllocError, Global};

/// What is asked of a caller.
#[derive(Debug, Drop)]
pub enum Question {
    /// Why a request is granted or denied.
    OfRequest(Request),
    /// Why a privilege is granted or denied at a path; none where its text was no path.
    OfPrivilege(Privilege, Option<Path>),
}

/// A method, with a body in order.
#[derive(Drop)]
struct Asking {
    /// The method.
    method: Method,
    /// The body.
    body: Body,
}

/// A body in order for a method. Takes no memory.
fn usual_body(alloc: Global, method: Method) -> Body
    ensures { result ≡ usual_body method }
{
    match method {
        Method::Proppatch => Body::Patch(Patch::DisplayName(Text::from_string(String::new(alloc)))),
        Method::Acl => Body::List(Items::new(alloc)),
        Method::Get
        | Method::Head
        | Method::Options
        | Method::Put
        | Method::Propfind
        | Method::Copy
        | Method::Move
        | Method::Delete
        | Method::Mkcol
        | Method::Report => Body::Empty,
    }
}

/// The question for a report.
fn asks_report(which: ReportKind) -> Asking
    ensures { result ≡ asks_report which }
{
    Asking {
        method: Method::Report,
        body: Body::Report(which),
    }
}

/// The question for properties.
fn asks_properties(alloc: Global, properties: &[Property]) -> Result<Asking, AllocError>
    ensures { IfOk result (λ asking. asking ≡ asks_properties properties.now) }
{
    let mut asked = Vec::with_capacity(alloc, properties.len())?;
    for property in properties {
        asked.push(*property)?;
    }
    Ok(Asking {
        method: Method::Propfind,
        body: Body::Find(Items::from_vec(asked)),
    })
}

/// The method that a word names, with a body in order.
fn asking_named(alloc: Global, word: &str) -> Result<Option<Asking>, AllocError>
    ensures { IfOk result (λ asking. asking ≡ asking_named word.now) }
{
    if word == "REPORT:sync-collection" {
        let all = SyncRequest {
            from: SyncFrom::Start,
            limit: None,
        };
        Ok(Some(asks_report(ReportKind::SyncCollection(all))))
    } else if word == "REPORT:group-members" {
        Ok(Some(asks_report(ReportKind::GroupMembers)))
    } else if word == "REPORT:effective" {
        Ok(Some(asks_report(ReportKind::Effective(Caller::Nobody))))
    } else if word == "REPORT:names" {
        Ok(Some(asks_report(ReportKind::Names)))
    } else if word == "PROPFIND:acl" {
        Ok(Some(asks_properties(alloc, &[Property::Acl])?))
    } else if word == "PROPFIND:current-user-privilege-set" {
        Ok(Some(asks_properties(alloc, &[Property::CurrentUserPrivilegeSet])?))
    } else if word == "PROPFIND:acl,current-user-privilege-set" {
        Ok(Some(asks_properties(alloc, &[Property::Acl, Property::CurrentUserPrivilegeSet])?))
    } else if word == "PROPFIND:current-user-privilege-set,acl" {
        Ok(Some(asks_properties(alloc, &[Property::Acl, Property::CurrentUserPrivilegeSet])?))
    } else {
        Ok(asks_usually(alloc, word))
    }
}

/// The method that a word names by itself.
fn asks_usually(alloc: Global, word: &str) -> Option<Asking>
    ensures { result ≡ option_map asks_usually (method_named word.now) }
{
    let method = method_named(word.as_bytes())?;
    Some(Asking {
        method,
        body: usual_body(alloc, method),
    })
}

/// The path that a text spells; none where it spells none.
fn path_of(alloc: Global, text: &str) -> Result<Option<Path>, AllocError>
    ensures { IfOk result (ReadsPath text.now) }
{
    match Path::parse(alloc, text) {
        Ok(path) => Ok(Some(path)),
        Err(PathFault::BadPath) => Ok(None),
        Err(PathFault::Memory) => Err(AllocError),
    }
}

/// The path of a destination, if there is one.
fn destination_of(alloc: Global, text: Option<&str>) -> Result<Option<Path>, AllocError>
    ensures { IfOk result (ReadsDestination (option_copied text.entry)) }
{
    match text {
        Some(text) => path_of(alloc, text),
        None => Ok(None),
    }
}

/// The path of a request, and that of its destination.
fn paths_of(
    alloc: Global,
    path: &str,
    destination: Option<&str>,
) -> Result<(Option<Path>, Option<Path>), AllocError>
    ensures { IfOk result (λ paths. ReadsPath path.now paths.0
        × ReadsDestination (option_copied destination.entry) paths.1) }
{
    let path = path_of(alloc, path)?;
    let destination = destination_of(alloc, destination)?;
    Ok((path, destination))
}

/// The request of a method.
fn request_of(
    alloc: Global,
    asking: Asking,
    path: &str,
    destination: Option<&str>,
) -> Result<Request, AllocError>
    ensures { IfOk result (IsRequestOf asking path.now (option_copied destination.entry)) }
{
    let Ok((path, destination)) = paths_of(alloc, path, destination) else {
        drop(asking);
        return Err(AllocError);
    };
    let Asking { method, body } = asking;
    Ok(Request {
        method,
        path,
        destination,
        overwrite: Flag::Yes,
        depth: Depth::Zero,
        body,
    })
}

/// What is asked at a path of a caller: by the name of a method, or of a privilege; none where the word names neither.
/// An error is want of memory.
///
/// A method is named as in a request; `REPORT:sync-collection`, `REPORT:group-members`, `REPORT:effective`,
/// `REPORT:names`, `PROPFIND:acl` and `PROPFIND:current-user-privilege-set`, both of these with a comma, tell its body,
/// since what these need rests on it. A card at the destination may be replaced.
pub fn question_of(
    alloc: Global,
    what: &str,
    path: &str,
    destination: Option<&str>,
) -> Result<Option<Question>, AllocError>
    ensures { IfOk result (ReadsQuestion what.now path.now (option_copied destination.entry)) }
{
    if let Some(asking) = asking_named(alloc, what)? {
        let request = request_of(alloc, asking, path, destination)?;
        return Ok(Some(Question::OfRequest(request)));
    }
    match Privilege::from_name(what) {
        Some(privilege) => Ok(Some(Question::OfPrivilege(privilege, path_of(alloc, path)?))),
        None => Ok(None),
    }
}
