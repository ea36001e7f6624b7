//! What a request asks, with its words.

ghost use Rattle.std.specs.Prelude.{◌≡◌, IfOk, option_map, option_copied};
ghost use Rattle.serde_json.specs.View.{view};
ghost use Rattle.book_desk_control.specs.Demands as spec;

use crate::bytes::Bytes;
use crate::questions::Question;
use crate::words::{Form, Words, copied, flag_at, object_of, text_at, text_if, words_at};
use book_office_values::Text;
use serde_json::Value;
use std::alloc::{AllocError, Global};

/// The words of an audit: `{"at":PATH,"books":true,"labels":true}`, each of which may be left out.
#[derive(Drop)]
pub struct AuditBody {
    /// The path at which and below which resources are told.
    pub at: Option<Text>,
    /// Whether cards without a list of their own are left out.
    pub books: bool,
    /// Whether labels are told.
    pub labels: bool,
}

/// The words of a question about a caller:
/// `{"caller":NAME,"what":METHOD,"path":PATH,"destination":PATH,"json":true}`, of which the last two may be left out.
#[derive(Drop)]
pub struct WhyBody {
    /// The bare name of a person; a dash is nobody.
    pub caller: Text,
    /// A method, or a privilege.
    pub what: Text,
    /// The path of the resource.
    pub path: Text,
    /// The path of a destination.
    pub destination: Option<Text>,
    /// Whether the answer is told as objects.
    pub json: bool,
}

/// The words of a question about everybody: `{"privilege":NAME,"path":PATH,"denied":true,"json":true}`, of which the last two may
/// be left out.
#[derive(Drop)]
pub struct WhoBody {
    /// The privilege.
    pub privilege: Text,
    /// The path of the resource.
    pub path: Text,
    /// Whether those to whom it is denied are told.
    pub denied: bool,
    /// Whether the answer is told as objects.
    pub json: bool,
}

/// The words of a question about all rights: `{"at":PATH,"caller":NAME,"shared":true,"json":true}`, each of which may be left
/// out.
#[derive(Drop)]
pub struct RightsBody {
    /// The path at which and below which they are told.
    pub at: Option<Text>,
    /// The bare name of the person whose rights are told.
    pub caller: Option<Text>,
    /// Whether only cards are told whose own list gives more than their book.
    pub shared: bool,
    /// Whether the answer is told as objects.
    pub json: bool,
}

/// The words of a decision: `{"caller":NAME,"path":PATH,"privileges":[NAME, ..]}`.
#[derive(Drop)]
pub struct AskBody {
    /// The bare name of a person; a dash is nobody.
    pub caller: Text,
    /// The path of the resource.
    pub path: Text,
    /// The privileges, at least one.
    pub privileges: Words,
}

/// What a request asks, with its words.
#[derive(Drop)]
pub enum Demand {
    /// How the server does.
    Health,
    /// What it counted.
    Metrics,
    /// The owners and lists.
    Audit(AuditBody),
    /// Why something is granted to a caller, or denied.
    Why(WhyBody),
    /// To whom a privilege is granted, or denied.
    Who(WhoBody),
    /// Who holds which rights.
    Rights(RightsBody),
    /// What a decision rests on.
    Ask(AskBody),
    /// The resource at this path.
    Show(Text),
    /// The faults of this policy, and what it leaves open; whether it is to leave nothing open.
    Check(Bytes, bool),
    /// What adopting this policy would change; whether it is to change nothing.
    Differs(Bytes, bool),
    /// That this policy is adopted.
    Policy(Bytes),
    /// The Office as text.
    Dump,
    /// That the store is copied to the file of this name.
    Backup(Text),
    /// That the server ends.
    Stop,
}

/// The text of a word, if there is one. Takes no memory.
pub fn text_in(word: &Option<Text>) -> Option<&str>
    ensures { option_copied result ≡ word.now }
{
    match word {
        Some(word) => Some(word.as_str()),
        None => None,
    }
}

/// The words of an audit. An error is want of memory.
fn audit_demand(alloc: Global, value: &Value) -> Result<Option<Demand>, AllocError>
    ensures { IfOk result (λ demand. demand ≡ spec.audit_demand (view value.now)) }
{
    let Some(at) = text_if(value, "at") else {
        return Ok(None);
    };
    let Some(books) = flag_at(value, "books") else {
        return Ok(None);
    };
    let Some(labels) = flag_at(value, "labels") else {
        return Ok(None);
    };
    let at = copied(alloc, at)?;
    Ok(Some(Demand::Audit(AuditBody { at, books, labels })))
}

/// The words of a question about a caller. An error is want of memory.
fn why_demand(alloc: Global, value: &Value) -> Result<Option<Demand>, AllocError>
    ensures { IfOk result (λ demand. demand ≡ spec.why_demand (view value.now)) }
{
    let Some(caller) = text_at(value, "caller") else {
        return Ok(None);
    };
    let Some(what) = text_at(value, "what") else {
        return Ok(None);
    };
    let Some(path) = text_at(value, "path") else {
        return Ok(None);
    };
    let Some(destination) = text_if(value, "destination") else {
        return Ok(None);
    };
    let Some(json) = flag_at(value, "json") else {
        return Ok(None);
    };
    let body = why_body(alloc, caller, what, path, destination, json)?;
    Ok(Some(Demand::Why(body)))
}

/// Copies of the words of a question about a caller. An error is want of memory.
fn why_body(
    alloc: Global,
    caller: &str,
    what: &str,
    path: &str,
    destination: Option<&str>,
    json: bool,
) -> Result<WhyBody, AllocError>
    ensures { IfOk result (λ body. body ≡ spec.why_body caller.now what.now path.now
        (option_copied destination.entry) json) }
{
    Ok(WhyBody {
        caller: Text::copy_of(alloc, caller)?,
        what: Text::copy_of(alloc, what)?,
        path: Text::copy_of(alloc, path)?,
        destination: copied(alloc, destination)?,
        json,
    })
}

/// The words of a question about everybody. An error is want of memory.
fn who_demand(alloc: Global, value: &Value) -> Result<Option<Demand>, AllocError>
    ensures { IfOk result (λ demand. demand ≡ spec.who_demand (view value.now)) }
{
    let Some(privilege) = text_at(value, "privilege") else {
        return Ok(None);
    };
    let Some(path) = text_at(value, "path") else {
        return Ok(None);
    };
    let Some(denied) = flag_at(value, "denied") else {
        return Ok(None);
    };
    let Some(json) = flag_at(value, "json") else {
        return Ok(None);
    };
    let privilege = Text::copy_of(alloc, privilege)?;
    let path = Text::copy_of(alloc, path)?;
    Ok(Some(Demand::Who(WhoBody {
        privilege,
        path,
        denied,
        json,
    })))
}

/// The words of a question about all rights. An error is want of memory.
fn rights_demand(alloc: Global, value: &Value) -> Result<Option<Demand>, AllocError>
    ensures { IfOk result (λ demand. demand ≡ spec.rights_demand (view value.now)) }
{
    let Some(at) = text_if(value, "at") else {
        return Ok(None);
    };
    let Some(caller) = text_if(value, "caller") else {
        return Ok(None);
    };
    let Some(shared) = flag_at(value, "shared") else {
        return Ok(None);
    };
    let Some(json) = flag_at(value, "json") else {
        return Ok(None);
    };
    let at = copied(alloc, at)?;
    let caller = copied(alloc, caller)?;
    Ok(Some(Demand::Rights(RightsBody {
        at,
        caller,
        shared,
        json,
    })))
}

/// The words of a decision. An error is want of memory.
fn ask_demand(alloc: Global, value: &Value) -> Result<Option<Demand>, AllocError>
    ensures { IfOk result (λ demand. demand ≡ spec.ask_demand (view value.now)) }
{
    let Some(caller) = text_at(value, "caller") else {
        return Ok(None);
    };
    let Some(path) = text_at(value, "path") else {
        return Ok(None);
    };
    let Some(privileges) = words_at(alloc, value, "privileges")? else {
        return Ok(None);
    };
    let caller = Text::copy_of(alloc, caller)?;
    let path = Text::copy_of(alloc, path)?;
    Ok(Some(Demand::Ask(AskBody {
        caller,
        path,
        privileges,
    })))
}

/// The path of a resource. An error is want of memory.
fn show_demand(alloc: Global, value: &Value) -> Result<Option<Demand>, AllocError>
    ensures { IfOk result (λ demand. demand ≡ spec.show_demand (view value.now)) }
{
    let Some(path) = text_at(value, "path") else {
        return Ok(None);
    };
    Ok(Some(Demand::Show(Text::copy_of(alloc, path)?)))
}

/// The name of a file. An error is want of memory.
fn backup_demand(alloc: Global, value: &Value) -> Result<Option<Demand>, AllocError>
    ensures { IfOk result (λ demand. demand ≡ spec.backup_demand (view value.now)) }
{
    let Some(name) = text_at(value, "to") else {
        return Ok(None);
    };
    Ok(Some(Demand::Backup(Text::copy_of(alloc, name)?)))
}

/// What an object asks. An error is want of memory.
fn demand_in(alloc: Global, form: Form, value: &Value) -> Result<Option<Demand>, AllocError>
    ensures { IfOk result (λ demand. demand ≡ spec.demand_in form (view value.now)) }
{
    match form {
        Form::Audit => audit_demand(alloc, value),
        Form::Why => why_demand(alloc, value),
        Form::Who => who_demand(alloc, value),
        Form::Rights => rights_demand(alloc, value),
        Form::Ask => ask_demand(alloc, value),
        Form::Show => show_demand(alloc, value),
        Form::Backup => backup_demand(alloc, value),
    }
}

/// What the object of a body asks. An error is want of memory.
fn words_demand(alloc: Global, form: Form, bytes: &[u8]) -> Result<Option<Demand>, AllocError>
    ensures { IfOk result (λ demand. demand ≡ spec.words_demand form bytes.now) }
{
    match object_of(alloc, form, bytes)? {
        Some(value) => demand_in(alloc, form, &value),
        None => Ok(None),
    }
}

/// A question that has no body.
#[derive(Clone, Copy)]
enum Bare {
    Health,
    Metrics,
    Dump,
    Stop,
}

/// What is asked without a body, where there is none.
fn bare_demand(bare: Bare, bytes: &[u8]) -> Option<Demand>
    ensures { result ≡ spec.bare_demand bare bytes.now }
{
    if !bytes.is_empty() {
        return None;
    }
    match bare {
        Bare::Health => Some(Demand::Health),
        Bare::Metrics => Some(Demand::Metrics),
        Bare::Dump => Some(Demand::Dump),
        Bare::Stop => Some(Demand::Stop),
    }
}

/// What a question asks with this body; none where the body has not the form that the question asks. An error is want of
/// memory.
pub(crate) fn demand_of(
    alloc: Global,
    question: Question,
    body: Bytes,
) -> Result<Option<Demand>, AllocError>
    ensures { IfOk result (λ demand. demand ≡ spec.demand_of question body) }
{
    let bytes = body.as_slice();
    match question {
        Question::Health => Ok(bare_demand(Bare::Health, bytes)),
        Question::Metrics => Ok(bare_demand(Bare::Metrics, bytes)),
        Question::Dump => Ok(bare_demand(Bare::Dump, bytes)),
        Question::Stop => Ok(bare_demand(Bare::Stop, bytes)),
        Question::Audit => words_demand(alloc, Form::Audit, bytes),
        Question::Why => words_demand(alloc, Form::Why, bytes),
        Question::Who => words_demand(alloc, Form::Who, bytes),
        Question::Rights => words_demand(alloc, Form::Rights, bytes),
        Question::Ask => words_demand(alloc, Form::Ask, bytes),
        Question::Show => words_demand(alloc, Form::Show, bytes),
        Question::Backup => words_demand(alloc, Form::Backup, bytes),
        Question::Check(strict) => Ok(Some(Demand::Check(body, strict))),
        Question::Differs(strict) => Ok(Some(Demand::Differs(body, strict))),
        Question::Policy => Ok(Some(Demand::Policy(body))),
    }
}

/// Whether the server is asked to end.
pub fn asks_end(demand: &Demand) -> bool
    ensures { result ≡ spec.asks_end demand.now }
{
    match demand {
        Demand::Stop => true,
        Demand::Health | Demand::Metrics | Demand::Dump => false,
        Demand::Audit(_) | Demand::Why(_) | Demand::Who(_) | Demand::Rights(_) => false,
        Demand::Ask(_) | Demand::Show(_) | Demand::Backup(_) => false,
        Demand::Check(_, _) | Demand::Differs(_, _) | Demand::Policy(_) => false,
    }
}
