//! What a method and a target ask.

ghost use Rattle.std.specs.Prelude.{◌≡◌};
ghost use Rattle.book_desk_control.specs.Questions as spec;

use crate::refusals::Refusal;

/// A question to a server.
#[derive(Clone, Copy)]
pub enum Question {
    /// How it does: GET of /health.
    Health,
    /// What it counted: GET of /metrics.
    Metrics,
    /// The owners and lists: GET or POST of /audit.
    Audit,
    /// Why something is granted to a caller, or denied: POST of /why.
    Why,
    /// To whom a privilege is granted, or denied: POST of /who.
    Who,
    /// Who holds which rights: POST of /rights.
    Rights,
    /// What a decision rests on: POST of /ask.
    Ask,
    /// The resource at a path: POST of /show.
    Show,
    /// The faults of a policy, and what it leaves open; whether it is to leave nothing open: POST of /check, or of
    /// /check?strict.
    Check(bool),
    /// What adopting a policy would change; whether it is to change nothing: POST of /differs, or of /differs?strict.
    Differs(bool),
    /// That it adopts a policy: PUT of /policy.
    Policy,
    /// The Office as text: GET of /dump.
    Dump,
    /// That it copies its store: POST of /backup.
    Backup,
    /// That it ends: POST of /stop.
    Stop,
}

/// The methods that a target takes.
#[derive(Clone, Copy)]
pub(crate) enum Methods {
    /// GET.
    Get,
    /// GET and POST.
    GetOrPost,
    /// POST.
    Post,
    /// PUT.
    Put,
}

/// The question about the Office at a target, if there is one.
fn office_question_at(target: &[u8]) -> Option<Question>
    ensures { result ≡ spec.office_question_at target.now }
{
    if target == b"/audit".as_slice() {
        return Some(Question::Audit);
    }
    if target == b"/why".as_slice() {
        return Some(Question::Why);
    }
    if target == b"/who".as_slice() {
        return Some(Question::Who);
    }
    if target == b"/rights".as_slice() {
        return Some(Question::Rights);
    }
    if target == b"/ask".as_slice() {
        return Some(Question::Ask);
    }
    if target == b"/show".as_slice() {
        return Some(Question::Show);
    }
    None
}

/// The question about a policy at a target, if there is one.
fn policy_question_at(target: &[u8]) -> Option<Question>
    ensures { result ≡ spec.policy_question_at target.now }
{
    if target == b"/check".as_slice() {
        return Some(Question::Check(false));
    }
    if target == b"/check?strict".as_slice() {
        return Some(Question::Check(true));
    }
    if target == b"/differs".as_slice() {
        return Some(Question::Differs(false));
    }
    if target == b"/differs?strict".as_slice() {
        return Some(Question::Differs(true));
    }
    if target == b"/policy".as_slice() {
        return Some(Question::Policy);
    }
    None
}

/// The question about the server at a target, if there is one.
fn server_question_at(target: &[u8]) -> Option<Question>
    ensures { result ≡ spec.server_question_at target.now }
{
    if target == b"/health".as_slice() {
        return Some(Question::Health);
    }
    if target == b"/metrics".as_slice() {
        return Some(Question::Metrics);
    }
    if target == b"/dump".as_slice() {
        return Some(Question::Dump);
    }
    if target == b"/backup".as_slice() {
        return Some(Question::Backup);
    }
    if target == b"/stop".as_slice() {
        return Some(Question::Stop);
    }
    None
}

/// The question at a target, if there is one.
fn question_at(target: &[u8]) -> Option<Question>
    ensures { result ≡ spec.question_at target.now }
{
    if let Some(question) = office_question_at(target) {
        return Some(question);
    }
    if let Some(question) = policy_question_at(target) {
        return Some(question);
    }
    server_question_at(target)
}

/// The methods that the target of a question takes.
pub(crate) fn methods_of(question: Question) -> Methods
    ensures { result ≡ spec.methods_of question }
{
    match question {
        Question::Health | Question::Metrics | Question::Dump => Methods::Get,
        Question::Audit => Methods::GetOrPost,
        Question::Why | Question::Who | Question::Rights => Methods::Post,
        Question::Ask | Question::Show | Question::Backup | Question::Stop => Methods::Post,
        Question::Check(_) | Question::Differs(_) => Methods::Post,
        Question::Policy => Methods::Put,
    }
}

/// Whether a method is one of these.
fn has_method(methods: Methods, method: &[u8]) -> bool
    ensures { result ≡ spec.has_method methods method.now }
{
    match methods {
        Methods::Get => method == b"GET".as_slice(),
        Methods::GetOrPost => method == b"GET".as_slice() || method == b"POST".as_slice(),
        Methods::Post => method == b"POST".as_slice(),
        Methods::Put => method == b"PUT".as_slice(),
    }
}

/// Methods as the field Allow tells them (RFC 9110, section 10.2.1).
pub(crate) fn allowed_text(methods: Methods) -> &'static str
    ensures { result.now ≡ spec.allowed_text methods }
{
    match methods {
        Methods::Get => "GET",
        Methods::GetOrPost => "GET, POST",
        Methods::Post => "POST",
        Methods::Put => "PUT",
    }
}

/// Whether some target takes the method.
fn is_known(method: &[u8]) -> bool
    ensures { result ≡ spec.is_known method.now }
{
    method == b"GET".as_slice() || method == b"POST".as_slice() || method == b"PUT".as_slice()
}

/// What a method and a target ask.
///
/// # Errors
///
/// `NotImplemented` where no target takes the method; `NotFound` where nothing is at the target; `NotAllowed` where that takes
/// other methods.
pub(crate) fn question_of(method: &[u8], target: &[u8]) -> Result<Question, Refusal>
    ensures { result ≡ spec.question_of method.now target.now }
{
    if !is_known(method) {
        return Err(Refusal::NotImplemented);
    }
    let Some(question) = question_at(target) else {
        return Err(Refusal::NotFound);
    };
    if has_method(methods_of(question), method) {
        Ok(question)
    } else {
        Err(Refusal::NotAllowed(question))
    }
}
