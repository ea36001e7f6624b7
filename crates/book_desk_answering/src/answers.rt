//! What is answered to a demand.

ghost use Rattle.std.specs.Prelude.{◌≡◌, IfOk};
ghost use Rattle.book_desk_answering.specs.Answering as spec;
ghost use Rattle.book_desk_control.specs.declared.replies.Kind.TheVariants as kinds;
ghost use Rattle.book_wire_steps.specs.Steps.{OnlyAdopts};

use crate::copying::Copying;
use crate::replies::{Reply, Texts, not_done};
use book_desk_administering::Administered;
use book_desk_control::{AskBody, AuditBody, Demand, Kind, RightsBody, WhoBody, WhyBody, text_in};
use book_desk_questions::{DecisionWords, PartWords, RightsWords, WhoWords, WhyWords, Words};
use book_office_values::Text;
use book_questions_audit::Wanted;
use std::alloc::{AllocError, Global};

/// The reply to a question in words.
fn ask<M: Administered>(
    alloc: Global,
    service: &mut M,
    words: &Words<'_>,
    kind: Kind,
) -> Result<Reply, AllocError>
    ensures answers { IfOk result (spec.RepliesBy kind (spec.AnswersIn
        (M.Service.serving service.old).standing
        (M.Service.serving service.new).standing words.now)) }
    ensures only { OnlyAdopts M.Service.serving service.old service.new }
{
    let mut texts = Texts::new(alloc);
    let status = service.ask(alloc, words, &mut texts.writer, &mut texts.errors);
    texts.into_reply(status, kind)
}

/// The reply that tells the whole audit.
fn audit_all<M: Administered>(alloc: Global, service: &mut M) -> Result<Reply, AllocError>
    ensures answers { IfOk result (spec.RepliesBy kinds.Text (spec.AuditsIn
        (M.Service.serving service.old).standing
        (M.Service.serving service.new).standing)) }
    ensures only { OnlyAdopts M.Service.serving service.old service.new }
{
    let mut texts = Texts::new(alloc);
    let status = service.audit(alloc, &mut texts.writer, &mut texts.errors);
    texts.into_reply(status, Kind::Text)
}

/// The reply that tells the audit of a part.
fn audit_part<M: Administered>(
    alloc: Global,
    service: &mut M,
    body: AuditBody,
) -> Result<Reply, AllocError>
    ensures answers { IfOk result (spec.AnswersSuch (M.Service.serving service.old).standing
        (M.Service.serving service.new).standing (spec.IsPart body) kinds.Text) }
    ensures only { OnlyAdopts M.Service.serving service.old service.new }
{
    let wanted = Wanted {
        listed: body.books,
        labels: body.labels,
    };
    let words = Words::Part(PartWords {
        at: text_in(&body.at),
        wanted,
    });
    let reply = ask(alloc, service, &words, Kind::Text);
    drop(body);
    reply
}

/// Whether no word says which part.
fn is_whole(body: &AuditBody) -> bool
    ensures { result ≡ spec.is_whole body.now }
{
    body.at.is_none() && (!body.books && !body.labels)
}

/// The reply to a demand of an audit: of the whole, or of a part.
fn audit<M: Administered>(
    alloc: Global,
    service: &mut M,
    body: AuditBody,
) -> Result<Reply, AllocError>
    ensures answers { IfOk result (spec.AuditsPart (M.Service.serving service.old).standing
        (M.Service.serving service.new).standing (spec.is_whole body) body) }
    ensures only { OnlyAdopts M.Service.serving service.old service.new }
{
    if is_whole(&body) {
        drop(body);
        audit_all(alloc, service)
    } else {
        audit_part(alloc, service, body)
    }
}

/// What an answer is, as objects or as text.
fn kind_of(json: bool) -> Kind
    ensures { result ≡ spec.kind_of json }
{
    if json { Kind::JsonLines } else { Kind::Text }
}

/// The reply to a question about a caller.
fn why<M: Administered>(alloc: Global, service: &mut M, body: WhyBody) -> Result<Reply, AllocError>
    ensures answers { IfOk result (spec.AnswersSuch (M.Service.serving service.old).standing
        (M.Service.serving service.new).standing (spec.IsWhy body)
        (spec.kind_of body.json)) }
    ensures only { OnlyAdopts M.Service.serving service.old service.new }
{
    let words = Words::Why(WhyWords {
        caller: body.caller.as_str(),
        what: body.what.as_str(),
        path: body.path.as_str(),
        destination: text_in(&body.destination),
        json: body.json,
    });
    let reply = ask(alloc, service, &words, kind_of(body.json));
    drop(body);
    reply
}

/// The reply to a question about everybody.
fn who<M: Administered>(alloc: Global, service: &mut M, body: WhoBody) -> Result<Reply, AllocError>
    ensures answers { IfOk result (spec.AnswersSuch (M.Service.serving service.old).standing
        (M.Service.serving service.new).standing (spec.IsWho body)
        (spec.kind_of body.json)) }
    ensures only { OnlyAdopts M.Service.serving service.old service.new }
{
    let words = Words::Who(WhoWords {
        privilege: body.privilege.as_str(),
        path: body.path.as_str(),
        denied: body.denied,
        json: body.json,
    });
    let reply = ask(alloc, service, &words, kind_of(body.json));
    drop(body);
    reply
}

/// The reply to a question about all rights.
fn rights<M: Administered>(
    alloc: Global,
    service: &mut M,
    body: RightsBody,
) -> Result<Reply, AllocError>
    ensures answers { IfOk result (spec.AnswersSuch (M.Service.serving service.old).standing
        (M.Service.serving service.new).standing (spec.IsRights body)
        (spec.kind_of body.json)) }
    ensures only { OnlyAdopts M.Service.serving service.old service.new }
{
    let words = Words::Rights(RightsWords {
        at: text_in(&body.at),
        caller: text_in(&body.caller),
        shared: body.shared,
        json: body.json,
    });
    let reply = ask(alloc, service, &words, kind_of(body.json));
    drop(body);
    reply
}

/// The reply that tells what a decision rests on.
fn decide<M: Administered>(
    alloc: Global,
    service: &mut M,
    body: AskBody,
) -> Result<Reply, AllocError>
    ensures answers { IfOk result (spec.AnswersSuch (M.Service.serving service.old).standing
        (M.Service.serving service.new).standing (spec.IsAsk body) kinds.Text) }
    ensures only { OnlyAdopts M.Service.serving service.old service.new }
{
    let words = Words::Decision(DecisionWords {
        caller: body.caller.as_str(),
        path: body.path.as_str(),
        privileges: body.privileges.as_slice(),
    });
    let reply = ask(alloc, service, &words, Kind::Text);
    drop(body);
    reply
}

/// The reply that tells one resource.
fn show<M: Administered>(alloc: Global, service: &mut M, path: Text) -> Result<Reply, AllocError>
    ensures answers { IfOk result (spec.AnswersSuch (M.Service.serving service.old).standing
        (M.Service.serving service.new).standing (spec.IsShow path) kinds.JsonLines) }
    ensures only { OnlyAdopts M.Service.serving service.old service.new }
{
    let words = Words::Show(path.as_str());
    let reply = ask(alloc, service, &words, Kind::JsonLines);
    drop(path);
    reply
}

/// The reply that has the Office as text.
fn dump<M: Administered>(alloc: Global, service: &mut M) -> Result<Reply, AllocError>
    ensures answers { IfOk result (spec.RepliesBy kinds.JsonLines (spec.DumpsIn
        (M.Service.serving service.old).standing
        (M.Service.serving service.new).standing)) }
    ensures only { OnlyAdopts M.Service.serving service.old service.new }
{
    let mut texts = Texts::new(alloc);
    let status = service.dump(alloc, &mut texts.writer, &mut texts.errors);
    texts.into_reply(status, Kind::JsonLines)
}

/// The reply that tells the faults of a policy, or what it leaves open.
fn check<M: Administered>(
    alloc: Global,
    service: &mut M,
    policy: Vec<u8>,
    strict: bool,
) -> Result<Reply, AllocError>
    ensures answers { IfOk result (spec.RepliesBy kinds.Text (spec.ChecksIn
        (M.Service.serving service.old).standing
        (M.Service.serving service.new).standing policy.items strict)) }
    ensures only { OnlyAdopts M.Service.serving service.old service.new }
{
    let mut texts = Texts::new(alloc);
    let status = service.check(alloc, policy, strict, &mut texts.writer, &mut texts.errors);
    texts.into_reply(status, Kind::Text)
}

/// The reply that tells what a policy would leave and change.
fn differs<M: Administered>(
    alloc: Global,
    service: &mut M,
    policy: Vec<u8>,
    strict: bool,
) -> Result<Reply, AllocError>
    ensures answers { IfOk result (spec.RepliesBy kinds.Text (spec.DiffersIn
        (M.Service.serving service.old).standing
        (M.Service.serving service.new).standing policy.items strict)) }
    ensures only { OnlyAdopts M.Service.serving service.old service.new }
{
    let mut texts = Texts::new(alloc);
    let status = service.differs(alloc, policy, strict, &mut texts.writer, &mut texts.errors);
    texts.into_reply(status, Kind::Text)
}

/// The reply that tells what came of putting a policy in force.
fn put_policy<M: Administered>(
    alloc: Global,
    service: &mut M,
    policy: Vec<u8>,
) -> Result<Reply, AllocError>
    ensures answers { IfOk result (spec.RepliesBy kinds.Text (spec.PutsIn M.Service.serving
        service.old service.new policy.items)) }
    ensures only { OnlyAdopts M.Service.serving service.old service.new }
{
    let mut texts = Texts::new(alloc);
    let status = service.put_policy(alloc, policy, &mut texts.writer, &mut texts.errors);
    texts.into_reply(status, Kind::Text)
}

/// The reply that tells whether a copy was made.
fn backup<M: Administered, C: Copying<M>>(
    alloc: Global,
    service: &mut M,
    copier: &mut C,
    to: Text,
) -> Result<Reply, AllocError>
    ensures answers { IfOk result (spec.RepliesBy kinds.Text (spec.CopiesIn
        (C.copies copier.old service.old service.new copier.new) to)) }
    ensures only { OnlyAdopts M.Service.serving service.old service.new }
{
    let mut texts = Texts::new(alloc);
    let status = copier.copy(service, to.as_str(), &mut texts.errors);
    drop(to);
    texts.into_reply(status, Kind::Text)
}

/// The reply to a demand of the Office: what the command of its name writes over the Office in force, and then what it tells, with
/// its status. A copy is made by `copier`. Of the server nothing is answered. An error is want of memory; then too a policy may
/// be in force, or a copy made.
pub fn answer<M: Administered, C: Copying<M>>(
    alloc: Global,
    service: &mut M,
    copier: &mut C,
    demand: Demand,
) -> Result<Reply, AllocError>
    ensures answers { IfOk result (spec.AnswersDemand M.Service.serving service.old service.new
        (C.copies copier.old service.old service.new copier.new) demand) }
    ensures only { OnlyAdopts M.Service.serving service.old service.new }
{
    match demand {
        Demand::Health | Demand::Metrics | Demand::Stop => not_done(alloc),
        Demand::Audit(body) => audit(alloc, service, body),
        Demand::Why(body) => why(alloc, service, body),
        Demand::Who(body) => who(alloc, service, body),
        Demand::Rights(body) => rights(alloc, service, body),
        Demand::Ask(body) => decide(alloc, service, body),
        Demand::Show(path) => show(alloc, service, path),
        Demand::Check(policy, strict) => check(alloc, service, policy.into_vec(), strict),
        Demand::Differs(policy, strict) => differs(alloc, service, policy.into_vec(), strict),
        Demand::Policy(policy) => put_policy(alloc, service, policy.into_vec()),
        Demand::Dump => dump(alloc, service),
        Demand::Backup(to) => backup(alloc, service, copier, to),
    }
}
