//! The body of a REPORT.

ghost use Rattle.std.specs.Prelude.{◌≡◌, ◌≢◌, ◌↔◌, ℕ, List, IsTrue, Some, None, IfOk, MatchOption, option_map};
ghost use Rattle.serde_json.specs.Data.{Data, number, unsigned};
ghost use Rattle.serde_json.specs.View.{view};
ghost use Rattle.book_lists.specs.declared.circles.Caller.{Caller};
ghost use Rattle.book_machine.specs.declared.messages.ReportKind.{ReportKind};
ghost use Rattle.book_office_sync.specs.Copies.{IsLimit};
ghost use Rattle.book_wire_json.specs.Reports.{sync_collection, limited_collection, report_named, effective, IsFrom, IsCallerIn, IsReport, IsReportBody};

use crate::principals::person_in;
use book_lists::Caller;
use book_machine::{Body, ReportKind, SyncFrom, SyncRequest};
use book_office_sync::{Limit, Token};
use serde_json::Value;
use std::alloc::{AllocError, Global};

/// From where the text of a token asks. An error is want of memory.
fn sync_from(alloc: Global, text: &str) -> Result<SyncFrom, AllocError>
    ensures { IfOk result (IsFrom text.now) }
{
    if text.is_empty() {
        return Ok(SyncFrom::Start);
    }
    match Token::parse(alloc, text)? {
        Some(token) => Ok(SyncFrom::After(token)),
        None => Ok(SyncFrom::Unknown),
    }
}

/// The caller that the value names: null is nobody, and a text names a person. An error is want of memory.
fn caller_in(alloc: Global, who: &Value) -> Result<Option<Caller>, AllocError>
    ensures { IfOk result (λ found. MatchOption found
        ((caller : Caller) → IsCallerIn (view who.now) caller → ⊥)
        (IsCallerIn (view who.now))) }
{
    match who {
        Value::Null => Ok(Some(Caller::Nobody)),
        Value::String(text) => match person_in(alloc, text.as_str())? {
            Some(person) => Ok(Some(Caller::Known(person))),
            None => Ok(None),
        },
        _ => Ok(None),
    }
}

/// The limit that the value is: a whole number from 1 to 10,000.
fn limit_in(value: &Value) -> Option<Limit>
    ensures { MatchOption result
        ((limit : ℕ) → IsLimit (Some limit) → view value.now ≢ number (unsigned limit))
        (λ limit. IsLimit (Some limit) × (view value.now ≡ number (unsigned limit))) }
{
    match value.as_u64() {
        Some(count) => Limit::new(count),
        None => None,
    }
}

/// The text of the token, where the value asks for a sync report without a limit.
fn sync_collection(value: &Value) -> Option<&str>
    ensures { MatchOption result
        ((text : List ℕ) → view value.now ≢ sync_collection text None)
        (λ text. view value.now ≡ sync_collection text.now None) }
{
    match value {
        Value::Object(members) => {
            let mut members = members.iter();
            match (members.next(), members.next(), members.next()) {
                (Some((report, Value::String(kind))), Some((token, Value::String(text))), None) => {
                    if report.as_str() == "report"
                        && kind.as_str() == "sync-collection"
                        && token.as_str() == "sync-token"
                    {
                        Some(text.as_str())
                    } else {
                        None
                    }
                }
                _ => None,
            }
        }
        _ => None,
    }
}

/// The value of the limit and the text of the token, where the value asks for a sync report with a limit.
fn limited_collection(value: &Value) -> Option<(&Value, &str)>
    ensures { MatchOption result
        ((limit : Data) (text : List ℕ) → view value.now ≢ limited_collection limit text)
        (λ found. view value.now ≡ limited_collection (view found.0.now) found.1.now) }
{
    match value {
        Value::Object(members) => {
            let mut members = members.iter();
            match (
                members.next(),
                members.next(),
                members.next(),
                members.next(),
            ) {
                (
                    Some((limit, most)),
                    Some((report, Value::String(kind))),
                    Some((token, Value::String(text))),
                    None,
                ) => {
                    if limit.as_str() == "limit"
                        && report.as_str() == "report"
                        && kind.as_str() == "sync-collection"
                        && token.as_str() == "sync-token"
                    {
                        Some((most, text.as_str()))
                    } else {
                        None
                    }
                }
                _ => None,
            }
        }
        _ => None,
    }
}

/// The sync report that is asked with this limit after the text of a token; none where the value is no limit. An error is
/// want of memory.
fn limited_report(
    alloc: Global,
    limit: &Value,
    text: &str,
) -> Result<Option<ReportKind>, AllocError>
    ensures { IfOk result (λ found. MatchOption found
        ((report : ReportKind) → IsReport (limited_collection (view limit.now) text.now) report → ⊥)
        (IsReport (limited_collection (view limit.now) text.now))) }
{
    let Some(limit) = limit_in(limit) else {
        return Ok(None);
    };
    Ok(Some(ReportKind::SyncCollection(SyncRequest {
        from: sync_from(alloc, text)?,
        limit: Some(limit),
    })))
}

/// Whether the value asks for the report with this name, and names nothing else.
fn is_report_named(value: &Value, name: &str) -> bool
    ensures { IsTrue result ↔ (view value.now ≡ report_named name.now) }
{
    match value {
        Value::Object(members) => {
            let mut members = members.iter();
            match (members.next(), members.next()) {
                (Some((report, Value::String(kind))), None) => {
                    report.as_str() == "report" && kind.as_str() == name
                }
                _ => false,
            }
        }
        _ => false,
    }
}

/// Whom the value names, where it asks what decides for somebody.
fn effective(value: &Value) -> Option<&Value>
    ensures { MatchOption result
        ((who : Data) → view value.now ≢ effective who)
        (λ who. view value.now ≡ effective (view who.now)) }
{
    match value {
        Value::Object(members) => {
            let mut members = members.iter();
            match (members.next(), members.next(), members.next()) {
                (Some((principal, who)), Some((report, Value::String(kind))), None) => {
                    if principal.as_str() == "principal"
                        && report.as_str() == "report"
                        && kind.as_str() == "effective"
                    {
                        Some(who)
                    } else {
                        None
                    }
                }
                _ => None,
            }
        }
        _ => None,
    }
}

/// The report that the value asks, if it asks one. An error is want of memory.
fn report(alloc: Global, value: &Value) -> Result<Option<ReportKind>, AllocError>
    ensures { IfOk result (λ found. MatchOption found
        ((report : ReportKind) → IsReport (view value.now) report → ⊥)
        (IsReport (view value.now))) }
{
    if let Some(text) = sync_collection(value) {
        return Ok(Some(ReportKind::SyncCollection(SyncRequest {
            from: sync_from(alloc, text)?,
            limit: None,
        })));
    }
    if let Some((limit, text)) = limited_collection(value) {
        return limited_report(alloc, limit, text);
    }
    if let Some(who) = effective(value) {
        return match caller_in(alloc, who)? {
            Some(caller) => Ok(Some(ReportKind::Effective(caller))),
            None => Ok(None),
        };
    }
    if is_report_named(value, "group-members") {
        return Ok(Some(ReportKind::GroupMembers));
    }
    if is_report_named(value, "names") {
        return Ok(Some(ReportKind::Names));
    }
    Ok(None)
}

/// The body of a REPORT (RFC 3253, section 3.6). An error is want of memory.
pub(crate) fn report_body(alloc: Global, value: Option<&Value>) -> Result<Body, AllocError>
    ensures { IfOk result (IsReportBody (option_map (λ v. view v.now) value.entry)) }
{
    match value {
        Some(value) => match report(alloc, value)? {
            Some(report) => Ok(Body::Report(report)),
            None => Ok(Body::Unread),
        },
        None => Ok(Body::Unread),
    }
}
