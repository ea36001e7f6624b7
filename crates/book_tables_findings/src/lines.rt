//! How a finding is told.

ghost use Rattle.std.specs.Prelude.{◌≡◌, ◌++◌, IfOk, codes};
ghost use Rattle.book_tables_findings.specs.Lines.{entry_sentence, fault_text, finding_text, gone_sentence, home_text, limit_text, member_sentence, node_sentence};

use crate::faults::Fault;
use crate::findings::{EntryRule, Finding, GoneRule, Home, Limit, MemberRule, NodeRule};
use std::alloc::{AllocError, Global};

fn node_sentence(rule: NodeRule) -> &'static str
    ensures { result.now ≡ node_sentence rule }
{
    match rule {
        NodeRule::Path => ": its path is no path",
        NodeRule::Parent => ": its parent is not the resource above it",
        NodeRule::Kind => ": its kind is not that of its path",
        NodeRule::Owner => ": its owner is no principal",
        NodeRule::Label => ": its label is too long or not UTF-8",
        NodeRule::Number => ": its change number is none of its kind",
    }
}

fn home_text(home: Home) -> &'static str
    ensures { result.now ≡ home_text home }
{
    match home {
        Home::Root => "node /: it is not there",
        Home::People => "node /people: it is not there",
        Home::Groups => "node /groups: it is not there",
        Home::Books => "node /books: it is not there",
    }
}

fn entry_sentence(rule: EntryRule) -> &'static str
    ensures { result.now ≡ entry_sentence rule }
{
    match rule {
        EntryRule::Form => ": it is no entry",
        EntryRule::Node => ": its node is not there",
        EntryRule::Protected => ": a card has no protected entries",
        EntryRule::Principal => ": its principal is not there",
    }
}

fn member_sentence(rule: MemberRule) -> &'static str
    ensures { result.now ≡ member_sentence rule }
{
    match rule {
        MemberRule::Group => ": its group is not there",
        MemberRule::Member => ": its member is not there",
    }
}

fn gone_sentence(rule: GoneRule) -> &'static str
    ensures { result.now ≡ gone_sentence rule }
{
    match rule {
        GoneRule::Book => ": its book is not there",
        GoneRule::Name => ": its name is no name",
        GoneRule::Free => ": a card has its name",
        GoneRule::Number => ": its change number is no natural number",
    }
}

fn limit_text(limit: Limit) -> &'static str
    ensures { result.now ≡ limit_text limit }
{
    match limit {
        Limit::Entries => "ace2: more entries than a list may have",
        Limit::Members => "member: more members than a group may have",
        Limit::Range => "node, gone: a change number is not from 1 to that of its book",
        Limit::Twice => "node, gone: a change number stands twice in a book",
        Limit::Cards => "node: more cards than a book may have",
        Limit::Books => "node: more books than there may be",
    }
}

/// Three texts, one after the other. An error is want of memory.
fn joined(alloc: Global, table: &str, name: &[u8], rule: &str) -> Result<Vec<u8>, AllocError>
    ensures { IfOk result (λ text. text.items ≡ table.now ++ name.now ++ rule.now) }
{
    let mut text = Vec::from_slice(alloc, table.as_bytes())?;
    text.extend_from_slice(name)?;
    text.extend_from_slice(rule.as_bytes())?;
    Ok(text)
}

/// A finding as it is told: table, name of the row and rule. An error is want of memory.
pub fn finding_line(alloc: Global, finding: &Finding) -> Result<Vec<u8>, AllocError>
    ensures { IfOk result (λ text. text.items ≡ finding_text finding.now) }
{
    match finding {
        Finding::Meta => joined(
            alloc,
            "meta: it has not one row, with version 2 and an epoch",
            b"",
            "",
        ),
        Finding::Node(name, rule) => {
            joined(alloc, "node ", name.as_slice(), node_sentence(*rule))
        }
        Finding::Missing(home) => joined(alloc, home_text(*home), b"", ""),
        Finding::Entry(name, rule) => {
            joined(alloc, "ace2 ", name.as_slice(), entry_sentence(*rule))
        }
        Finding::Member(name, rule) => {
            joined(alloc, "member ", name.as_slice(), member_sentence(*rule))
        }
        Finding::Gone(name, rule) => {
            joined(alloc, "gone ", name.as_slice(), gone_sentence(*rule))
        }
        Finding::Limit(limit) => joined(alloc, limit_text(*limit), b"", ""),
        Finding::Text(name) => {
            joined(
                alloc,
                "node ",
                name.as_slice(),
                ": its text is none of its kind",
            )
        }
    }
}

/// What is at fault in a store as it is told. An error is want of memory.
pub fn fault_line(alloc: Global, fault: &Fault) -> Result<Vec<u8>, AllocError>
    ensures { IfOk result (λ text. text.items ≡ fault_text fault.now) }
{
    match fault {
        Fault::Schema => joined(
            alloc,
            "schema: its tables, keys or indexes are not those of a store",
            b"",
            "",
        ),
        Fault::Former => joined(alloc, "ace: it has rows, as in version 1", b"", ""),
        Fault::Found(finding) => finding_line(alloc, finding),
    }
}
