//! How a server does, as JSON (RFC 8259).

ghost use Rattle.std.specs.Prelude.{◌≡◌, ◌++◌, codes, IfOk};
ghost use Rattle.json.specs.Json as value;
ghost use Rattle.book_json_lines.specs.Objects.{TellsMembers, text_line};
ghost use Rattle.book_desk_control.specs.Health as spec;

use crate::replies::Outcome;
use book_json_lines::JsonText;
use std::alloc::{AllocError, Global};

/// How many bytes the files of a store have.
#[derive(Clone, Copy)]
pub struct Sizes {
    /// The store's file.
    pub file: u64,
    /// Its log.
    pub log: u64,
}

/// What is in an Office.
#[derive(Clone, Copy)]
pub struct Counts {
    /// The access epoch.
    pub epoch: u64,
    /// How many persons there are.
    pub persons: u64,
    /// How many groups.
    pub groups: u64,
    /// How many books.
    pub books: u64,
    /// How many cards, in all books.
    pub cards: u64,
}

/// How a server does.
#[derive(Clone, Copy)]
pub struct Health<'a> {
    /// The version of the program.
    pub version: &'a str,
    /// The version of the stores that it makes.
    pub schema: u64,
    /// Since when it serves: UTC, by RFC 3339.
    pub since: &'a str,
    /// How many connections came.
    pub came: u64,
    /// How many are there.
    pub open: u64,
    /// How many of them had a fault.
    pub faults: u64,
    /// How many requests were answered.
    pub answered: u64,
    /// What is in the Office; none where the store shows nothing.
    pub counts: Option<Counts>,
    /// How large the store is, where it has a file.
    pub store: Option<Sizes>,
}

/// What was counted, each where there is an Office.
#[derive(Clone, Copy)]
struct Told {
    epoch: Option<u64>,
    persons: Option<u64>,
    groups: Option<u64>,
    books: Option<u64>,
    cards: Option<u64>,
}

/// What was counted, where there is an Office.
fn told_of(counts: Option<Counts>) -> Told
    ensures { result ≡ spec.told_of counts }
{
    match counts {
        Some(counts) => Told {
            epoch: Some(counts.epoch),
            persons: Some(counts.persons),
            groups: Some(counts.groups),
            books: Some(counts.books),
            cards: Some(counts.cards),
        },
        None => Told {
            epoch: None,
            persons: None,
            groups: None,
            books: None,
            cards: None,
        },
    }
}

/// Adds the first half of the keys.
fn put_first(out: &mut JsonText, health: &Health<'_>, told: Told) -> Result<(), AllocError>
    ensures { TellsMembers result out.old out.new (spec.first_told health.now told) }
{
    out.number_member("answered", health.answered)?;
    out.number_member_if("books", told.books)?;
    out.number_member("came", health.came)?;
    out.number_member_if("cards", told.cards)?;
    out.number_member_if("epoch", told.epoch)?;
    out.number_member("faults", health.faults)
}

/// Adds the second half, without what is told of the program and its store.
fn put_second(out: &mut JsonText, health: &Health<'_>, told: Told) -> Result<(), AllocError>
    ensures { TellsMembers result out.old out.new (spec.second_told health.now told) }
{
    out.number_member_if("groups", told.groups)?;
    out.number_member("open", health.open)?;
    out.number_member_if("persons", told.persons)
}

/// The sizes of a store's files, where there is one.
fn sizes_of(store: Option<Sizes>) -> (Option<u64>, Option<u64>)
    ensures { result ≡ spec.sizes_of store }
{
    match store {
        Some(sizes) => (Some(sizes.file), Some(sizes.log)),
        None => (None, None),
    }
}

/// Adds what is told of the program and its store.
fn put_program(out: &mut JsonText, health: &Health<'_>) -> Result<(), AllocError>
    ensures { TellsMembers result out.old out.new (spec.program_told health.now) }
{
    let (file, log) = sizes_of(health.store);
    out.number_member("schema", health.schema)?;
    out.string_member("since", health.since)?;
    out.number_member_if("store", file)?;
    out.number_member_if("store-log", log)?;
    out.string_member("version", health.version)
}

/// A line of JSON that tells how a server does: an object with the keys `answered`, `books`, `came`, `cards`, `epoch`, `faults`,
/// `groups`, `open`, `persons`, `schema`, `since`, `store`, `store-log` and `version`; those without a value are left out. An
/// error is want of memory.
pub fn health_text(alloc: Global, health: &Health<'_>) -> Result<Vec<u8>, AllocError>
    ensures { IfOk result (λ text. text.items ≡ text_line (spec.health_json health.now)) }
{
    let told = told_of(health.counts);
    let mut out = JsonText::new(alloc);
    out.begin_object()?;
    put_first(&mut out, health, told)?;
    put_second(&mut out, health, told)?;
    put_program(&mut out, health)?;
    out.end_object()?;
    out.into_line()
}

/// The status of the reply that tells how a server does: that of one that can't serve where the store shows nothing.
pub fn health_outcome(health: &Health<'_>) -> Outcome
    ensures { result ≡ spec.health_outcome health.now }
{
    match health.counts {
        Some(_) => Outcome::Answered,
        None => Outcome::Unavailable,
    }
}
