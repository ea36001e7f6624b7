//! Faults with their places.

ghost use Rattle.std.specs.Prelude.{◌≡◌, OnOk};
ghost use Rattle.book_policy_faults.specs.Keys.{key_text};
ghost use Rattle.book_policy_faults.specs.Values.{is_among, keys_of};
ghost use Rattle.book_policy_faults.specs.declared.places.TableKind.TheVariants.{Entry, Top};
ghost use Rattle.book_policy_faults.specs.Placing.{has_none, least, no_faults, noted, order, placed, pushed};

use book_office_values::Items;
use std::alloc::{AllocError, Global};

/// The most faults that are told, each with its place.
pub const MAX_TOLD: usize = 1_000;

/// The kinds of tables of a policy's text.
#[derive(Clone, Copy, Debug, PartialEq, Eq, Drop)]
pub enum TableKind {
    /// The whole text.
    Top,
    /// A person.
    Person,
    /// A group.
    Group,
    /// A book.
    Book,
    /// An entry.
    Entry,
}

/// The keys that tables may have.
#[derive(Clone, Copy, Debug, PartialEq, Eq, Drop)]
pub enum Key {
    /// Of the whole text, which is 1.
    Version,
    /// Of the whole text: its persons.
    Persons,
    /// Of the whole text: its groups.
    Groups,
    /// Of the whole text: its books.
    Books,
    /// Of the whole text: its entries.
    Entries,
    /// Of persons, groups and books.
    Name,
    /// Of persons, groups and books.
    Label,
    /// Of groups.
    Members,
    /// Of books.
    Owner,
    /// Of entries: where it stands.
    At,
    /// Of entries: for whom it is.
    Who,
    /// Of entries.
    Invert,
    /// Of entries.
    Grant,
    /// Of entries.
    Deny,
    /// Of entries.
    Protected,
    /// The table itself, and no key of it.
    Itself,
}

/// What is wrong at a place.
#[derive(Clone, Copy, Debug, PartialEq, Eq, Drop)]
pub enum Problem {
    /// The key is none of the table's.
    UnknownKey,
    /// The key is missing.
    Missing,
    /// The value is of another kind than the key wants.
    OtherKind,
    /// The version is no whole number 1.
    OtherVersion,
    /// The label is over 256 bytes.
    LongLabel,
    /// There are no names of privileges, or more than 16.
    NamesCount,
    /// Both `grant` and `deny` are there.
    Both,
    /// The name is no name.
    BadName,
    /// The table of that number, among the same kind, has the name too, and stands before.
    NameTwice(usize),
    /// It is no person and no group of the policy, nor a word for a form.
    UnknownPrincipal,
    /// It is no place of the policy.
    UnknownResource,
    /// It is no name of a privilege.
    UnknownPrivilege,
    /// There are more than 1,000 tables of a kind or members of a group.
    TooMany,
    /// It is the 65th entry of its list.
    LongList,
}

/// A fault of a policy's text with its place.
#[derive(Clone, Copy, Debug, PartialEq, Eq, Drop)]
pub struct PlacedFault {
    /// The kind of the table.
    pub kind: TableKind,
    /// Its number among the tables of its kind, from 1; 0 of the whole text.
    pub number: usize,
    /// The key in it.
    pub key: Key,
    /// The number of an item in the array at the key, from 1; 0 of the value itself. Of a key that is none of the
    /// table's: its number among the keys of the table in byte order, from 1.
    pub item: usize,
    /// What is wrong there.
    pub problem: Problem,
}

impl Key {
    /// The key as it is written; empty where it is none.
    pub fn text(self) -> &'static str
        ensures { result.now ≡ key_text self }
    {
        match self {
            Key::Version => "version",
            Key::Persons => "person",
            Key::Groups => "group",
            Key::Books => "book",
            Key::Entries => "entry",
            Key::Name => "name",
            Key::Label => "label",
            Key::Members => "members",
            Key::Owner => "owner",
            Key::At => "at",
            Key::Who => "who",
            Key::Invert => "invert",
            Key::Grant => "grant",
            Key::Deny => "deny",
            Key::Protected => "protected",
            Key::Itself => "",
        }
    }
}

/// Whether the whole text may have the key.
fn is_key_of_text(key: &str) -> bool
    ensures { result ≡ is_among key.now (keys_of Top) }
{
    key == "version" || key == "person" || key == "group" || key == "book" || key == "entry"
}

/// Whether an entry may have the key.
fn is_key_of_entry(key: &str) -> bool
    ensures { result ≡ is_among key.now (keys_of Entry) }
{
    key == "at"
        || key == "who"
        || key == "invert"
        || key == "grant"
        || key == "deny"
        || key == "protected"
}

impl TableKind {
    /// Whether a table of this kind may have the key.
    pub fn has_key(self, key: &str) -> bool
        ensures { result ≡ is_among key.now (keys_of self) }
    {
        match self {
            TableKind::Top => is_key_of_text(key),
            TableKind::Person => key == "name" || key == "label",
            TableKind::Group => key == "name" || key == "label" || key == "members",
            TableKind::Book => key == "name" || key == "label" || key == "owner",
            TableKind::Entry => is_key_of_entry(key),
        }
    }
}

impl Problem {
    /// The number of the fault of a text that has this somewhere: the place of its name in the order in which a policy's
    /// faults are told, from 1.
    pub fn order(self) -> usize
        ensures { result ≡ order self }
    {
        match self {
            Problem::OtherVersion => 2,
            Problem::UnknownKey
            | Problem::Missing
            | Problem::OtherKind
            | Problem::LongLabel
            | Problem::NamesCount
            | Problem::Both => 3,
            Problem::BadName => 4,
            Problem::NameTwice(_) => 5,
            Problem::UnknownPrincipal => 6,
            Problem::UnknownResource => 7,
            Problem::UnknownPrivilege => 8,
            Problem::TooMany | Problem::LongList => 9,
        }
    }
}

/// The lesser of two numbers.
fn least(first: usize, second: usize) -> usize
    ensures { result ≡ least first second }
{
    if first < second { first } else { second }
}

/// Faults with their places, in order: the first 1,000 of them, and what is known of all.
#[derive(Debug, Drop)]
pub struct PlacedFaults {
    /// The first 1,000.
    pub told: Items<PlacedFault>,
    /// How many more there are.
    pub more: usize,
    /// The number of the least fault of all, by the order of faults from 1; 11 where there is none.
    pub least: usize,
}

impl PlacedFaults {
    /// Whether there is no fault.
    pub fn is_empty(&self) -> bool
        ensures { result ≡ has_none self.now }
    {
        self.told.len() == 0
    }

    /// No faults. Takes no memory.
    pub(crate) fn new(alloc: Global) -> PlacedFaults
        ensures { result ≡ no_faults }
    {
        PlacedFaults {
            told: Items::new(alloc),
            more: 0,
            least: 11,
        }
    }

    /// Adds a fault behind the others. An error is want of memory.
    pub(crate) fn push(&mut self, fault: PlacedFault) -> Result<(), AllocError>
        ensures { OnOk result (self.new ≡ pushed self.old fault) }
    {
        self.least = least(self.least, fault.problem.order());
        if self.told.len() < MAX_TOLD {
            self.told.push(fault)?;
        } else {
            self.more = self.more.saturating_add(1);
        }
        Ok(())
    }
}

/// A value in a table.
#[derive(Clone, Copy, Drop)]
pub struct Spot {
    /// The kind of the table.
    pub kind: TableKind,
    /// Its number among the tables of its kind, from 1; 0 of the whole text.
    pub number: usize,
    /// The key in it.
    pub key: Key,
    /// The number of an item at the key or of a key, from 1; 0 of the value itself.
    pub item: usize,
}

/// Adds what is wrong there, if anything is.
pub(crate) fn note(
    faults: &mut PlacedFaults,
    spot: Spot,
    problem: Option<Problem>,
) -> Result<(), AllocError>
    ensures { OnOk result (faults.new ≡ noted faults.old (placed spot problem)) }
{
    let Some(problem) = problem else {
        return Ok(());
    };
    faults.push(PlacedFault {
        kind: spot.kind,
        number: spot.number,
        key: spot.key,
        item: spot.item,
        problem,
    })
}
