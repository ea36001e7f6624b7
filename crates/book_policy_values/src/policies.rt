//! Policies: persons, groups, books and entries that an Office takes over in one step.

ghost use Rattle.std.specs.Prelude.{◌≡◌, ◌↔◌, [], true, false, unwrap_or, IsSome, IfOk, IfSome};
ghost use Rattle.std.specs.Option.{option_copied};
ghost use Rattle.book_policy_values.specs.Policies.{IsFaultless, IsPolicy, entries_at, policy_of};

use crate::parts::{BookPart, EntryPart, GroupPart, PersonPart, PolicyTables};
use crate::reading::{ReadEntries, ReadPrincipals, read_books, read_entries, read_principals};
use book_limits::MAX_NAMED;
use book_lists::Entry;
use book_office_values::{Items, Text, TextMap};
use std::alloc::{AllocError, Global};
use std::marker::Model;

/// A policy without a fault, seen as what it says (own profile): names are names, each once; labels have at most 256 bytes;
/// each entry holds a leaf; members, owners and the principals of entries are persons and groups of the policy; entries
/// stand at the root, a home, or a person, a group or a book of the policy; and there are not too many.
///
/// Beside what it says it keeps the entries by the path where they stand.
#[derive(Debug, Drop)]
pub struct Policy {
    tables: PolicyTables,
    protected: TextMap<Items<Entry>>,
    own: TextMap<Items<Entry>>,
}

impl Model for Policy {
    ghost use Rattle.book_policy_values.specs.declared.parts.PolicyTables.{PolicyTables};
    ghost use Rattle.book_policy_values.specs.contracts.parts.PolicyTables as tables_type;
    ghost use Rattle.book_policy_values.specs.Policies.{IsPolicy, AreListed};

    ghost Value = { PolicyTables };

    ghost coded = { tables_type.the_row.coded };

    ghost view = { λ p. p.tables };

    ghost invariant = { λ p. IsPolicy p.tables × AreListed p.tables.entries p.protected p.own };
}

/// A copy equals its source. An error is want of memory.
impl Clone for Policy {
    ghost is_clone = { λ source copy. copy ≡ source };

    fn clone(&self) -> Result<Policy, AllocError> {
        Ok(Policy {
            tables: self.tables.clone()?,
            protected: self.protected.clone()?,
            own: self.own.clone()?,
        })
    }
}

impl Policy {
    /// The policy of the parts; none where the parts have a fault: a label over 256 bytes, an entry that holds no leaf, a name
    /// that is no name, a name twice in one array, a member, owner or principal that is no person or group of this policy, an
    /// entry at another place than the root, a home, or a person, a group or a book of this policy, more than 1,000 persons,
    /// groups, books or members of one group (repeated ones count once), or more than 64 entries of one list. An error is
    /// want of memory.
    ///
    /// It takes a number of steps that grows with the parts, and for each a number of comparisons that grows with the
    /// logarithm of their number.
    pub fn new(
        alloc: Global,
        persons: Items<PersonPart>,
        groups: Items<GroupPart>,
        books: Items<BookPart>,
        entries: Items<EntryPart>,
    ) -> Result<Option<Policy>, AllocError>
        ensures faultless { IfOk result (λ found. IsSome found
            ↔ IsFaultless persons groups books entries) }
        ensures policy { IfOk result (λ found. IfSome found
            (λ policy. policy ≡ policy_of persons groups books entries)) }
    {
        if persons.len() > MAX_NAMED || groups.len() > MAX_NAMED || books.len() > MAX_NAMED {
            return Ok(None);
        }
        let Some(principals) = read_principals(alloc, persons, groups)? else {
            return Ok(None);
        };
        let (persons, groups) = (&principals.persons, &principals.groups);
        let Some(books) = read_books(alloc, persons, groups, books)? else {
            return Ok(None);
        };
        let Some(read) = read_entries(alloc, persons, groups, &books, entries)? else {
            return Ok(None);
        };
        let ReadPrincipals {
            persons,
            groups,
            members,
        } = principals;
        let ReadEntries {
            entries,
            protected,
            own,
        } = read;
        Ok(Some(Policy {
            tables: PolicyTables {
                persons,
                groups,
                books,
                members,
                entries,
            },
            protected,
            own,
        }))
    }

    /// What the policy says. Takes no memory.
    pub fn tables(&self) -> &PolicyTables
        ensures { result.now ≡ self.now }
    {
        &self.tables
    }

    /// Hands out the rules that each policy meets.
    pub fn known(&self)
        ensures { IsPolicy self.now }
    {
        let _ = &self.tables;
    }

    /// The protected entries at a text of a path, in order; none where there are none. Takes no memory.
    pub fn protected_at(&self, at: &Text) -> Option<&Items<Entry>>
        ensures { unwrap_or (option_copied result) [] ≡ entries_at true at.now self.now.entries }
    {
        self.protected.get(at)
    }

    /// The entries of the own list at a text of a path, in order; none where there are none. Takes no memory.
    pub fn own_at(&self, at: &Text) -> Option<&Items<Entry>>
        ensures { unwrap_or (option_copied result) [] ≡ entries_at false at.now self.now.entries }
    {
        self.own.get(at)
    }
}
