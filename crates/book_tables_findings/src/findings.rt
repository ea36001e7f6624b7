//! What is found, and the rules that rows break.

use book_office_values::Items;

/// A rule for a row of `node`.
#[derive(Clone, Copy, Debug, PartialEq, Eq)]
pub enum NodeRule {
    /// Its path is the text of a path.
    Path,
    /// Its parent is the row of the path above, and none for the root.
    Parent,
    /// Its kind is that of its path.
    Kind,
    /// Its owner, if it has one, is a person or a group that is there.
    Owner,
    /// Its label is UTF-8, of no more bytes than a label may have.
    Label,
    /// Its change number is one that its kind may have.
    Number,
}

/// A resource that each Office has.
#[derive(Clone, Copy, Debug, PartialEq, Eq)]
pub enum Home {
    /// The root.
    Root,
    /// The home of the persons.
    People,
    /// The home of the groups.
    Groups,
    /// The home of the books.
    Books,
}

/// A rule for a row of `ace2`.
#[derive(Clone, Copy, Debug, PartialEq, Eq)]
pub enum EntryRule {
    /// It is in one of two lists, at a place, and spelled in the one way.
    Form,
    /// Its node is there.
    Node,
    /// It is none of a card's protected entries.
    Protected,
    /// The principal that it names, if it names one, is there.
    Principal,
}

/// A rule for a row of `member`.
#[derive(Clone, Copy, Debug, PartialEq, Eq)]
pub enum MemberRule {
    /// Its group is there.
    Group,
    /// Its member is a person or a group that is there.
    Member,
}

/// A rule for a row of `gone`.
#[derive(Clone, Copy, Debug, PartialEq, Eq)]
pub enum GoneRule {
    /// Its book is there.
    Book,
    /// Its name is a name.
    Name,
    /// No card of the book has its name.
    Free,
    /// Its change number is a natural number.
    Number,
}

/// A rule for what is counted over rows.
#[derive(Clone, Copy, Debug, PartialEq, Eq)]
pub enum Limit {
    /// No list has more entries than it may have.
    Entries,
    /// No group has more direct members than it may have.
    Members,
    /// The change numbers of cards and removed names are from 1 to those of their books, which are there.
    Range,
    /// No change number stands twice in a book.
    Twice,
    /// No book has more cards than it may have.
    Cards,
    /// There are no more books than there may be.
    Books,
}

/// What is at fault. A row is told by its name.
#[derive(Debug, Drop)]
pub enum Finding {
    /// `meta` has not one row, with version 2 and an epoch up to the last.
    Meta,
    /// A row of `node` breaks a rule.
    Node(Items<u8>, NodeRule),
    /// The root or a home is not there.
    Missing(Home),
    /// A row of `ace2` breaks a rule.
    Entry(Items<u8>, EntryRule),
    /// A row of `member` breaks a rule.
    Member(Items<u8>, MemberRule),
    /// A row of `gone` breaks a rule.
    Gone(Items<u8>, GoneRule),
    /// A limit is not kept.
    Limit(Limit),
    /// A row of `node` has no text of its kind: a card's is UTF-8, of no more bytes than it may have, and no other node
    /// has one.
    Text(Items<u8>),
}
