//! The edits of an Office.

ghost use Rattle.std.specs.Prelude.{◌≡◌};
ghost use Rattle.book_office.specs.Edits.{changes_members};

use book_lists::{Entry, Name, Principal};
use book_office_values::{Items, Path, Text};
use book_policy_values::Policy;

/// A change of an Office. It fits an Office where what it names as present is mapped, what it adds is not mapped and
/// has a mapped parent, and what it leaves is sound.
#[derive(Debug, Drop)]
pub enum Edit {
    /// PUT: the text of a card. A new card gets the owner, an empty label and an empty own list; of a card that is
    /// there the text alone is replaced.
    PutCard {
        book: Name,
        card: Name,
        owner: Option<Principal>,
        text: Text,
    },
    /// DELETE of a card: its name is kept as removed.
    RemoveCard {
        book: Name,
        card: Name,
    },
    /// COPY: the text and the label of a card. A new card gets the owner and an empty own list; a card that is there
    /// keeps its owner and its own list.
    CopyCard {
        from_book: Name,
        from_card: Name,
        to_book: Name,
        to_card: Name,
        owner: Option<Principal>,
    },
    /// MOVE: the whole card, in place of a card that is there. The name that it had is kept as removed. The destination
    /// is another path than the source.
    MoveCard {
        from_book: Name,
        from_card: Name,
        to_book: Name,
        to_card: Name,
    },
    /// MKCOL: a book with an empty label, empty lists and the number 0.
    AddBook {
        book: Name,
        owner: Option<Principal>,
    },
    /// DELETE of a book, with its cards and removed names. The epoch rises.
    RemoveBook {
        book: Name,
    },
    /// PROPPATCH of a displayname (RFC 4918, section 15.2): the label of a resource. A card's is a change of the card,
    /// and touches its name, also where the label is the one that it has; another label touches nothing.
    SetLabel {
        path: Path,
        label: Text,
    },
    /// ACL (RFC 3744, section 8.1): the own list of a resource is replaced. The epoch rises, also where the list is the
    /// one that it has.
    SetList {
        path: Path,
        entries: Items<Entry>,
    },
    /// PROPPATCH of a group-member-set (RFC 3744, section 4.3): the direct members of a group are replaced. The epoch
    /// rises, also where the members are those that it has.
    SetMembers {
        group: Principal,
        members: Items<Principal>,
    },
    /// Adopting a policy (own profile): what it names is added, and labels, owners of books, members and lists become
    /// the policy's. The epoch rises where the Office differs from before.
    Adopt {
        policy: Policy,
    },
}

impl Edit {
    /// Whether the edit may change direct members: after every other what was asked of them holds. Takes no memory.
    pub fn changes_members(&self) -> bool
        ensures { result ≡ changes_members self.now }
    {
        match self {
            Edit::PutCard { .. }
            | Edit::RemoveCard { .. }
            | Edit::CopyCard { .. }
            | Edit::MoveCard { .. }
            | Edit::AddBook { .. }
            | Edit::RemoveBook { .. }
            | Edit::SetLabel { .. }
            | Edit::SetList { .. } => false,
            Edit::SetMembers { .. } | Edit::Adopt { .. } => true,
        }
    }
}
