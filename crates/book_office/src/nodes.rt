//! What a keeper tells of resources.

ghost use Rattle.std.specs.Prelude.{◌≡◌};
ghost use Rattle.book_office.specs.Resources.{unnumbered};

use book_lists::{Entry, Name, Principal};
use book_office_values::{Items, Kind, Path, StoredCard, Text};

/// A resource without its lists.
#[derive(Debug, Drop)]
pub struct Node {
    /// Which kind of resource it is.
    pub kind: Kind,
    /// The person or group that owns it.
    pub owner: Option<Principal>,
    /// Its label, at most 256 bytes.
    pub label: Text,
    /// A card's text; none for other kinds.
    pub text: Option<Text>,
    /// The number of a card's last change, or of a book's; else 0. `Keeper::find_unnumbered` tells 0 for each.
    pub number: u64,
}

impl Node {
    /// The same resource with the number 0.
    pub(crate) fn unnumbered(self) -> Node
        ensures { result ≡ unnumbered self }
    {
        Node { number: 0, ..self }
    }
}

/// A child in a listing, with the lists that stand at it. A card's text is not told: `Keeper::find` gives it.
#[derive(Debug, Drop)]
pub struct Listed {
    /// Its own name, the last of its path.
    pub name: Name,
    /// Which kind of resource it is.
    pub kind: Kind,
    /// The person or group that owns it.
    pub owner: Option<Principal>,
    /// Its label, at most 256 bytes.
    pub label: Text,
    /// The number of a card's last change, or of a book's; else 0.
    pub number: u64,
    /// The protected list that stands at it.
    pub protected: Items<Entry>,
    /// The own list that stands at it.
    pub own: Items<Entry>,
}

/// The last change of a name of a book, with the card that has the name.
#[derive(Debug, Drop)]
pub struct Changed {
    /// Its number.
    pub number: u64,
    /// The name.
    pub name: Name,
    /// The card, text and own list included; none where the name was removed.
    pub card: Option<StoredCard>,
}

/// The lists that stand at one path.
#[derive(Debug, Drop)]
pub struct Level {
    /// Where they stand.
    pub path: Path,
    /// The protected list.
    pub protected: Items<Entry>,
    /// The own list.
    pub own: Items<Entry>,
}

/// The lists of a resource and of each of its ancestors, the resource first and the root last.
#[derive(Debug, Drop)]
pub struct Lists {
    /// One level for each path.
    pub levels: Items<Level>,
}

/// An entry of an effective list (RFC 3744, section 5.5).
#[derive(Debug, Drop)]
pub struct EffectiveEntry {
    /// The resource at which the entry stands: the resource itself, or one of its ancestors.
    pub path: Path,
    /// Whether it stands in the protected list there, and else in the own list.
    pub protected: bool,
    /// The entry.
    pub entry: Entry,
}
