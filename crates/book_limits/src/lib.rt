//! How much there may be (own profile): every limit of lists, groups, policies, cards, books, numbers and requests, once.
//!
//! It stands on nothing. Each crate above that keeps a limit, and each definition that speaks of one, names it here.
#![tactic(auto)]

/// The most entries of a protected list, and of an own list; and of one question to `explain`.
pub const MAX_ENTRIES: usize = 64;

/// The most direct members of a group; and the most memberships of one question to `explain`.
pub const MAX_MEMBERS: usize = 1_000;

/// The most persons of a policy, the most groups, and the most books.
pub const MAX_NAMED: usize = 1_000;

/// The most privilege names of an entry.
pub const MAX_PRIVILEGE_NAMES: usize = 16;

/// The most different properties that a PROPFIND asks for: all that there are.
pub const MAX_PROPERTIES: usize = 7;

/// The most bytes of a label.
pub const MAX_LABEL_BYTES: usize = 256;

/// The most bytes of a card's text.
pub const MAX_CARD_BYTES: usize = 65_536;

/// The most cards of a book.
pub const MAX_CARDS: usize = 10_000;

/// The most books.
pub const MAX_BOOKS: usize = 1_000;

/// The most bytes of a policy's text.
pub const MAX_POLICY_BYTES: usize = 1_048_576;

/// The most bytes of a request's head.
pub const MAX_HEAD: usize = 16_384;

/// The most header fields of a request.
pub const MAX_FIELDS: usize = 64;

/// The most bytes of a request's body.
pub const MAX_BODY: usize = 262_144;

/// The last number of a change, and the last access epoch: the greatest whole number that JSON keeps exactly.
pub const LAST_NUMBER: u64 = 9_007_199_254_740_991;
