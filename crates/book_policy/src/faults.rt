//! Why a text is no policy.

use std::alloc::AllocError;
use std::error::Error;
use std::fmt;

/// Why a text is no policy (own profile); it prints as its name. Of several faults of the whole text the earliest of
/// these is told; but a text that is too long is `TooMany`, whatever else it has.
#[derive(Clone, Copy, Debug, PartialEq, Eq, Drop)]
pub enum PolicyFault {
    /// The text is not TOML.
    NotToml,
    /// The version is absent, or is not the whole number 1.
    OtherVersion,
    /// A key that is none of its table, a missing one, a value of another kind, both or neither of `grant` and `deny`,
    /// no or more than 16 names of privileges, or a label over 256 bytes.
    BadKey,
    /// A person, a group or a book whose name is no name.
    BadName,
    /// A name twice among the persons, the groups, or the books.
    NameTwice,
    /// A member, an owner or a `who` that is no person or group of this policy, and in `who` no word for a form.
    UnknownPrincipal,
    /// An entry at another place than the root, a home, or a person, a group or a book of this policy.
    UnknownResource,
    /// A name that is no privilege's.
    UnknownPrivilege,
    /// More than 1,048,576 bytes; more than 1,000 persons, groups, books or members of one group (repeated ones count
    /// once), or more than 64 entries of one list.
    TooMany,
    /// Memory was refused; it may be told in place of any other.
    Memory,
}

impl fmt::Display for PolicyFault {
    ghost use Rattle.std.specs.Prelude.{Some};
    ghost use Rattle.book_policy.specs.FaultNames.{fault_name};

    ghost output = { λ fault. Some (fault_name fault) };

    fn fmt<W: fmt::Write>(&self, f: &mut fmt::Formatter<W>) -> fmt::Result {
        match self {
            PolicyFault::NotToml => f.write_str("not-toml"),
            PolicyFault::OtherVersion => f.write_str("other-version"),
            PolicyFault::BadKey => f.write_str("bad-key"),
            PolicyFault::BadName => f.write_str("bad-name"),
            PolicyFault::NameTwice => f.write_str("name-twice"),
            PolicyFault::UnknownPrincipal => f.write_str("unknown-principal"),
            PolicyFault::UnknownResource => f.write_str("unknown-resource"),
            PolicyFault::UnknownPrivilege => f.write_str("unknown-privilege"),
            PolicyFault::TooMany => f.write_str("too-many"),
            PolicyFault::Memory => f.write_str("memory"),
        }
    }
}

impl Error for PolicyFault {}

impl From<AllocError> for PolicyFault {
    ghost use Rattle.std.specs.Prelude.{◌≡◌};
    ghost use Rattle.book_policy.specs.declared.faults.PolicyFault.TheVariants.{Memory};

    ghost from_gives = { λ _ fault. fault ≡ Memory };

    fn from(_error: AllocError) -> PolicyFault {
        PolicyFault::Memory
    }
}
