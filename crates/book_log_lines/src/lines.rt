//! What a line of a log tells.

use crate::times::Time;
use book_lists::Entry;
use book_office_values::{Items, Path, Text};
use book_rights::{Method, Privilege};

/// The entry that decides a denial (RFC 3744, section 7.1.1).
#[derive(Debug, Drop)]
pub struct Decided {
    /// The resource at which it stands.
    pub from: Path,
    /// Whether it stands in the protected list there, and else in the own list.
    pub protected: bool,
    /// Its number in that list, from 1.
    pub place: u64,
    /// Its number in the effective list of the resource that was asked, from 1.
    pub number: u64,
    /// The entry.
    pub entry: Entry,
}

/// A need that is not granted.
#[derive(Debug, Drop)]
pub struct Denied {
    /// The resource at which the privilege is needed.
    pub resource: Path,
    /// The privilege.
    pub privilege: Privilege,
    /// The entry that denies it; none where no entry decides it.
    pub by: Option<Decided>,
}

/// A book or a card that an edit changed.
#[derive(Debug, Drop)]
pub struct Touched {
    /// Where it is.
    pub path: Path,
    /// The number of this change.
    pub number: u64,
}

/// What was asked on a connection, and what was answered.
#[derive(Debug, Drop)]
pub struct ReplyLine {
    /// When the reply was made.
    pub time: Time,
    /// The number of the connection.
    pub connection: u64,
    /// The caller's bare name, as it was sent; none for nobody.
    pub caller: Option<Text>,
    /// The method; none where it was not read.
    pub method: Option<Method>,
    /// The resource that was asked for; none where its text was no path, or was not read.
    pub path: Option<Path>,
    /// The path of the field Destination (RFC 4918, section 10.3), if there was one.
    pub destination: Option<Path>,
    /// The status of the reply (RFC 9110, section 15).
    pub status: u16,
    /// The name of the refusal, if it was one.
    pub error: Option<Text>,
    /// What was denied, if it was a denial.
    pub denied: Option<Denied>,
    /// The resources that got a number by the edit, at most two.
    pub touched: Items<Touched>,
    /// The epoch after the edit, if there was one.
    pub epoch: Option<u64>,
}

/// What came of adopting a policy.
#[derive(Clone, Copy, Debug, PartialEq, Eq)]
pub enum Adoption {
    /// The Office is another one now.
    Changed,
    /// The Office is the one that it was.
    Unchanged,
    /// A limit would be passed.
    Full,
    /// Memory was refused, or the store failed.
    Unavailable,
}

/// That a policy was to be adopted.
#[derive(Debug, Drop)]
pub struct AdoptionLine {
    /// When.
    pub time: Time,
    /// The epoch after it.
    pub epoch: u64,
    /// What came of it.
    pub adopted: Adoption,
}

/// What a line of a log tells.
#[derive(Debug, Drop)]
pub enum Line {
    /// A reply.
    Reply(ReplyLine),
    /// That a policy was to be adopted.
    Adoption(AdoptionLine),
}
