//! What a listing asks for and what it tells, and what is told of a leaf.

use book_lists::{Principal, Who};
use book_office_sync::Token;
use book_office_values::{Items, Kind, Path, Text};
use book_rights::{Leaf, LeafSet, Privilege};

/// A property that a request may ask for (RFC 4918, section 9.1; RFC 3744, section 5; RFC 6578, section 4).
#[derive(Clone, Copy, Debug, PartialEq, Eq)]
pub enum Property {
    /// `displayname`: the label.
    DisplayName,
    /// `resourcetype`: the kind.
    ResourceType,
    /// `owner`: the person or group that owns the resource.
    Owner,
    /// `acl`: the effective list.
    Acl,
    /// `current-user-privilege-set`: what the caller is granted.
    CurrentUserPrivilegeSet,
    /// `group-member-set`: the direct members of a group.
    GroupMemberSet,
    /// `sync-token`: the token of a book's present contents.
    SyncToken,
}

/// How far a listing goes (RFC 4918, section 10.2).
#[derive(Clone, Copy, Debug, PartialEq, Eq)]
pub enum Extent {
    /// Depth 0: the resource alone.
    Resource,
    /// Depth 1: the resource, and then its children.
    Children,
}

/// What a PROPFIND asks for (RFC 4918, section 9.1).
#[derive(Debug, Drop)]
pub struct Find {
    /// The leaves that are needed at each resource whose properties are told.
    pub needed: LeafSet,
    /// How far it goes.
    pub extent: Extent,
    /// The properties, in the order in which they are told.
    pub properties: Items<Property>,
}

/// An entry of the property `acl` (RFC 3744, section 5.5).
#[derive(Debug, Drop)]
pub struct AclEntry {
    /// To whom it applies.
    pub who: Who,
    /// Whether it applies exactly where its form does not.
    pub invert: bool,
    /// Whether it denies; else it grants.
    pub deny: bool,
    /// The short names of its leaves, in order.
    pub privileges: Items<Privilege>,
    /// Whether it stands in a protected list (RFC 3744, section 5.5.3).
    pub protected: bool,
    /// The ancestor at which it stands (RFC 3744, section 5.5.4); none where it stands at the resource itself.
    pub inherited: Option<Path>,
}

/// A property of a resource, with its value.
#[derive(Debug, Drop)]
pub enum PropertyValue {
    /// `displayname` (RFC 4918, section 15.2): the label.
    DisplayName(Text),
    /// `resourcetype` (RFC 4918, section 15.9): the kind.
    ResourceType(Kind),
    /// `owner` (RFC 3744, section 5.1): none where the resource has no owner.
    Owner(Option<Principal>),
    /// `acl` (RFC 3744, section 5.5): the effective list, in the order in which it is asked.
    Acl(Items<AclEntry>),
    /// `current-user-privilege-set` (RFC 3744, section 5.4): `all` where every leaf is granted, `write` where each of
    /// its leaves is, and then every granted leaf in order (own profile).
    CurrentUserPrivilegeSet(Items<Privilege>),
    /// `group-member-set` (RFC 3744, section 4.3): the direct members in byte order; none where the resource is no
    /// group.
    GroupMemberSet(Option<Items<Principal>>),
    /// `sync-token` (RFC 6578, section 4): none where the resource is no book.
    SyncToken(Option<Token>),
}

/// The entry that decides a denial: where it stands, and its number in the effective list.
#[derive(Debug, Drop)]
pub struct DecidingEntry {
    /// The resource at which the entry stands.
    pub from: Path,
    /// Its number in the effective list of the resource that was asked, from 1.
    pub number: usize,
}

/// A need that is not granted (RFC 3744, section 7.1.1).
#[derive(Debug, Drop)]
pub struct Denial {
    /// The resource at which the privilege is needed.
    pub resource: Path,
    /// The privilege, named as the denial of its leaf is.
    pub privilege: Privilege,
    /// The entry that denies it; none where no entry decides it.
    pub entry: Option<DecidingEntry>,
}

/// What a listing tells of one resource (RFC 4918, section 9.1).
#[derive(Debug, Drop)]
pub enum Response {
    /// 200: the properties that were asked for, in their order.
    Told {
        /// The resource.
        path: Path,
        /// The properties.
        properties: Items<PropertyValue>,
    },
    /// 403: the denial, which names the resource (own profile). Nothing else is told of it.
    Denied(Denial),
}

/// What is decided for one leaf.
#[derive(Debug, Drop)]
pub struct Ruling {
    /// The leaf.
    pub leaf: Leaf,
    /// The entry that decides it: where it stands, and its number in the effective list, from 1; none where no entry
    /// does.
    pub entry: Option<DecidingEntry>,
    /// Whether that entry grants it; false where no entry decides it.
    pub grant: bool,
}
