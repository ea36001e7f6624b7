//! Leaves, aggregates, and their names.

ghost use Rattle.std.specs.Prelude.{◌≡◌, ◌≢◌, IfSome, IfNone};
ghost use Rattle.book_rights.specs.declared.privileges.Privilege.{Privilege};
ghost use Rattle.book_rights.specs.Privileges.{contained, name_of, leaf_name, denied_name};

use crate::leaf_sets::LeafSet;

/// A privilege that contains no other (RFC 3744, section 3). The order of the variants is the order of the leaves.
#[derive(Clone, Copy, Debug, PartialEq, Eq)]
pub enum Leaf {
    /// `x-read-texts`: what `read` (section 3.1) lets see beyond names; own profile.
    ReadTexts,
    /// `write-content`: to replace the content of a resource (section 3.4).
    WriteContent,
    /// `write-properties`: to change properties (section 3.3).
    WriteProperties,
    /// `bind`: to add a member to a collection (section 3.9).
    Bind,
    /// `unbind`: to remove a member of a collection (section 3.10).
    Unbind,
    /// `read-acl`: to see the access list (section 3.6).
    ReadAcl,
    /// `write-acl`: to change the access list (section 3.8).
    WriteAcl,
    /// `read-current-user-privilege-set`: to see one's own privileges (section 3.7).
    ReadCurrentUserPrivilegeSet,
    /// `x-read-names`: to see the formatted names of cards; own profile.
    ReadNames,
}

/// A leaf, or an aggregate of leaves (RFC 3744, section 3.12).
#[derive(Clone, Copy, Debug, PartialEq, Eq)]
pub enum Privilege {
    /// One leaf.
    One(Leaf),
    /// `read`: x-read-texts and x-read-names, to see a resource's content and properties (section 3.1).
    Read,
    /// `write`: write-content, write-properties, bind and unbind (section 3.2); no more is own profile.
    Write,
    /// `all`: every leaf.
    All,
}

impl Leaf {
    /// Every leaf, in order.
    pub const ALL: [Leaf; 9] = [
        Leaf::ReadTexts,
        Leaf::WriteContent,
        Leaf::WriteProperties,
        Leaf::Bind,
        Leaf::Unbind,
        Leaf::ReadAcl,
        Leaf::WriteAcl,
        Leaf::ReadCurrentUserPrivilegeSet,
        Leaf::ReadNames,
    ];

    /// The name in requests, policies and replies, as `write-content`.
    pub fn name(self) -> &'static str
        ensures { result.now ≡ leaf_name self }
    {
        match self {
            Leaf::ReadTexts => "x-read-texts",
            Leaf::WriteContent => "write-content",
            Leaf::WriteProperties => "write-properties",
            Leaf::Bind => "bind",
            Leaf::Unbind => "unbind",
            Leaf::ReadAcl => "read-acl",
            Leaf::WriteAcl => "write-acl",
            Leaf::ReadCurrentUserPrivilegeSet => "read-current-user-privilege-set",
            Leaf::ReadNames => "x-read-names",
        }
    }
}

impl Privilege {
    /// The privilege with this name; none where no privilege has it. Names are compared byte by byte.
    pub fn from_name(name: &str) -> Option<Privilege>
        ensures found { IfSome result (λ privilege. name.now ≡ name_of privilege) }
        ensures unknown { IfNone result ((privilege : Privilege) → name.now ≢ name_of privilege) }
    {
        Some(match name {
            "x-read-texts" => Privilege::One(Leaf::ReadTexts),
            "write-content" => Privilege::One(Leaf::WriteContent),
            "write-properties" => Privilege::One(Leaf::WriteProperties),
            "bind" => Privilege::One(Leaf::Bind),
            "unbind" => Privilege::One(Leaf::Unbind),
            "read-acl" => Privilege::One(Leaf::ReadAcl),
            "write-acl" => Privilege::One(Leaf::WriteAcl),
            "read-current-user-privilege-set" => Privilege::One(Leaf::ReadCurrentUserPrivilegeSet),
            "x-read-names" => Privilege::One(Leaf::ReadNames),
            "read" => Privilege::Read,
            "write" => Privilege::Write,
            "all" => Privilege::All,
            _ => return None,
        })
    }

    /// The name, which `from_name` reads back.
    pub fn name(self) -> &'static str
        ensures { result.now ≡ name_of self }
    {
        match self {
            Privilege::One(leaf) => leaf.name(),
            Privilege::Read => "read",
            Privilege::Write => "write",
            Privilege::All => "all",
        }
    }

    /// The leaves that this privilege contains: a leaf contains itself alone.
    pub fn leaves(self) -> LeafSet
        ensures { result ≡ contained self }
    {
        match self {
            Privilege::One(leaf) => LeafSet::empty().with(leaf),
            Privilege::Read => LeafSet::empty().with(Leaf::ReadTexts).with(Leaf::ReadNames),
            Privilege::Write => LeafSet::empty()
                .with(Leaf::WriteContent)
                .with(Leaf::WriteProperties)
                .with(Leaf::Bind)
                .with(Leaf::Unbind),
            Privilege::All => LeafSet::all(),
        }
    }
}

/// How the denial of a leaf is named where these leaves are needed: `x-read-texts` as `read`, where the need has both of
/// its leaves, and any other leaf as itself.
pub fn denied_name(leaf: Leaf, need: LeafSet) -> Privilege
    ensures { result ≡ denied_name leaf need }
{
    match leaf {
        Leaf::ReadTexts if need.has(Leaf::ReadNames) => Privilege::Read,
        other => Privilege::One(other),
    }
}
