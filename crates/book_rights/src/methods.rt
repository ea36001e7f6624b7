//! What each method needs (RFC 3744, appendix B; COPY, DELETE of a book and the reports effective and names are own).

ghost use Rattle.std.specs.Prelude.{◌≡◌, Some, None};
ghost use Rattle.book_rights.specs.declared.places.Place.TheVariants.{Target};
ghost use Rattle.book_rights.specs.Leaves.{only};
ghost use Rattle.book_rights.specs.Needs.{at, needs_of, need_list, read_and};
ghost use Rattle.book_rights.specs.Privileges.{is_read};

use crate::leaf_sets::LeafSet;
use crate::places::{Need, Needs, Place};
use crate::privileges::{Leaf, Privilege};

/// The methods of the server: those of RFC 9110, RFC 4918, RFC 3744 and RFC 3253 that it knows.
#[derive(Clone, Copy, Debug, PartialEq, Eq)]
pub enum Method {
    /// GET (RFC 9110, section 9.3.1).
    Get,
    /// HEAD (RFC 9110, section 9.3.2).
    Head,
    /// OPTIONS (RFC 9110, section 9.3.7).
    Options,
    /// PUT (RFC 9110, section 9.3.4).
    Put,
    /// PROPFIND (RFC 4918, section 9.1).
    Propfind,
    /// PROPPATCH (RFC 4918, section 9.2).
    Proppatch,
    /// ACL (RFC 3744, section 8.1).
    Acl,
    /// COPY (RFC 4918, section 9.8).
    Copy,
    /// MOVE (RFC 4918, section 9.9).
    Move,
    /// DELETE (RFC 4918, section 9.6).
    Delete,
    /// MKCOL (RFC 4918, section 9.3).
    Mkcol,
    /// REPORT (RFC 3253, section 3.6).
    Report,
}

/// What the needs of a request depend on beside its method.
#[derive(Clone, Copy, Debug, PartialEq, Eq)]
pub struct Shape {
    /// The target is mapped; read for PUT.
    pub target_mapped: bool,
    /// The destination is mapped; read for COPY and MOVE.
    pub destination_mapped: bool,
    /// The target is a book; read for DELETE.
    pub book: bool,
    /// The property `acl` is asked; read for PROPFIND.
    pub acl: bool,
    /// The property `current-user-privilege-set` is asked; read for PROPFIND.
    pub privileges: bool,
    /// The report is the one on the effective list; read for REPORT.
    pub effective: bool,
    /// The report is the one on names; read for REPORT.
    pub names: bool,
}

/// One leaf at a place.
fn at(place: Place, leaf: Leaf) -> Need
    ensures { result ≡ at place (only leaf) }
{
    Need {
        place,
        set: LeafSet::empty().with(leaf),
    }
}

fn one(first: Need) -> Needs
    ensures { result ≡ record { first = first; others = None } }
{
    Needs {
        first,
        others: None,
    }
}

fn two(first: Need, second: Need) -> Needs
    ensures { result ≡ record { first = first; others = Some (second, None) } }
{
    Needs {
        first,
        others: Some((second, None)),
    }
}

fn three(first: Need, second: Need, third: Need) -> Needs
    ensures { result ≡ record { first = first; others = Some (second, Some third) } }
{
    Needs {
        first,
        others: Some((second, Some(third))),
    }
}

/// `read` at the target.
fn read() -> Need
    ensures { result ≡ at Target is_read }
{
    Need {
        place: Place::Target,
        set: Privilege::Read.leaves(),
    }
}

/// `read` at the target, with what else is asked of it.
fn read_and(acl: bool, privileges: bool) -> Need
    ensures { result ≡ at Target (read_and acl privileges) }
{
    let read = Privilege::Read.leaves();
    let set = match (acl, privileges) {
        (true, true) => read
            .with(Leaf::ReadAcl)
            .with(Leaf::ReadCurrentUserPrivilegeSet),
        (true, false) => read.with(Leaf::ReadAcl),
        (false, true) => read.with(Leaf::ReadCurrentUserPrivilegeSet),
        (false, false) => read,
    };
    Need {
        place: Place::Target,
        set,
    }
}

/// What a request needs, in the order in which it is checked. Takes no memory.
pub fn needs(method: Method, shape: Shape) -> Needs
    ensures { need_list result ≡ needs_of method shape }
{
    match method {
        Method::Get => one(read()),
        Method::Head => one(read()),
        Method::Options => one(read()),
        Method::Put if shape.target_mapped => one(at(Place::Target, Leaf::WriteContent)),
        Method::Put => one(at(Place::Parent, Leaf::Bind)),
        Method::Propfind => one(read_and(shape.acl, shape.privileges)),
        Method::Proppatch => one(at(Place::Target, Leaf::WriteProperties)),
        Method::Acl => one(at(Place::Target, Leaf::WriteAcl)),
        Method::Copy if shape.destination_mapped => two(
            read(),
            Need {
                place: Place::Destination,
                set: LeafSet::empty()
                    .with(Leaf::WriteContent)
                    .with(Leaf::WriteProperties),
            },
        ),
        Method::Copy => two(read(), at(Place::DestinationParent, Leaf::Bind)),
        Method::Move if shape.destination_mapped => three(
            at(Place::Parent, Leaf::Unbind),
            at(Place::DestinationParent, Leaf::Bind),
            at(Place::DestinationParent, Leaf::Unbind),
        ),
        Method::Move => two(
            at(Place::Parent, Leaf::Unbind),
            at(Place::DestinationParent, Leaf::Bind),
        ),
        Method::Delete if shape.book => two(
            at(Place::Parent, Leaf::Unbind),
            at(Place::Target, Leaf::Unbind),
        ),
        Method::Delete => one(at(Place::Parent, Leaf::Unbind)),
        Method::Mkcol => one(at(Place::Parent, Leaf::Bind)),
        Method::Report if shape.names => one(at(Place::Target, Leaf::ReadNames)),
        Method::Report => one(read_and(shape.effective, false)),
    }
}
