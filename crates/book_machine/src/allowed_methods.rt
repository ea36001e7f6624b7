//! The methods that a resource allows.

ghost use Rattle.std.specs.Prelude.{◌≡◌};
ghost use Rattle.book_machine.specs.AllowedMethods.{allowed_of, allowed_text, goes_on, is_among, methods_of};

use book_office::Kind;
use book_rights::Method;

/// The methods of one kind of resource, as the field Allow lists them (RFC 9110, section 10.2.1).
#[derive(Clone, Copy, Debug, PartialEq, Eq)]
pub enum AllowedMethods {
    /// Those of the root and the homes.
    OfCollection,
    /// Those of persons and groups.
    OfPrincipal,
    /// Those of a book.
    OfBook,
    /// Those of a card.
    OfCard,
    /// Those of a path of a book that is not there.
    OfNewBook,
    /// Those of a path of a card that is not there.
    OfNewCard,
}

impl AllowedMethods {
    /// The methods of a mapped resource of this kind.
    pub fn of(kind: Kind) -> AllowedMethods
        ensures { result ≡ allowed_of kind }
    {
        match kind {
            Kind::Root | Kind::Home => AllowedMethods::OfCollection,
            Kind::Person | Kind::Group => AllowedMethods::OfPrincipal,
            Kind::Book => AllowedMethods::OfBook,
            Kind::Card => AllowedMethods::OfCard,
        }
    }

    /// The value of the field Allow: the methods in byte order, each after a comma and a space but the first.
    pub fn text(self) -> &'static str
        ensures { result.now ≡ allowed_text self }
    {
        match self {
            AllowedMethods::OfCollection => "ACL, OPTIONS, PROPFIND, REPORT",
            AllowedMethods::OfPrincipal => "ACL, OPTIONS, PROPFIND, PROPPATCH, REPORT",
            AllowedMethods::OfBook => "ACL, DELETE, OPTIONS, PROPFIND, PROPPATCH, REPORT",
            AllowedMethods::OfCard => {
                "ACL, COPY, DELETE, GET, HEAD, MOVE, OPTIONS, PROPFIND, PROPPATCH, PUT, REPORT"
            }
            AllowedMethods::OfNewBook => "MKCOL",
            AllowedMethods::OfNewCard => "PUT",
        }
    }

    /// Whether the method is among them.
    fn has(self, method: Method) -> bool
        ensures { result ≡ is_among method (methods_of self) }
    {
        match method {
            Method::Get | Method::Head | Method::Copy | Method::Move => {
                self == AllowedMethods::OfCard
            }
            Method::Options | Method::Propfind | Method::Acl | Method::Report => {
                self != AllowedMethods::OfNewBook && self != AllowedMethods::OfNewCard
            }
            Method::Put => self == AllowedMethods::OfCard || self == AllowedMethods::OfNewCard,
            Method::Proppatch => {
                self == AllowedMethods::OfPrincipal
                    || self == AllowedMethods::OfBook
                    || self == AllowedMethods::OfCard
            }
            Method::Delete => self == AllowedMethods::OfBook || self == AllowedMethods::OfCard,
            Method::Mkcol => self == AllowedMethods::OfNewBook,
        }
    }
}

/// Whether the method goes on at a mapped resource of this kind: it is one of the kind's methods.
pub(crate) fn goes_on(method: Method, kind: Kind) -> bool
    ensures { result ≡ goes_on method kind }
{
    AllowedMethods::of(kind).has(method)
}
