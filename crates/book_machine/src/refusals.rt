//! Why a request is refused.

ghost use Rattle.std.specs.Prelude.{◌≡◌, IfOk, IsErrAnd};
ghost use Rattle.book_machine.specs.Refusals.{refused, refusal_name, status_of};
ghost use Rattle.book_machine.specs.declared.refusals.Refusal.TheVariants.{Unavailable};

use crate::allowed_methods::AllowedMethods;
use crate::messages::{Content, Reply};
use book_cards::CardFault;
use book_office::StoreFault;
use book_office_listings::Denial;
use std::alloc::{AllocError, Global};
use std::marker::Model;

/// A denial in memory of its own, so that what may be refused is small to hand on. A contract sees the denial.
#[derive(Debug, Drop)]
pub struct BoxedDenial {
    denial: Box<Denial>,
}

impl Model for BoxedDenial {
    ghost use Rattle.book_office_listings.specs.declared.messages.Denial.{Denial};
    ghost use Rattle.book_office_listings.specs.contracts.messages.Denial as denial_type;

    ghost Value = { Denial };

    ghost coded = { denial_type.the_row.coded };

    ghost view = { λ boxed. boxed.denial.value };
}

impl BoxedDenial {
    /// The denial, in memory of its own. An error is want of memory.
    pub fn new(alloc: Global, denial: Denial) -> Result<BoxedDenial, AllocError>
        ensures { IfOk result (λ boxed. boxed ≡ denial) }
    {
        Ok(BoxedDenial {
            denial: Box::new(alloc, denial)?,
        })
    }

    /// The denial. Takes no memory.
    pub fn denial(&self) -> &Denial
        ensures { result.now ≡ self.now }
    {
        &self.denial
    }
}

/// Why a request is refused. Every refusal leaves the Office as it was.
#[derive(Debug, Drop)]
pub enum Refusal {
    /// 400: the request has not the shape that its method asks.
    BadRequest,
    /// 400: the caller's name is no name of a person.
    UnknownCaller,
    /// 400: the text is no card.
    BadCard(CardFault),
    /// 403: a privilege that the method needs is not granted (RFC 3744, section 7.1.1).
    NeedPrivileges(BoxedDenial),
    /// 403: an entry conflicts with a protected one (RFC 3744, section 8.1.1).
    NoProtectedAceConflict,
    /// 403: an entry is marked as inherited (RFC 3744, section 8.1.1).
    NoInheritedAceConflict,
    /// 403: there are too many entries (RFC 3744, section 8.1.1).
    LimitedNumberOfAces,
    /// 403: a privilege is not known (RFC 3744, section 8.1.1).
    NotSupportedPrivilege,
    /// 403: a principal is not there (RFC 3744, section 8.1.1).
    RecognizedPrincipal,
    /// 403: the sync token is not valid (RFC 6578, section 3.2).
    ValidSyncToken,
    /// 404: nothing is mapped at the path.
    NotFound,
    /// 405: the resource does not allow the method; these are the methods that it allows (RFC 9110, section 15.5.6).
    NotAllowed(AllowedMethods),
    /// 409: the collection that would hold the resource is not there (RFC 4918, sections 9.3.1 and 9.7.1).
    NoParent,
    /// 412: the destination is mapped, and may not be overwritten (RFC 4918, section 10.6).
    Overwrite,
    /// 415: MKCOL with a body (RFC 4918, section 9.3.1).
    BodyOnMkcol,
    /// 507: a limit would be passed (RFC 4918, section 11.5).
    Full,
    /// 503: memory was refused, or the store failed.
    Unavailable,
}

impl From<StoreFault> for Refusal {
    ghost from_gives = { λ _ refusal. refusal ≡ Unavailable };

    fn from(_fault: StoreFault) -> Self {
        Refusal::Unavailable
    }
}

impl From<AllocError> for Refusal {
    ghost from_gives = { λ _ refusal. refusal ≡ Unavailable };

    fn from(_error: AllocError) -> Self {
        Refusal::Unavailable
    }
}

impl Refusal {
    /// The status of the reply.
    pub fn status(&self) -> u16
        ensures { result ≡ status_of self.now }
    {
        match self {
            Refusal::BadRequest | Refusal::UnknownCaller | Refusal::BadCard(_) => 400,
            Refusal::NeedPrivileges(_)
            | Refusal::NoProtectedAceConflict
            | Refusal::NoInheritedAceConflict
            | Refusal::LimitedNumberOfAces
            | Refusal::NotSupportedPrivilege
            | Refusal::RecognizedPrincipal
            | Refusal::ValidSyncToken => 403,
            Refusal::NotFound => 404,
            Refusal::NotAllowed(_) => 405,
            Refusal::NoParent => 409,
            Refusal::Overwrite => 412,
            Refusal::BodyOnMkcol => 415,
            Refusal::Full => 507,
            Refusal::Unavailable => 503,
        }
    }

    /// The name, as replies print it.
    pub fn name(&self) -> &'static str
        ensures { result.now ≡ refusal_name self.now }
    {
        match self {
            Refusal::BadRequest => "bad-request",
            Refusal::UnknownCaller => "unknown-caller",
            Refusal::BadCard(_) => "bad-card",
            Refusal::NeedPrivileges(_) => "need-privileges",
            Refusal::NoProtectedAceConflict => "no-protected-ace-conflict",
            Refusal::NoInheritedAceConflict => "no-inherited-ace-conflict",
            Refusal::LimitedNumberOfAces => "limited-number-of-aces",
            Refusal::NotSupportedPrivilege => "not-supported-privilege",
            Refusal::RecognizedPrincipal => "recognized-principal",
            Refusal::ValidSyncToken => "valid-sync-token",
            Refusal::NotFound => "not-found",
            Refusal::NotAllowed(_) => "not-allowed",
            Refusal::NoParent => "no-parent",
            Refusal::Overwrite => "overwrite",
            Refusal::BodyOnMkcol => "body-on-mkcol",
            Refusal::Full => "full",
            Refusal::Unavailable => "unavailable",
        }
    }
}

/// A refusal. What was got ready is let go here, and not at each place that refuses.
pub(crate) fn refuse<T: Drop, A>(_unneeded: T, refusal: Refusal) -> Result<A, Refusal>
    ensures { IsErrAnd result (λ e. e ≡ refusal) }
{
    Err(refusal)
}

/// The reply to a refused request.
pub(crate) fn refused(refusal: Refusal) -> Reply
    ensures { result ≡ refused refusal }
{
    Reply {
        status: refusal.status(),
        content: Content::Refusal(refusal),
    }
}
