//! Why a request is refused, whatever the Office is.

ghost use Rattle.std.specs.Prelude.{◌≡◌};
ghost use Rattle.book_desk_control.specs.Refusals as spec;

use crate::questions::Question;
use crate::replies::Outcome;

/// Why a request is refused. Nothing changes.
#[derive(Clone, Copy)]
pub enum Refusal {
    /// The bytes are no head, or it has a length that is none, or a length or a transfer coding twice (RFC 9112, section 6.3).
    BadHead,
    /// The head has more bytes, or more fields, than it may have (RFC 6585, section 5).
    HeadTooLarge,
    /// There is a transfer coding (RFC 9112, section 6.1), or no target takes the method (RFC 9110, section 15.6.2).
    NotImplemented,
    /// Nothing is at the target.
    NotFound,
    /// The target of this question takes other methods (RFC 9110, section 15.5.6).
    NotAllowed(Question),
    /// The body is longer than a policy may be.
    TooMany,
    /// The body has not the form that the question asks.
    BadBody,
}

/// The status of a refusal.
pub(crate) fn outcome_of(refusal: Refusal) -> Outcome
    ensures { result ≡ spec.outcome_of refusal }
{
    match refusal {
        Refusal::BadHead | Refusal::TooMany | Refusal::BadBody => Outcome::Refused,
        Refusal::HeadTooLarge => Outcome::HeadTooLarge,
        Refusal::NotImplemented => Outcome::NotImplemented,
        Refusal::NotFound => Outcome::NotFound,
        Refusal::NotAllowed(question) => Outcome::NotAllowed(question),
    }
}

/// The body of a refusal, as JSON.
pub(crate) fn refusal_text(refusal: Refusal) -> &'static str
    ensures { result.now ≡ spec.refusal_text refusal }
{
    match refusal {
        Refusal::BadHead => "{\"error\":\"bad-head\"}",
        Refusal::HeadTooLarge => "{\"error\":\"head-too-large\"}",
        Refusal::NotImplemented => "{\"error\":\"not-implemented\"}",
        Refusal::NotFound => "{\"error\":\"not-found\"}",
        Refusal::NotAllowed(_) => "{\"error\":\"not-allowed\"}",
        Refusal::TooMany => "{\"error\":\"too-many\"}",
        Refusal::BadBody => "{\"error\":\"bad-body\"}",
    }
}
