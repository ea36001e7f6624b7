//! Why a question was not answered: what is told on standard error, and the status of the program.

ghost use Rattle.std.specs.Prelude.{◌≡◌, ◌++◌, ◌≤◌, codes, length};
ghost use Rattle.book_desk_app.specs.Telling.{TellsLine};
ghost use Rattle.book_desk_questions.specs.Asked.{asking_name};
ghost use Rattle.book_desk_questions.specs.Failures.{refused_status, unanswered_status, unanswered_text};
ghost use Rattle.book_machine.specs.Refusals.{refusal_name};

use crate::asked::{Asking, asking_name};
use arrayvec::ArrayString;
use book_desk_app::{BROKEN, Lines, REFUSED};
use book_machine::Refusal;

/// The most bytes of a line that tells why a question was not answered.
const MAX_LINE: usize = 64;

/// Why a question was not answered (own profile).
#[derive(Debug, Drop)]
pub enum Unanswered {
    /// `why: NAME`, `who: NAME`: the refusal of a request that ends before its needs; `unavailable`: memory was refused,
    /// or the store failed.
    Refused(Refusal),
    /// `why: unknown-privilege`: a word is neither a method nor a privilege; `who: unknown-privilege`,
    /// `ask: unknown-privilege`: it is none.
    UnknownPrivilege,
    /// `ask: too-many`: it is more than `explain` takes, or an entry names no privilege.
    TooMany,
    /// `output: write`: the answer could not be written.
    Output,
}

/// The status of a refusal.
fn refused_status(refusal: &Refusal) -> u8
    ensures { result ≡ refused_status refusal.now }
{
    match refusal {
        Refusal::Unavailable => BROKEN,
        Refusal::BadRequest
        | Refusal::UnknownCaller
        | Refusal::BadCard(_)
        | Refusal::NeedPrivileges(_)
        | Refusal::NoProtectedAceConflict
        | Refusal::NoInheritedAceConflict
        | Refusal::LimitedNumberOfAces
        | Refusal::NotSupportedPrivilege
        | Refusal::RecognizedPrincipal
        | Refusal::ValidSyncToken
        | Refusal::NotFound
        | Refusal::NotAllowed(_)
        | Refusal::NoParent
        | Refusal::Overwrite
        | Refusal::BodyOnMkcol
        | Refusal::Full => REFUSED,
    }
}

/// The status of the program.
fn status_of(failure: &Unanswered) -> u8
    ensures { result ≡ unanswered_status failure.now }
{
    match failure {
        Unanswered::Refused(refusal) => refused_status(refusal),
        Unanswered::UnknownPrivilege | Unanswered::TooMany => REFUSED,
        Unanswered::Output => BROKEN,
    }
}

/// A line of a command and a name.
fn named_line(command: &str, name: &str) -> ArrayString<MAX_LINE>
    requires command { length command.now ≤ 8 }
    requires name { length name.now ≤ 32 }
    ensures { result.bytes ≡ (command.now ++ (codes ": " ++ name.now)) ++ codes "\n" }
{
    let mut line = ArrayString::new();
    line.push_str(command);
    line.push_str(": ");
    line.push_str(name);
    line.push_str("\n");
    line
}

/// The line of a refusal, whose names are those that a reply has.
#[tactic(auto, using(crate::proofs::Names::refusal_names_are_short))]
fn refused_line(command: &str, refusal: &Refusal) -> ArrayString<MAX_LINE>
    requires { length command.now ≤ 8 }
    ensures { result.bytes ≡ (command.now ++ (codes ": " ++ refusal_name refusal.now)) ++
        codes "\n" }
{
    named_line(command, refusal.name())
}

/// The line that is told.
#[tactic(auto, using(crate::proofs::Names::asking_names_are_short))]
fn line_of(asking: Asking, failure: &Unanswered) -> ArrayString<MAX_LINE>
    ensures { result.bytes ≡ unanswered_text asking failure.now ++ codes "\n" }
{
    match failure {
        Unanswered::Refused(refusal) => refused_line(asking_name(asking), refusal),
        Unanswered::UnknownPrivilege => named_line(asking_name(asking), "unknown-privilege"),
        Unanswered::TooMany => named_line(asking_name(asking), "too-many"),
        Unanswered::Output => named_line("output", "write"),
    }
}

/// Tells why a question was not answered, and gives the status of the program.
pub(crate) fn tell_unanswered<E: Lines>(errors: &mut E, asking: Asking, failure: &Unanswered) -> u8
    ensures status { result ≡ unanswered_status failure.now }
    ensures told { TellsLine (E.is_whole errors.new) (E.Write.contents errors.old)
        (E.Write.contents errors.new) (unanswered_text asking failure.now) }
{
    let line = line_of(asking, failure);
    errors.put(line.as_str().as_bytes());
    status_of(failure)
}
