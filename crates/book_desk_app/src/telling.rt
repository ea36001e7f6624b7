//! The line that tells why a command was not done.

ghost use Rattle.std.specs.Prelude.{◌≡◌, ◌++◌, codes};
ghost use Rattle.book_desk_app.specs.Failures.{failure_status, failure_text, init_text, store_text};
ghost use Rattle.book_desk_app.specs.ServingFailures.{adoption_text, stream_text};
ghost use Rattle.book_desk_app.specs.Telling.{Tells, TellsFailure, policy_text};
ghost use Rattle.book_desk_app.specs.TextFailures.{input_text};

use crate::failures::{Failure, InitFault, StoreFailure};
use crate::lines::Lines;
use crate::text_failures::InputFault;
use book_machine::AdoptFault;
use book_policy::PolicyFault;
use book_wire_serving::StreamFault;

fn input_line(fault: InputFault) -> &'static str
    ensures { result.now ≡ input_text fault ++ codes "\n" }
{
    match fault {
        InputFault::Read => "input: read\n",
        InputFault::NotUtf8 => "input: not-utf-8\n",
    }
}

fn policy_line(fault: PolicyFault) -> &'static str
    ensures { result.now ≡ policy_text fault ++ codes "\n" }
{
    match fault {
        PolicyFault::NotToml => "policy: not-toml\n",
        PolicyFault::OtherVersion => "policy: other-version\n",
        PolicyFault::BadKey => "policy: bad-key\n",
        PolicyFault::BadName => "policy: bad-name\n",
        PolicyFault::NameTwice => "policy: name-twice\n",
        PolicyFault::UnknownPrincipal => "policy: unknown-principal\n",
        PolicyFault::UnknownResource => "policy: unknown-resource\n",
        PolicyFault::UnknownPrivilege => "policy: unknown-privilege\n",
        PolicyFault::TooMany => "policy: too-many\n",
        PolicyFault::Memory => "policy: memory\n",
    }
}

fn store_line(failure: StoreFailure) -> &'static str
    ensures { result.now ≡ store_text failure ++ codes "\n" }
{
    match failure {
        StoreFailure::OtherVersion => "store: other-version\n",
        StoreFailure::NoStore => "store: no-store\n",
        StoreFailure::Memory => "store: memory\n",
        StoreFailure::Store => "store: store\n",
    }
}

fn init_line(fault: InitFault) -> &'static str
    ensures { result.now ≡ init_text fault ++ codes "\n" }
{
    match fault {
        InitFault::Exists => "init: exists\n",
        InitFault::Write => "init: write\n",
    }
}

fn adoption_line(fault: AdoptFault) -> &'static str
    ensures { result.now ≡ adoption_text fault ++ codes "\n" }
{
    match fault {
        AdoptFault::Full => "adopt: full\n",
        AdoptFault::Unavailable => "adopt: unavailable\n",
    }
}

fn stream_line(fault: StreamFault) -> &'static str
    ensures { result.now ≡ stream_text fault ++ codes "\n" }
{
    match fault {
        StreamFault::Memory => "stream: memory\n",
        StreamFault::Read => "stream: read\n",
        StreamFault::Write => "stream: write\n",
        StreamFault::Log => "log: write\n",
    }
}

/// The line of a failure.
fn line_of(failure: &Failure) -> &'static str
    ensures { result.now ≡ failure_text failure.now ++ codes "\n" }
{
    match failure {
        Failure::Input(fault) => input_line(*fault),
        Failure::Output => "output: write\n",
        Failure::Init(fault) => init_line(*fault),
        Failure::Listen => "listen: failed\n",
        Failure::Policy(fault) => policy_line(*fault),
        Failure::Store(failure) => store_line(*failure),
        Failure::Adoption(failure) => adoption_line(failure.fault),
        Failure::Stream(failure) => stream_line(failure.fault),
    }
}

/// Tells a failure on `errors`, as a line, and gives the status of the program. Where the writer takes each text to its
/// end the line is told whole; else a beginning of it may be told, and the status alone tells it.
pub fn tell_line<E: Lines>(errors: &mut E, failure: &Failure) -> u8
    ensures status { result ≡ failure_status failure.now }
    ensures told { TellsFailure (E.is_whole errors.new) (E.Write.contents errors.old)
        (E.Write.contents errors.new) failure.now }
    ensures line { Tells (E.is_whole errors.old) (E.is_whole errors.new)
        (E.Write.contents errors.old) (E.Write.contents errors.new)
        (failure_text failure.now ++ codes "\n") }
{
    errors.put(line_of(failure).as_bytes());
    failure.status()
}
