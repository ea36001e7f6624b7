//! A round of a machine that keeps a log: its lines are written together, and after a round that was not kept none is.

ghost use Rattle.std.specs.Prelude.{◌≡◌};
ghost use Rattle.book_office.specs.Keeping.{FallsBack};
ghost use Rattle.book_wire_serving.specs.Serving.{Serving};

use crate::checks::{check_bytes, check_fact};
use crate::log_serving::{CARD, check_taken, clock_of, kept, output_of, request};
use book_log_service::Logged;
use book_machine::{Body, Machine, Request};
use book_office::{MemoryKeeper, StoreFault};
use book_office_faults::Fused;
use book_office_values::Text;
use book_rights::Method;
use book_wire_serving::{LogFault, RoundService, Service, ServiceWork};
use std::alloc::Global;
use std::process::Abort;

/// Two requests, each on a connection of its own.
#[derive(Drop)]
struct TwoRequests<'q> {
    first: &'q Request,
    second: &'q Request,
    /// The status of the first reply, and of the second.
    told: Option<(u16, u16)>,
    /// Whether both were noted.
    noted: bool,
}

/// Serves a request on a connection, and notes its reply; the status of that, and whether it was noted.
fn serve_on<M: Service>(
    alloc: Global,
    service: &mut M,
    connection: u64,
    asked: &Request,
) -> (u16, bool)
    ensures falls { FallsBack (M.serving service.old).standing.fallback
        (M.serving service.new).standing.fallback }
{
    service.turn_to(connection);
    let reply = service.serve(alloc, Some("ann"), asked);
    let told = reply.status;
    drop(reply);
    (told, service.note(true).is_ok())
}

impl ServiceWork for TwoRequests<'_> {
    ghost does = { λ first last old new. (new.first ≡ old.first) × (new.second ≡ old.second) };

    fn run<M: Service>(&mut self, alloc: Global, service: &mut M) {
        let first = serve_on(alloc, service, 7, self.first);
        let second = serve_on(alloc, service, 8, self.second);
        self.told = Some((first.0, second.0));
        self.noted = first.1 && second.1;
    }
}

/// Ann puts a card in a round, and asks for it: as it was kept, the replies have these statuses, and both were noted; or there
/// was no reply.
fn check_round<M: RoundService>(
    rt: &impl Abort,
    alloc: Global,
    kept: &mut M,
    wanted: Result<(), StoreFault>,
    told: Option<(u16, u16)>,
) {
    let body = Body::Text(Text::copy_of(alloc, CARD).expect(rt, "memory"));
    let first = request(rt, alloc, Method::Put, "/books/sales/a.vcf", body);
    let second = request(rt, alloc, Method::Get, "/books/sales/a.vcf", Body::Empty);
    let mut work = TwoRequests {
        first: &first,
        second: &second,
        told: None,
        noted: false,
    };
    let result = kept.round(alloc, &mut work);
    check_fact(rt, result == wanted, "a round");
    check_fact(rt, work.told == told, "the replies of a round");
    check_fact(rt, work.noted == told.is_some(), "the lines of a round");
}

/// The card that was put, and the one that was asked for.
const ROUND: &str =
    "{\"time\":\"2026-11-29T09:00:00.000Z\",\"connection\":7,\"caller\":\"ann\",\"method\":\"PUT\",\"path\":\"/books/sales/a.vcf\",\"status\":201,\"touched\":[{\"path\":\"/books/sales/a.vcf\",\"number\":1}],\"epoch\":1}\n\
    {\"time\":\"2026-11-29T09:00:00.000Z\",\"connection\":8,\"caller\":\"ann\",\"method\":\"GET\",\"path\":\"/books/sales/a.vcf\",\"status\":200}\n";

/// One write has the lines of a round.
#[test]
fn a_round_writes_its_lines_at_once(rt: HostRuntime) {
    let alloc = rt.alloc();
    let mut kept = kept(&rt, alloc, 10_000, 1);
    check_round(&rt, alloc, &mut kept, Ok(()), Some((201, 200)));
    check_fact(&rt, !kept.has_failed_log(), "a log that has not failed");
    check_taken(&rt, kept, ROUND.as_bytes());
}

/// Where the lines of a round can't be written, the log has failed.
#[test]
fn a_round_that_can_t_write_its_lines_fails_the_log(rt: HostRuntime) {
    let alloc = rt.alloc();
    let mut kept = kept(&rt, alloc, 200, 1);
    check_round(&rt, alloc, &mut kept, Ok(()), Some((201, 200)));
    check_fact(&rt, kept.has_failed_log(), "a log that has failed");
    check_fact(&rt, kept.note(true) == Err(LogFault), "no further line");
    check_taken(&rt, kept, &ROUND.as_bytes()[..200]);
}

/// A round that is not kept writes nothing.
#[test]
fn a_round_that_is_not_kept_writes_nothing(rt: HostRuntime) {
    let alloc = rt.alloc();
    let keeper = Fused::new(MemoryKeeper::new(alloc), 0);
    let output = output_of(alloc, 10_000, 1);
    let mut kept = Logged::new(
        alloc,
        Machine::new(keeper),
        output,
        clock_of(&rt, alloc, 0, 0),
    );
    check_round(&rt, alloc, &mut kept, Err(StoreFault::Store), None);
    check_fact(&rt, !kept.has_failed_log(), "a log that has not failed");
    let (machine, output) = kept.release();
    drop(machine);
    check_bytes(&rt, output.taken.as_slice(), b"");
}
