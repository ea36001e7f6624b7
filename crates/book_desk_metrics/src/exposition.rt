//! The text of the metrics.

ghost use Rattle.std.specs.Prelude.{◌≡◌, ◌++◌, IfOk, OnOk};
ghost use Rattle.std.specs.List.{flat_map};
ghost use Rattle.book_desk_metrics.specs.Exposition as spec;

use crate::counts::Counts;
use crate::times::Times;
use book_log_lines::method_name;
use book_rights::{Leaf, Method, Privilege};
use itoa::Buffer;
use std::alloc::{AllocError, Global};

/// The statuses in order, and then all others.
const COLUMNS: [Option<u16>; 17] = [
    Some(200),
    Some(201),
    Some(204),
    Some(207),
    Some(400),
    Some(403),
    Some(404),
    Some(405),
    Some(409),
    Some(412),
    Some(413),
    Some(415),
    Some(431),
    Some(501),
    Some(503),
    Some(507),
    None,
];

/// The methods in order, and then no method.
const ROWS: [Option<Method>; 13] = [
    Some(Method::Get),
    Some(Method::Head),
    Some(Method::Options),
    Some(Method::Put),
    Some(Method::Propfind),
    Some(Method::Proppatch),
    Some(Method::Acl),
    Some(Method::Copy),
    Some(Method::Move),
    Some(Method::Delete),
    Some(Method::Mkcol),
    Some(Method::Report),
    None,
];

/// Each privilege that a denial may name.
const DENIABLE: [Privilege; 12] = [
    Privilege::One(Leaf::ReadTexts),
    Privilege::One(Leaf::WriteContent),
    Privilege::One(Leaf::WriteProperties),
    Privilege::One(Leaf::Bind),
    Privilege::One(Leaf::Unbind),
    Privilege::One(Leaf::ReadAcl),
    Privilege::One(Leaf::WriteAcl),
    Privilege::One(Leaf::ReadCurrentUserPrivilegeSet),
    Privilege::One(Leaf::ReadNames),
    Privilege::Read,
    Privilege::Write,
    Privilege::All,
];

/// What an Office has.
#[derive(Clone, Copy)]
pub struct Held {
    /// Its epoch.
    pub epoch: u64,
    /// How many cards.
    pub cards: u64,
    /// How many books.
    pub books: u64,
    /// How many persons.
    pub persons: u64,
}

/// What is so now.
#[derive(Clone, Copy)]
pub struct Gauges {
    /// How many connections came.
    pub came: u64,
    /// How many are there.
    pub open: u64,
    /// How many had a fault.
    pub faults: u64,
    /// How many bytes were taken from connections.
    pub received: u64,
    /// How many bytes were sent to connections.
    pub sent: u64,
    /// When the server began, in seconds since the first instant of 1970.
    pub since: u64,
    /// What the Office has; none where the store shows nothing.
    pub held: Option<Held>,
}

/// Adds texts, one after the other.
fn push_all(out: &mut Vec<u8>, pieces: &[&str]) -> Result<(), AllocError>
    ensures { OnOk result (out.new.items
        ≡ out.old.items ++ flat_map (λ p. p.now) pieces.now) }
{
    for piece in pieces {
        out.extend_from_slice(piece.as_bytes())?;
    }
    Ok(())
}

/// Adds a number, which ends a line.
#[tactic(auto, unfolding(crate::specs::Exposition::value_text))]
fn push_value(out: &mut Vec<u8>, number: u64) -> Result<(), AllocError>
    ensures { OnOk result (out.new.items ≡ out.old.items ++ spec.value_text number) }
{
    let mut digits = Buffer::new();
    push_all(out, &[" ", digits.format(number), "\n"])
}

/// Adds texts, and a number, which ends a line.
fn push_line(out: &mut Vec<u8>, pieces: &[&str], number: u64) -> Result<(), AllocError>
    ensures { OnOk result (out.new.items
        ≡ out.old.items ++ (flat_map (λ p. p.now) pieces.now ++ spec.value_text number)) }
{
    push_all(out, pieces)?;
    push_value(out, number)
}

/// Adds what a metric is, and of which type.
#[tactic(auto, unfolding(crate::specs::Exposition::heading))]
fn push_heading(out: &mut Vec<u8>, name: &str, kind: &str, help: &str) -> Result<(), AllocError>
    ensures { OnOk result (out.new.items
        ≡ out.old.items ++ spec.heading name.now kind.now help.now) }
{
    push_all(
        out,
        &[
            "# HELP ",
            name,
            " ",
            help,
            "\n# TYPE ",
            name,
            " ",
            kind,
            "\n",
        ],
    )
}

/// Adds a metric without labels.
#[tactic(auto, unfolding(crate::specs::Exposition::single))]
fn push_single(
    out: &mut Vec<u8>,
    name: &str,
    kind: &str,
    help: &str,
    number: u64,
) -> Result<(), AllocError>
    ensures { OnOk result (out.new.items
        ≡ out.old.items ++ spec.single name.now kind.now help.now number) }
{
    push_heading(out, name, kind, help)?;
    push_line(out, &[name], number)
}

/// The name of a method, or of none.
fn method_label(method: Option<Method>) -> &'static str
    ensures { result.now ≡ spec.method_label method }
{
    match method {
        Some(method) => method_name(method),
        None => "none",
    }
}

/// Adds how many replies to a method had a status.
#[tactic(auto, unfolding(crate::specs::Exposition::sample_of_replies))]
fn push_sample(out: &mut Vec<u8>, method: &str, status: &str, number: u64) -> Result<(), AllocError>
    ensures { OnOk result (out.new.items
        ≡ out.old.items ++ spec.sample_of_replies method.now status.now number) }
{
    push_line(
        out,
        &[
            "book_desk_requests_total{method=\"",
            method,
            "\",status=\"",
            status,
            "\"}",
        ],
        number,
    )
}

/// Adds how many replies to a method had a status, or another one.
fn push_some_replies(
    out: &mut Vec<u8>,
    method: Option<Method>,
    status: Option<u16>,
    number: u64,
) -> Result<(), AllocError>
    ensures { OnOk result (out.new.items ≡ out.old.items
        ++ spec.sample_of_replies (spec.method_label method) (spec.status_label status) number) }
{
    match status {
        Some(status) => {
            let mut digits = Buffer::new();
            push_sample(out, method_label(method), digits.format(status), number)
        }
        None => push_sample(out, method_label(method), "other", number),
    }
}

/// Adds how many replies to a method had a status, where there was one.
fn push_replies(
    out: &mut Vec<u8>,
    counts: &Counts,
    method: Option<Method>,
    status: Option<u16>,
) -> Result<(), AllocError>
    ensures { OnOk result (out.new.items
        ≡ out.old.items ++ spec.replies_line counts.now method status) }
{
    let number = counts.replies_to(method, status);
    if number == 0 {
        return Ok(());
    }
    push_some_replies(out, method, status, number)
}

/// Adds how many replies to a method had each of the statuses.
fn push_row(
    out: &mut Vec<u8>,
    counts: &Counts,
    method: Option<Method>,
    statuses: &[Option<u16>],
) -> Result<(), AllocError>
    ensures { OnOk result (out.new.items
        ≡ out.old.items ++ flat_map (spec.replies_line counts.now method) statuses.now) }
{
    for status in statuses {
        push_replies(out, counts, method, *status)?;
    }
    Ok(())
}

/// Adds how many replies to a method had each status.
#[tactic(auto, unfolding(crate::specs::Exposition::columns))]
fn push_method(out: &mut Vec<u8>, counts: &Counts, method: Option<Method>) -> Result<(), AllocError>
    ensures { OnOk result (out.new.items
        ≡ out.old.items ++ spec.replies_lines counts.now method) }
{
    push_row(out, counts, method, &COLUMNS)
}

/// Adds how many replies to each of the methods had each status.
fn push_methods(
    out: &mut Vec<u8>,
    counts: &Counts,
    methods: &[Option<Method>],
) -> Result<(), AllocError>
    ensures { OnOk result (out.new.items
        ≡ out.old.items ++ flat_map (spec.replies_lines counts.now) methods.now) }
{
    for method in methods {
        push_method(out, counts, *method)?;
    }
    Ok(())
}

/// Adds how often each reply was made.
#[tactic(auto, unfolding(crate::specs::Exposition::rows))]
fn push_all_replies(out: &mut Vec<u8>, counts: &Counts) -> Result<(), AllocError>
    ensures { OnOk result (out.new.items ≡ out.old.items ++ spec.replies_text counts.now) }
{
    push_heading(
        out,
        "book_desk_requests_total",
        "counter",
        "Replies, by the method of the request and the status.",
    )?;
    push_methods(out, counts, &ROWS)
}

/// Adds how many denials named a privilege.
#[tactic(auto, unfolding(crate::specs::Exposition::denials_line))]
fn push_denial(out: &mut Vec<u8>, counts: &Counts, privilege: Privilege) -> Result<(), AllocError>
    ensures { OnOk result (out.new.items
        ≡ out.old.items ++ spec.denials_line counts.now privilege) }
{
    let number = counts.denials_of(privilege);
    let name = privilege.name();
    push_line(
        out,
        &["book_desk_denials_total{privilege=\"", name, "\"}"],
        number,
    )
}

/// Adds how many denials named each of the privileges.
fn push_denials(
    out: &mut Vec<u8>,
    counts: &Counts,
    privileges: &[Privilege],
) -> Result<(), AllocError>
    ensures { OnOk result (out.new.items
        ≡ out.old.items ++ flat_map (spec.denials_line counts.now) privileges.now) }
{
    for privilege in privileges {
        push_denial(out, counts, *privilege)?;
    }
    Ok(())
}

/// Adds how many denials named each privilege.
#[tactic(auto, unfolding(crate::specs::Exposition::deniable))]
fn push_all_denials(out: &mut Vec<u8>, counts: &Counts) -> Result<(), AllocError>
    ensures { OnOk result (out.new.items ≡ out.old.items ++ spec.denials_text counts.now) }
{
    push_heading(
        out,
        "book_desk_denials_total",
        "counter",
        "Denials, by the privilege that was missing.",
    )?;
    push_denials(out, counts, &DENIABLE)
}

/// Adds how many requests were served within a time.
#[tactic(auto, unfolding(crate::specs::Exposition::bucket))]
fn push_bucket(out: &mut Vec<u8>, bound: &str, number: u64) -> Result<(), AllocError>
    ensures { OnOk result (out.new.items ≡ out.old.items ++ spec.bucket bound.now number) }
{
    push_line(
        out,
        &["book_desk_request_seconds_bucket{le=\"", bound, "\"}"],
        number,
    )
}

/// Adds how many requests were served within each short time.
fn push_short_buckets(out: &mut Vec<u8>, times: &Times) -> Result<(), AllocError>
    ensures { OnOk result (out.new.items ≡ out.old.items ++ spec.short_buckets times.now) }
{
    push_bucket(out, "0.001", times.within_1_ms)?;
    push_bucket(out, "0.005", times.within_5_ms)?;
    push_bucket(out, "0.02", times.within_20_ms)
}

/// Adds how many requests were served within each long time, and how many were.
fn push_long_buckets(out: &mut Vec<u8>, times: &Times) -> Result<(), AllocError>
    ensures { OnOk result (out.new.items ≡ out.old.items ++ spec.long_buckets times.now) }
{
    push_bucket(out, "0.1", times.within_100_ms)?;
    push_bucket(out, "0.5", times.within_500_ms)?;
    push_bucket(out, "2", times.within_2_s)?;
    push_bucket(out, "+Inf", times.all)
}

/// Adds how long all requests took, and how many they were.
#[tactic(auto, unfolding(crate::specs::Exposition::totals))]
fn push_totals(out: &mut Vec<u8>, times: &Times) -> Result<(), AllocError>
    ensures { OnOk result (out.new.items ≡ out.old.items ++ spec.totals times.now) }
{
    let mut digits = Buffer::new();
    push_line(
        out,
        &[
            "book_desk_request_seconds_sum ",
            digits.format(times.micros),
            "e-6\nbook_desk_request_seconds_count",
        ],
        times.all,
    )
}

/// Adds how long requests were served.
fn push_seconds(out: &mut Vec<u8>, times: &Times) -> Result<(), AllocError>
    ensures { OnOk result (out.new.items ≡ out.old.items ++ spec.seconds_text times.now) }
{
    push_heading(
        out,
        "book_desk_request_seconds",
        "histogram",
        "How long requests were served.",
    )?;
    push_short_buckets(out, times)?;
    push_long_buckets(out, times)?;
    push_totals(out, times)
}

/// Adds how it stands with the connections.
fn push_connections(out: &mut Vec<u8>, gauges: &Gauges) -> Result<(), AllocError>
    ensures { OnOk result (out.new.items ≡ out.old.items ++ spec.connections_text gauges.now) }
{
    push_single(
        out,
        "book_desk_connections_total",
        "counter",
        "Connections that came.",
        gauges.came,
    )?;
    push_single(
        out,
        "book_desk_connections_open",
        "gauge",
        "Connections that are there.",
        gauges.open,
    )?;
    push_single(
        out,
        "book_desk_connection_faults_total",
        "counter",
        "Connections that had a fault.",
        gauges.faults,
    )?;
    push_single(
        out,
        "book_desk_start_time_seconds",
        "gauge",
        "When the server began, in seconds since 1970.",
        gauges.since,
    )
}

/// Adds how many bytes were taken from connections, and sent to them.
fn push_bytes(out: &mut Vec<u8>, gauges: &Gauges) -> Result<(), AllocError>
    ensures { OnOk result (out.new.items ≡ out.old.items ++ spec.bytes_text gauges.now) }
{
    push_single(
        out,
        "book_desk_received_bytes_total",
        "counter",
        "Bytes of requests that were taken from connections.",
        gauges.received,
    )?;
    push_single(
        out,
        "book_desk_sent_bytes_total",
        "counter",
        "Bytes of replies that were sent to connections.",
        gauges.sent,
    )
}

/// Adds what the Office has, where the store shows it.
fn push_held(out: &mut Vec<u8>, held: Option<Held>) -> Result<(), AllocError>
    ensures { OnOk result (out.new.items ≡ out.old.items ++ spec.held_text held) }
{
    let Some(held) = held else {
        return Ok(());
    };
    push_single(out, "book_desk_epoch", "gauge", "The epoch.", held.epoch)?;
    push_single(out, "book_desk_cards", "gauge", "Cards.", held.cards)?;
    push_single(out, "book_desk_books", "gauge", "Books.", held.books)?;
    push_single(out, "book_desk_persons", "gauge", "Persons.", held.persons)
}

/// Adds what is so now.
fn push_gauges(out: &mut Vec<u8>, gauges: &Gauges) -> Result<(), AllocError>
    ensures { OnOk result (out.new.items ≡ out.old.items ++ spec.gauges_text gauges.now) }
{
    push_connections(out, gauges)?;
    push_bytes(out, gauges)?;
    push_held(out, gauges.held)
}

/// Adds all metrics.
fn push_metrics(
    out: &mut Vec<u8>,
    counts: &Counts,
    times: &Times,
    gauges: &Gauges,
) -> Result<(), AllocError>
    ensures { OnOk result (out.new.items
        ≡ out.old.items ++ spec.metrics_text counts.now times.now gauges.now) }
{
    push_all_replies(out, counts)?;
    push_all_denials(out, counts)?;
    push_seconds(out, times)?;
    push_gauges(out, gauges)
}

/// All metrics, in the text format of Prometheus (version 0.0.4; own profile). Of the replies those are left out that were
/// never made. An error is want of memory.
pub fn metrics_text(
    alloc: Global,
    counts: &Counts,
    times: &Times,
    gauges: &Gauges,
) -> Result<Vec<u8>, AllocError>
    ensures { IfOk result (λ text. text.items
        ≡ spec.metrics_text counts.now times.now gauges.now) }
{
    let mut out = Vec::new(alloc);
    push_metrics(&mut out, counts, times, gauges)?;
    Ok(out)
}
