//! Instants as times of a log.

ghost use Rattle.std.specs.Prelude.{◌≡◌, IfOk, IfSome, pos};
ghost use Rattle.std.specs.Time.{system_time_nanos};
ghost use Rattle.jiff_core.specs.Timestamp.{IsTimestampNanos};
ghost use Rattle.book_desk_logs.specs.Instants.{IsTimeAt};

use arrayvec::ArrayString;
use book_log_lines::Time;
use jiff_core::Timestamp;
use jiff_fmt::temporal::DateTimePrinter;
use std::alloc::{AllocError, Global};
use std::time::{Clock, SystemTime};

/// How many places of a second a log has.
const PLACES: u8 = 3;

/// The text of an instant: its date and time in UTC, cut to milliseconds (RFC 3339, section 5.6).
fn text_of(instant: Timestamp) -> ArrayString<33>
    ensures { IsTimeAt instant result.bytes }
{
    DateTimePrinter::new()
        .precision(Some(PLACES))
        .timestamp_text(instant)
}

/// The time of a log at an instant; none where the year has not four digits. An error is want of memory.
pub fn time_at(alloc: Global, instant: Timestamp) -> Result<Option<Time>, AllocError>
    ensures { IfOk result (λ found. IfSome found (λ time. IsTimeAt instant time)) }
{
    Time::parse(alloc, text_of(instant).as_str())
}

/// What a clock told, as an instant; the first of 1970 where that is past the year 9999.
pub fn instant_of(told: SystemTime) -> Timestamp
    ensures { IsTimestampNanos (pos (system_time_nanos told))
        → result.nanosecond ≡ pos (system_time_nanos told) }
{
    let Ok(since) = told.duration_since(SystemTime::UNIX_EPOCH) else {
        return Timestamp::UNIX_EPOCH;
    };
    let Ok(nanoseconds) = i128::try_from(since.as_nanos()) else {
        return Timestamp::UNIX_EPOCH;
    };
    match Timestamp::from_nanosecond(nanoseconds) {
        Ok(instant) => instant,
        Err(_) => Timestamp::UNIX_EPOCH,
    }
}

/// The time that a clock tells; that of the first instant of 1970 where it can't be read. An error is want of memory.
pub fn time_now(clock: &impl Clock, alloc: Global) -> Result<Time, AllocError> {
    let instant = match SystemTime::now(clock) {
        Ok(told) => instant_of(told),
        Err(_) => Timestamp::UNIX_EPOCH,
    };
    match time_at(alloc, instant)? {
        Some(time) => Ok(time),
        // No instant that a clock tells has another form.
        None => Err(AllocError),
    }
}
