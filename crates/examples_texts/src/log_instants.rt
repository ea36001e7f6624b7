//! Instants, and what a log has as their times.

use crate::checks::check_text;
use book_desk_logs::{instant_of, time_at};
use jiff_core::Timestamp;
use std::time::{Duration, SystemTime};

/// Nanoseconds since 1970 and the time, cut to milliseconds: the first instants, leap days and the days after, and the last.
const INSTANTS: [(i128, &str); 11] = [
    (0, "1970-01-01T00:00:00.000Z"),
    (999_999, "1970-01-01T00:00:00.000Z"),
    (1_000_000, "1970-01-01T00:00:00.001Z"),
    (-1, "1969-12-31T23:59:59.999Z"),
    (68_255_999_999_000_000, "1972-02-29T23:59:59.999Z"),
    (951_827_696_789_000_000, "2000-02-29T12:34:56.789Z"),
    (1_709_251_199_999_999_999, "2024-02-29T23:59:59.999Z"),
    (1_795_913_158_123_456_789, "2026-11-29T00:45:58.123Z"),
    (4_107_542_399_999_999_999, "2100-02-28T23:59:59.999Z"),
    (4_107_542_400_000_000_000, "2100-03-01T00:00:00.000Z"),
    (253_402_207_200_999_999_999, "9999-12-30T22:00:00.999Z"),
];

#[test]
fn instants_have_times(rt: HostRuntime) {
    let alloc = rt.alloc();
    for (nanosecond, wanted) in INSTANTS {
        let instant = Timestamp::from_nanosecond(nanosecond).expect(&rt, wanted);
        let time = time_at(alloc, instant).expect(&rt, "memory");
        let time = time.expect(&rt, wanted);
        check_text(&rt, time.text(), wanted);
    }
}

#[test]
fn what_a_clock_tells_is_an_instant(rt: HostRuntime) {
    let told = SystemTime::UNIX_EPOCH
        .checked_add(Duration::from_millis(1_795_913_158_123))
        .expect(&rt, "a time");
    let time = time_at(rt.alloc(), instant_of(told)).expect(&rt, "memory");
    let time = time.expect(&rt, "a time");
    check_text(&rt, time.text(), "2026-11-29T00:45:58.123Z");
}
