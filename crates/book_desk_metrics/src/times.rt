//! How long requests were served.

ghost use Rattle.std.specs.Prelude.{◌≡◌};
ghost use Rattle.book_desk_metrics.specs.Timing as spec;

/// How many requests were served within a time, and how long all were. A counter that is full stays so.
#[derive(Clone, Copy)]
pub struct Times {
    /// Within 0.001 seconds.
    pub within_1_ms: u64,
    /// Within 0.005 seconds.
    pub within_5_ms: u64,
    /// Within 0.02 seconds.
    pub within_20_ms: u64,
    /// Within 0.1 seconds.
    pub within_100_ms: u64,
    /// Within 0.5 seconds.
    pub within_500_ms: u64,
    /// Within 2 seconds.
    pub within_2_s: u64,
    /// All of them.
    pub all: u64,
    /// How long they took together, in microseconds.
    pub micros: u64,
}

/// One more, where that is so.
fn more_if(holds: bool, count: u64) -> u64
    ensures { result ≡ spec.more_if holds count }
{
    if holds {
        count.saturating_add(1)
    } else {
        count
    }
}

impl Times {
    /// None yet.
    pub fn new() -> Times
        ensures { result ≡ spec.no_times }
    {
        Times {
            within_1_ms: 0,
            within_5_ms: 0,
            within_20_ms: 0,
            within_100_ms: 0,
            within_500_ms: 0,
            within_2_s: 0,
            all: 0,
            micros: 0,
        }
    }

    /// A request was served in so many microseconds.
    pub fn time(&mut self, micros: u64)
        ensures { self.new ≡ spec.timed self.old micros }
    {
        self.within_1_ms = more_if(micros <= 1_000, self.within_1_ms);
        self.within_5_ms = more_if(micros <= 5_000, self.within_5_ms);
        self.within_20_ms = more_if(micros <= 20_000, self.within_20_ms);
        self.within_100_ms = more_if(micros <= 100_000, self.within_100_ms);
        self.within_500_ms = more_if(micros <= 500_000, self.within_500_ms);
        self.within_2_s = more_if(micros <= 2_000_000, self.within_2_s);
        self.all = self.all.saturating_add(1);
        self.micros = self.micros.saturating_add(micros);
    }
}
