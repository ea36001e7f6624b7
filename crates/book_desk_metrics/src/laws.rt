//! What the counters are.

ghost use Rattle.book_desk_metrics.specs.Counting.{CountsAreNumbers, PlacesTellApart};
ghost use Rattle.book_desk_metrics.specs.Timing.{BucketsAreNumbers};

/// What was counted since nothing was is the number of the replies to each method with each status, and of the denials by
/// privilege, up to the most that a counter holds.
pub fn counts_are_numbers()
    ensures { CountsAreNumbers }
{}

/// No two methods, and no two privileges, are counted together.
pub fn places_tell_apart()
    ensures { PlacesTellApart }
{}

/// Each bucket is the number of the requests that took no longer than its bound.
pub fn buckets_are_numbers()
    ensures { BucketsAreNumbers }
{}
