//! What is counted of a kind of failure.

/// What was tried of a kind of failure.
#[derive(Clone, Copy)]
pub(crate) struct Count {
    /// How often it was made to fail, each time at another point.
    pub(crate) points: u64,
    /// How many answers were unavailable.
    pub(crate) unavailable: u64,
}

impl Count {
    pub(crate) fn none() -> Count {
        Count {
            points: 0,
            unavailable: 0,
        }
    }

    /// Counts a point, and so many answers that were unavailable.
    pub(crate) fn add(&mut self, unavailable: u64) {
        self.points = self.points.saturating_add(1);
        self.unavailable = self.unavailable.saturating_add(unavailable);
    }
}
