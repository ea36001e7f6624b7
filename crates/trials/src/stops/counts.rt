//! How many stops were tried, and what they left.

/// What a stop left.
#[derive(Clone, Copy)]
pub(crate) enum Left {
    /// The Office before the edit.
    Before,
    /// The Office after it.
    After,
    /// Another Office, or none.
    Wrong,
}

/// How many stops were tried, and how often they left what.
#[derive(Clone, Copy)]
pub(crate) struct Count {
    pub(crate) stops: u64,
    pub(crate) before: u64,
    pub(crate) after: u64,
    pub(crate) wrong: u64,
}

impl Count {
    /// No stop.
    pub(crate) fn none() -> Count {
        Count {
            stops: 0,
            before: 0,
            after: 0,
            wrong: 0,
        }
    }

    /// Counts a stop.
    pub(crate) fn add_stop(&mut self) {
        self.stops = self.stops.saturating_add(1);
    }

    /// Counts what a stop left.
    pub(crate) fn add(&mut self, left: Left) {
        match left {
            Left::Before => self.before = self.before.saturating_add(1),
            Left::After => self.after = self.after.saturating_add(1),
            Left::Wrong => self.wrong = self.wrong.saturating_add(1),
        }
    }

    /// Both counts together.
    pub(crate) fn plus(self, other: Count) -> Count {
        Count {
            stops: self.stops.saturating_add(other.stops),
            before: self.before.saturating_add(other.before),
            after: self.after.saturating_add(other.after),
            wrong: self.wrong.saturating_add(other.wrong),
        }
    }
}
