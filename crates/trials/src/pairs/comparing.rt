//! How the replies of two keepers compare.

/// With this each reply begins (RFC 9112, section 4), and no card, label or policy here has it.
const BEGIN: &str = "HTTP/1.1 ";

/// How the replies of two keepers compare.
#[derive(Clone, Copy)]
pub(crate) struct Comparison {
    /// How many replies the first has.
    pub(crate) replies: usize,
    /// How many of them the second has otherwise, or not, and how many more it has.
    pub(crate) differ: usize,
}

/// Compares what two keepers told, byte for byte. What an adoption told goes with the reply before it.
pub(crate) fn compare(first: &str, second: &str) -> Comparison {
    let mut others = second.split(BEGIN);
    let mut replies = 0usize;
    let mut differ = 0usize;
    for told in first.split(BEGIN) {
        if others.next() != Some(told) {
            differ = differ.saturating_add(1);
        }
        replies = replies.saturating_add(1);
    }
    for _ in others {
        differ = differ.saturating_add(1);
    }
    Comparison {
        replies: replies.saturating_sub(1),
        differ,
    }
}

/// How many replies have this status.
pub(crate) fn count_of(told: &str, status: &str) -> usize {
    let mut count = 0usize;
    for reply in told.split(BEGIN) {
        if reply.starts_with(status) {
            count = count.saturating_add(1);
        }
    }
    count
}
