//! Why requests are not served to their end.

/// Why a stream could not be served to its end.
#[derive(Clone, Copy, Debug, PartialEq, Eq)]
pub enum StreamFault {
    /// Memory was refused, before the first byte was read. Nothing was done.
    Memory,
    /// A read failed, or no end came in 18,446,744,073,709,551,615 reads. Each whole request was answered, and no other
    /// acted.
    Read,
    /// A write failed, or took nothing. What was written is a beginning of the replies, and only the last request may
    /// have acted unanswered.
    Write,
    /// A line of the log could not be written. What was written is a beginning of the replies, and only the last request,
    /// whose line it was, may have acted unanswered.
    Log,
}
