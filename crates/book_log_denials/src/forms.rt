//! The two forms in which groups of denials are told.

/// How a group of denials is told, which also says which denials are of one group.
#[derive(Clone, Copy, Debug, PartialEq, Eq)]
pub enum Form {
    /// A line of text.
    Text,
    /// A JSON object (RFC 8259) on a line.
    Object,
}
