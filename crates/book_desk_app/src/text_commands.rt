//! The commands that read one text and write one.

/// A command that reads a text on standard input and writes one on standard output.
#[derive(Debug, Drop, PartialEq, Eq)]
pub enum TextCommand {
    /// Decide the question on standard input.
    Explain,
    /// Tell what the card on standard input says.
    Card,
    /// Print this text, which the words ask for: help, or the name and the version.
    Help(String),
}
