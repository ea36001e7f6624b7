//! The words of the command line: what `clap` reads of them, and the command that this is.
//!
//! It stands on `clap`. The program uses `command_of`: where it answers a command, it is the one that clap's matches of
//! the words give, with the numbers in range, or help, where the words ask for it.
//!
//! Read `commands` first, and `questions` and `keeping`, which have the commands that ask and those that make stores, and
//! `listening`, which has where `serve` listens, and `offices`, of which Office a command asks; then `programs`, which
//! tells clap of the command line, `arguments`, which has the arguments of each command, and `helps`, its texts.
#![tactic(auto)]

mod arguments;
mod commands;
mod helps;
mod keeping;
mod listening;
mod offices;
mod programs;
mod questions;

pub use commands::{Command, WordsFault, command_of, words_not_text, words_not_time};
pub use helps::VERSION;
pub use offices::Office;
