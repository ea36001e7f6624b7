//! vCards of version 4.0 (RFC 6350): which texts are cards, what a card says, and what is wrong with any
//! other text.
//!
//! It stands on nothing. The crate above uses that `read_card` answers a card exactly where the text is one,
//! and else the one fault and line that the rules pick, and that the values of a card are those of its lines.
//! `Card::uid`, `Card::kind` and `Card::members` are what an office reads of a card: they
//! take no memory and copy nothing, and begin where `read_card` saw the first such line. `unfold` and `unescape` take the memory of their answer,
//! `read_card` that of one copy of the text, and nothing else does.
//!
//! Read `text` for folds and escapes, `line` for content lines, `property` and `fault`; then `check`, which
//! finds the fault of a text, and `places`, where the lines stand that a card is asked for; `card`, and `laws`.
#![tactic(auto)]

mod card;
mod check;
mod fault;
mod laws;
mod line;
mod places;
mod property;
mod text;

pub use card::{Card, Lines, MemberValues, read_card};
pub use fault::{CardFault, CardFaultKind};
pub use laws::{
    faultless_texts_are_the_cards, fields_are_of_the_grammar, lines_make_up_the_text,
    unfolded_is_what_unfolds,
};
pub use line::Line;
pub use text::{unescape, unfold};
