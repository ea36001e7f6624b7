//! Texts made of pieces.

use book_machine::Content;
use book_wire_json::{PieceMemory, piece_count, push_piece};
use std::alloc::Global;
use std::process::Abort;

/// A text: each piece, so many times.
pub(crate) type Pieces<'a> = &'a [(&'a str, usize)];

fn push_times(rt: &impl Abort, text: &mut String, piece: &str, times: usize) {
    for _ in 0..times {
        text.push_str(piece).expect(rt, "memory");
    }
}

/// The text of the pieces.
pub(crate) fn written(rt: &impl Abort, alloc: Global, pieces: Pieces<'_>) -> String {
    let mut text = String::new(alloc);
    for (piece, times) in pieces {
        push_times(rt, &mut text, piece, *times);
    }
    text
}

/// The bytes of a reply's body.
pub(crate) fn body_bytes(rt: &impl Abort, alloc: Global, content: &Content) -> Vec<u8> {
    let mut bytes = Vec::new(alloc);
    let mut memory = PieceMemory::new(alloc);
    for index in 0..piece_count(content) {
        push_piece(alloc, &mut bytes, &mut memory, content, index).expect(rt, "memory");
    }
    bytes
}
