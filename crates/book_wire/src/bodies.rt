//! Bodies of replies in chunks of whole pieces, so that no long body is made whole.

ghost use Rattle.std.specs.Prelude.{◌≡◌, ℕ, ◌+◌, ◌≤◌, ◌<◌, ◌⊎◌, List, [], ◌++◌, length, OnOk, IfOk, IfSome};
ghost use Rattle.book_wire.specs.Sending.{IsChunk, left_of, rest_of_body};
ghost use Rattle.book_wire_json.specs.Pieces.{pieces};

use book_machine::Content;
use book_wire_json::{PieceMemory, piece_count, push_piece};
use std::alloc::{AllocError, Global};
use std::marker::Model;

/// A chunk of a body ends with the piece with which it has so many bytes. So a body of at most so many is one chunk.
const CHUNK: usize = 65_536;

/// More than the longest head of a reply.
pub(crate) const MAX_REPLY_HEAD: usize = 512;

/// The first chunk of a body, and what was counted of the others.
#[derive(Drop)]
pub(crate) struct Chunk {
    /// Its bytes.
    pub(crate) text: Vec<u8>,
    /// The piece after it.
    pub(crate) next: usize,
    /// How many bytes the whole body has.
    pub(crate) size: usize,
    /// How many bytes the longest piece after it has.
    pub(crate) longest: usize,
    /// The memory in which each piece of the body was made once.
    pub(crate) memory: PieceMemory,
}

impl Chunk {
    /// Room for this chunk behind a head, and for any later one.
    pub(crate) fn room(&self) -> usize {
        let others = CHUNK.saturating_add(self.longest);
        self.text.len().max(others).saturating_add(MAX_REPLY_HEAD)
    }
}

/// What is left of a body behind its first chunks. Contracts see its bytes.
#[derive(Drop)]
pub(crate) struct LongBody {
    content: Content,
    next: usize,
    memory: PieceMemory,
}

impl Model for LongBody {
    ghost use Rattle.std.specs.Prelude.{ℕ, List, length, ◌≤◌};
    ghost use Rattle.book_wire.specs.Sending.{rest_of_body};
    ghost use Rattle.book_wire_json.specs.Pieces.{pieces};

    ghost Value = { List ℕ };

    ghost view = { λ b. rest_of_body b.content b.next };

    ghost invariant = { λ b. b.next ≤ length (pieces b.content) };
}

impl LongBody {
    /// What is left of a body from a piece on, if that is one of it.
    pub(crate) fn rest(content: Content, next: usize, memory: PieceMemory) -> Option<LongBody>
        requires { next ≤ length (pieces content) }
        ensures bytes { left_of result ≡ rest_of_body content next }
        ensures some { IfSome result (λ _. next < length (pieces content)) }
    {
        if next < piece_count(&content) {
            Some(LongBody {
                content,
                next,
                memory,
            })
        } else {
            None
        }
    }

    /// Adds pieces to bytes until these are a chunk or the body ends, and gives what is left of it. An error is want of
    /// memory.
    pub(crate) fn push_next(
        self,
        alloc: Global,
        out: &mut Vec<u8>,
    ) -> Result<Option<LongBody>, AllocError>
        ensures { IfOk result (λ left. (out.new.items ++ left_of left ≡ out.old.items ++ self)
            × IfSome left (λ _. 65536 ≤ length out.new.items)) }
    {
        let LongBody {
            content,
            next,
            mut memory,
        } = self;
        let next = push_chunk(alloc, out, &mut memory, &content, next)?;
        Ok(LongBody::rest(content, next, memory))
    }
}

/// Adds the pieces of a body from one on to bytes, until these are a chunk or the body ends, and says which piece is the
/// next. An error is want of memory.
#[tactic(auto, using(crate::proofs::Chunks::front_more, crate::proofs::Chunks::rest_none))]
fn push_chunk(
    alloc: Global,
    out: &mut Vec<u8>,
    memory: &mut PieceMemory,
    content: &Content,
    from: usize,
) -> Result<usize, AllocError>
    requires { from ≤ length (pieces content.now) }
    ensures bytes { IfOk result (λ next. out.new.items ++ rest_of_body content.now next ≡
        out.old.items ++ rest_of_body content.now from) }
    ensures within { IfOk result (λ next. next ≤ length (pieces content.now)) }
    ensures enough { IfOk result (λ next. (length (pieces content.now) ≤ next)
        ⊎ (65536 ≤ length out.new.items)) }
{
    let count = piece_count(content);
    for next in from..count {
        if out.len() >= CHUNK {
            return Ok(next);
        }
        push_piece(alloc, out, memory, content, next)?;
    }
    Ok(count)
}

/// What was counted of pieces.
#[derive(Clone, Copy, Debug)]
struct Counted {
    /// How many bytes they have.
    size: usize,
    /// How many bytes the longest one has.
    longest: usize,
}

impl Counted {
    /// With one more piece. An error is want of memory: so many bytes can't be told.
    fn with(self, more: usize) -> Result<Counted, AllocError>
        ensures { IfOk result (λ counted. counted.size ≡ self.size + more) }
    {
        Ok(Counted {
            size: sum(self.size, more)?,
            longest: self.longest.max(more),
        })
    }
}

/// An error is want of memory.
fn sum(a: usize, b: usize) -> Result<usize, AllocError>
    ensures { IfOk result (λ n. n ≡ a + b) }
{
    a.checked_add(b).ok_or(AllocError)
}

/// Counts the pieces of a body from one on, each made in the same memory. An error is want of memory.
#[tactic(auto, using(crate::proofs::Chunks::count_more, crate::proofs::Chunks::rest_none))]
fn count_from(
    alloc: Global,
    memory: &mut PieceMemory,
    content: &Content,
    from: usize,
) -> Result<Counted, AllocError>
    requires { from ≤ length (pieces content.now) }
    ensures { IfOk result (λ counted. counted.size ≡ length (rest_of_body content.now from)) }
{
    let count = piece_count(content);
    let mut piece = Vec::new(alloc);
    let mut counted = Counted {
        size: 0,
        longest: 0,
    };
    for next in from..count {
        piece.clear();
        push_piece(alloc, &mut piece, memory, content, next)?;
        counted = counted.with(piece.len())?;
    }
    Ok(counted)
}

/// Makes the first chunk of a body, and counts the others. An error is want of memory.
pub(crate) fn first_chunk(alloc: Global, content: &Content) -> Result<Chunk, AllocError>
    ensures { IfOk result (λ chunk. IsChunk content.now chunk.text.items chunk.next chunk.size) }
{
    let mut memory = PieceMemory::new(alloc);
    let mut text = Vec::new(alloc);
    let next = push_chunk(alloc, &mut text, &mut memory, content, 0)?;
    let others = count_from(alloc, &mut memory, content, next)?;
    let size = sum(text.len(), others.size)?;
    Ok(Chunk {
        text,
        next,
        size,
        longest: others.longest,
        memory,
    })
}
