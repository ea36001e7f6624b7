//! What comes of a control: a reply to a command, of which what it wrote is printed as it comes.

ghost use Rattle.std.specs.Prelude.{◌≡◌, ◌∷◌, [], IfErr, IfOk, OnOk};
ghost use Rattle.std.specs.Io.KnownBytes.{Consumes};
ghost use Rattle.book_desk_asking.specs.Replies.{CutBy, IsAnswered, IsCopied, IsCut, ReadsHead};
ghost use Rattle.book_desk_asking.specs.declared.replies.Fault.TheVariants.{Control};

use crate::heads::{Heard, MAX_HEAD, Told, hear};
use std::alloc::{AllocError, Global};
use std::io::{self, Read, Write};

/// The most bytes that are printed at once.
const PIECE: usize = 4_096;

/// How a command ended that was asked of a control.
#[derive(Debug, Drop)]
pub struct Answer {
    /// The status with which the program ends.
    pub status: u8,
    /// What it tells on standard error.
    pub told: Vec<u8>,
}

/// Why a command that was asked of a control has no answer.
#[derive(Clone, Copy, Debug, PartialEq, Eq)]
pub enum Fault {
    /// The control can't be asked, what came is no reply to a command, or it was cut; or memory was refused.
    Control,
    /// What the command wrote can't be written.
    Output,
}

impl From<AllocError> for Fault {
    ghost use Rattle.std.specs.Prelude.{◌≡◌};
    ghost use Rattle.book_desk_asking.specs.declared.replies.Fault.TheVariants.{Control};

    ghost from_gives = { λ _ fault. fault ≡ Control };

    fn from(_error: AllocError) -> Fault {
        Fault::Control
    }
}

/// Reads a byte.
fn read_byte<R: Read>(reader: &mut R) -> io::Result<u8>
    ensures { IfOk result (λ byte. Consumes (R.remaining reader.old) (R.remaining reader.new)
        (byte ∷ [])) }
{
    let mut memory = [0u8; 1];
    reader.read_exact(&mut memory)?;
    Ok(memory[0])
}

/// Reads a head of at most 8,192 bytes, and none of what follows it.
///
/// # Errors
///
/// `Control` where what comes is no head of a reply to a command.
fn read_head<R: Read>(alloc: Global, reader: &mut R) -> Result<Told, Fault>
    ensures head { IfOk result (ReadsHead (R.remaining reader.old) (R.remaining reader.new)) }
    ensures fault { IfErr result (λ fault. fault ≡ Control) }
{
    let mut bytes = Vec::new(alloc);
    for _ in 0..MAX_HEAD {
        let Ok(byte) = read_byte(reader) else {
            return Err(Fault::Control);
        };
        if bytes.push(byte).is_err() {
            return Err(Fault::Control);
        }
        if byte != b'\n' {
            continue;
        }
        match hear(bytes.as_slice()) {
            Heard::Part => {}
            Heard::Other => return Err(Fault::Control),
            Heard::Whole(told) => return Ok(told),
        }
    }
    Err(Fault::Control)
}

/// Copies so many bytes from a reader to a writer.
///
/// # Errors
///
/// `Control` where the reader fails, or ends before; `Output` where the writer fails.
fn copy<R: Read, W: Write>(reader: &mut R, writer: &mut W, count: usize) -> Result<(), Fault>
    ensures copied { OnOk result (IsCopied (R.remaining reader.old) (R.remaining reader.new)
        (W.contents writer.old) (W.contents writer.new) count) }
    ensures cut { IfErr result (λ fault. fault ≡ Control → CutBy (R.remaining reader.old)
        (W.contents writer.old) (W.contents writer.new) count) }
{
    let mut memory = [0u8; PIECE];
    let mut left = count;
    while left > 0 {
        let size = left.min(PIECE);
        let piece = &mut memory[..size];
        if reader.read_exact(piece).is_err() {
            return Err(Fault::Control);
        }
        if writer.write_all(piece).is_err() {
            return Err(Fault::Output);
        }
        left -= size;
    }
    Ok(())
}

/// Reads a reply to a command from a control, and prints what the command wrote as it comes, in pieces.
///
/// # Errors
///
/// `Control` where what comes is no reply to a command, where it is cut, and for want of memory: a beginning of what the command
/// wrote may be printed then, and nothing else. `Output` where it can't be written.
pub fn receive<R: Read, W: Write>(
    alloc: Global,
    reader: &mut R,
    writer: &mut W,
) -> Result<Answer, Fault>
    ensures answered { IfOk result (λ answer. IsAnswered (R.remaining reader.old)
        (W.contents writer.old) (W.contents writer.new) answer.status answer.told.items) }
    ensures cut { IfErr result (λ fault. fault ≡ Control → IsCut (R.remaining reader.old)
        (W.contents writer.old) (W.contents writer.new)) }
{
    let head = read_head(alloc, reader)?;
    match copy(reader, writer, head.written) {
        Ok(()) => {}
        Err(fault) => return Err(fault),
    }
    if writer.flush().is_err() {
        return Err(Fault::Output);
    }
    let mut told = Vec::new(alloc);
    match copy(reader, &mut told, head.told) {
        Ok(()) => Ok(Answer {
            status: head.status,
            told,
        }),
        Err(_) => Err(Fault::Control),
    }
}
