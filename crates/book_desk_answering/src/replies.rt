//! Replies, and the texts of which they are made.

ghost use Rattle.std.specs.Prelude.{◌≡◌, ◌++◌, [], IfOk, true};
ghost use Rattle.book_desk_answering.specs.Answering.{IsNotDone, IsReply, outcome_in};

use book_desk_app::Lines;
use book_desk_control::{Ending, Kind, Outcome, outcome_of_status};
use std::alloc::{AllocError, Global};
use std::io;
use std::io::Write;

/// A reply to a demand.
#[derive(Drop)]
pub struct Reply {
    /// Its status.
    pub outcome: Outcome,
    /// How the command ended, where it is one.
    pub ending: Option<Ending>,
    /// What the body is.
    pub kind: Kind,
    /// The body.
    pub body: Vec<u8>,
}

/// What a command tells, in memory.
#[derive(Drop)]
pub(crate) struct Told {
    /// The text.
    pub(crate) text: Vec<u8>,
    /// Whether there was memory for all of it.
    pub(crate) is_whole: bool,
}

impl Write for Told {
    ghost use Rattle.std.specs.Prelude.{Some};

    ghost contents = { λ told. Some told.text.items };

    fn write(&mut self, buf: &[u8]) -> io::Result<usize> {
        self.text.write(buf)
    }

    fn flush(&mut self) -> io::Result<()> {
        self.text.flush()
    }
}

impl Lines for Told {
    ghost is_whole = { λ told. told.is_whole };

    fn put(&mut self, text: &[u8]) {
        if text.len() > 0 && self.text.extend_from_slice(text).is_err() {
            self.is_whole = false;
        }
    }
}

/// The status of the reply to a command that ended so, with this body.
fn outcome_in(status: u8, body: &[u8]) -> Outcome
    ensures { result ≡ outcome_in status body.now }
{
    if body == b"adopt: full\n".as_slice() {
        Outcome::Full
    } else {
        outcome_of_status(status)
    }
}

/// What a command writes, and what it tells.
#[derive(Drop)]
pub(crate) struct Texts {
    pub(crate) writer: Vec<u8>,
    pub(crate) errors: Told,
}

impl Texts {
    /// Nothing yet.
    pub(crate) fn new(alloc: Global) -> Texts
        ensures writer { result.writer.items ≡ [] }
        ensures errors { result.errors.text.items ≡ [] }
    {
        Texts {
            writer: Vec::new(alloc),
            errors: Told {
                text: Vec::new(alloc),
                is_whole: true,
            },
        }
    }

    /// What was written, and then what was told, if there was memory for all of that. An error is want of memory.
    fn into_body(self) -> Result<Vec<u8>, AllocError>
        ensures { IfOk result (λ body. (self.errors.is_whole ≡ true)
            × (body.items ≡ self.writer.items ++ self.errors.text.items)) }
    {
        let Texts { mut writer, errors } = self;
        if !errors.is_whole {
            return Err(AllocError);
        }
        if writer.is_empty() {
            return Ok(errors.text);
        }
        writer.extend_from_slice(errors.text.as_slice())?;
        Ok(writer)
    }

    /// The reply to a command that ended with this status. An error is want of memory.
    pub(crate) fn into_reply(self, status: u8, kind: Kind) -> Result<Reply, AllocError>
        ensures { IfOk result (λ reply. (self.errors.is_whole ≡ true)
            × IsReply kind status self.writer.items self.errors.text.items reply) }
    {
        let told = self.errors.text.len();
        let body = self.into_body()?;
        Ok(Reply {
            outcome: outcome_in(status, body.as_slice()),
            ending: Some(Ending { status, told }),
            kind,
            body,
        })
    }
}

/// The reply that this can't be done. An error is want of memory.
pub fn not_done(alloc: Global) -> Result<Reply, AllocError>
    ensures { IfOk result IsNotDone }
{
    let body = Vec::from_slice(alloc, b"{\"error\":\"not-implemented\"}")?;
    Ok(Reply {
        outcome: Outcome::NotImplemented,
        ending: None,
        kind: Kind::Json,
        body,
    })
}
