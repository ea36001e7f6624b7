//! The requests of questions, as bytes (RFC 9112, section 3).

ghost use Rattle.std.specs.Prelude.{◌≡◌, ◌++◌, IfOk, OnOk, codes, decimal};
ghost use Rattle.book_desk_asking.specs.Questions as spec;

use crate::bodies::body_of;
use crate::questions::Question;
use book_desk_control::Bytes;
use itoa::Buffer;
use std::alloc::{AllocError, Global};

/// The method and the target of a question.
fn target_of(question: &Question<'_>) -> &'static str
    ensures { result.now ≡ spec.target_of question.now }
{
    match question {
        Question::Audit(_) => "POST /audit",
        Question::Why(_) => "POST /why",
        Question::Who(_) => "POST /who",
        Question::Rights(_) => "POST /rights",
        Question::Ask(_) => "POST /ask",
        Question::Show(_) => "POST /show",
        Question::Dump => "GET /dump",
        Question::Check(_, false) => "POST /check",
        Question::Check(_, true) => "POST /check?strict",
        Question::Differs(_, false) => "POST /differs",
        Question::Differs(_, true) => "POST /differs?strict",
        Question::Import(_) => "PUT /policy",
    }
}

/// Adds what stands in each head, with the length of the body.
fn push_fields(text: &mut Bytes, length: usize) -> Result<(), AllocError>
    ensures { OnOk result (text.new ≡ text.old ++ spec.fields_text length) }
{
    let mut digits = Buffer::new();
    text.push(b" HTTP/1.1\r\nHost: localhost\r\nContent-Length: ")?;
    text.push(digits.format(length as u64).as_bytes())?;
    text.push(b"\r\n\r\n")
}

/// The bytes of the request of a question: its method and target, its fields and its body. An error is want of memory.
pub fn request_of(alloc: Global, question: &Question<'_>) -> Result<Bytes, AllocError>
    ensures { IfOk result (λ request. request ≡ spec.request_text question.now) }
{
    let body = body_of(alloc, question)?;
    let mut text = Bytes::new(alloc);
    text.push(target_of(question).as_bytes())?;
    push_fields(&mut text, body.len())?;
    text.push(body.as_slice())?;
    Ok(text)
}
