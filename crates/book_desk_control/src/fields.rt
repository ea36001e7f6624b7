//! What the head of a request asks (RFC 9112, section 6): the fields that are read, and no others.

ghost use Rattle.std.specs.Prelude.{◌≡◌, ◌≤◌, map, length, true, option_copied, All, MatchResult, Ok, Err};
ghost use Rattle.std.specs.List.{list_all};
ghost use Rattle.std.specs.Char.{is_ascii_digit};
ghost use Rattle.httparse.specs.Spans.{IsHeaderWithin, IsWithin, header_bytes, span_bytes};
ghost use Rattle.book_desk_control.specs.Fields as spec;

use crate::questions::{Question, question_of};
use crate::refusals::Refusal;
use book_limits::MAX_POLICY_BYTES;
use httparse::spans::{HeaderSpan, RequestSpans};

/// What a head asks.
#[derive(Clone, Copy)]
pub(crate) struct Asked {
    /// The question.
    pub(crate) question: Question,
    /// The length of the body.
    pub(crate) length: usize,
}

/// Whether two names are equal but for ASCII case.
fn has_name(name: &[u8], wanted: &[u8]) -> bool
    ensures { result ≡ spec.same_name name.now wanted.now }
{
    name.eq_ignore_ascii_case(wanted)
}

/// The value of a field that may come once; none where it does not come. The name is equal but for ASCII case.
///
/// # Errors
///
/// `BadHead` where it comes twice.
pub fn lone<'b>(
    bytes: &'b [u8],
    headers: &[HeaderSpan],
    name: &[u8],
) -> Result<Option<&'b [u8]>, Refusal>
    requires { All (IsHeaderWithin (length bytes.now)) headers.now }
    ensures { MatchResult result (λ v. spec.lone
        (spec.values_of name.now (map (header_bytes bytes.now) headers.now)) ≡ Ok (option_copied v))
        (λ e. spec.lone (spec.values_of name.now (map (header_bytes bytes.now) headers.now)) ≡
        Err e) }
{
    let mut found = None;
    for header in headers {
        if has_name(header.name.of(bytes), name) {
            if found.is_some() {
                return Err(Refusal::BadHead);
            }
            found = Some(header.value.of(bytes));
        }
    }
    Ok(found)
}

fn has_digits_alone(digits: &[u8]) -> bool
    ensures { result ≡ list_all is_ascii_digit digits.now }
{
    digits.iter().all(|d| d.is_ascii_digit())
}

/// Whether these are 1 to 10 decimal digits.
pub fn is_length(digits: &[u8]) -> bool
    ensures { result ≡ spec.is_length digits.now }
{
    !digits.is_empty() && digits.len() <= 10 && has_digits_alone(digits)
}

/// The number that decimal digits write.
pub fn value_of(digits: &[u8]) -> usize
    requires { spec.is_length digits.now ≡ true }
    ensures { result ≡ spec.number_after 0 digits.now }
{
    let mut value = 0;
    for digit in digits {
        value = 10 * value + (*digit - b'0') as usize;
    }
    value
}

/// The length of the body: 1 to 10 decimal digits, and none is no body (RFC 9112, section 6.3).
fn length_of(text: Option<&[u8]>) -> Result<usize, Refusal>
    ensures { MatchResult result
        (λ n. spec.length_of (option_copied text.entry) ≡ Ok n)
        (λ e. spec.length_of (option_copied text.entry) ≡ Err e) }
{
    match text {
        None => Ok(0),
        Some(digits) if is_length(digits) => Ok(value_of(digits)),
        Some(_) => Err(Refusal::BadHead),
    }
}

/// That there is no transfer coding.
fn without_coding(coding: Option<&[u8]>) -> Result<(), Refusal>
    ensures { result ≡ spec.without_coding (option_copied coding.entry) }
{
    match coding {
        None => Ok(()),
        Some(_) => Err(Refusal::NotImplemented),
    }
}

/// The question with its body's length, where that is not above the limit.
fn within(question: Question, length: usize) -> Result<Asked, Refusal>
    ensures { result ≡ spec.within question length }
{
    if length <= MAX_POLICY_BYTES {
        Ok(Asked { question, length })
    } else {
        Err(Refusal::TooMany)
    }
}

/// What the fields of a head ask.
#[tactic(auto, unfolding(crate::specs::Fields::asked_by_head))]
pub(crate) fn read_fields(
    bytes: &[u8],
    spans: &RequestSpans,
    headers: &[HeaderSpan],
) -> Result<Asked, Refusal>
    requires method { IsWithin (length bytes.now) spans.now.method }
    requires path { IsWithin (length bytes.now) spans.now.path }
    requires headers { All (IsHeaderWithin (length bytes.now)) headers.now }
    ensures { MatchResult result (λ a. spec.asked_by_head (span_bytes bytes.now spans.now.method)
        (span_bytes bytes.now spans.now.path) (map (header_bytes bytes.now) headers.now) ≡ Ok a)
        (λ e. spec.asked_by_head (span_bytes bytes.now spans.now.method)
        (span_bytes bytes.now spans.now.path) (map (header_bytes bytes.now) headers.now) ≡ Err e) }
{
    let coding = lone(bytes, headers, b"transfer-encoding")?;
    let text = lone(bytes, headers, b"content-length")?;
    let length = length_of(text)?;
    without_coding(coding)?;
    let question = question_of(spans.method.of(bytes), spans.path.of(bytes))?;
    within(question, length)
}
