//! Sync tokens as texts.

ghost use Rattle.std.specs.Prelude.{◌≡◌, ◌≢◌, ◌≤◌, ◌<◌, ◌++◌, ◌∷◌, ◌||◌, ◌&&◌, ◌==◌, ℕ, nat_lt, List, length};
ghost use Rattle.std.specs.Prelude.{slice_index, codes, decimal, string_bytes, IfOk, IfSome, IfNone, IsSomeAnd, OnOk};
ghost use Rattle.book_lists.specs.Names.{IsName};
ghost use Rattle.book_limits.specs.declared.TheConstants.{LAST_NUMBER};
ghost use Rattle.book_office_sync.specs.Tokens.{IsToken, IsNoToken, token_text};

use crate::messages::Token;
use book_limits::LAST_NUMBER;
use book_lists::Name;
use std::alloc::{AllocError, Global};

/// Whether a text begins with a plus, or with a zero before anything else.
fn has_surplus(text: &str) -> bool
    ensures { result ≡ (slice_index text.now 0 == 43 ||
        (nat_lt 1 (length text.now) && slice_index text.now 0 == 48)) }
{
    text.starts_with('+') || (text.len() > 1 && text.starts_with('0'))
}

/// The number that a text is in decimal digits without leading zeros, if it is not above the last number.
fn number(text: &str) -> Option<u64>
    ensures some { IfSome result (λ n. (n ≤ LAST_NUMBER) × (text.now ≡ decimal n)) }
    ensures none { IfNone result ((n : ℕ) → n ≤ LAST_NUMBER → text.now ≢ decimal n) }
{
    if has_surplus(text) {
        return None;
    }
    match text.parse::<u64>() {
        Ok(number) if number <= LAST_NUMBER => Some(number),
        _ => None,
    }
}

/// What follows the scheme of a token's text, if it begins so.
fn after_scheme(text: &str) -> Option<&str>
    ensures some { IfSome result (λ rest. text.now ≡ codes "data:," ++ rest.now) }
    ensures none { IfNone result ((rest : List ℕ) → text.now ≢ codes "data:," ++ rest) }
{
    text.strip_prefix("data:,")
}

/// What stands before and after the first slash.
fn around_slash(text: &str) -> Option<(&str, &str)>
    ensures some { IfSome result (λ parts. text.now ≡ parts.0.now ++ 47 ∷ parts.1.now) }
    ensures first { (front back : List ℕ) → ((i : ℕ) → i < length front → slice_index front i ≢ 47)
        → text.now ≡ front ++ 47 ∷ back → IsSomeAnd result
        (λ parts. (parts.0.now ≡ front) × (parts.1.now ≡ back)) }
{
    text.split_once('/')
}

/// The texts where the book, the epoch and the number of a token stand.
fn parts(text: &str) -> Option<(&str, &str, &str)>
    ensures some { IfSome result (λ parts. text.now ≡
        codes "data:," ++ parts.0.now ++ codes "/" ++ parts.1.now ++ codes "/" ++ parts.2.now) }
    ensures only { (token : Token) → IsToken token → text.now ≡ token_text token
        → IsSomeAnd result (λ parts. (parts.0.now ≡ token.book)
        × (parts.1.now ≡ decimal token.epoch) × (parts.2.now ≡ decimal token.number)) }
{
    let rest = after_scheme(text)?;
    let (book, numbers) = around_slash(rest)?;
    let (epoch, number) = around_slash(numbers)?;
    Some((book, epoch, number))
}

impl Token {
    /// The token that a text spells: `data:,BOOK/EPOCH/NUMBER`, where BOOK is a `Name`, and EPOCH and NUMBER are at
    /// most 9,007,199,254,740,991, in decimal digits without leading zeros (RFC 6578, section 4; the form is own
    /// profile). None where the text spells no token. An error is want of memory.
    pub fn parse(alloc: Global, text: &str) -> Result<Option<Token>, AllocError>
        ensures found { IfOk result (λ found. IfSome found
            (λ token. IsToken token × (text.now ≡ token_text token))) }
        ensures none { IfOk result (λ found. IfNone found (IsNoToken text.now)) }
    {
        let Some((book, epoch_text, number_text)) = parts(text) else {
            return Ok(None);
        };
        let Some(epoch) = number(epoch_text) else {
            return Ok(None);
        };
        let Some(number) = number(number_text) else {
            return Ok(None);
        };
        let Some(book) = Name::parse(alloc, book)? else {
            return Ok(None);
        };
        Ok(Some(Token {
            book,
            epoch,
            number,
        }))
    }

    /// Adds the text of the token. An error is want of memory, which is not asked for where the string has the room.
    pub fn push_text(&self, text: &mut String) -> Result<(), AllocError>
        ensures { OnOk result (string_bytes text.new ≡
            string_bytes text.old ++ token_text self.now) }
    {
        let book = self.book.text();
        let epoch = self.epoch;
        let number = self.number;
        write!(text, "data:,{book}/{epoch}/{number}")
    }

    /// The text of the token. An error is want of memory.
    pub fn text(&self, alloc: Global) -> Result<String, AllocError>
        ensures { IfOk result (λ text. string_bytes text ≡ token_text self.now) }
    {
        let mut text = String::new(alloc);
        self.push_text(&mut text)?;
        Ok(text)
    }
}
