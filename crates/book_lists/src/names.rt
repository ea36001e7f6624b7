//! Names of members of collections.

ghost use Rattle.std.specs.Prelude.{◌≡◌, ◌↔◌, IsTrue, IfOk, IfSome, IfNone};
ghost use Rattle.std.specs.List.{slice_index};
ghost use Rattle.book_lists.specs.Names.{is_name_byte, front, IsName};

use std::alloc::{AllocError, Global};
use std::cmp::Ordering;
use std::marker::Model;

/// A name of one member of a collection: 1 to 64 bytes of ASCII letters, digits, `.`, `_` and `-`, not beginning with
/// `.` (own profile). A contract sees its bytes.
#[derive(Debug, Drop)]
pub struct Name {
    /// The number that its first eight bytes spell, which most comparisons end at.
    front: u64,
    text: String,
}

impl Model for Name {
    ghost use Rattle.std.specs.Prelude.{List, ℕ};
    ghost use Rattle.std.specs.String.{string_bytes};
    ghost use Rattle.book_lists.specs.Names.{IsFronted};

    ghost Value = { List ℕ };

    ghost view = { λ n. string_bytes n.text };

    ghost invariant = { λ n. IsFronted (string_bytes n.text) n.front };
}

/// A copy equals its source. An error is want of memory.
impl Clone for Name {
    ghost is_clone = { λ source copy. copy ≡ source };

    fn clone(&self) -> Result<Name, AllocError> {
        Ok(Name {
            front: self.front,
            text: self.text.clone()?,
        })
    }
}

impl PartialEq for Name {
    ghost use Rattle.std.proofs.Common.{rules};
    ghost use Rattle.std.specs.Str.{bytes_eq};
    ghost use Rattle.std.specs.Cmp.Rules.{comparing};

    ghost eq = { bytes_eq };

    ghost laws = { Prim.search (comparing, rules) };

    fn eq(&self, other: &Name) -> bool {
        self.text == other.text
    }
}

impl Eq for Name {
    ghost use Rattle.std.proofs.Common.{rules};
    ghost use Rattle.std.specs.Cmp.Rules.{comparing};

    ghost laws = { Prim.search (comparing, rules) };
}

/// In byte order.
impl PartialOrd for Name {
    ghost use Rattle.std.proofs.Common.{rules};
    ghost use Rattle.std.specs.Ordering.{as_partial_cmp};
    ghost use Rattle.std.specs.Cmp.{partial_order_from_own_ties};
    ghost use Rattle.std.specs.Cmp.Rules.{comparing};
    ghost use Rattle.book_lists.specs.Names.{name_cmp};

    ghost partial_cmp = { as_partial_cmp name_cmp };

    ghost laws = { partial_order_from_own_ties (Prim.search (comparing, rules)) (Prim.search (comparing, rules)) };

    fn partial_cmp(&self, other: &Name) -> Option<Ordering> {
        Some(self.cmp(other))
    }
}

impl Ord for Name {
    ghost use Rattle.std.proofs.Common.{rules};
    ghost use Rattle.std.specs.Cmp.Rules.{comparing};
    ghost use Rattle.book_lists.specs.Names.{name_cmp};

    ghost cmp = { name_cmp };

    ghost total = { Prim.search (comparing, rules) };

    ghost matches_partial_cmp = { Prim.search (comparing, rules) };

    ghost matches_eq = { Prim.search (comparing, rules) };

    fn cmp(&self, other: &Name) -> Ordering {
        if self.front != other.front {
            return self.front.cmp(&other.front);
        }
        self.text.cmp(&other.text)
    }
}

/// Whether a name may have the byte.
fn is_name_byte(byte: u8) -> bool
    ensures { result ≡ is_name_byte byte }
{
    matches!(byte, b'a'..=b'z' | b'A'..=b'Z' | b'0'..=b'9' | b'.' | b'_' | b'-')
}

/// Whether the text is a name of one member of a collection.
pub(crate) fn is_name(name: &str) -> bool
    ensures { IsTrue result ↔ IsName name.now }
{
    let bytes = name.as_bytes();
    !bytes.is_empty()
        && bytes.len() <= 64
        && bytes[0] != b'.'
        && bytes.iter().all(|byte| is_name_byte(*byte))
}

/// The byte at an index; 0 past the end.
fn byte_at(bytes: &[u8], index: usize) -> u8
    ensures { result ≡ slice_index bytes.now index }
{
    if index < bytes.len() { bytes[index] } else { 0 }
}

/// The number that the first eight bytes spell.
fn front_of(name: &str) -> u64
    ensures { result ≡ front name.now }
{
    let bytes = name.as_bytes();
    u64::from_be_bytes([
        byte_at(bytes, 0),
        byte_at(bytes, 1),
        byte_at(bytes, 2),
        byte_at(bytes, 3),
        byte_at(bytes, 4),
        byte_at(bytes, 5),
        byte_at(bytes, 6),
        byte_at(bytes, 7),
    ])
}

impl Name {
    /// The name that the text is; none where the text is no name. An error is want of memory.
    pub fn parse(alloc: Global, text: &str) -> Result<Option<Name>, AllocError>
        ensures found { IfOk result (λ found. IfSome found
            (λ name. (name ≡ text.now) × IsName name)) }
        ensures none { IfOk result (λ found. IfNone found (IsName text.now → ⊥)) }
    {
        if !is_name(text) {
            return Ok(None);
        }
        Ok(Some(Name {
            front: front_of(text),
            text: String::from_str(alloc, text)?,
        }))
    }

    /// The name as a text.
    pub fn text(&self) -> &str
        ensures { result.now ≡ self.now }
    {
        self.text.as_str()
    }

    /// Hands out the rule that each name meets.
    pub fn known(&self)
        ensures { IsName self.now }
    {
        let _ = &self.text;
    }
}
