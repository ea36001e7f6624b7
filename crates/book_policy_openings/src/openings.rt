//! A caller who may open a book that is closed to them.

use crate::steps::Step;
use book_lists::Name;

/// A caller may open a book that is closed to them: by one request, or by two, in this order.
#[derive(Debug, Drop)]
pub struct Opening {
    /// The bare name of the person; none of a caller who is not known.
    pub caller: Option<Name>,
    /// The request, or the first of two.
    pub first: Step,
    /// The second, if there are two.
    pub second: Option<Step>,
    /// The name of the book.
    pub book: Name,
}
