//! What is asked of an Office at the end.

use crate::pairs::requests::{ANN, Row, stream_of};
use anyhow::Result;
use std::alloc::Global;

/// All properties.
const ALL: &str =
    "{\"prop\":[\"displayname\",\"resourcetype\",\"owner\",\"acl\",\"current-user-privilege-set\",\"group-member-set\",\"sync-token\"]}";

/// All cards of a book.
const CARDS: &str = "{\"report\":\"sync-collection\",\"sync-token\":\"\"}";

/// All resources with their properties; the cards of each book; and what changed in a book from its beginning, by the
/// epochs that the examples come to.
const ROWS: &[Row<'static>] = &[
    (ANN, "PROPFIND", "/", "Depth: 1\r\n", ALL),
    (ANN, "PROPFIND", "/people", "Depth: 1\r\n", ALL),
    (ANN, "PROPFIND", "/groups", "Depth: 1\r\n", ALL),
    (ANN, "PROPFIND", "/books", "Depth: 1\r\n", ALL),
    (ANN, "PROPFIND", "/books/sales", "Depth: 1\r\n", ALL),
    (ANN, "PROPFIND", "/books/law", "Depth: 1\r\n", ALL),
    (ANN, "PROPFIND", "/books/new", "Depth: 1\r\n", ALL),
    (ANN, "REPORT", "/books/sales", "", CARDS),
    (ANN, "REPORT", "/books/law", "", CARDS),
    (ANN, "REPORT", "/books/new", "", CARDS),
    (
        ANN,
        "REPORT",
        "/books/sales",
        "",
        "{\"report\":\"sync-collection\",\"sync-token\":\"data:,sales/5/0\"}",
    ),
    (
        ANN,
        "REPORT",
        "/books/law",
        "",
        "{\"report\":\"sync-collection\",\"sync-token\":\"data:,law/5/0\"}",
    ),
];

/// The questions as one stream.
pub(crate) fn questions(alloc: Global) -> Result<String> {
    stream_of(alloc, ROWS)
}
