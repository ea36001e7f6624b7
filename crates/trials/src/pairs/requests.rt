//! Requests as bytes (RFC 9112).

use anyhow::Result;
use std::alloc::Global;

/// A request: the line that names its caller, method, path, its other lines, and the body.
pub(crate) type Row<'a> = (&'a str, &'a str, &'a str, &'a str, &'a str);

pub(crate) const ANN: &str = "x-office-caller: ann\r\n";

pub(crate) const BOB: &str = "x-office-caller: bob\r\n";

pub(crate) const GUS: &str = "x-office-caller: gus\r\n";

pub(crate) const NOBODY: &str = "";

/// Puts the bytes of a request at the end of a stream.
pub(crate) fn push_request(alloc: Global, stream: &mut String, row: Row<'_>) -> Result<()> {
    let (caller, method, path, lines, body) = row;
    let length = body.len();
    let head = format!(in alloc;
        "{method} {path} HTTP/1.1\r\n{caller}{lines}Content-Length: {length}\r\n\r\n"
    )?;
    stream.push_str(head.as_str())?;
    stream.push_str(body)?;
    Ok(())
}

/// The requests as one stream.
pub(crate) fn stream_of(alloc: Global, rows: &[Row<'_>]) -> Result<String> {
    let mut stream = String::new(alloc);
    for row in rows {
        push_request(alloc, &mut stream, *row)?;
    }
    Ok(stream)
}
