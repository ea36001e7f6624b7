//! What a dump tells, and its text.

ghost use Rattle.std.specs.Prelude.{◌≡◌, ◌++◌, IfOk, OnOk, length, map};
ghost use Rattle.std.specs.List.{concat};
ghost use Rattle.book_dumps.specs.Dumps.{counted};
ghost use Rattle.book_dumps.specs.Lines.{line_text};
ghost use Rattle.book_dumps.specs.Objects.{single_json, text_line};
ghost use Rattle.book_dumps_reading.specs.Dumped.{dumped_lines, dumped_text};

use book_dumps::{Line, line_bytes};
use book_office_values::Items;
use json::Writer;
use std::alloc::{AllocError, Global};

/// What a dump tells: the access epoch, and each resource.
#[derive(Debug, Drop)]
pub struct Dumped {
    /// The access epoch.
    pub epoch: u64,
    /// The resources. A dump that was read has them in byte order of the texts of the paths.
    pub lines: Items<Line>,
}

/// The line of an object of one number. An error is want of memory.
pub(crate) fn single_line(alloc: Global, name: &str, count: u64) -> Result<Vec<u8>, AllocError>
    ensures { IfOk result (λ line. line.items ≡ text_line (single_json name.now count)) }
{
    let mut writer = Writer::new(Vec::new(alloc));
    writer.begin_object()?;
    writer.key(name)?;
    writer.u64(count)?;
    writer.end_object()?;
    let mut line = writer.into_inner();
    line.push(b'\n')?;
    Ok(line)
}

/// Adds the lines of resources. An error is want of memory.
#[tactic(auto, using(crate::proofs::Texts::lines_more))]
fn push_lines(alloc: Global, bytes: &mut Vec<u8>, lines: &[Line]) -> Result<(), AllocError>
    ensures { OnOk result (bytes.new.items ≡ bytes.old.items ++ concat (map line_text lines.now)) }
{
    for line in lines {
        let text = line_bytes(alloc, line)?;
        bytes.extend_from_slice(text.as_slice())?;
    }
    Ok(())
}

/// How many lines stand before the last: that of the epoch, and those of the resources.
pub(crate) fn line_count(dumped: &Dumped) -> u64
    ensures { result ≡ counted (length (dumped_lines dumped.now)) }
{
    (dumped.lines.len() as u64).saturating_add(1)
}

/// All lines but the last. An error is want of memory.
fn front_bytes(alloc: Global, dumped: &Dumped) -> Result<Vec<u8>, AllocError>
    ensures { IfOk result (λ bytes. bytes.items ≡ concat (dumped_lines dumped.now)) }
{
    let mut bytes = single_line(alloc, "epoch", dumped.epoch)?;
    push_lines(alloc, &mut bytes, dumped.lines.as_slice())?;
    Ok(bytes)
}

/// The text of a dump (own profile): `{"epoch":N}`, each resource as one JSON object on a line, and `{"lines":N}`, the
/// number of the lines before it. Each line ends with a line feed. An error is want of memory.
pub fn dump_bytes(alloc: Global, dumped: &Dumped) -> Result<Vec<u8>, AllocError>
    ensures { IfOk result (λ bytes. bytes.items ≡ dumped_text dumped.now) }
{
    let mut bytes = front_bytes(alloc, dumped)?;
    let last = single_line(alloc, "lines", line_count(dumped))?;
    bytes.extend_from_slice(last.as_slice())?;
    Ok(bytes)
}
