//! The Office as text.

ghost use Rattle.std.specs.Prelude.{◌≡◌, ◌≢◌, ◌∷◌, ◌++◌, [], IfErr, IfOk, OnErr, OnOk, map, option_map};
ghost use Rattle.std.specs.Io.KnownBytes.{Appends};
ghost use Rattle.std.specs.List.{flat_map};
ghost use Rattle.book_office.specs.Keeping.{Reads};
ghost use Rattle.book_office.specs.declared.keepers.StoreFault.TheVariants as store;
ghost use Rattle.book_office_values.specs.declared.paths.Path.TheVariants as path;
ghost use Rattle.book_dumps.specs.Dumps.{after_books, epoch_line, last_line, lines_at, lines_of, names_at, paths_in, paths_of, places_of};
ghost use Rattle.book_dumps.specs.Lines.{line_text};
ghost use Rattle.book_dumps.specs.Told.{line_at, texts_at};
ghost use Rattle.book_dumps.specs.Writing.{Dumps, IsCut, Writes};
ghost use Rattle.book_dumps.specs.declared.faults.DumpFault.TheVariants as faults;

use crate::faults::DumpFault;
use crate::lines::Line;
use crate::output::{put, put_line, put_told};
use crate::places::{Place, places_of};
use crate::reading::read_line;
use crate::texts::single_line;
use crate::writing::line_string;
use book_lists::Name;
use book_office::{Keeper, Listed, StoreFault};
use book_office_values::{Items, Path, Text};
use std::alloc::{AllocError, Global};
use std::io::Write;

/// Writes the line of the resource at a path, if one is mapped.
fn write_at<K: Keeper, W: Write>(
    alloc: Global,
    keeper: &mut K,
    writer: &mut W,
    count: &mut u64,
    path: &Path,
) -> Result<(), DumpFault>
    ensures { Writes (K.standing keeper.old) (K.standing keeper.new) (W.contents writer.old)
        (W.contents writer.new) count.old count.new result (λ o. texts_at o path.now) }
{
    let line = read_line(alloc, keeper, path)?;
    let put = put_told(alloc, writer, count, &line);
    drop(line);
    put
}

/// Writes the lines of the resources at paths.
fn write_each<K: Keeper, W: Write>(
    alloc: Global,
    keeper: &mut K,
    writer: &mut W,
    count: &mut u64,
    paths: &[Path],
) -> Result<(), DumpFault>
    ensures { Writes (K.standing keeper.old) (K.standing keeper.new) (W.contents writer.old)
        (W.contents writer.new) count.old count.new result (λ o. lines_at o paths.now) }
{
    for path in paths {
        match write_at(alloc, keeper, writer, count, path) {
            Ok(()) => {}
            Err(fault) => return Err(fault),
        }
    }
    Ok(())
}

/// The names of children. An error is want of memory.
fn names_among(alloc: Global, children: &[Listed]) -> Result<Items<Name>, AllocError>
    ensures { IfOk result (λ names. names ≡ map (λ child. child.name) children.now) }
{
    let mut names = Vec::with_capacity(alloc, children.len())?;
    for child in children {
        names.push(child.name.clone()?)?;
    }
    Ok(Items::from_vec(names))
}

/// Reads the names of the children of a resource.
fn read_names<K: Keeper>(
    alloc: Global,
    keeper: &mut K,
    path: &Path,
) -> Result<Items<Name>, StoreFault>
    ensures { Reads (K.standing keeper.old) (K.standing keeper.new) result
        (λ o names. names ≡ names_at o path.now) }
{
    let children = keeper.children(alloc, path)?;
    Ok(names_among(alloc, children.as_slice())?)
}

/// The paths of the cards of a book. An error is want of memory.
fn card_paths(alloc: Global, book: &Name, names: &[Name]) -> Result<Items<Path>, AllocError>
    ensures { IfOk result (λ paths. paths ≡ map (path.Card book.now) names.now) }
{
    let mut paths = Vec::with_capacity(alloc, names.len())?;
    for name in names {
        paths.push(Path::Card(book.clone()?, name.clone()?))?;
    }
    Ok(Items::from_vec(paths))
}

/// The paths of groups. An error is want of memory.
fn group_paths(alloc: Global, names: &[Name]) -> Result<Items<Path>, AllocError>
    ensures { IfOk result (λ paths. paths ≡ map path.Group names.now) }
{
    let mut paths = Vec::with_capacity(alloc, names.len())?;
    for name in names {
        paths.push(Path::Group(name.clone()?))?;
    }
    Ok(Items::from_vec(paths))
}

/// The paths of persons. An error is want of memory.
fn person_paths(alloc: Global, names: &[Name]) -> Result<Items<Path>, AllocError>
    ensures { IfOk result (λ paths. paths ≡ map path.Person names.now) }
{
    let mut paths = Vec::with_capacity(alloc, names.len())?;
    for name in names {
        paths.push(Path::Person(name.clone()?))?;
    }
    Ok(Items::from_vec(paths))
}

/// Reads the paths of the cards of a book.
fn read_card_paths<K: Keeper>(
    alloc: Global,
    keeper: &mut K,
    book: &Name,
) -> Result<Items<Path>, StoreFault>
    ensures { Reads (K.standing keeper.old) (K.standing keeper.new) result
        (λ o paths. paths ≡ map (path.Card book.now) (names_at o (path.Book book.now))) }
{
    let at = Path::Book(book.clone()?);
    let names = read_names(alloc, keeper, &at);
    drop(at);
    let names = names?;
    Ok(card_paths(alloc, book, names.as_slice())?)
}

/// Reads the paths of the groups.
fn read_group_paths<K: Keeper>(alloc: Global, keeper: &mut K) -> Result<Items<Path>, StoreFault>
    ensures { Reads (K.standing keeper.old) (K.standing keeper.new) result
        (λ o paths. paths ≡ map path.Group (names_at o path.Groups)) }
{
    let names = read_names(alloc, keeper, &Path::Groups)?;
    Ok(group_paths(alloc, names.as_slice())?)
}

/// Reads the paths of the persons.
fn read_person_paths<K: Keeper>(alloc: Global, keeper: &mut K) -> Result<Items<Path>, StoreFault>
    ensures { Reads (K.standing keeper.old) (K.standing keeper.new) result
        (λ o paths. paths ≡ map path.Person (names_at o path.People)) }
{
    let names = read_names(alloc, keeper, &Path::People)?;
    Ok(person_paths(alloc, names.as_slice())?)
}

/// Reads the books and where their cards stand.
fn read_places<K: Keeper>(alloc: Global, keeper: &mut K) -> Result<Items<Place>, StoreFault>
    ensures { Reads (K.standing keeper.old) (K.standing keeper.new) result
        (λ o places. places ≡ places_of o) }
{
    let names = read_names(alloc, keeper, &Path::Books)?;
    Ok(places_of(alloc, names.as_slice())?)
}

/// Reads the paths of what stands at a place.
fn read_paths_in<K: Keeper>(
    alloc: Global,
    keeper: &mut K,
    place: &Place,
) -> Result<Items<Path>, StoreFault>
    ensures { Reads (K.standing keeper.old) (K.standing keeper.new) result
        (λ o paths. paths ≡ paths_in o place.now) }
{
    match place {
        Place::Whole(book) => Ok(one_path(alloc, Path::Book(book.clone()?))?),
        Place::Cards(book) => read_card_paths(alloc, keeper, book),
    }
}

/// One path alone. An error is want of memory.
fn one_path(alloc: Global, path: Path) -> Result<Items<Path>, AllocError>
    ensures { IfOk result (λ paths. paths ≡ path ∷ []) }
{
    let mut paths = Items::new(alloc);
    paths.push(path)?;
    Ok(paths)
}

/// Writes the lines of what stands at a place among the books.
fn write_place<K: Keeper, W: Write>(
    alloc: Global,
    keeper: &mut K,
    writer: &mut W,
    count: &mut u64,
    place: &Place,
) -> Result<(), DumpFault>
    ensures { Writes (K.standing keeper.old) (K.standing keeper.new) (W.contents writer.old)
        (W.contents writer.new) count.old count.new result
        (λ o. lines_at o (paths_in o place.now)) }
{
    let paths = read_paths_in(alloc, keeper, place)?;
    write_each(alloc, keeper, writer, count, paths.as_slice())
}

/// Writes the lines of what stands at places among the books.
fn write_places<K: Keeper, W: Write>(
    alloc: Global,
    keeper: &mut K,
    writer: &mut W,
    count: &mut u64,
    places: &[Place],
) -> Result<(), DumpFault>
    ensures { Writes (K.standing keeper.old) (K.standing keeper.new) (W.contents writer.old)
        (W.contents writer.new) count.old count.new result
        (λ o. lines_at o (flat_map (paths_in o) places.now)) }
{
    for place in places {
        match write_place(alloc, keeper, writer, count, place) {
            Ok(()) => {}
            Err(fault) => return Err(fault),
        }
    }
    Ok(())
}

/// Writes the lines of the books and their cards.
fn write_books<K: Keeper, W: Write>(
    alloc: Global,
    keeper: &mut K,
    writer: &mut W,
    count: &mut u64,
) -> Result<(), DumpFault>
    ensures { Writes (K.standing keeper.old) (K.standing keeper.new) (W.contents writer.old)
        (W.contents writer.new) count.old count.new result
        (λ o. lines_at o (flat_map (paths_in o) (places_of o))) }
{
    let places = read_places(alloc, keeper)?;
    write_places(alloc, keeper, writer, count, places.as_slice())
}

/// Writes the lines of the groups.
fn write_groups<K: Keeper, W: Write>(
    alloc: Global,
    keeper: &mut K,
    writer: &mut W,
    count: &mut u64,
) -> Result<(), DumpFault>
    ensures { Writes (K.standing keeper.old) (K.standing keeper.new) (W.contents writer.old)
        (W.contents writer.new) count.old count.new result
        (λ o. lines_at o (map path.Group (names_at o path.Groups))) }
{
    let paths = read_group_paths(alloc, keeper)?;
    write_each(alloc, keeper, writer, count, paths.as_slice())
}

/// Writes the lines of the persons.
fn write_persons<K: Keeper, W: Write>(
    alloc: Global,
    keeper: &mut K,
    writer: &mut W,
    count: &mut u64,
) -> Result<(), DumpFault>
    ensures { Writes (K.standing keeper.old) (K.standing keeper.new) (W.contents writer.old)
        (W.contents writer.new) count.old count.new result
        (λ o. lines_at o (map path.Person (names_at o path.People))) }
{
    let paths = read_person_paths(alloc, keeper)?;
    write_each(alloc, keeper, writer, count, paths.as_slice())
}

/// Writes the line of the home of the persons and those of the persons.
fn write_people<K: Keeper, W: Write>(
    alloc: Global,
    keeper: &mut K,
    writer: &mut W,
    count: &mut u64,
) -> Result<(), DumpFault>
    ensures { Writes (K.standing keeper.old) (K.standing keeper.new) (W.contents writer.old)
        (W.contents writer.new) count.old count.new result
        (λ o. lines_at o (path.People ∷ map path.Person (names_at o path.People))) }
{
    write_at(alloc, keeper, writer, count, &Path::People)?;
    write_persons(alloc, keeper, writer, count)
}

/// Writes the lines of the groups, the home of the persons, and the persons.
fn write_principals<K: Keeper, W: Write>(
    alloc: Global,
    keeper: &mut K,
    writer: &mut W,
    count: &mut u64,
) -> Result<(), DumpFault>
    ensures { Writes (K.standing keeper.old) (K.standing keeper.new) (W.contents writer.old)
        (W.contents writer.new) count.old count.new result
        (λ o. lines_at o (map path.Group (names_at o path.Groups) ++
        (path.People ∷ map path.Person (names_at o path.People)))) }
{
    write_groups(alloc, keeper, writer, count)?;
    write_people(alloc, keeper, writer, count)
}

/// Writes the lines of the home of the groups and of what comes after it.
fn write_after_books<K: Keeper, W: Write>(
    alloc: Global,
    keeper: &mut K,
    writer: &mut W,
    count: &mut u64,
) -> Result<(), DumpFault>
    ensures { Writes (K.standing keeper.old) (K.standing keeper.new) (W.contents writer.old)
        (W.contents writer.new) count.old count.new result (λ o. lines_at o (after_books o)) }
{
    write_at(alloc, keeper, writer, count, &Path::Groups)?;
    write_principals(alloc, keeper, writer, count)
}

/// Writes the lines of the books and their cards and of what comes after them.
fn write_after_home<K: Keeper, W: Write>(
    alloc: Global,
    keeper: &mut K,
    writer: &mut W,
    count: &mut u64,
) -> Result<(), DumpFault>
    ensures { Writes (K.standing keeper.old) (K.standing keeper.new) (W.contents writer.old)
        (W.contents writer.new) count.old count.new result
        (λ o. lines_at o (flat_map (paths_in o) (places_of o) ++ after_books o)) }
{
    write_books(alloc, keeper, writer, count)?;
    write_after_books(alloc, keeper, writer, count)
}

/// Writes the lines of the home of the books and of what comes after it.
fn write_after_root<K: Keeper, W: Write>(
    alloc: Global,
    keeper: &mut K,
    writer: &mut W,
    count: &mut u64,
) -> Result<(), DumpFault>
    ensures { Writes (K.standing keeper.old) (K.standing keeper.new) (W.contents writer.old)
        (W.contents writer.new) count.old count.new result
        (λ o. lines_at o (path.Books ∷ (flat_map (paths_in o) (places_of o) ++ after_books o))) }
{
    write_at(alloc, keeper, writer, count, &Path::Books)?;
    write_after_home(alloc, keeper, writer, count)
}

/// Writes the lines of all resources.
fn write_resources<K: Keeper, W: Write>(
    alloc: Global,
    keeper: &mut K,
    writer: &mut W,
    count: &mut u64,
) -> Result<(), DumpFault>
    ensures { Writes (K.standing keeper.old) (K.standing keeper.new) (W.contents writer.old)
        (W.contents writer.new) count.old count.new result (λ o. lines_at o (paths_of o)) }
{
    write_at(alloc, keeper, writer, count, &Path::Root)?;
    write_after_root(alloc, keeper, writer, count)
}

/// Writes the line of the epoch.
fn write_epoch<K: Keeper, W: Write>(
    alloc: Global,
    keeper: &mut K,
    writer: &mut W,
    count: &mut u64,
) -> Result<(), DumpFault>
    ensures { Writes (K.standing keeper.old) (K.standing keeper.new) (W.contents writer.old)
        (W.contents writer.new) count.old count.new result (λ o. epoch_line o.epoch ∷ []) }
{
    let epoch = keeper.epoch()?;
    let line = single_line(alloc, "epoch", epoch)?;
    put_line(writer, count, line.as_slice())
}

/// Writes all lines but the last.
fn write_lines<K: Keeper, W: Write>(
    alloc: Global,
    keeper: &mut K,
    writer: &mut W,
    count: &mut u64,
) -> Result<(), DumpFault>
    ensures { Writes (K.standing keeper.old) (K.standing keeper.new) (W.contents writer.old)
        (W.contents writer.new) count.old count.new result lines_of }
{
    write_epoch(alloc, keeper, writer, count)?;
    write_resources(alloc, keeper, writer, count)
}

/// Writes the last line.
fn put_last<W: Write>(alloc: Global, writer: &mut W, count: u64) -> Result<(), DumpFault>
    ensures ok { OnOk result (Appends (W.contents writer.old) (W.contents writer.new)
        (last_line count)) }
    ensures err { OnErr result (IsCut (W.contents writer.old) (W.contents writer.new)
        (last_line count)) }
    ensures cause { IfErr result (λ fault. fault ≢ faults.Store store.Store) }
{
    let line = single_line(alloc, "lines", count)?;
    put(writer, line.as_slice())
}

/// Writes the Office as text (own profile): `{"epoch":N}`, then each resource as one JSON object on a line, in byte order
/// of the paths, and last `{"lines":N}`, the number of the lines before it. Each line ends with a line feed. Keys without
/// a value are left out. The Office is as it was.
///
/// One card's text is in memory at a time, or `PAGE` of them where removed names are read; and the names and lists of one
/// book's cards. What the writer holds back is the caller's to flush.
///
/// # Errors
///
/// `Store` where the Office could not be read or memory was refused. `Write` where a write failed or took nothing. What
/// was written is then a beginning of the text without the end of its last line.
pub fn dump<K: Keeper, W: Write>(
    alloc: Global,
    keeper: &mut K,
    writer: &mut W,
) -> Result<(), DumpFault>
    ensures { Dumps (K.standing keeper.old) (K.standing keeper.new) (W.contents writer.old)
        (W.contents writer.new) result }
{
    let mut count = 0;
    write_lines(alloc, keeper, writer, &mut count)?;
    put_last(alloc, writer, count)
}

/// The text of a line, if there is one. An error is want of memory.
fn shown(alloc: Global, line: &Option<Line>) -> Result<Option<Text>, AllocError>
    ensures { IfOk result (λ text. text ≡ option_map line_text line.now) }
{
    match line {
        Some(line) => Ok(Some(Text::from_string(line_string(alloc, line)?))),
        None => Ok(None),
    }
}

/// The line of the resource at a path, as `dump` writes it, with its line feed; none where none is mapped. An error is want
/// of memory or a failure of the store. The Office is as it was.
pub fn show<K: Keeper>(
    alloc: Global,
    keeper: &mut K,
    path: &Path,
) -> Result<Option<Text>, StoreFault>
    ensures { Reads (K.standing keeper.old) (K.standing keeper.new) result
        (λ o text. text ≡ option_map line_text (line_at o path.now)) }
{
    let line = read_line(alloc, keeper, path)?;
    let told = shown(alloc, &line);
    drop(line);
    Ok(told?)
}
