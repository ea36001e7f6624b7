//! The numbers of a book's last changes.

ghost use Rattle.std.specs.Prelude.{◌≡◌, ◌<◌, IfOk, OnOk};
ghost use Rattle.std.specs.FinMap.{empty, insert};
ghost use Rattle.book_office_copies.specs.Copies.{lasts_in, numbered};

use book_lists::Name;
use book_office::Changed;
use book_office_values::Changes;
use std::alloc::{AllocError, Global};

/// A change of a name that takes this number. Numbers below it that no name has stay taken. An error is want of memory.
fn touch_at(numbers: &mut Changes, name: &Name, number: u64) -> Result<(), AllocError>
    requires { numbers.old.number < number }
    ensures { OnOk result (numbers.new ≡ numbered number
        (insert numbers.old.last name.now number)) }
{
    numbers.raise(number - 1);
    numbers.touch(name)
}

/// Enters a last change. Numbers that were given to changes before it, and are no last change of any name, stay taken. An
/// error is want of memory, or that its number is not above those before it.
fn add_change(numbers: &mut Changes, change: &Changed) -> Result<(), AllocError>
    ensures { OnOk result (numbers.new.last ≡ insert numbers.old.last change.now.name
        change.now.number) }
{
    if change.number <= numbers.number() {
        return Err(AllocError);
    }
    touch_at(numbers, &change.name, change.number)
}

/// Enters last changes, in order of number.
fn add_changes(numbers: &mut Changes, changes: &[Changed]) -> Result<(), AllocError>
    ensures { OnOk result (numbers.new.last ≡ lasts_in numbers.old.last changes.now) }
{
    for change in changes {
        add_change(numbers, change)?;
    }
    Ok(())
}

/// The numbers of a book whose last change has this number, and in which names have these last changes, in order of
/// number. An error is want of memory, or that the numbers of the changes do not rise or go beyond the book's.
pub(crate) fn numbers_of(
    alloc: Global,
    number: u64,
    changes: &[Changed],
) -> Result<Changes, AllocError>
    ensures { IfOk result (λ numbers. numbers ≡ numbered number (lasts_in empty changes.now)) }
{
    let mut numbers = Changes::new(alloc);
    add_changes(&mut numbers, changes)?;
    if numbers.number() > number {
        return Err(AllocError);
    }
    numbers.raise(number);
    Ok(numbers)
}
