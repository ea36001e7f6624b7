//! The last change of each name of a book, found by name and in order of number.

ghost use Rattle.std.specs.Prelude.{◌≡◌, ◌+◌, ◌^◌, ◌<◌, None, filter, is_some, IfOk, OnOk, OnErr};
ghost use Rattle.std.specs.FinMap.{empty, get, insert, len, remove};
ghost use Rattle.book_office_values.specs.Changes.{Change, touched, raised, changes_after, first_of, left, put_back, AreNumbers};

use crate::collections::items::Items;
use crate::collections::name_maps::NameMap;
use crate::collections::number_maps::NumberMap;
use book_lists::Name;
use std::alloc::{AllocError, Global};
use std::marker::Model;

/// The numbers of a book's changes: each change takes the next number.
#[derive(Debug, Drop)]
pub struct Numbers {
    /// The number of the last change; 0 at first.
    pub number: u64,
    /// The number of the last change of each name that was ever there, whether it still is or was removed.
    pub last: NameMap<u64>,
}

/// The last change of each name of a book, seen as the numbers of these changes (own profile). A sync report
/// (RFC 6578, section 3) lists those above a number.
#[derive(Debug, Drop)]
pub struct Changes {
    numbers: Numbers,
    names: NumberMap,
}

impl Model for Changes {
    ghost use Rattle.book_office_values.specs.declared.collections.changes.Numbers.{Numbers};
    ghost use Rattle.book_office_values.specs.contracts.collections.changes.Numbers as numbers_type;
    ghost use Rattle.book_office_values.specs.Changes.{AreIndexed};

    ghost Value = { Numbers };

    ghost coded = { numbers_type.the_row.coded };

    ghost view = { λ c. c.numbers };

    ghost invariant = { λ c. AreIndexed c.numbers c.names };
}

impl Changes {
    /// No changes. Takes no memory until a name is touched.
    pub fn new(alloc: Global) -> Changes
        ensures { result ≡ record { number = 0; last = empty } }
    {
        Changes {
            numbers: Numbers {
                number: 0,
                last: NameMap::new(alloc),
            },
            names: NumberMap::new(alloc),
        }
    }

    /// The number of the last change; 0 where there was none. Takes no memory.
    pub fn number(&self) -> u64
        ensures { result ≡ self.now.number }
    {
        self.numbers.number
    }

    /// The number of the last change of a name, at least 1; none where the name was never there. Takes no memory.
    pub fn get(&self, name: &Name) -> Option<u64>
        ensures { result ≡ get self.now.last name.now }
    {
        self.numbers.last.get(name).copied()
    }

    /// A change of a name, which takes the next number. An error is want of memory; the changes then stay as they were.
    ///
    /// Numbers are below 2^64. An Office refuses edits at the number 2^53 - 1 (own profile), so that its books always have
    /// a next one.
    pub fn touch(&mut self, name: &Name) -> Result<(), AllocError>
        requires { self.old.number + 1 < 2 ^ 64 }
        ensures ok { OnOk result (self.new ≡ touched self.old name.now) }
        ensures err { OnErr result (self.new ≡ self.old) }
    {
        let before = enter(&mut self.numbers, &mut self.names, name)?;
        self.names.remove(before);
        Ok(())
    }

    /// A change of one name and then of another, which take the next two numbers. An error is want of memory; the changes
    /// then stay as they were.
    pub fn touch_both(&mut self, name: &Name, other: &Name) -> Result<(), AllocError>
        requires { self.old.number + 2 < 2 ^ 64 }
        ensures ok { OnOk result (self.new ≡ touched (touched self.old name.now) other.now) }
        ensures err { OnErr result (self.new ≡ self.old) }
    {
        let before = enter(&mut self.numbers, &mut self.names, name)?;
        match enter(&mut self.numbers, &mut self.names, other) {
            Ok(before_other) => {
                self.names.remove(before);
                self.names.remove(before_other);
                Ok(())
            }
            Err(error) => {
                leave(&mut self.numbers, &mut self.names, name, before);
                Err(error)
            }
        }
    }

    /// A change of a name here, and of a name there. An error is want of memory; the changes of both then stay as they
    /// were.
    pub fn touch_with(
        &mut self,
        name: &Name,
        there: &mut Changes,
        other: &Name,
    ) -> Result<(), AllocError>
        requires here { self.old.number + 1 < 2 ^ 64 }
        requires there { there.old.number + 1 < 2 ^ 64 }
        ensures ok { OnOk result (self.new ≡ touched self.old name.now) }
        ensures ok_there { OnOk result (there.new ≡ touched there.old other.now) }
        ensures err { OnErr result (self.new ≡ self.old) }
        ensures err_there { OnErr result (there.new ≡ there.old) }
    {
        let before = enter(&mut self.numbers, &mut self.names, name)?;
        match enter(&mut there.numbers, &mut there.names, other) {
            Ok(before_other) => {
                self.names.remove(before);
                there.names.remove(before_other);
                Ok(())
            }
            Err(error) => {
                leave(&mut self.numbers, &mut self.names, name, before);
                Err(error)
            }
        }
    }

    /// Raises the number of the last change to this one, if it is above: as if names that nothing knows of any more had
    /// changed meanwhile. No name's last change is another. Takes no memory.
    pub fn raise(&mut self, number: u64)
        ensures { self.new ≡ raised self.old number }
    {
        self.numbers.number = self.numbers.number.max(number);
    }

    /// Hands out the rule that the numbers of each book meet.
    pub fn known(&self)
        ensures { AreNumbers self.now }
    {
        let _ = &self.numbers;
    }

    /// How many names were ever there, those that were removed too. Takes no memory.
    pub(crate) fn len(&self) -> usize
        ensures { result ≡ len self.now.last }
    {
        self.numbers.last.len()
    }

    /// The last changes that have a number above the one given, in order of number: each number with its name. They
    /// are the first so many, and all where no most is given. An error is want of memory.
    ///
    /// It takes a look-up, and then a step for each change that it answers.
    pub fn after(
        &self,
        alloc: Global,
        number: u64,
        at_most: Option<u32>,
    ) -> Result<Items<(u64, Name)>, AllocError>
        ensures { IfOk result (λ changes. changes ≡ first_of at_most
            (changes_after self.now.last number)) }
    {
        self.names.after(alloc, number, at_most)
    }

    /// The first so many of these changes whose names a map has. An error is want of memory.
    ///
    /// It takes a look-up, and then one for each change up to the last that it answers.
    pub(crate) fn after_among<V>(
        &self,
        alloc: Global,
        number: u64,
        at_most: Option<u32>,
        names: &NameMap<V>,
    ) -> Result<Items<(u64, Name)>, AllocError>
        ensures { IfOk result (λ changes. changes ≡ first_of at_most
            (filter (λ (c : Change). is_some (get names.now c.1))
            (changes_after self.now.last number))) }
    {
        self.names.after_among(alloc, number, at_most, names)
    }
}

/// The same name once more.
fn copied(name: &Name) -> Result<Name, AllocError>
    ensures { IfOk result (λ copy. copy ≡ name.now) }
{
    name.clone()
}

/// Gives a name the next number, and answers the number that it had, under which the name still stands too.
fn enter(
    numbers: &mut Numbers,
    names: &mut NumberMap,
    name: &Name,
) -> Result<Option<u64>, AllocError>
    requires free { get names.old (numbers.old.number + 1) ≡ None }
    requires next { numbers.old.number + 1 < 2 ^ 64 }
    ensures numbers { OnOk result (numbers.new ≡ touched numbers.old name.now) }
    ensures names { OnOk result (names.new ≡ insert names.old (numbers.old.number + 1) name.now) }
    ensures before { IfOk result (λ before. before ≡ get numbers.old.last name.now) }
    ensures err { OnErr result (numbers.new ≡ numbers.old) }
    ensures err_names { OnErr result (names.new ≡ names.old) }
{
    let number = numbers.number + 1;
    let key = copied(name)?;
    names.insert(number, copied(name)?)?;
    match numbers.last.insert(key, number) {
        Ok(before) => {
            numbers.number = number;
            Ok(before)
        }
        Err(error) => {
            names.remove(Some(number));
            Err(error)
        }
    }
}

/// Takes back the last number of a name, which had this one before.
fn leave(numbers: &mut Numbers, names: &mut NumberMap, name: &Name, before: Option<u64>)
    requires { 0 < numbers.old.number }
    ensures numbers { numbers.new ≡ left numbers.old name.now before }
    ensures names { names.new ≡ remove names.old numbers.old.number }
{
    names.remove(Some(numbers.number));
    numbers.number -= 1;
    put_back(&mut numbers.last, name, before);
}

/// Gives a name the number that it had before.
fn put_back(last: &mut NameMap<u64>, name: &Name, before: Option<u64>)
    ensures { last.new ≡ put_back last.old name.now before }
{
    match before {
        None => {
            last.remove(name);
        }
        Some(number) => {
            if let Some(stands) = last.get_mut(name) {
                *stands = number;
            }
        }
    }
}
