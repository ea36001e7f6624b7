//! Who sends requests: a caller who is not known, and each person.

use book_lists::{Caller, Name, Principal, Who};
use std::alloc::{AllocError, Global};

/// A caller, with the form of an entry that is for them alone.
#[derive(Drop)]
pub(crate) struct Sender {
    /// The bare name of the person; none of a caller who is not known.
    pub(crate) name: Option<Name>,
    /// The caller.
    pub(crate) caller: Caller,
    /// The form.
    pub(crate) form: Who,
}

impl Sender {
    /// A caller who is not known.
    pub(crate) fn nobody() -> Sender {
        Sender {
            name: None,
            caller: Caller::Nobody,
            form: Who::Unauthenticated,
        }
    }

    /// A person. An error is want of memory.
    pub(crate) fn person(alloc: Global, name: &Name) -> Result<Sender, AllocError> {
        let principal = Principal::person(alloc, name)?;
        let form = Who::Href(principal.clone()?);
        Ok(Sender {
            name: Some(name.clone()?),
            caller: Caller::Known(principal),
            form,
        })
    }

    /// A copy of the name, if there is one. An error is want of memory.
    pub(crate) fn copy_of_name(&self) -> Result<Option<Name>, AllocError> {
        match &self.name {
            Some(name) => Ok(Some(name.clone()?)),
            None => Ok(None),
        }
    }
}

/// A caller who is not known, and each of these persons. An error is want of memory.
pub(crate) fn senders_of(alloc: Global, persons: &[Name]) -> Result<Vec<Sender>, AllocError> {
    let mut senders = Vec::new(alloc);
    senders.push(Sender::nobody())?;
    for name in persons {
        senders.push(Sender::person(alloc, name)?)?;
    }
    Ok(senders)
}
