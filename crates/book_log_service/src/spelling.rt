//! The line of a reply that has a content.

ghost use Rattle.std.specs.Prelude.{◌≡◌, ◌≢◌, Some, option_copied};
ghost use Rattle.book_log_replies.specs.Replies.{denial_in};
ghost use Rattle.book_log_service.specs.Spelling.{Spells};
ghost use Rattle.book_machine.specs.declared.messages.Content.TheVariants as content;

use crate::texts::reply_text;
use book_log_lines::Time;
use book_log_replies::denial_in;
use book_machine::{Denial, Reply, Request};
use book_office::{Keeper, StoreFault};
use book_office_values::Items;
use std::alloc::Global;

/// The line of a denial. The keeper is asked for the lists at its resource.
fn spelled_denial<K: Keeper>(
    keeper: &mut K,
    alloc: Global,
    time: &Time,
    connection: u64,
    name: Option<&str>,
    request: &Request,
    reply: &Reply,
    denial: &Denial,
) -> Result<Items<u8>, StoreFault>
    requires { denial_in reply.now.content ≡ Some denial.now }
    ensures { Spells (K.standing keeper.old) (K.standing keeper.new) (option_copied name.entry)
        request.now reply.now result }
{
    let lists = keeper.lists(alloc, &denial.resource)?;
    let levels = lists.levels.as_slice();
    let text = reply_text(alloc, time, connection, name, request, reply, levels);
    drop(lists);
    Ok(text?)
}

/// The line of a reply with a content. Where it is a denial, the keeper is asked for the lists at its resource.
pub(crate) fn spelled<K: Keeper>(
    keeper: &mut K,
    alloc: Global,
    time: &Time,
    connection: u64,
    name: Option<&str>,
    request: &Request,
    reply: &Reply,
) -> Result<Items<u8>, StoreFault>
    requires { reply.now.content ≢ content.Empty }
    ensures { Spells (K.standing keeper.old) (K.standing keeper.new) (option_copied name.entry)
        request.now reply.now result }
{
    match denial_in(reply) {
        Some(denial) => spelled_denial(
            keeper, alloc, time, connection, name, request, reply, denial,
        ),
        None => Ok(reply_text(alloc, time, connection, name, request, reply, &[])?),
    }
}
