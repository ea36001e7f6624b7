//! The lines of replies to edits, made before the edits: after an edit no memory is asked for.

ghost use Rattle.std.specs.Prelude.{◌≡◌, IfOk, IfSome, Some, option_copied};
ghost use Rattle.book_machine.specs.declared.messages.Content.TheVariants as content;
ghost use Rattle.book_log_replies.specs.declared.replies.Effect.{Effect as EffectOf};
ghost use Rattle.book_log_service.specs.Drafts.{AreDrafts, IsOfDrafts};
ghost use Rattle.book_log_service.specs.Foreseeing.{foreseen};
ghost use Rattle.book_office.specs.Keeping.{Reads};

use crate::foreseeing::foreseen;
use crate::texts::edit_texts;
use book_log_lines::Time;
use book_log_replies::Effect;
use book_machine::{Reply, Request};
use book_office::{Keeper, StoreFault};
use book_office_values::Items;
use book_rights::Method;
use std::alloc::{AllocError, Global};

/// The line of a request, where its reply has no content and this status.
#[derive(Drop)]
pub(crate) struct Draft {
    /// The status.
    pub(crate) status: u16,
    /// The text of the line.
    pub(crate) text: Items<u8>,
}

/// The lines of a request, where its reply has no content and one of two statuses.
#[derive(Drop)]
pub(crate) struct Drafts {
    /// The one.
    pub(crate) first: Draft,
    /// The other.
    pub(crate) second: Draft,
}

/// The statuses with which an edit by the method is answered (RFC 9110, sections 9.3.4 and 9.3.5; RFC 4918, sections
/// 9.2, 9.3, 9.8.5 and 9.9.4; RFC 3744, section 8.1); none where the method edits nothing.
fn edit_statuses(method: Method) -> Option<(u16, u16)> {
    match method {
        Method::Put | Method::Copy | Method::Move | Method::Mkcol | Method::Delete => Some((
            201, 204,
        )),
        Method::Proppatch | Method::Acl => Some((200, 204)),
        Method::Get | Method::Head | Method::Options | Method::Propfind | Method::Report => None,
    }
}

/// The lines of a request whose method edits, of what its edit is to do. An error is want of memory.
fn drafts_with(
    alloc: Global,
    time: &Time,
    connection: u64,
    name: Option<&str>,
    request: &Request,
    effect: Effect,
    first: u16,
    second: u16,
) -> Result<Drafts, AllocError>
    ensures { IfOk result (λ drafts. AreDrafts (option_copied name.entry) request.now effect
        (Some drafts)) }
{
    let texts = edit_texts(
        alloc, time, connection, name, request, effect, first, second,
    )?;
    Ok(Drafts {
        first: Draft {
            status: first,
            text: texts.0,
        },
        second: Draft {
            status: second,
            text: texts.1,
        },
    })
}

/// The lines of a request whose method edits, of what its edit is to do. The keeper is asked for that.
pub(crate) fn drafts_of<K: Keeper>(
    keeper: &mut K,
    alloc: Global,
    time: &Time,
    connection: u64,
    name: Option<&str>,
    request: &Request,
) -> Result<Option<Drafts>, StoreFault>
    ensures foreseen { Reads (K.standing keeper.old) (K.standing keeper.new) result
        (λ o drafts. AreDrafts (option_copied name.entry) request.now (foreseen o request.now)
        drafts) }
    ensures drafts { IfOk result (λ drafts. (effect : EffectOf)
        × AreDrafts (option_copied name.entry) request.now effect drafts) }
{
    let Some((first, second)) = edit_statuses(request.method) else {
        return Ok(None);
    };
    let effect = foreseen(keeper, alloc, request)?;
    let drafts = drafts_with(
        alloc, time, connection, name, request, effect, first, second,
    )?;
    Ok(Some(drafts))
}

/// The line of that reply, which has no content, if there is one of its status. Takes no memory.
pub(crate) fn drafted(drafts: Option<Drafts>, reply: &Reply) -> Option<Items<u8>>
    requires empty { reply.now.content ≡ content.Empty }
    ensures { IfSome result (λ text. IsOfDrafts drafts reply.now text) }
{
    let Some(Drafts { first, second }) = drafts else {
        return None;
    };
    if first.status == reply.status {
        return Some(first.text);
    }
    if second.status == reply.status {
        return Some(second.text);
    }
    None
}
