//! The Offices before and after an edit or a round as texts.

use crate::offices::office_text;
use crate::stops::cases::START;
use crate::stops::deeds::Deed;
use crate::stops::plans::Plan;
use anyhow::{Context, Result, ensure};
use book_office::{Keeper, MemoryKeeper, Rounds};
use std::alloc::Global;

/// The Office before an edit and after it.
#[derive(Drop)]
pub(crate) struct Texts {
    pub(crate) before: String,
    pub(crate) after: String,
}

/// Makes an edit.
fn act<K: Keeper>(alloc: Global, keeper: &mut K, plan: Plan) -> Result<()> {
    let edit = plan.edit(alloc)?;
    let made = keeper.act(alloc, &edit).ok();
    drop(edit);
    made.context("an edit")
}

/// Makes the Office at the start of an empty one.
pub(crate) fn make_start<K: Keeper>(alloc: Global, keeper: &mut K) -> Result<()> {
    for plan in START {
        act(alloc, keeper, plan)?;
    }
    Ok(())
}

/// The Office at the start and the one after an edit, as a keeper of an empty one tells them.
fn texts_by<K: Rounds>(alloc: Global, keeper: &mut K, deed: &Deed) -> Result<Texts> {
    make_start(alloc, keeper)?;
    let before = office_text(alloc, keeper)?;
    ensure!(deed.is_done(alloc, keeper), "an edit");
    let after = office_text(alloc, keeper)?;
    Ok(Texts { before, after })
}

/// The Office at the start and the one after an edit, as a keeper in memory tells them.
pub(crate) fn wanted_texts(alloc: Global, deed: &Deed) -> Result<Texts> {
    let mut keeper = MemoryKeeper::new(alloc);
    let texts = texts_by(alloc, &mut keeper, deed);
    drop(keeper);
    texts
}
