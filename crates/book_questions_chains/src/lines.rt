//! Chains as lines of text.

ghost use Rattle.std.specs.Prelude.{◌≡◌, ◌++◌, OnOk, string_bytes};
ghost use Rattle.book_questions_chains.specs.Chains.{by_line, chain_line, chain_text};

use crate::applying::chain_by;
use crate::chains::Chain;
use book_lists::{Entry, Here, Principal};
use std::alloc::AllocError;

/// Adds the last of the members, and each before it up to the group.
fn push_chain_text(
    text: &mut String,
    group: &Principal,
    members: &[Principal],
) -> Result<(), AllocError>
    ensures { OnOk result (string_bytes text.new ≡ string_bytes text.old ++ chain_text group.now members.now) }
{
    let Some((member, others)) = members.split_first() else {
        return text.push_str(group.text());
    };
    push_chain_text(text, member, others)?;
    text.push_str(" in ")?;
    text.push_str(group.text())
}

/// Adds the line of a chain.
fn push_chain(text: &mut String, chain: &Chain) -> Result<(), AllocError>
    ensures { OnOk result (string_bytes text.new ≡ string_bytes text.old ++ chain_line chain.now) }
{
    let members = chain.members.as_slice();
    if members.is_empty() {
        return Ok(());
    }
    text.push_str("  by ")?;
    push_chain_text(text, &chain.group, members)?;
    text.push_str("\n")
}

/// Adds the line of the chain by which an entry applies, if there is one.
pub fn push_chain_by(
    text: &mut String,
    here: &Here,
    chains: &[Chain],
    entry: &Entry,
) -> Result<(), AllocError>
    ensures { OnOk result (string_bytes text.new ≡ string_bytes text.old ++ by_line here.now chains.now entry.now) }
{
    match chain_by(here, chains, entry) {
        Some(chain) => push_chain(text, chain),
        None => Ok(()),
    }
}
