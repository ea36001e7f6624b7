//! What is done to a machine, whatever keeps its Office.

use crate::pairs::requests::stream_of;
use crate::pairs::worked::Part;
use crate::policies::TWO_BOOKS;
use anyhow::{Context, Result, bail, ensure};
use book_machine::Machine;
use book_office::Keeper;
use book_policy::read_policy;
use book_wire::{Ended, serve_stream};
use std::alloc::Global;

/// What is done to a machine.
#[derive(Drop)]
pub(crate) enum Step {
    /// The policy with this text is adopted.
    Adopt(String),
    /// These requests are served as one stream (RFC 9112).
    Serve(String),
}

/// The steps of these parts, in turn.
pub(crate) fn steps_of(alloc: Global, parts: &[Part<'_>]) -> Result<Vec<Step>> {
    let mut steps = Vec::new(alloc);
    for part in parts {
        let (end, rows) = *part;
        steps.push(Step::Adopt(format!(in alloc; "{TWO_BOOKS}{end}")?))?;
        steps.push(Step::Serve(stream_of(alloc, rows)?))?;
    }
    Ok(steps)
}

/// What the machine replies to a stream.
pub(crate) fn replies_to<K: Keeper>(
    alloc: Global,
    machine: &mut Machine<K>,
    stream: &str,
) -> Result<String> {
    let mut reader = stream.as_bytes();
    let mut replies = Vec::new(alloc);
    let Ok(served) = serve_stream(alloc, machine, &mut reader, &mut replies) else {
        bail!("a stream is not served");
    };
    ensure!(
        served.ended == Ended::Clean,
        "a stream is not served to its end"
    );
    String::from_utf8(replies)
        .ok()
        .context("a reply is no text")
}

/// Adopts a policy, and tells what that did.
fn adopted<K: Keeper>(alloc: Global, machine: &mut Machine<K>, policy: &str) -> Result<String> {
    let Ok(policy) = read_policy(alloc, policy) else {
        bail!("a policy is faulty");
    };
    let adopted = machine.adopt(alloc, &policy);
    drop(policy);
    let Ok(adopted) = adopted else {
        bail!("a policy is not adopted");
    };
    let text = format!(in alloc; "changed {}, epoch {}\n", adopted.changed, adopted.epoch)?;
    Ok(text)
}

/// Takes the steps in turn, and answers all that is told.
pub(crate) fn run<K: Keeper>(
    alloc: Global,
    machine: &mut Machine<K>,
    steps: &[Step],
) -> Result<String> {
    let mut all = String::new(alloc);
    for step in steps {
        let told = match step {
            Step::Adopt(policy) => adopted(alloc, machine, policy.as_str())?,
            Step::Serve(stream) => replies_to(alloc, machine, stream.as_str())?,
        };
        all.push_str(told.as_str())?;
    }
    Ok(all)
}
