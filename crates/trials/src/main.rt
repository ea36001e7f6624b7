//! Trials of what no contract says, over keepers and stores: `trials pairs` asks three keepers the same, `trials
//! faults [store] [memory]` lets a store fail and memory be refused, and `trials stops [KIND ..]` stops each kind of edit
//! of a store at each write. `trials echo REQUEST REPLY` serves an echo, for `tools/measure-waits`.
//!
//! Without a word it does what the gate runs: `WITHOUT_WORDS`. Each prints what it tried; the status is 1 where something is
//! wrong. They are one program, since each program is proved once more for what it drops. Read `pairs`, `faults` and `stops`,
//! which share `policies`, what is told of an Office (`offices`), and the files of a store in memory (`disks`).
#![tactic(auto)]

mod disks;
mod echo;
mod faults;
mod offices;
mod pairs;
mod policies;
mod stops;

use anyhow::Result;
use echo::echo;
use faults::try_faults;
use pairs::compare_all;
use std::alloc::Global;
use std::env;
use std::io::Write;
use std::process::ExitCode;
use stops::try_stops;

const WORDS: &str =
    "trials: the words are pairs, faults with store and memory, stops with the kinds of edits, or echo with two numbers\n";

const USAGE: u8 = 2;

/// What is done without a word.
const WITHOUT_WORDS: [&[&str]; 3] = [
    &["pairs"],
    &["faults", "store"],
    &["stops", "put-new", "put-over", "remove-card", "adopt-other"],
];

/// The number that a word spells, or 1.
fn number(word: Option<&&str>) -> usize {
    match word {
        Some(word) => word.parse::<usize>().unwrap_or(1),
        None => 1,
    }
}

/// Does what the first word names, with the words after it: whether nothing is wrong; none where it names nothing.
fn tried(rt: &HostRuntime, first: &str, others: &[&str]) -> Result<Option<bool>> {
    let is_right = match first {
        "pairs" => {
            compare_all(rt)?;
            true
        }
        "faults" => try_faults(rt, others),
        "stops" => try_stops(rt, others)?,
        "echo" => {
            echo(rt, number(others.get(0)), number(others.get(1)))?;
            true
        }
        _ => return Ok(None),
    };
    Ok(Some(is_right))
}

/// Does what is done without a word: whether nothing is wrong.
fn tried_without_words(rt: &HostRuntime) -> Result<Option<bool>> {
    let mut is_right = true;
    for words in WITHOUT_WORDS {
        if let Some((first, others)) = words.split_first() {
            is_right = tried(rt, first, others)? == Some(true) && is_right;
        }
    }
    Ok(Some(is_right))
}

/// The words as texts.
fn texts(alloc: Global, words: &[String]) -> Result<Vec<&str>> {
    let mut texts = Vec::new(alloc);
    for word in words {
        texts.push(word.as_str())?;
    }
    Ok(texts)
}

/// Does what the words name.
fn tried_by(rt: &HostRuntime, words: &[String]) -> Result<Option<bool>> {
    let texts = texts(rt.alloc(), words)?;
    match texts.as_slice().split_first() {
        Some((first, others)) => tried(rt, first, others),
        None => tried_without_words(rt),
    }
}

fn main(rt: HostRuntime) -> Result<ExitCode> {
    let words = env::args(&rt)?.skip(1).collect::<Vec<String>>(rt.alloc())?;
    match tried_by(&rt, words.as_slice())? {
        Some(true) => Ok(ExitCode::SUCCESS),
        Some(false) => Ok(ExitCode::FAILURE),
        None => {
            rt.stderr().write_all(WORDS.as_bytes())?;
            Ok(ExitCode::from(USAGE))
        }
    }
}
