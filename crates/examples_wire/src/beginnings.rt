//! Files to begin with, in a folder that takes so many: both are made, or none.

use crate::checks::{check_bytes, check_fact, check_text};
use book_desk_app::{Beginning, Folder, InitFault, Noting, begin};
use std::alloc::Global;
use std::process::Abort;

/// A folder, and how many files more it takes.
#[derive(Drop)]
struct Drawer {
    alloc: Global,
    files: Vec<(String, String)>,
    takes: u64,
}

impl Folder for Drawer {
    ghost use Rattle.std.specs.Prelude.{None};

    ghost files = { λ drawer. None };

    fn has(&self, name: &str) -> bool {
        self.files.iter().any(|file| file.0.as_str() == name)
    }

    fn make(&mut self, name: &str, text: &str) -> Result<(), InitFault> {
        if self.takes == 0 {
            return Err(InitFault::Write);
        }
        self.takes -= 1;
        let Ok(name) = String::from_str(self.alloc, name) else {
            return Err(InitFault::Write);
        };
        let Ok(text) = String::from_str(self.alloc, text) else {
            return Err(InitFault::Write);
        };
        match self.files.push((name, text)) {
            Ok(()) => Ok(()),
            Err(_) => Err(InitFault::Write),
        }
    }

    fn remove(&mut self, name: &str) {
        if self
            .files
            .last()
            .is_some_and(|file| file.0.as_str() == name)
        {
            self.files.pop();
        }
    }
}

/// The file that is there before; how many more are taken; the status; what is written, and what is told; and the files
/// afterwards, with what they hold.
type Row<'a> = (&'a str, u64, u8, &'a str, &'a str, &'a str);

const ROWS: &[Row<'static>] = &[
    ("", 2, 0, "next\n", "", "policy.toml P, gateway.toml S, "),
    (
        "notes",
        2,
        0,
        "next\n",
        "",
        "notes -, policy.toml P, gateway.toml S, ",
    ),
    ("policy.toml", 2, 1, "", "init: exists\n", "policy.toml -, "),
    (
        "gateway.toml",
        2,
        1,
        "",
        "init: exists\n",
        "gateway.toml -, ",
    ),
    ("", 1, 3, "", "init: write\n", ""),
    ("notes", 0, 3, "", "init: write\n", "notes -, "),
];

/// The files of a folder, as a text.
fn files_of(rt: &impl Abort, alloc: Global, drawer: &Drawer) -> String {
    let mut text = String::new(alloc);
    for file in &drawer.files {
        let entry = format!(in alloc; "{} {}, ", file.0, file.1).expect(rt, "memory");
        text.push_str(entry.as_str()).expect(rt, "memory");
    }
    text
}

/// Begins in the folder of a row.
fn check(rt: &(impl Abort + AllocGlobal), row: &Row<'_>) {
    let (there, takes, wanted, written, told, files) = *row;
    let alloc = rt.alloc();
    let mut drawer = Drawer {
        alloc,
        files: Vec::new(alloc),
        takes,
    };
    if !there.is_empty() {
        let name = String::from_str(alloc, there).expect(rt, "memory");
        let text = String::from_str(alloc, "-").expect(rt, "memory");
        drawer.files.push((name, text)).expect(rt, "memory");
    }
    let beginning = Beginning {
        policy: "P",
        settings: "S",
        next: "next\n",
    };
    let mut writer = Vec::new(alloc);
    let mut errors = Noting::new(Vec::new(alloc));
    let status = begin(&mut drawer, &beginning, &mut writer, &mut errors);
    check_fact(rt, status == wanted, "a status");
    check_bytes(rt, writer.as_slice(), written.as_bytes());
    check_bytes(rt, errors.into_inner().as_slice(), told.as_bytes());
    check_text(rt, files_of(rt, alloc, &drawer).as_str(), files);
}

#[test]
fn both_files_are_made_or_none(rt: HostRuntime) {
    for row in ROWS {
        check(&rt, row);
    }
}
