//! Answers as objects, of the Office of `offices` and of the company of `departments`. The lists in force are written out in
//! `whys` and `everybody`.

use crate::checks::check_told;
use crate::questions_departments::company;
use crate::questions_offices::machine;
use book_machine::Machine;
use book_office::{Keeper, Path};
use book_questions::question_of;
use book_questions_json::{rights_objects, who_objects, why_objects};
use book_rights::Privilege;
use std::alloc::Global;
use std::process::Abort;

/// The caller, the method or the privilege, the path, and the answer; or the name of a refusal.
const WHYS: &[(Option<&str>, &str, &str, &str)] = &[
    (
        Some("bob"),
        "bind",
        "/books/sales",
        "{\"denied\":null}\n\
         {\"leaves\":[{\"entry\":{\"by\":[\"/people/bob\",\"/groups/staff\",\"/groups/crew\"],\"deny\":false,\
         \"from\":\"/books/sales\",\"invert\":false,\"number\":4,\"number-there\":1,\"privileges\":[\"bind\"],\
         \"protected\":false,\"who\":\"/groups/crew\"},\"grant\":true,\"privilege\":\"bind\"}],\
         \"privileges\":[\"bind\"],\"resource\":\"/books/sales\"}\n",
    ),
    // An inverted entry.
    (
        None,
        "x-read-names",
        "/books/sales/b.vcf",
        "{\"denied\":{\"number\":4,\"privilege\":\"x-read-names\",\"resource\":\"/books/sales/b.vcf\"}}\n\
         {\"leaves\":[{\"entry\":{\"by\":[],\"deny\":true,\"from\":\"/books/sales/b.vcf\",\"invert\":true,\"number\":4,\
         \"number-there\":1,\"privileges\":[\"read\"],\"protected\":false,\"who\":\"/groups/staff\"},\"grant\":false,\
         \"privilege\":\"x-read-names\"}],\"privileges\":[\"x-read-names\"],\"resource\":\"/books/sales/b.vcf\"}\n",
    ),
    // None decides it.
    (
        Some("bob"),
        "ACL",
        "/books/sales",
        "{\"denied\":{\"number\":null,\"privilege\":\"write-acl\",\"resource\":\"/books/sales\"}}\n\
         {\"leaves\":[{\"entry\":null,\"grant\":false,\"privilege\":\"write-acl\"}],\"privileges\":[\"write-acl\"],\
         \"resource\":\"/books/sales\"}\n",
    ),
    (Some("zoe"), "read", "/books/none", "unknown-caller"),
];

/// The privilege, the path, whether those are asked for to whom it is denied, and the answer; or the name of a refusal.
const WHO: &[(&str, &str, bool, &str)] = &[
    (
        "bind",
        "/books/sales",
        true,
        "{\"caller\":\"/people/gus\",\"leaves\":[{\"entry\":{\"by\":[],\"deny\":true,\"from\":\"/books\",\"invert\":false,\
         \"number\":2,\"number-there\":1,\"privileges\":[\"all\"],\"protected\":true,\"who\":\"/people/gus\"},\
         \"grant\":false,\"privilege\":\"bind\"}]}\n",
    ),
    ("read", "/books/none", false, "not-found"),
];

/// The name of the person, the path, whether shared cards alone are told, and the answer; or the name of a refusal.
const RIGHTS: &[(&str, &str, bool, &str)] = &[
    (
        "gus",
        "/books/sales",
        false,
        "{\"caller\":\"/people/gus\",\"cards\":1,\"path\":\"/books/sales/c.vcf\",\"privileges\":[\"read\"]}\n",
    ),
    (
        "finn",
        "/books/sales/d.vcf",
        false,
        "{\"caller\":\"/people/finn\",\"cards\":1,\"path\":\"/books/sales/d.vcf\",\
         \"privileges\":[\"read\",\"write-content\",\"bind\"]}\n",
    ),
    // Shared cards alone, of which finn is given none.
    ("finn", "/", true, ""),
    (
        "eve",
        "/books/board",
        false,
        "{\"caller\":\"/people/eve\",\"cards\":null,\"path\":\"/books/board\",\"privileges\":[\"read\",\"write\"]}\n",
    ),
    ("gus", "/books/none", false, "not-found"),
];

fn compare_whys<K: Keeper>(rt: &impl Abort, alloc: Global, machine: &mut Machine<K>) {
    for (name, word, path, wanted) in WHYS {
        let question = question_of(alloc, word, path, None).expect(rt, "memory");
        let question = question.expect(rt, "a method or a privilege");
        let told = why_objects(alloc, machine, *name, &question);
        check_told(rt, told, wanted);
    }
}

fn compare_who<K: Keeper>(rt: &impl Abort, alloc: Global, machine: &mut Machine<K>) {
    for (word, path, denied, wanted) in WHO {
        let privilege = Privilege::from_name(word).expect(rt, "a privilege");
        let path = Path::parse(alloc, path).ok();
        let told = who_objects(alloc, machine, privilege, &path, *denied);
        check_told(rt, told, wanted);
    }
}

fn compare_rights<K: Keeper>(rt: &impl Abort, alloc: Global, machine: &mut Machine<K>) {
    for (name, path, shared, wanted) in RIGHTS {
        let path = Path::parse(alloc, path).ok();
        let told = rights_objects(alloc, machine, Some(name), &path, *shared);
        check_told(rt, told, wanted);
    }
}

#[test]
fn answers_are_told_as_objects(rt: HostRuntime) {
    let alloc = rt.alloc();
    let mut machine = machine(&rt, alloc);
    compare_whys(&rt, alloc, &mut machine);
    compare_who(&rt, alloc, &mut machine);
    drop(machine);
    let mut company = company(&rt, alloc);
    compare_rights(&rt, alloc, &mut company);
    drop(company);
}
