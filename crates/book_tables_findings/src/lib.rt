//! What is at fault in the tables of a store: the first row that breaks a rule of a sound Office, by the name that tells
//! it, and the rule.
//!
//! It stands on `book_tables_opening`, whose tests tell of one row, or of one limit, whether a condition of
//! `AreOfficeRows` is met. The crate above uses that `find_broken` finds nothing exactly where the rows are those of a
//! sound Office (`TellsStanding`, which `is_office` has), that what it finds is so (`BreaksIn`), that `examine` tells
//! the same of a store as a connection last committed it (`TellsFaultOf`), and that `fault_line` tells it as a line
//! (`fault_text`).
//!
//! Read `specs/Findings` first: `BreaksNode` and its neighbours say what each rule is, and `IsFirst` which row is told;
//! then `specs/Examining`. Of the code, `findings` names rules and findings, `names` the rows, each `.._rules` asks the
//! rules of one row, in order, `limit_rules` what is counted, `texts` the texts of cards, `finding` joins them, and
//! `examining` looks at a store.
#![tactic(auto)]

mod entry_rules;
mod examining;
mod faults;
mod finding;
mod findings;
mod gone_rules;
mod limit_rules;
mod lines;
mod member_rules;
mod names;
mod node_rules;
mod texts;

pub use examining::examine;
pub use faults::Fault;
pub use finding::find_broken;
pub use findings::{EntryRule, Finding, GoneRule, Home, Limit, MemberRule, NodeRule};
pub use lines::{fault_line, finding_line};
