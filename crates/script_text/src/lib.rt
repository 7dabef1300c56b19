// The text of a script, by docs/SCRIPT.md: lines held as their bytes come in, verbs, fields and lists read from a line, and
// answers written. It knows names and registers and no meter; `script_calls` makes the calls.
#![tactic(auto)]

pub mod answer;
pub mod fields;
pub mod lines;
pub mod lists;
pub mod verbs;
