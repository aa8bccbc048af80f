// Document 01's memory table as code: for each shape of memory a struct, what it becomes on a working and on a failed
// component, and whether it works at the end. A number at the rule's limit is dead; nothing here asks for the kind.
#![tactic(auto)]

pub mod owed; // owed.rt: rows 6 and 7
pub mod pattern; // pattern.rt: row 8
pub mod run; // run.rt: rows 4 and 5
pub mod sum; // sum.rt: rows 1 to 3
