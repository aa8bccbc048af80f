// A text that lists a deck, read line by line: its words, its numbers and its grammar.
#![tactic(auto)]

mod entries; // entries.rt: the grammar's table, number by number
pub mod line; // line.rt: one line from place to place
pub mod numbers; // numbers.rt: what a word is read as
pub mod table; // table.rt: what may follow what in a line
pub mod words; // words.rt: where a line's words stand
