// Drawings of a system, put into a buffer: numbers in, SVG out.
#![tactic(auto)]

pub mod bars; // bars.rt: the worth of each fan
pub mod brackets; // brackets.rt: the rule's windows, on the row and on the ring
