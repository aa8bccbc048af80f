// What is told of a system, put into a buffer: its rule, its chance, the fans that are worth most.
#![tactic(auto)]

pub mod best; // best.rt: the fans that are worth most
pub mod chance; // chance.rt: its chance, and the gap
pub mod fitted; // fitted.rt: texts that want their room beforehand
