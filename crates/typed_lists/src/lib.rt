// What the lines of a typed text list, held in arrays: its fans, its systems, and the faults told into a lent buffer.
#![tactic(auto)]

pub mod fans; // fans.rt: the fans
pub mod listed; // listed.rt: the systems
pub mod told; // told.rt: the faults
