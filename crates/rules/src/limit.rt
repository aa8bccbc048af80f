// The most and the least that the documents name, each once.

// "n .. above 64" is refused.
pub const FANS: usize = 64;

// "number of systems not 1..32"
pub const SYSTEMS: usize = 32;

// Request 11: "a deck has g boards, 1 to 4"
pub const BOARDS: usize = 4;

// "Weights are 0 or more, their total at most 120."
pub const WEIGHT: u64 = 120;

// "working table under 7,800 64-bit cells"
pub const CELLS: usize = 7800;

// Request 03: kinds 6 and 7 know "first 2" alone; "r from 2 to 64".
pub const NEAR: u64 = 2;

// Request 05: "1 <= k <= r <= 10"
pub const WINDOW: u64 = 10;

// "one to four pairs": beside the rule's own at most three, two numbers each
pub const MORE: usize = 6;

// Request 13: "at most 10,000 files are read"
pub const FILES: u64 = 10000;
