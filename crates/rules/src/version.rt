// The deck file's versions, and the unit that survival numbers are parts of in each.

// "version (2 bytes, 1)"
pub const FIRST: u64 = 1;

// Request 11: "Version 3 of the file .. adds a byte per fan and the boards' numbers"
pub const BOARDED: u64 = 3;

// "11 for versions not 1..3"
pub const LAST: u64 = 3;

// "S = 2^30", version 1's unit
pub const BINARY: u64 = 1073741824;

// Request 08: "parts per 1,000,000,000", the unit of the later versions
pub const DECIMAL: u64 = 1000000000;
