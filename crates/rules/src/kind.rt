// Document 01, "The seven verdicts", and kind 8 of request 05: a rule's kind, by what makes the system fail.

// "at least k components have failed"
pub const NUMBER: u64 = 1;

// "the failed components' weights add up to k or more"
pub const WEIGHT: u64 = 2;

// "the number failed is at least l and at most h"
pub const BETWEEN: u64 = 3;

// "some k components in a row, on the line, have all failed"
pub const ROW: u64 = 4;

// "the same on the ring, n followed by 1"
pub const ROW_ROUND: u64 = 5;

// Since request 03: "two failed components' numbers differ by less than r"
pub const NEAR: u64 = 6;

// "some r components in a row .. hold two or more failed ones", on the ring
pub const NEAR_ROUND: u64 = 7;

// "some r in a row hold fewer than k working"
pub const LACKING: u64 = 8;

// "kinds not 1..8" are refused.
pub const LAST: u64 = 8;
