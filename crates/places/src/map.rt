// The working table's map: which of its 7,800 cells (`rules::limit::CELLS`) hold what while a list is rated or counted.

// A value has a place: its low end stands in the cell of that number, its high end so many cells further. So there are
// as many places, from 0 on.
pub const FAR: usize = 1200;

// The places from 0 on are one side, those from here on the other: of sums and patterns the values with one component
// more. Of kinds 6 and 7 the memories that owe as many as are left stand here.
pub const HALF: usize = 600;

// Of kinds 6 and 7 the shares of the components' numbers, P's where a value has its low end and Q's where its high end.
pub const SHARES: usize = 900;

// Of kind 8, behind the places: 1 for each pattern that lives, and 0 for each other.
pub const MARKS: usize = 2400;

// The patterns of which the older one may fail too. A list begins with how many it holds.
pub const FREE: usize = 3000;

// Those of which the older one must work.
pub const SPLIT: usize = 3300;

// Those that must work themselves.
pub const BOUND: usize = 3600;

// And of these the ones whose older one is dead.
pub const ALONE: usize = 3900;

// Count tables of kinds 4 and 5: how far apart the rows of bins stand, from 0 on. A row of no bins has as many columns.
pub const BIN_ROW: usize = 66;

// Count tables of kind 2: how far apart the rows of sums stand, from 0 on. k is at most the heaviest total, and k
// itself is dead.
pub const SUM_ROW: usize = 120;
