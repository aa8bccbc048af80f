// A case of the figures or of a worth, all of it words of 64 bits: the call (1 the worth of a fan, else the figures),
// the version, kind, first, second, a, b, the fan, room, seed, the number of survival numbers, the survival numbers,
// the number of weights, the weights, how many numbers the further pairs have, these, the number of board numbers,
// these, the number of boards, their survival numbers.
#![tactic(auto)]

pub mod line; // line.rt: the line of its answer
pub mod size; // size.rt: how long it is

// Where a case has its call, version, rule, a, b, the fan, the cells of the table, the seed and the number of survival
// numbers.
pub const CALL: usize = 0;

pub const VERSION: usize = 1;

pub const RULE: usize = 2;

pub const A: usize = 5;

pub const B: usize = 6;

pub const FAN: usize = 7;

pub const CELLS: usize = 8;

pub const SEED: usize = 9;

pub const FANS: usize = 10;

// The words before the survival numbers; with the number of weights; with that of the further pairs' numbers; with that
// of the board numbers; and with the number of boards, all of a case beside its lists.
pub const HEAD: usize = 11;

pub const WEIGHED: usize = 12;

pub const PAIRED: usize = 13;

pub const PLACED: usize = 14;

pub const OTHERS: usize = 15;

// The cells of a table, at most.
pub const MOST_CELLS: usize = 8000;

// How many survival numbers, weights, numbers of further pairs, board numbers, boards, words and cells a case has, and
// whether it is whole.
#[derive(Clone, Copy)]
pub struct Sizes {
    pub fans: usize,
    pub weights: usize,
    pub more: usize,
    pub boards: usize,
    pub g: usize,
    pub long: usize,
    pub room: usize,
    pub whole: bool,
}
