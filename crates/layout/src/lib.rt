// The layout of a deck file: where the header has each number, how long each part is and where it begins.
#![tactic(auto)]

pub mod number; // number.rt: numbers that bytes spell

ghost use Rattle.std.specs.Prelude.{◌≡◌, ◌^◌, ◌≤◌, ◌<◌};
ghost use Rattle.rules.specs.File.{header_length, board_fans, weights_offset, boards_offset, switchboards_offset};
ghost use Rattle.rules.specs.File.{systems_offset, file_length};

pub const VERSION_FIELD: usize = 0;

pub const ZERO_FIELD: usize = 2;

pub const FANS_FIELD: usize = 4;

pub const COUNT_FIELD: usize = 6;

pub const SURVIVAL_FIELD: usize = 8;

pub const WEIGHTS_FIELD: usize = 12;

pub const SYSTEMS_FIELD: usize = 16;

pub const BOARD_COUNT_FIELD: usize = 20;

pub const BOARDS_FIELD: usize = 24;

// The header's length: without boards, and with them.
pub const SHORTEST_HEADER: usize = 20;

const LONGER_HEADER: usize = 28;

pub const SURVIVAL_BYTES: usize = 4;

pub const WEIGHT_BYTES: usize = 2;

pub const BOARD_BYTES: usize = 1;

pub const SYSTEM_BYTES: usize = 10;

// How long the header is, which is where the survival numbers begin.
pub fn header_length(version: u64) -> usize
    ensures { (result ≡ header_length version) × (result < 2 ^ 16) }
{
    if board_lists::has_boards(version) {
        return LONGER_HEADER;
    }
    SHORTEST_HEADER
}

// Of how many of n fans a file has the board number.
pub fn board_fans(version: u64, n: usize) -> usize
    ensures { (result ≡ board_fans version n) × (result ≤ n) }
{
    if board_lists::has_boards(version) {
        return n;
    }
    0
}

// Where the weights of n fans begin.
pub fn weights_offset(version: u64, n: usize) -> usize
    requires { n < 2 ^ 16 }
    ensures { (result ≡ weights_offset version n) × (result < 2 ^ 20) }
{
    header_length(version) + SURVIVAL_BYTES * n
}

// Where their board numbers begin.
pub fn boards_offset(version: u64, n: usize) -> usize
    requires { n < 2 ^ 16 }
    ensures { (result ≡ boards_offset version n) × (result < 2 ^ 21) }
{
    weights_offset(version, n) + WEIGHT_BYTES * n
}

// Where the boards' survival numbers begin.
pub fn board_survival_offset(version: u64, n: usize) -> usize
    requires { n < 2 ^ 16 }
    ensures { (result ≡ switchboards_offset version n) × (result < 2 ^ 22) }
{
    boards_offset(version, n) + BOARD_BYTES * board_fans(version, n)
}

// Where the systems of a deck of n fans and g boards begin.
pub fn systems_offset(version: u64, n: usize, g: usize) -> usize
    requires { (n < 2 ^ 16) × (g < 2 ^ 32) }
    ensures { (result ≡ systems_offset version n g) × (result < 2 ^ 35) }
{
    board_survival_offset(version, n) + SURVIVAL_BYTES * g
}

// How long a file of n fans, g boards and m systems is.
pub fn file_length(version: u64, n: usize, g: usize, m: usize) -> usize
    requires { (n < 2 ^ 16) × (g < 2 ^ 32) × (m < 2 ^ 16) }
    ensures { result ≡ file_length version n g m }
{
    systems_offset(version, n, g) + SYSTEM_BYTES * m
}
