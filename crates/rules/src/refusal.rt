// Document 01, "Refusal numbers", and those that the requests of document 02 add. Each is given when what stands above
// it holds.
ghost use Rattle.std.specs.Prelude.{◌≡◌};
ghost use Rattle.rules.specs.Refusal.{number};

// "kind not 1..7"; since request 05 "for kinds not 1..8"
pub const KIND: u64 = 1;

// "n (the list's length, or the n given to a verdict or count) 0 or above 64"
pub const SIZE: u64 = 2;

// "a = 0, b < a or b > n"; since request 02 of every figure
pub const STRETCH: u64 = 3;

// "a P read is above S"; since request 08 "against the file's unit", since request 11 "for any board's survival number
// too"
pub const SURVIVAL: u64 = 4;

// "kind 2: weights' length is not n, or the total over the components rated is above 120"; of the writer, request 01:
// "weights' length not n"
pub const WEIGHTS: u64 = 5;

// "first or second out of range (a stretch uses its own length)"
pub const RANGE: u64 = 6;

// "working table under 7,800 64-bit cells"
pub const TABLE: u64 = 7;

// "count table's room under n + 1 cells"
pub const COUNT_ROOM: u64 = 8;

// "verdict: a one above bit n - 1"
pub const STATE: u64 = 9;

// "deck file under 20 bytes"; request 11: "also for a version 3 file under 28 bytes"
pub const SHORT: u64 = 10;

// "version not 1, or the zero field not 0"; since request 11 "for versions not 1..3"
pub const VERSION: u64 = 11;

// "number of systems not 1..32"; of the writer, request 01: "a part system too"
pub const SYSTEMS: u64 = 12;

// "an offset or the file's length differs from the layout"
pub const LAYOUT: u64 = 13;

// "system number 0 or above the file's count"
pub const SYSTEM: u64 = 14;

// Request 05: "for a kind 8 count table"
pub const UNCOUNTED: u64 = 15;

// Requests 01 and 14: "room too short"
pub const ROOM: u64 = 16;

// Request 06: "fan number outside the stretch"
pub const FAN: u64 = 17;

// Request 10: "a NaN or a value outside 0..1"
pub const CHANCE: u64 = 18;

// Request 10: "kind 3 off the grid"
pub const GRID: u64 = 19;

// Request 11: "g outside 1..4"
pub const BOARDS: u64 = 20;

// Request 11: "a fan's board number above g (rating calls: a rated fan's) or a board list not n long"
pub const BOARD: u64 = 21;

// Request 14: "the file ends before its last system is whole"
pub const CUT: u64 = 22;

// A refusal by its name.
#[derive(Clone, Copy, PartialEq, Eq)]
pub enum Refusal {
    Kind,
    Size,
    Stretch,
    Survival,
    Weights,
    Range,
    Table,
    CountRoom,
    State,
    Short,
    Version,
    Systems,
    Layout,
    System,
    Uncounted,
    Room,
    Fan,
    Chance,
    Grid,
    Boards,
    Board,
    Cut,
}

impl Refusal {
    // The number that a call answers with.
    pub fn number(self) -> u64
        ensures { result ≡ number self }
    {
        match self {
            Refusal::Kind => KIND,
            Refusal::Size => SIZE,
            Refusal::Stretch => STRETCH,
            Refusal::Survival => SURVIVAL,
            Refusal::Weights => WEIGHTS,
            Refusal::Range => RANGE,
            Refusal::Table => TABLE,
            Refusal::CountRoom => COUNT_ROOM,
            Refusal::State => STATE,
            Refusal::Short => SHORT,
            Refusal::Version => VERSION,
            Refusal::Systems => SYSTEMS,
            Refusal::Layout => LAYOUT,
            Refusal::System => SYSTEM,
            Refusal::Uncounted => UNCOUNTED,
            Refusal::Room => ROOM,
            Refusal::Fan => FAN,
            Refusal::Chance => CHANCE,
            Refusal::Grid => GRID,
            Refusal::Boards => BOARDS,
            Refusal::Board => BOARD,
            Refusal::Cut => CUT,
        }
    }
}
