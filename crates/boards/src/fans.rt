// The fans that a set of failed boards takes with it. A set of boards is a word, as a state is: bit b - 1 is one where
// board b is in it.
ghost use Rattle.std.specs.Prelude.{cond, true, ◌≡◌, ◌≤◌, length, get_or, take};
ghost use Rattle.rules.specs.Boards.{board_down, behind};
ghost use Rattle.rules.specs.Refusal.{most, most_boards};
ghost use Rattle.boards.specs.Combining.{Behind, Felt};

use rules::limit::FANS;

// Has the board of that number failed? 0 is none.
fn board_down(out: usize, board: u8) -> bool
    requires { board ≤ most_boards }
    ensures { result ≡ board_down out board }
{
    match board {
        0 => false,
        1 => out % 2 == 1,
        2 => out / 2 % 2 == 1,
        3 => out / 4 % 2 == 1,
        _ => out / 8 % 2 == 1,
    }
}

// The board of the fan at a place; none where the list has no number for it.
fn board_of(boards: &[u8], i: usize) -> u8
    ensures { result ≡ get_or boards.now i 0 }
{
    boards.get(i).copied().unwrap_or(0)
}

// The set that has one board.
fn only(board: u8) -> usize
    requires { board ≤ most_boards }
    ensures { 1 ≤ board → board_down result board ≡ true }
{
    match board {
        0 => 0,
        1 => 1,
        2 => 2,
        3 => 4,
        _ => 8,
    }
}

// The boards that some fan is on.
pub fn felt(boards: &[u8]) -> usize
    requires { Behind boards.now }
    ensures { Felt boards.now result }
{
    let mut set: usize = 0;
    for board in boards {
        set |= only(*board);
    }
    set
}

// What is left of a fan's survival number.
fn left(p: u32, lost: bool) -> u32
    ensures { result ≡ cond lost 0 p }
{
    if lost { 0 } else { p }
}

// A copy of the survival numbers with those of the fans on failed boards 0, and zeros behind them.
pub fn behind(survival: &[u32], boards: &[u8], out: usize) -> [u32; FANS]
    requires few { length survival.now ≤ most }
    requires placed { Behind boards.now }
    ensures front { let all = survival.now in
        take (length all) result ≡ behind boards.now out all }
{
    let mut numbers = [0u32; FANS];
    for (i, p) in survival.iter().enumerate() {
        let lost = board_down(out, board_of(boards, i));
        numbers[i] = left(*p, lost);
    }
    numbers
}
