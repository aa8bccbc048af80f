// Request 11: which versions have boards, what is read of their lists, and refusals 20 and 21.
#![tactic(auto)]

ghost use Rattle.std.specs.Prelude.{true, ◌≡◌, ◌-◌, ◌≤◌, length, take, drop};
ghost use Rattle.rules.specs.Boards.{has_boards, boards_read};
ghost use Rattle.rules.specs.Refusal.{some_above, bad_boards, misplaced, refusal_in};
ghost use Rattle.board_lists.specs.Refused.{boards_refusal};

use refusals::outside;
use rules::limit;
use rules::refusal::Refusal;

// The most boards of a deck.
const MOST: u64 = limit::BOARDS as u64;

// Does a version have boards?
pub fn has_boards(version: u64) -> bool
    ensures { result ≡ has_boards version }
{
    version == rules::version::BOARDED
}

// Refusal 20.
pub fn boards_out(version: u64, g: u64) -> bool
    ensures { result ≡ bad_boards version g }
{
    if has_boards(version) {
        return outside(1, g, MOST);
    }
    false
}

// Is a fan on a board that there is not?
fn some_above(g: u64, boards: &[u8]) -> bool
    ensures { result ≡ some_above g boards.now }
{
    boards.iter().any(|board| g < u64::from(*board))
}

// Refusal 21, of n fans of which those from place `from` up to `upto` are rated.
pub fn misplaced(version: u64, n: usize, g: u64, boards: &[u8], from: usize, upto: usize) -> bool
    requires { (from ≤ upto) × (upto ≤ n) }
    ensures { let placed = boards.now in
        result ≡ misplaced version n g placed (take (upto - from) (drop from placed)) }
{
    if has_boards(version) {
        if boards.len() != n {
            return true;
        }
        return some_above(g, &boards[from..upto]);
    }
    false
}

// Refusals 20 and 21, in that order; a version without boards has neither.
pub fn refusal(
    version: u64,
    n: usize,
    g: u64,
    boards: &[u8],
    from: usize,
    upto: usize,
) -> Result<(), Refusal>
    requires { (from ≤ upto) × (upto ≤ n) }
    ensures { let placed = boards.now in
        refusal_in result ≡ boards_refusal version n g placed (take (upto - from) (drop from placed)) }
{
    if !has_boards(version) {
        return Ok(());
    }
    if boards_out(version, g) {
        return Err(Refusal::Boards);
    }
    if misplaced(version, n, g, boards, from, upto) {
        return Err(Refusal::Board);
    }
    Ok(())
}

// What is read of the board numbers of the fans from place `from` up to `upto`: nothing where the version has no
// boards.
pub fn boards_read(version: u64, boards: &[u8], from: usize, upto: usize) -> &[u8]
    requires { (from ≤ upto) × (has_boards version ≡ true → upto ≤ length boards.now) }
    ensures { result.now ≡ boards_read version (take (upto - from) (drop from boards.now)) }
{
    if has_boards(version) {
        return &boards[from..upto];
    }
    &boards[0..0]
}

// And of the boards' survival numbers.
pub fn numbers_read(version: u64, numbers: &[u32]) -> &[u32]
    ensures { result.now ≡ boards_read version numbers.now }
{
    if has_boards(version) {
        return numbers;
    }
    &numbers[0..0]
}
