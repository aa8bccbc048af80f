// What can be told only at a text's end: what it lacks, and its fans on boards that are not there.
ghost use Rattle.std.specs.Prelude.{[], ◌∷◌, ◌<◌, take};
ghost use Rattle.text.specs.Decimal.{decimal};
ghost use Rattle.grammar.specs.Text.{fault_at, no_such_board, missing, unplaced};
ghost use Rattle.typed_lists.specs.Lists.{Lined};
ghost use Rattle.listing.specs.Holds.{most_lines};
ghost use Rattle.typed_lists.specs.Told.{Roomy, MoreTold};
ghost use Rattle.listing.specs.Ending.{PassedFan};

use typed_lists::fans::Fans;
use typed_lists::told;
use typed_lists::told::Told;

const NO_SUCH_BOARD: u64 = 136;

// Room for a number.
const DIGITS: usize = 20;

// What a text lacks, told with the line after its last.
pub fn missing(before: Told, lines: u64, lacks: bool, wanted: u64, out: &mut [u8]) -> Told
    requires { Roomy before out.old × (lines < most_lines) }
    ensures { MoreTold before out.old result out.new (missing lines lacks wanted) }
{
    if !lacks {
        return before;
    }
    told::plus(before, lines + 1, b"", wanted, 0, out)
}

// A fan on a board that is not there.
fn tell_board(before: Told, line: u64, board: u8, g: usize, out: &mut [u8]) -> Told
    requires { Roomy before out.old }
    ensures { MoreTold before out.old result out.new
        (fault_at line (decimal board) no_such_board g ∷ []) }
{
    let mut word = [0u8; DIGITS];
    let end = text::put_number(&mut word, 0, board as u64);
    told::plus(before, line, &word[..end], NO_SUCH_BOARD, g as u64, out)
}

// What was told, and for which line last.
#[derive(Clone, Copy)]
struct ToldLast {
    told: Told,
    line: u64,
}

// One fan passed: told where its board is not there, once for each line.
fn pass(before: ToldLast, line: u64, board: u8, g: usize, out: &mut [u8]) -> ToldLast
    requires { Roomy before.told out.old }
    ensures { PassedFan before out.old result out.new g line board }
{
    if board as usize <= g {
        return before;
    }
    if line == before.line {
        return before;
    }
    let so_far = before.told;
    let after = tell_board(so_far, line, board, g, out);
    ToldLast { told: after, line }
}

// All fans on boards that are not there.
pub fn unplaced(before: Told, fans: Fans, g: usize, out: &mut [u8]) -> Told
    requires { Roomy before out.old × Lined fans }
    ensures { MoreTold before out.old result out.new
        (unplaced g 0 (take fans.count fans.boards) (take fans.count fans.lines)) }
{
    let boards = fans.boards;
    let lines = fans.lines;
    let mut passed = ToldLast {
        told: before,
        line: 0,
    };
    for i in 0..fans.count {
        passed = pass(passed, lines[i], boards[i], g, out);
    }
    passed.told
}
