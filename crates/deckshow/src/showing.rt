// The lines that deckshow prints, put into a buffer.
ghost use Rattle.std.specs.Prelude.{◌+◌, ◌≤◌, ◌<◌, length};
ghost use Rattle.rules.specs.File.{deck_in};
ghost use Rattle.text.specs.Added.{Added};
ghost use Rattle.wording.specs.Lines.{board_room, fan_room, system_room};
ghost use Rattle.deck.specs.Outcome.{Headed, Placed};
ghost use Rattle.printing.specs.Lines.{print_text};
ghost use Rattle.printing.specs.Front.{WholePrinted};
ghost use Rattle.deckshow.specs.Lines.{board_line, boards_text, fan_line, fans_text, system_line, systems_text};
ghost use Rattle.deckshow.specs.Lines.{show_text};
ghost use Rattle.deckshow.specs.Lines.{boards_room, fans_room, systems_room, output_room};

use deck::Head;
use printing::INPUT;

// Room for all lines: 27 bytes for each of 4 boards, 77 for each of 64 fans, 138 for each of 32 systems, 29 for the
// version.
pub const OUTPUT: usize = 9481;

// The line of a file's board at a place, counted from 0.
fn put_board(file: &[u8], head: Head, i: usize, out: &mut [u8], at: usize) -> usize
    requires headed { Headed file.now head }
    requires place { i < head.boards }
    requires room { at + board_room ≤ length out.old }
    ensures { Added (board_line (deck_in file.now) i) out.old at out.new result }
{
    let parts = deck::board_survival_at(file, head, i);
    wording::put_board(parts, out, at)
}

// The lines of its boards.
fn put_boards(file: &[u8], head: Head, out: &mut [u8], at: usize) -> usize
    requires headed { Headed file.now head }
    requires room { at + boards_room ≤ length out.old }
    ensures { Added (boards_text (deck_in file.now)) out.old at out.new result }
{
    let mut end = at;
    for i in 0..head.boards {
        end = put_board(file, head, i, out, end);
    }
    end
}

// The line of its fan at a place, counted from 0.
fn put_fan(file: &[u8], head: Head, i: usize, out: &mut [u8], at: usize) -> usize
    requires headed { Headed file.now head }
    requires place { i < head.fans }
    requires room { at + fan_room ≤ length out.old }
    ensures { Added (fan_line (deck_in file.now) i) out.old at out.new result }
{
    let parts = deck::survival_at(file, head, i);
    let weight = deck::weight_at(file, head, i);
    let board = deck::board_at(file, head, i);
    wording::put_fan(parts, weight, board, out, at)
}

// The lines of its fans.
fn put_fans(file: &[u8], head: Head, out: &mut [u8], at: usize) -> usize
    requires headed { Headed file.now head }
    requires room { at + fans_room ≤ length out.old }
    ensures { Added (fans_text (deck_in file.now)) out.old at out.new result }
{
    let mut end = at;
    for i in 0..head.fans {
        end = put_fan(file, head, i, out, end);
    }
    end
}

// The line of its system at a place, counted from 0.
fn put_system(file: &[u8], head: Head, s: usize, out: &mut [u8], at: usize) -> usize
    requires placed { Placed file.now head s }
    requires room { at + system_room ≤ length out.old }
    ensures { Added (system_line (deck_in file.now) s) out.old at out.new result }
{
    let system = deck::system_in(file, head, s);
    let rule = system.rule;
    wording::put_system(
        head.fans as u64,
        rule.kind,
        rule.first,
        rule.second,
        system.a,
        system.b,
        out,
        at,
    )
}

// The lines of its systems.
fn put_systems(file: &[u8], head: Head, out: &mut [u8], at: usize) -> usize
    requires headed { Headed file.now head }
    requires room { at + systems_room ≤ length out.old }
    ensures { Added (systems_text (deck_in file.now)) out.old at out.new result }
{
    let mut end = at;
    for s in 0..head.systems {
        end = put_system(file, head, s, out, end);
    }
    end
}

// All lines of its deck.
fn put_deck(file: &[u8], head: Head, out: &mut [u8]) -> usize
    requires headed { Headed file.now head }
    requires room { output_room ≤ length out.old }
    ensures { Added (show_text file.now) out.old 0 out.new result }
{
    let version = wording::put_version(head.version, out, 0);
    let boards = put_boards(file, head, out, version);
    let fans = put_fans(file, head, out, boards);
    put_systems(file, head, out, fans)
}

// All that is printed for a file.
fn put_file(file: &[u8], out: &mut [u8]) -> usize
    requires { output_room ≤ length out.old }
    ensures { Added (print_text show_text file.now) out.old 0 out.new result }
{
    match deck::open(file) {
        Ok(head) => put_deck(file, head, out),
        Err(refused) => printing::put_refused_file(refused.number(), out),
    }
}

// All that is printed for an input, of which the buffer holds the front: all of it, or as much as the buffer takes.
pub fn show_front(input: &[u8; INPUT], filled: usize, out: &mut [u8]) -> usize
    requires within { filled ≤ length input.now }
    requires room { output_room ≤ length out.old }
    ensures { WholePrinted show_text input.now filled out.new result }
{
    put_file(printing::front_of(input, filled), out)
}
