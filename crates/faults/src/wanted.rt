// What was wanted, by a fault's number: the words of a table, and the numbers that two of them end in.
ghost use Rattle.std.specs.Prelude.{◌≡◌, [], ◌+◌, ◌-◌, ◌≤◌, length, get_or};
ghost use Rattle.text.specs.Added.{Added};
ghost use Rattle.grammar.specs.Numbers.{off_grid};
ghost use Rattle.grammar.specs.Words.{lines_of};
ghost use Rattle.faults.specs.Wanted.{by_place, by_name, words_for, words_room, numbers_for, numbers_room, wanted_text};
ghost use Rattle.faults.specs.Wanted.{wanted_room};
ghost use Rattle.faults.specs.Lines.{LineAt};

use grammar::words::Span;
use text::lines;

const NEWLINE: u8 = 10;

// Faults by place are numbered from TAKEN on, those with a name from NO_BOARDS on.
const TAKEN: u64 = 64;

const NO_BOARDS: u64 = 128;

// The two that end in numbers.
const BETWEEN_PARTS: u64 = 129;

const NO_SUCH_BOARD: u64 = 136;

// A decimal between two parts is named as this and the lower of them.
const OFF_GRID: u64 = 4294967297;

// Where line k of a text stands; nowhere in it where it has fewer lines.
fn line_at(table: &[u8], k: u64) -> Span
    ensures { LineAt table.now k result.from result.upto }
{
    let mut line: u64 = 0;
    let mut from: usize = 0;
    for (i, byte) in table.iter().enumerate() {
        if *byte == NEWLINE {
            if line == k {
                return Span { from, upto: i };
            }
            line += 1;
            from = i + 1;
        }
    }
    let upto = table.len();
    if line < k {
        from = upto;
    }
    Span { from, upto }
}

// Puts line k of a text.
fn put_line(table: &[u8], k: u64, out: &mut [u8], at: usize) -> usize
    requires { at + length (get_or (lines_of table.now) k []) ≤ length out.old }
    ensures { Added (get_or (lines_of table.now) k []) out.old at out.new result }
{
    let span = line_at(table, k);
    let from = span.from;
    let upto = span.upto;
    text::put(out, at, &table[from..upto])
}

// What is wanted at a place.
fn put_place(place: u64, out: &mut [u8], at: usize) -> usize
    requires { at + words_room ≤ length out.old }
    ensures { Added (get_or by_place place []) out.old at out.new result }
{
    put_line(
        b"\nversion, fan, fans, board or system\nfan, fans, board or system\n1, 2 or 3\na number of fans from 1 to 64\n\
          parts up to 4294967295, or a decimal from 0 to 1 of at most nine digits\nweight, on or the line's end\na weight up to 65535\n\
          on or the line's end\na board from 1 to 4\nthe line's end\n\
          parts up to 4294967295, or a decimal from 0 to 1 of at most nine digits\nthe line's end\nthe line's end\n\
          fails, needs or kind\nat or from\nweight or a number up to 65535\na number up to 65535\ndead or in\na row or a number up to 65535\n\
          row\nround, from or the line's end\nround, from or the line's end\na number up to 65535\nto\na number up to 65535\ndead\n\
          a number up to 65535\nof\nany\na number up to 65535\na number up to 65535\nfirst\na number up to 65535\nfrom or the line's end\n\
          a number up to 65535\nto\na number up to 65535\nthe line's end\nsecond\na number up to 65535\n",
        place,
        out,
        at,
    )
}

// What is wanted at a fault with a name.
fn put_name(name: u64, out: &mut [u8], at: usize) -> usize
    requires { at + words_room ≤ length out.old }
    ensures { Added (get_or by_name name []) out.old at out.new result }
{
    put_line(
        b"version 3, which has boards\na decimal on the grid of 2^30, as \nat most 64 fans\nat most 4 boards\nat most 32 systems\n\
          a fan\na system\na board\na board from 1 to \na line of at most 65536 bytes\n",
        name,
        out,
        at,
    )
}

// The words for a fault's number.
fn put_words(wanted: u64, out: &mut [u8], at: usize) -> usize
    requires { at + words_room ≤ length out.old }
    ensures { Added (words_for wanted) out.old at out.new result }
{
    if wanted >= NO_BOARDS {
        return put_name(wanted - NO_BOARDS, out, at);
    }
    if wanted < TAKEN {
        return at;
    }
    put_place(wanted - TAKEN, out, at)
}

// The lower of the two parts that a decimal stands between.
fn below(named: u64) -> u64
    ensures { result ≡ named - off_grid }
{
    if named < OFF_GRID {
        return 0;
    }
    named - OFF_GRID
}

// The numbers that the words end in.
fn put_numbers(wanted: u64, named: u64, out: &mut [u8], at: usize) -> usize
    requires { at + numbers_room ≤ length out.old }
    ensures { Added (numbers_for wanted named) out.old at out.new result }
{
    if wanted == BETWEEN_PARTS {
        let parts = below(named);
        let end = lines::put_pair(b"", parts, b" or ", parts + 1, out, at);
        return text::put(out, end, b" parts");
    }
    if wanted == NO_SUCH_BOARD {
        return text::put_number(out, at, named);
    }
    at
}

// Puts what was wanted.
pub fn put_wanted(wanted: u64, named: u64, out: &mut [u8], at: usize) -> usize
    requires { at + wanted_room ≤ length out.old }
    ensures { Added (wanted_text wanted named) out.old at out.new result }
{
    let end = put_words(wanted, out, at);
    put_numbers(wanted, named, out, end)
}
