// The season report: its lines, put into a buffer.
#![tactic(auto)]

ghost use Rattle.std.specs.Prelude.{◌+◌, ◌≤◌, length};
ghost use Rattle.text.specs.Added.{Added};
ghost use Rattle.rules.specs.Refusal.{last_kind};
ghost use Rattle.season_report.specs.Lines.{one_text, one_room, two_text, two_room, head_text, head_room, answers_text};
ghost use Rattle.season_report.specs.Lines.{answers_room, lowest_text, lowest_room};
ghost use Rattle.season_report.specs.Lines.{widths_text, widths_room, kind_text, kind_room, kinds_text, kinds_room};
ghost use Rattle.season_report.specs.Lines.{report_text, output_room, Printed};

use rules::version;
use text::lines;
use totals::tally::{Lowest, Refusals, Tally, Widths};
use totals::{KINDS, Totals};

// Room for all lines.
pub const OUTPUT: usize = 8192;

// The end of a line: one named number more.
fn put_one(name: &[u8], n: u64, out: &mut [u8], at: usize) -> usize
    requires { at + one_room name.now ≤ length out.old }
    ensures { Added (one_text name.now n) out.old at out.new result }
{
    let end = text::put_named(name, n, out, at);
    text::put(out, end, b"\n")
}

// Or two.
fn put_two(first: &[u8], a: u64, second: &[u8], b: u64, out: &mut [u8], at: usize) -> usize
    requires { at + two_room first.now second.now ≤ length out.old }
    ensures { Added (two_text first.now a second.now b) out.old at
        out.new result }
{
    let end = lines::put_pair(first, a, second, b, out, at);
    text::put(out, end, b"\n")
}

// The first three lines.
fn put_head(decks: u64, refused: u64, number: u64, waiting: u64, out: &mut [u8]) -> usize
    requires { head_room ≤ length out.old }
    ensures { Added (head_text decks refused number waiting) out.old 0 out.new result }
{
    let files = put_one(b"decks ", decks, out, 0);
    let end = put_two(b"files refused ", refused, b" number ", number, out, files);
    put_one(b"waiting ", waiting, out, end)
}

// A kind's systems answered, and refused by each number.
fn put_answers(kind: u64, answered: u64, refused: Refusals, out: &mut [u8], at: usize) -> usize
    requires { at + answers_room ≤ length out.old }
    ensures { Added (answers_text kind answered refused) out.old at out.new result }
{
    let three = lines::put_pair(b"kind ", kind, b" answered ", answered, out, at);
    let five = lines::put_pair(
        b" refused 3 ",
        refused.three,
        b" 4 ",
        refused.four,
        out,
        three,
    );
    put_two(b" 5 ", refused.five, b" 6 ", refused.six, out, five)
}

// Its smallest low.
fn put_lowest(kind: u64, lowest: Lowest, out: &mut [u8], at: usize) -> usize
    requires { at + lowest_room ≤ length out.old }
    ensures { Added (lowest_text kind lowest) out.old at out.new result }
{
    let unit = lines::put_pair(b"kind ", kind, b" lowest ", lowest.low, out, at);
    let system = lines::put_pair(b" unit ", lowest.unit, b" deck ", lowest.deck, out, unit);
    put_one(b" system ", lowest.system, out, system)
}

// Its widths.
fn put_widths(kind: u64, widths: Widths, out: &mut [u8], at: usize) -> usize
    requires { at + widths_room ≤ length out.old }
    ensures { Added (widths_text kind widths) out.old at out.new result }
{
    let unit = lines::put_pair(b"kind ", kind, b" widths ", widths.binary, out, at);
    let last = lines::put_pair(
        b" unit ",
        version::BINARY,
        b" widths ",
        widths.decimal,
        out,
        unit,
    );
    put_one(b" unit ", version::DECIMAL, out, last)
}

// A kind's lines.
fn put_kind(kind: u64, tally: Tally, out: &mut [u8], at: usize) -> usize
    requires { at + kind_room ≤ length out.old }
    ensures { Added (kind_text kind tally) out.old at out.new result }
{
    let refused = tally.refused;
    let lowest = tally.lowest;
    let widths = tally.widths;
    let second = put_answers(kind, tally.answered, refused, out, at);
    let third = put_lowest(kind, lowest, out, second);
    put_widths(kind, widths, out, third)
}

// The lines of all kinds.
fn put_kinds(kinds: [Tally; KINDS], out: &mut [u8], at: usize) -> usize
    requires { at + kinds_room ≤ length out.old }
    ensures { Added (kinds_text last_kind kinds) out.old at out.new result }
{
    let mut end = at;
    for (k, tally) in kinds.iter().enumerate() {
        end = put_kind(k as u64 + 1, *tally, out, end);
    }
    end
}

// The report.
pub fn put_report(totals: Totals, waiting: u64, out: &mut [u8]) -> usize
    requires { output_room ≤ length out.old }
    ensures { Printed (report_text totals waiting) out.new result }
{
    let kinds = totals.kinds;
    let first = put_head(totals.decks, totals.refused, totals.number, waiting, out);
    let last = put_kinds(kinds, out, first);
    put_one(b"other kinds refused 1 ", totals.other, out, last)
}
