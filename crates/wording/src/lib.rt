// A deck in words, put into a buffer: its version, boards, fans and systems, a line each.
#![tactic(auto)]

pub mod rule; // rule.rt: a rule

ghost use Rattle.std.specs.Prelude.{◌+◌, ◌≤◌, length};
ghost use Rattle.text.specs.Lines.{named_room};
ghost use Rattle.text.specs.Added.{Added};
ghost use Rattle.wording.specs.Numbers.{one_text, one_room, two_text, two_room, some_text};
ghost use Rattle.wording.specs.Lines.{version_text, version_room, board_text, board_room, fan_text, fan_room};
ghost use Rattle.wording.specs.Lines.{stretch_text, stretch_room, system_text, system_room};

use text::lines;

// Puts a named number and what stands behind it.
fn put_one(before: &[u8], k: u64, behind: &[u8], out: &mut [u8], at: usize) -> usize
    requires { at + one_room before.now behind.now ≤ length out.old }
    ensures { Added (one_text before.now k behind.now) out.old at
        out.new result }
{
    let end = text::put_named(before, k, out, at);
    text::put(out, end, behind)
}

// Puts two of them, likewise.
fn put_two(
    before: &[u8],
    a: u64,
    between: &[u8],
    b: u64,
    behind: &[u8],
    out: &mut [u8],
    at: usize,
) -> usize
    requires { at + two_room before.now between.now behind.now ≤ length out.old }
    ensures { Added (two_text before.now a between.now b behind.now)
        out.old at out.new result }
{
    let end = lines::put_pair(before, a, between, b, out, at);
    text::put(out, end, behind)
}

// Puts a named number, and nothing where it is 0.
fn put_some(name: &[u8], n: u64, out: &mut [u8], at: usize) -> usize
    requires { at + named_room name.now ≤ length out.old }
    ensures { Added (some_text name.now n) out.old at out.new result }
{
    if n == 0 {
        return at;
    }
    text::put_named(name, n, out, at)
}

// Puts the line of a deck's version.
pub fn put_version(version: u64, out: &mut [u8], at: usize) -> usize
    requires { at + version_room ≤ length out.old }
    ensures { Added (version_text version) out.old at out.new result }
{
    put_one(b"version ", version, b"\n", out, at)
}

// Puts a board's line.
pub fn put_board(parts: u64, out: &mut [u8], at: usize) -> usize
    requires { at + board_room ≤ length out.old }
    ensures { Added (board_text parts) out.old at out.new result }
{
    put_one(b"board ", parts, b"\n", out, at)
}

// Puts a fan's line.
pub fn put_fan(parts: u64, weight: u64, board: u64, out: &mut [u8], at: usize) -> usize
    requires { at + fan_room ≤ length out.old }
    ensures { Added (fan_text parts weight board) out.old at out.new result }
{
    let number = text::put_named(b"fan ", parts, out, at);
    let weighed = put_some(b" weight ", weight, out, number);
    let end = put_some(b" on ", board, out, weighed);
    text::put(out, end, b"\n")
}

// Puts the stretch of a system of a deck of n fans, and nothing where it is the whole deck.
pub fn put_stretch(n: u64, a: u64, b: u64, out: &mut [u8], at: usize) -> usize
    requires { at + stretch_room ≤ length out.old }
    ensures { Added (stretch_text n a b) out.old at out.new result }
{
    if a == 1 {
        if b == n {
            return at;
        }
    }
    lines::put_pair(b" from ", a, b" to ", b, out, at)
}

// Puts the line of a system of a deck of n fans.
pub fn put_system(
    n: u64,
    kind: u64,
    first: u64,
    second: u64,
    a: u64,
    b: u64,
    out: &mut [u8],
    at: usize,
) -> usize
    requires { at + system_room ≤ length out.old }
    ensures { Added (system_text n kind first second a b) out.old at out.new result }
{
    let name = text::put(out, at, b"system ");
    let words = rule::put_rule(kind, first, second, out, name);
    let end = put_stretch(n, a, b, out, words);
    text::put(out, end, b"\n")
}
