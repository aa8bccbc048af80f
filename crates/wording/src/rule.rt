// A rule in words.
ghost use Rattle.std.specs.Prelude.{◌+◌, ◌≤◌, length};
ghost use Rattle.text.specs.Added.{Added};
ghost use Rattle.wording.specs.Numbers.{one_text, one_room};
ghost use Rattle.wording.specs.Rule.{by_numbers, alone, rule_text, rule_room};

use rules::kind;
use text::lines;

// Puts any rule by its numbers.
fn put_numbers(kind: u64, first: u64, second: u64, out: &mut [u8], at: usize) -> usize
    requires { at + rule_room ≤ length out.old }
    ensures { Added (by_numbers kind first second) out.old at out.new result }
{
    let end = text::put_named(b"kind ", kind, out, at);
    lines::put_pair(b" first ", first, b" second ", second, out, end)
}

// Puts a rule of a kind that has no second number; by its numbers where it carries one.
fn put_alone(
    kind: u64,
    before: &[u8],
    first: u64,
    behind: &[u8],
    second: u64,
    out: &mut [u8],
    at: usize,
) -> usize
    requires words { one_room before.now behind.now ≤ rule_room }
    requires room { at + rule_room ≤ length out.old }
    ensures { Added (alone kind first second (one_text before.now first behind.now))
        out.old at out.new result }
{
    if second == 0 {
        return crate::put_one(before, first, behind, out, at);
    }
    put_numbers(kind, first, second, out, at)
}

// Puts a rule in the words of its kind.
pub fn put_rule(kind: u64, first: u64, second: u64, out: &mut [u8], at: usize) -> usize
    requires { at + rule_room ≤ length out.old }
    ensures { Added (rule_text kind first second) out.old at out.new result }
{
    match kind {
        kind::NUMBER => put_alone(kind, b"fails at ", first, b" dead", second, out, at),
        kind::WEIGHT => put_alone(kind, b"fails at weight ", first, b"", second, out, at),
        kind::BETWEEN => crate::put_two(b"fails from ", first, b" to ", second, b" dead", out, at),
        kind::ROW => put_alone(kind, b"fails at ", first, b" in a row", second, out, at),
        kind::ROW_ROUND => put_alone(
            kind,
            b"fails at ",
            first,
            b" in a row round",
            second,
            out,
            at,
        ),
        kind::NEAR => crate::put_two(b"fails at ", first, b" in ", second, b"", out, at),
        kind::NEAR_ROUND => crate::put_two(
            b"fails at ",
            first,
            b" in ",
            second,
            b" round",
            out,
            at,
        ),
        kind::LACKING => crate::put_two(b"needs ", first, b" of any ", second, b"", out, at),
        _ => put_numbers(kind, first, second, out, at),
    }
}
