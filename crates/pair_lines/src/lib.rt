// What deckspare prints of a system for two spares, put into a buffer: the best two places.
// How far it is with them is shown on a terminal meanwhile.
#![tactic(auto)]

mod progress; // progress.rt: how far it is

ghost use Rattle.std.specs.Prelude.{[], ◌≡◌, ◌+◌, ◌≤◌, ◌<◌, length};
ghost use Rattle.rules.specs.State.{S};
ghost use Rattle.rules.specs.Asked.{asked_with, size_of};
ghost use Rattle.units.specs.Step.{whole};
ghost use Rattle.text.specs.Added.{Added};
ghost use Rattle.spares.specs.Places.{spare_refusal};
ghost use Rattle.pairs.specs.Tried.{TriedBelow};
ghost use Rattle.pair_lines.specs.Rated.{rated_text, rated_room};
ghost use Rattle.pair_lines.specs.Line.{fans_text, one_text, two_text, two_room, FewFans};

use pairs::Best;
use places::Ends;
use rules::{Question, RatedLists};
use text::lines;

// What is asked of a system beside its lists: its number, and the spares' survival number.
#[derive(Clone, Copy)]
pub struct Two {
    pub s: u64,
    pub p: u64,
}

// ` low L high H X% to Y%`, and the line's end.
pub fn put_rated(decimal: bool, after: Ends, out: &mut [u8], at: usize) -> usize
    requires within { (after.low ≤ S) × (after.high ≤ S) }
    requires room { at + rated_room ≤ length out.old }
    ensures { Added (rated_text (whole decimal) after.low after.high) out.old at out.new result }
{
    let named = lines::put_pair(b" low ", after.low, b" high ", after.high, out, at);
    let end = percent::put_range(decimal, after.low, after.high, out, named);
    text::put(out, end, b"\n")
}

// `system S has one fan`.
fn put_one(s: u64, out: &mut [u8], at: usize) -> usize
    requires { at + two_room ≤ length out.old }
    ensures { Added (one_text s) out.old at out.new result }
{
    let named = text::put_named(b"system ", s, out, at);
    text::put(out, named, b" has one fan\n")
}

// `system S fans F and G low L high H X% to Y%`, of a stretch from fan a on.
fn put_fans(s: u64, a: u64, decimal: bool, best: Best, out: &mut [u8], at: usize) -> usize
    requires few { FewFans a best }
    requires room { at + two_room ≤ length out.old }
    ensures { let text = fans_text (whole decimal) s (a + best.first) (a + best.second) best.low best.high in
        Added text out.old at out.new result }
{
    let first = a + best.first as u64;
    let second = a + best.second as u64;
    let named = lines::put_pair(b"system ", s, b" fans ", first, out, at);
    let fans = text::put_named(b" and ", second, out, named);
    let after = Ends {
        low: best.low,
        high: best.high,
    };
    put_rated(decimal, after, out, fans)
}

// The best of all pairs of a stretch, row by row.
fn best_pair(rt: &HostRuntime, question: Question, two: Two, lists: &RatedLists) -> Best
    requires { let q = asked_with question lists.now in
        spare_refusal q two.p ≡ 0 }
    ensures { let q = asked_with question lists.now in
        TriedBelow q two.p (size_of q) result }
{
    let size = (question.b - question.a) as usize + 1;
    let mut best = pairs::none();
    for i in 0..size {
        progress::show(rt, two.s, best.rated, size as u64);
        best = pairs::rate_row(question, two.p, i, best, lists);
    }
    progress::wipe(rt);
    best
}

// All that is printed of a system that is not refused.
pub fn put_two(
    rt: &HostRuntime,
    question: Question,
    two: Two,
    lists: &RatedLists,
    out: &mut [u8],
    at: usize,
) -> usize
    requires accepted { let q = asked_with question lists.now in
        spare_refusal q two.p ≡ 0 }
    requires room { at + two_room ≤ length out.old }
    ensures { let q = asked_with question lists.now in
        Added (two_text two.s two.p q) out.old at out.new result }
{
    if question.a == question.b {
        return put_one(two.s, out, at);
    }
    let best = best_pair(rt, question, two, lists);
    let decimal = units::is_decimal(question.version);
    put_fans(two.s, question.a, decimal, best, out, at)
}
