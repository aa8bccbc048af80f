// What deckspare prints of a system, put into a buffer: what a spare gains in each of its places, or the best of
// them, or the best two for two spares.
#![tactic(auto)]

mod best; // best.rt: the best places

ghost use Rattle.std.specs.Prelude.{[], ◌≡◌, ◌+◌, ◌≤◌, length};
ghost use Rattle.rules.specs.State.{S};
ghost use Rattle.rules.specs.Asked.{asked_with};
ghost use Rattle.text.specs.Added.{Added};
ghost use Rattle.spare_lines.specs.Lines.{gain_line, gain_lines, gain_room, gains_room, FewPlaces, InUnit};
ghost use Rattle.spare_lines.specs.System.{system_text, system_room};

use best::Shown;
use pair_lines::Two;
use places::Ends;
use rules::{Question, RatedLists};
use spares::Places;
use text::lines;

// What is asked of a system beside its lists: its place in the file, counted from 0, the spare's survival number, and
// how many of the best places are named, 0 for every place and its gain; or whether two spares go in together.
#[derive(Clone, Copy)]
pub struct Job {
    pub s: usize,
    pub p: u64,
    pub best: u64,
    pub two: bool,
}

// `system S fan F lower L upper U`.
fn put_gain(s: u64, fan: u64, after: Ends, before: Ends, out: &mut [u8], at: usize) -> usize
    requires within { (after.low ≤ S) × (after.high ≤ S) × (before.low ≤ S) × (before.high ≤ S) }
    requires room { at + gain_room ≤ length out.old }
    ensures { Added (gain_line s fan after before) out.old at out.new result }
{
    let lower = swaps::less(after.low, before.high);
    let upper = swaps::less(after.high, before.low);
    let named = lines::put_pair(b"system ", s, b" fan ", fan, out, at);
    let end = lines::put_signed_pair(b" lower ", lower, b" upper ", upper, out, named);
    text::put(out, end, b"\n")
}

// The lines of the first places of a stretch from fan a on.
fn put_gains(
    s: u64,
    a: u64,
    size: usize,
    places: Places,
    before: Ends,
    out: &mut [u8],
    at: usize,
) -> usize
    requires few { FewPlaces a size places }
    requires within { InUnit places before }
    requires room { at + gains_room ≤ length out.old }
    ensures { Added (gain_lines s a size places before) out.old at out.new result }
{
    let low = places.low;
    let high = places.high;
    let mut end = at;
    for i in 0..size {
        let after = Ends {
            low: low[i],
            high: high[i],
        };
        end = put_gain(s, a + i as u64, after, before, out, end);
    }
    end
}

// All that is printed of a system.
pub fn put_asked(
    rt: &HostRuntime,
    question: Question,
    job: Job,
    lists: &RatedLists,
    out: &mut [u8],
    at: usize,
) -> usize
    requires place { job.s ≤ 64 }
    requires room { at + system_room ≤ length out.old }
    ensures { let q = asked_with question lists.now in
        Added (system_text job q) out.old at out.new result }
{
    let s = job.s as u64 + 1;
    if let Err(refused) = spares::refusal(question, job.p, lists) {
        let end = text::put_named(b"system ", s, out, at);
        return lines::put_refused(refused.number(), out, end);
    }
    if job.two {
        let two = Two { s, p: job.p };
        return pair_lines::put_two(rt, question, two, lists, out, at);
    }
    let before = spares::rate_now(question, lists);
    let places = spares::rate_places(question, job.p, lists);
    let a = question.a;
    let size = (question.b - a) as usize + 1;
    if job.best == 0 {
        return put_gains(s, a, size, places, before, out, at);
    }
    let shown = Shown {
        s,
        a,
        size,
        decimal: units::is_decimal(question.version),
    };
    best::put_best(shown, job.best, places, before, out, at)
}
