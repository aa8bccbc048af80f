// The best places of a stretch, ties told as ties, put into a buffer.
ghost use Rattle.std.specs.Prelude.{◌≡◌, true, cond, [], ◌+◌, ◌≤◌, length, get_or};
ghost use Rattle.rules.specs.State.{S};
ghost use Rattle.rules.specs.Refusal.{most};
ghost use Rattle.text.specs.Added.{Added};
ghost use Rattle.spare_lines.specs.Lines.{InUnit};
ghost use Rattle.spares.specs.Highest.{highest};
ghost use Rattle.spare_lines.specs.Ranks.{left_in};
ghost use Rattle.spare_lines.specs.Best.{ranked_in, Grouped, place_text, place_if, group_in};
ghost use Rattle.spare_lines.specs.Best.{place_room, group_room, best_text, best_room, Few, Within};

use places::Ends;
use rules::limit::FANS;
use spares::Places;
use text::lines;

// How the places of a stretch are named: the system's number, its first fan, how many there are, and the unit.
#[derive(Clone, Copy)]
pub struct Shown {
    pub s: u64,
    pub a: u64,
    pub size: usize,
    pub decimal: bool,
}

// Of the places that were left, those that are alike with the best of them, how many these are, and the rest.
#[derive(Clone, Copy)]
struct Group {
    left: [bool; FANS],
    alike: [bool; FANS],
    count: u64,
}

// What counts of a place: its low where it is left.
fn counted(left: bool, low: u64) -> u64
    ensures { result ≡ cond left low 0 }
{
    if left { low } else { 0 }
}

// The highest low of the places that are left.
fn highest(left: [bool; FANS], low: [u64; FANS], size: usize) -> u64
    requires { size ≤ most }
    ensures { result ≡ highest (λ i. get_or low i 0) (left_in left) size }
{
    let mut top: u64 = 0;
    for i in 0..size {
        top = top.max(counted(left[i], low[i]));
    }
    top
}

// The places that are alike with the best of those that are left: their upper end is not below its lower end.
fn group_of(left: [bool; FANS], places: Places, before: Ends, size: usize) -> Group
    requires few { size ≤ most }
    requires within { InUnit places before }
    requires long { length left ≡ most }
    ensures { Grouped (ranked_in size places before) (left_in left) result.left result.alike result.count }
{
    let low = places.low;
    let high = places.high;
    let top = highest(left, low, size) + before.low;
    let mut rest = left;
    let mut alike = [false; FANS];
    let mut count: u64 = 0;
    for i in 0..size {
        let reaches = top <= high[i] + before.high;
        let was = left[i];
        let tied = was && reaches;
        alike[i] = tied;
        rest[i] = was && !reaches;
        count += u64::from(tied);
    }
    Group {
        left: rest,
        alike,
        count,
    }
}

// The line of a place.
fn put_place(
    shown: Shown,
    rank: u64,
    count: u64,
    fan: u64,
    after: Ends,
    out: &mut [u8],
    at: usize,
) -> usize
    requires within { (after.low ≤ S) × (after.high ≤ S) }
    requires room { at + place_room ≤ length out.old }
    ensures { Added (place_text shown rank count fan after) out.old at out.new result }
{
    let ranked = lines::put_pair(b"system ", shown.s, b" rank ", rank, out, at);
    let named = lines::put_pair(b" alike ", count, b" fan ", fan, out, ranked);
    pair_lines::put_rated(shown.decimal, after, out, named)
}

// The same, or nothing.
fn put_place_if(
    named: bool,
    shown: Shown,
    rank: u64,
    count: u64,
    fan: u64,
    after: Ends,
    out: &mut [u8],
    at: usize,
) -> usize
    requires within { (after.low ≤ S) × (after.high ≤ S) }
    requires room { named ≡ true → at + place_room ≤ length out.old }
    ensures { Added (place_if named shown rank count fan after) out.old at out.new result }
{
    if !named {
        return at;
    }
    put_place(shown, rank, count, fan, after, out, at)
}

// The lines of a group.
fn put_group(
    shown: Shown,
    rank: u64,
    group: Group,
    places: Places,
    out: &mut [u8],
    at: usize,
) -> usize
    requires few { Few shown places }
    requires within { Within places }
    requires group { length group.alike ≡ most }
    requires room { at + group_room shown.size group.alike ≤ length out.old }
    ensures { Added (group_in shown rank group.count group.alike places) out.old at
        out.new result }
{
    let low = places.low;
    let high = places.high;
    let alike = group.alike;
    let mut end = at;
    for i in 0..shown.size {
        let after = Ends {
            low: low[i],
            high: high[i],
        };
        end = put_place_if(
            alike[i],
            shown,
            rank,
            group.count,
            shown.a + i as u64,
            after,
            out,
            end,
        );
    }
    end
}

// The same, or nothing.
fn put_round(
    named: bool,
    shown: Shown,
    rank: u64,
    group: Group,
    places: Places,
    out: &mut [u8],
    at: usize,
) -> usize
    requires few { Few shown places }
    requires within { Within places }
    requires group { length group.alike ≡ most }
    requires room { named ≡ true → at + group_room shown.size group.alike ≤ length out.old }
    ensures { let lines = group_in shown rank group.count group.alike places in
        Added (cond named lines []) out.old at out.new result }
{
    if !named {
        return at;
    }
    put_group(shown, rank, group, places, out, at)
}

// The lines of the best places of a stretch: whole groups, until so many places are named.
pub fn put_best(
    shown: Shown,
    best: u64,
    places: Places,
    before: Ends,
    out: &mut [u8],
    at: usize,
) -> usize
    requires few { Few shown places }
    requires within { InUnit places before }
    requires room { at + best_room ≤ length out.old }
    ensures { let k = ranked_in shown.size places before in
        Added (best_text shown best k) out.old at out.new result }
{
    let mut left = [true; FANS];
    let mut gone: u64 = 0;
    let mut end = at;
    for _round in 0..shown.size {
        let group = group_of(left, places, before, shown.size);
        end = put_round(gone < best, shown, gone + 1, group, places, out, end);
        let rest = group.left;
        left = rest;
        gone += group.count;
    }
    end
}
