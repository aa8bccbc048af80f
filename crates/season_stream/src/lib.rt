// A season's stream, fed in pieces of any size: each file is added to the totals when it is whole, and the report is on
// all bytes that were fed.
#![tactic(auto)]

ghost use Rattle.std.specs.Prelude.{◌≡◌, [], ◌++◌, ◌+◌, ◌<◌, ◌≤◌, length, take};
ghost use Rattle.ending.specs.Ending.{longest};
ghost use Rattle.season_report.specs.Lines.{output_room};
ghost use Rattle.totals.specs.Plus.{one_if};
ghost use Rattle.totals.specs.Room.{most_files};
ghost use Rattle.season_stream.specs.Reading.{with_file, goes_on, Sane, Takes, Fed, Holds, Reported};

use ending::LONGEST;
use rules::limit;
use totals::Totals;

// What has been read of a stream: the bytes of the file at hand, the files before it and their totals, and whether the
// reading has ended, with bytes waiting or not.
#[derive(Clone, Copy)]
pub struct Reading {
    pub part: [u8; LONGEST],
    pub kept: usize,
    pub files: u64,
    pub closed: bool,
    pub waiting: bool,
    pub totals: Totals,
}

// What is told of a stream.
#[derive(Clone, Copy)]
pub struct Season {
    pub totals: Totals,
    pub waiting: bool,
}

// Before the first byte.
pub fn start() -> Reading
    ensures { Holds result [] }
{
    let part = [0u8; LONGEST];
    let totals = totals::none();
    Reading {
        part,
        kept: 0,
        files: 0,
        closed: false,
        waiting: false,
        totals,
    }
}

// How many bytes are asked for: those that the file at hand lacks. Behind the last file that is read one is enough.
pub fn lacks(before: Reading) -> usize
    requires { Sane before }
    ensures { (0 < result) × (result ≤ longest) × Takes before result }
{
    if before.closed {
        return 1;
    }
    if before.files == limit::FILES {
        return 1;
    }
    let part = before.part;
    let kept = before.kept;
    ending::asks(&part[..kept]) - kept
}

// How many of the bytes that are there are taken at once: no more than are asked for, or all where none is read any
// more.
fn wanted(before: Reading, left: usize) -> usize
    requires sane { Sane before }
    requires left_nonzero { 0 < left }
    ensures { (0 < result) × (result ≤ left) × Takes before result }
{
    if before.closed {
        return left;
    }
    let missing = lacks(before);
    if missing < left {
        return missing;
    }
    left
}

// A part of a file with more bytes behind those that are kept.
fn joined(part: [u8; LONGEST], kept: usize, more: &[u8]) -> [u8; LONGEST]
    requires { (length part ≡ longest) × (kept + length more.now ≤ longest) }
    ensures { (length result ≡ longest) ×
        (take (kept + length more.now) result ≡ take kept part ++ more.now) }
{
    let mut next = part;
    next[kept..kept + more.len()].copy_from_slice(more);
    next
}

// The file at hand is whole, and these are the totals with it. Behind a refused one nothing is read; behind the last
// one it is only seen whether bytes are waiting.
fn with_file(before: Reading, totals: Totals) -> Reading
    requires { before.files < most_files }
    ensures { result ≡ with_file before totals }
{
    let mut next = before;
    let files = before.files + 1;
    next.kept = 0;
    next.files = files;
    next.waiting = false;
    next.totals = totals;
    if files == limit::FILES {
        next.closed = false;
        return next;
    }
    next.closed = totals.refused != 0;
    next
}

// So many bytes more, no more than are asked for.
fn taken(before: Reading, more: &[u8]) -> Reading
    requires sane { Sane before }
    requires more_nonzero { (0 < length more.now) × Takes before (length more.now) }
    ensures { Fed before more.now result }
{
    let mut next = before;
    if before.closed {
        return next;
    }
    if before.files == limit::FILES {
        next.closed = true;
        next.waiting = true;
        return next;
    }
    let old = before.part;
    let part = joined(old, before.kept, more);
    let kept = before.kept + more.len();
    if kept < ending::asks(&part[..kept]) {
        next.part = part;
        next.kept = kept;
        return next;
    }
    let totals = before.totals;
    with_file(before, season_files::plus_file(totals, &part[..kept]))
}

// One piece more, wherever it ends.
pub fn feed(before: Reading, piece: &[u8]) -> Reading
    requires { Sane before }
    ensures { Fed before piece.now result }
{
    let mut next = before;
    let mut at = 0;
    while at < piece.len() {
        let end = at + wanted(next, piece.len() - at);
        next = taken(next, &piece[at..end]);
        at = end;
    }
    next
}

// What is told where the stream ends here: what is there of a file is one, cut short.
pub fn settled(before: Reading) -> Season
    requires { Sane before }
    ensures { result ≡ goes_on before [] }
{
    let totals = before.totals;
    if before.closed {
        return Season {
            totals,
            waiting: before.waiting,
        };
    }
    let kept = before.kept;
    if kept == 0 {
        return Season {
            totals,
            waiting: false,
        };
    }
    let part = before.part;
    let last = season_files::plus_file(totals, &part[..kept]);
    Season {
        totals: last,
        waiting: false,
    }
}

// 1 where a test holds.
fn one_if(b: bool) -> u64
    ensures { result ≡ one_if b }
{
    if b { 1 } else { 0 }
}

// The report: where it ends, and whether it tells of a refused file.
#[derive(Clone, Copy)]
pub struct Report {
    pub end: usize,
    pub refused: bool,
}

// Puts the report on all bytes that were fed.
pub fn put_report(before: Reading, out: &mut [u8]) -> Report
    requires sane { Sane before }
    requires output_room_in_bounds { output_room ≤ length out.old }
    ensures { Reported before out.new result }
{
    let season = settled(before);
    let totals = season.totals;
    let end = season_report::put_report(totals, one_if(season.waiting), out);
    Report {
        end,
        refused: totals.refused != 0,
    }
}
