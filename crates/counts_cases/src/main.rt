// Runs the cases of standard input and writes a count table a line. All of the input is words of 64 bits, lowest byte
// first: the number of cases, then each case: kind, first, second, n, the cells of the working table, the cells of the
// room for the counts, the seed of the rubbish in both, the number of weights, the weights. A case that is cut short
// ends the run.
#![tactic(auto)]

mod lines; // lines.rt: the lines that are written

ghost use Rattle.std.specs.Prelude.{◌≤◌, length};
ghost use Rattle.io.specs.Counts.{IsPrefixLen};
ghost use Rattle.casefile.specs.Rooms.{most_numbers};
ghost use Rattle.casefile.specs.Cases.{Within};
ghost use Rattle.counts_cases.specs.Case.{head_words};

use casefile::{cases, streams, tables, words};
use rules::{Counting, Rule};

// Where a case has n, the cells of the working table and of the room, and the seed, and how many words come before the
// weights.
const FANS: usize = 3;

const CELLS: usize = 4;

const SLOTS: usize = 5;

const SEED: usize = 6;

const HEAD: usize = 8;

// The cells of a working table, and of the room for the counts, at most.
const MOST_CELLS: usize = 8192;

const MOST_SLOTS: usize = 80;

// The count table under a rule whose weights are the `count` words from `at` on.
fn counts_with(
    rule: Rule,
    n: u64,
    bytes: &[u8],
    at: usize,
    count: usize,
    table: &mut [u64],
    room: &mut [u64],
) -> Counting
    requires begins { at ≤ length bytes.now }
    requires few { count ≤ most_numbers }
{
    let mut weights = casefile::weights_room();
    words::shorts(bytes, at, &mut weights[..count]);
    counts::counts(rule, n, &weights[..count], table, room)
}

// Fills the tables with rubbish and works the case of so many words at `at` in them.
fn worked(bytes: &[u8], at: usize, size: usize, table: &mut [u64], room: &mut [u64]) -> Counting
    requires { Within bytes.now at head_words size }
{
    let rule = cases::rule_at(bytes, at);
    let n = words::word(bytes, at + FANS);
    let seed = tables::rubbish(words::word(bytes, at + SEED), table);
    tables::rubbish(seed, room);
    counts_with(rule, n, bytes, at + HEAD, size - HEAD, table, room)
}

// Runs the case in tables of its own lengths, and puts its line.
fn run_in(
    bytes: &[u8],
    at: usize,
    size: usize,
    table: &mut [u64],
    room: &mut [u64],
    out: &mut [u8],
    end: usize,
) -> usize
    requires case { Within bytes.now at head_words size }
    requires within { end ≤ length out.old }
    ensures { result ≤ length out.new }
{
    let answer = worked(bytes, at, size, table, room);
    lines::put_line(answer, words::word(bytes, at + FANS), table, room, out, end)
}

// Room for a working table, and room for the counts.
fn table_room() -> [u64; MOST_CELLS] {
    [0; MOST_CELLS]
}

fn counts_room() -> [u64; MOST_SLOTS] {
    [0; MOST_SLOTS]
}

// Runs the case of so many words at `at`, whose tables must fit those here.
fn run_case(bytes: &[u8], at: usize, size: usize, out: &mut [u8], end: usize) -> usize
    requires case { Within bytes.now at head_words size }
    requires within { end ≤ length out.old }
    ensures { result ≤ length out.new }
{
    let cells = words::word(bytes, at + CELLS);
    let slots = words::word(bytes, at + SLOTS);
    if cells > MOST_CELLS as u64 {
        return end;
    }
    if slots > MOST_SLOTS as u64 {
        return end;
    }
    let mut table = table_room();
    let mut room = counts_room();
    run_in(
        bytes,
        at,
        size,
        &mut table[..cells as usize],
        &mut room[..slots as usize],
        out,
        end,
    )
}

// Runs every case and answers how much of the buffer its lines fill.
fn run(bytes: &[u8], out: &mut [u8]) -> usize
    ensures { IsPrefixLen result out.new }
{
    if words::whole(bytes) < 1 {
        return 0;
    }
    let cases = words::word(bytes, 0);
    let mut at: usize = 1;
    let mut end: usize = 0;
    for _ in 0..cases {
        let size = cases::case_size(bytes, at, HEAD);
        if size < HEAD {
            return end;
        }
        end = run_case(bytes, at, size, out, end);
        at += size;
    }
    end
}

fn main(rt: HostRuntime) {
    let mut input = casefile::room();
    let n = streams::read_input(&rt, &mut input);
    let mut out = casefile::room();
    let end = run(&input[..n], &mut out);
    streams::write_output(&rt, &out[..end]);
}
