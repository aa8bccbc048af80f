// Runs the cases of standard input and writes an answer and the checksum of the lent table a line. All of the input is
// words of 64 bits, lowest byte first: the number of cases, then each case. A case that is cut short ends the run.
#![tactic(auto)]

mod lists; // lists.rt: a case's lists

ghost use Rattle.std.specs.Prelude.{◌+◌, ◌≤◌, length};
ghost use Rattle.io.specs.Counts.{IsPrefixLen};
ghost use Rattle.figures_case.specs.Whole.{head_words, Whole};

use casefile::{cases, streams, tables, words};
use figures_case::line::{Answer, put_line};
use figures_case::{
    A, B, CALL, FAN, HEAD, MOST_CELLS, OTHERS, PAIRED, PLACED, RULE, SEED, Sizes, VERSION, WEIGHED,
    size,
};
use rules::{Question, RatedLists};

// The call for the worth of a fan.
const WORTH: u64 = 1;

// What the case at `at` asks beside its lists.
fn question_at(bytes: &[u8], at: usize) -> Question
    requires { at + head_words ≤ length bytes.now }
{
    let version = words::word(bytes, at + VERSION);
    let rule = cases::rule_at(bytes, at + RULE);
    let a = words::word(bytes, at + A);
    let b = words::word(bytes, at + B);
    Question {
        version,
        rule,
        a,
        b,
    }
}

// The answer that the case at `at` asks of its lists.
fn asked(bytes: &[u8], at: usize, lists: &RatedLists, table: &mut [u64]) -> Answer
    requires { at + head_words ≤ length bytes.now }
{
    let question = question_at(bytes, at);
    if words::word(bytes, at + CALL) == WORTH {
        let fan = words::word(bytes, at + FAN);
        return Answer::Weighed(worth::worth(question, fan, lists, table));
    }
    Answer::Rated(figures::figures(question, lists, table))
}

// The same, with the lists read from the case: each stands behind the word that says how long it is.
fn answered(bytes: &[u8], at: usize, s: Sizes, table: &mut [u64]) -> Answer
    requires { Whole bytes.now at s }
{
    let n = s.fans;
    let w = s.weights;
    let m = s.more;
    let p = s.boards;
    let g = s.g;
    let survival = lists::longs(bytes, at + HEAD, n);
    let weights = lists::shorts(bytes, at + WEIGHED + n, w);
    let more = lists::fulls(bytes, at + PAIRED + n + w, m);
    let boards = lists::octets(bytes, at + PLACED + n + w + m, p);
    let switchboards = lists::longs(bytes, at + OTHERS + n + w + m + p, g);
    let read = RatedLists {
        survival: &survival[..n],
        weights: &weights[..w],
        more: &more[..m],
        boards: &boards[..p],
        switchboards: &switchboards[..g],
    };
    asked(bytes, at, &read, table)
}

// Runs one case over a table that it fills with rubbish, and puts its line.
fn run_over(
    bytes: &[u8],
    at: usize,
    s: Sizes,
    table: &mut [u64],
    out: &mut [u8],
    end: usize,
) -> usize
    requires case { Whole bytes.now at s }
    requires within { end ≤ length out.old }
    ensures { result ≤ length out.new }
{
    tables::rubbish(words::word(bytes, at + SEED), table);
    let answer = answered(bytes, at, s, table);
    put_line(answer, tables::checksum(table), out, end)
}

// The same, with a table of as many cells as the case says.
fn run_case(bytes: &[u8], at: usize, s: Sizes, out: &mut [u8], end: usize) -> usize
    requires case { Whole bytes.now at s }
    requires within { end ≤ length out.old }
    ensures { result ≤ length out.new }
{
    let room = s.room;
    let mut cells = [0u64; MOST_CELLS];
    run_over(bytes, at, s, &mut cells[..room], out, end)
}

// Runs every case and answers how much of the buffer its lines fill.
fn run(bytes: &[u8], out: &mut [u8]) -> usize
    ensures { IsPrefixLen result out.new }
{
    if words::whole(bytes) < 1 {
        return 0;
    }
    let cases = words::word(bytes, 0);
    let mut at: usize = 1;
    let mut end: usize = 0;
    for _ in 0..cases {
        let s = size::sizes_at(bytes, at);
        if !s.whole {
            return end;
        }
        end = run_case(bytes, at, s, out, end);
        at += s.long;
    }
    end
}

fn main(rt: HostRuntime) {
    let mut input = casefile::room();
    let n = streams::read_input(&rt, &mut input);
    let mut out = casefile::room();
    let end = run(&input[..n], &mut out);
    streams::write_output(&rt, &out[..end]);
}
