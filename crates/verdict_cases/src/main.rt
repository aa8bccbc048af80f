// Runs the cases of standard input and writes a verdict a line. All of the input is words of 64 bits, lowest byte
// first: the number of cases, then each case: kind, first, second, n, state, the number of weights, the weights, how
// many numbers the further pairs have, these. A case that is cut short ends the run.
#![tactic(auto)]

ghost use Rattle.std.specs.Prelude.{◌+◌, ◌≤◌, length};
ghost use Rattle.io.specs.Counts.{IsPrefixLen};
ghost use Rattle.casefile.specs.Cases.{Within};
ghost use Rattle.verdict_cases.specs.Case.{head_words};

use casefile::{cases, streams, words};
use rules::Verdict;

// Where a case has n and the state, and how many words come before the weights.
const FANS: usize = 3;

const STATE: usize = 4;

const HEAD: usize = 6;

// The verdict that the case at `at` asks for, with its lists.
fn asked(bytes: &[u8], at: usize, weights: &[u16], more: &[u64]) -> Verdict
    requires { at + head_words ≤ length bytes.now }
{
    let rule = cases::rule_at(bytes, at);
    let n = words::word(bytes, at + FANS);
    let state = words::word(bytes, at + STATE);
    verdict::verdict_on(rule, n, weights, more, state)
}

// The same, with the lists read from the case: it has so many words up to its weights, then so many of the further
// pairs' list.
fn judged(bytes: &[u8], at: usize, size: usize, list: usize) -> Verdict
    requires case { Within bytes.now at head_words size }
    requires further { Within bytes.now (at + size) 1 list }
{
    let w = size - HEAD;
    let m = list - 1;
    let mut weights = casefile::weights_room();
    words::shorts(bytes, at + HEAD, &mut weights[..w]);
    let mut more = casefile::more_room();
    words::fulls(bytes, at + size + 1, &mut more[..m]);
    asked(bytes, at, &weights[..w], &more[..m])
}

// Puts a line of a name and a number into the buffer and answers where it ends.
fn put_numbered(name: &[u8], number: u64, out: &mut [u8], at: usize) -> usize
    requires { at ≤ length out.old }
    ensures { result ≤ length out.new }
{
    let end = text::put_named(name, number, out, at);
    text::put(out, end, b"\n")
}

// Puts a verdict's line into the buffer and answers where it ends.
fn put_verdict(v: Verdict, out: &mut [u8], at: usize) -> usize
    requires { at ≤ length out.old }
    ensures { result ≤ length out.new }
{
    match v {
        Verdict::Works => text::put(out, at, b"works\n"),
        Verdict::Fails(place) => put_numbered(b"fails ", place, out, at),
        Verdict::Refused(number) => put_numbered(b"refused ", number, out, at),
    }
}

// Runs every case and answers how much of the buffer its lines fill.
fn run(bytes: &[u8], out: &mut [u8]) -> usize
    ensures { IsPrefixLen result out.new }
{
    if words::whole(bytes) < 1 {
        return 0;
    }
    let cases = words::word(bytes, 0);
    let mut at: usize = 1;
    let mut end: usize = 0;
    for _ in 0..cases {
        let size = cases::case_size(bytes, at, HEAD);
        if size < HEAD {
            return end;
        }
        let list = cases::list_size(bytes, at + size);
        if list < 1 {
            return end;
        }
        end = put_verdict(judged(bytes, at, size, list), out, end);
        at += size + list;
    }
    end
}

fn main(rt: HostRuntime) {
    let mut input = casefile::room();
    let n = streams::read_input(&rt, &mut input);
    let mut out = casefile::room();
    let end = run(&input[..n], &mut out);
    streams::write_output(&rt, &out[..end]);
}
