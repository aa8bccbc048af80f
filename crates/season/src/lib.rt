// Prints the totals of deck files, one after another.
#![tactic(auto)]

mod reading; // reading.rt: the loop over the stream

ghost use Rattle.shell.specs.Status.{Status};
ghost use Rattle.season_stream.specs.Reading.{Sane};
ghost use Rattle.season.specs.Status.{EndsBy};

use reading::Got;
use season_stream::Reading;
use shell::starting;

const PROGRAM: [u8; 6] = *b"season";

const SYNOPSIS: [u8; 9] = *b"[FILE]...";

const OPTIONS: [u8; 0] = [];

// Any number of files is taken.
const MOST_FILES: u64 = 4294967296;

// Prints the report on what was read.
fn print_report(rt: &HostRuntime, reading: Reading) -> i32
    requires { Sane reading }
    ensures ends_by { EndsBy reading result }
    ensures status { Status result }
{
    let mut out = [0u8; season_report::OUTPUT];
    let report = season_stream::put_report(reading, &mut out);
    let end = report.end;
    starting::print(rt, &PROGRAM, 0, &out[..end], report.refused)
}

// The same, unless a read failed.
fn print_got(rt: &HostRuntime, got: Got) -> i32
    requires { Sane got.reading }
    ensures ends_by { EndsBy got.reading result }
    ensures status { Status result }
{
    if got.failed {
        return shell::FAILED;
    }
    let reading = got.reading;
    print_report(rt, reading)
}

// What the program does, by its words: its status.
pub fn run(rt: &HostRuntime) -> i32
    ensures { Status result }
{
    let heard = starting::hear(rt, &PROGRAM, &SYNOPSIS, &OPTIONS, MOST_FILES);
    if heard.ended {
        return heard.status;
    }
    let asked = heard.asked;
    let got = reading::read_all(rt, asked);
    print_got(rt, got)
}
