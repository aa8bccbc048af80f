// The loop over a season's stream: each read brings just the bytes that are asked for, and they are fed.
ghost use Rattle.std.specs.Prelude.{◌≤◌, length};
ghost use Rattle.shell.specs.Edges.{label_room, FitsNext};
ghost use Rattle.season_stream.specs.Reading.{Sane};

use ending::LONGEST;
use options::Asked;
use season_stream::Reading;
use shell::names::LABEL;
use shell::sources::{More, Source};
use shell::{sources, writing};
use std::io::IsTerminal;

// What was read of the stream; or a read that failed, which was told.
#[derive(Clone, Copy)]
pub struct Got {
    pub reading: Reading,
    pub failed: bool,
}

// More pieces than the files of a season have bytes: 2^40.
const MOST_PIECES: u64 = 1099511627776;

// So many decks are told at a time.
const TOLD: u64 = 100;

// Room for what is told.
const LINE: usize = 32;

// Tells how many decks were read, on a line that the next number takes, each time that so many are whole.
fn show(rt: &HostRuntime, shown: bool, reading: Reading) {
    if !shown || reading.closed || reading.kept != 0 {
        return;
    }
    let totals = reading.totals;
    if totals.decks % TOLD == 0 {
        let mut line = [0u8; LINE];
        let end = text::put_named(b"\rdecks ", totals.decks, &mut line, 0);
        writing::say(rt, &line[..end]);
    }
}

// Reads on, so many bytes at most, into the buffer's front.
fn read_piece(
    rt: &HostRuntime,
    asked: Asked,
    source: Source,
    label: &mut [u8; LABEL],
    wanted: usize,
    piece: &mut [u8],
) -> More
    requires { (source.end ≤ label_room) × (wanted ≤ length piece.old) }
    ensures { FitsNext (length piece.new) result }
{
    sources::read_more(rt, b"season", asked, source, label, &mut piece[..wanted])
}

// Reads until the stream ends, or nothing more is read of it.
fn read_stream(
    rt: &HostRuntime,
    shown: bool,
    asked: Asked,
    source: Source,
    label: &mut [u8; LABEL],
) -> Got
    requires { source.end ≤ label_room }
    ensures { Sane result.reading }
{
    let mut piece = [0u8; LONGEST];
    let mut reading = season_stream::start();
    let mut source = source;
    for _ in 0..MOST_PIECES {
        if reading.closed {
            break;
        }
        let wanted = season_stream::lacks(reading);
        let more = read_piece(rt, asked, source, label, wanted, &mut piece);
        source = more.source;
        let filled = more.filled;
        if filled == 0 {
            return Got {
                reading,
                failed: more.failed,
            };
        }
        reading = season_stream::feed(reading, &piece[..filled]);
        show(rt, shown, reading);
    }
    Got {
        reading,
        failed: false,
    }
}

// Wipes what was told of the decks.
fn wipe(rt: &HostRuntime, shown: bool) {
    if shown {
        writing::say(rt, b"\r                \r");
    }
}

// Reads the files that are asked for. Where standard error is a terminal, decks are told as they are read.
pub fn read_all(rt: &HostRuntime, asked: Asked) -> Got
    ensures { Sane result.reading }
{
    let mut label = [0u8; LABEL];
    let source = sources::begin(rt, b"season", asked, &mut label);
    if !sources::is_open(&source) {
        let reading = season_stream::start();
        return Got {
            reading,
            failed: true,
        };
    }
    let shown = rt.stderr().is_terminal();
    let got = read_stream(rt, shown, asked, source, &mut label);
    wipe(rt, shown);
    got
}
