// How far the trying of pairs is, on standard error where that is a terminal.
ghost use Rattle.std.specs.Prelude.{◌≤◌};
ghost use Rattle.io.specs.Counts.{IsPrefixLen};
ghost use Rattle.rules.specs.Refusal.{most};

use shell::writing;
use std::io::IsTerminal;

// Room for what is told.
const LINE: usize = 96;

// Puts how many of a system's pairs were tried, and how many there are.
fn put_tried(s: u64, rated: u64, pairs: u64, out: &mut [u8; LINE]) -> usize
    ensures { IsPrefixLen result out.new }
{
    let line: &mut [u8] = out;
    let named = text::put_named(b"\rsystem ", s, line, 0);
    let tried = text::put_named(b" pairs ", rated, line, named);
    text::put_named(b" of ", pairs, line, tried)
}

// Tells that, on a line that the next number takes.
pub fn show(rt: &HostRuntime, s: u64, rated: u64, size: u64)
    requires { (1 ≤ size) × (size ≤ most) }
{
    if rt.stderr().is_terminal() {
        let mut line = [0u8; LINE];
        let end = put_tried(s, rated, size * (size - 1) / 2, &mut line);
        writing::say(rt, &line[..end]);
    }
}

// Wipes what was told.
pub fn wipe(rt: &HostRuntime) {
    if rt.stderr().is_terminal() {
        writing::say(rt, b"\r                                \r");
    }
}
