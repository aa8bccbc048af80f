// The line that tells a fault of a typed text: its number, the word there, what was wanted.
#![tactic(auto)]

mod shown; // shown.rt: the word
mod wanted; // wanted.rt: what was wanted

ghost use Rattle.std.specs.Prelude.{◌+◌, ◌≤◌, length};
ghost use Rattle.text.specs.Added.{Added};
ghost use Rattle.grammar.specs.Text.{fault_at};
ghost use Rattle.faults.specs.Told.{spot_text, spot_room, fault_text, fault_room};

// Puts where a fault is.
fn put_spot(line: u64, word: &[u8], out: &mut [u8], at: usize) -> usize
    requires { at + spot_room ≤ length out.old }
    ensures { Added (spot_text line word.now) out.old at out.new result }
{
    let number = text::put_named(b"line ", line, out, at);
    let end = text::put(out, number, b": ");
    shown::put_shown(word, out, end)
}

// Puts a fault's line and answers where it ends.
pub fn put_fault(
    line: u64,
    word: &[u8],
    wanted: u64,
    named: u64,
    out: &mut [u8],
    at: usize,
) -> usize
    requires { at + fault_room ≤ length out.old }
    ensures { Added (fault_text (fault_at line word.now wanted named)) out.old at
        out.new result }
{
    let spot = put_spot(line, word, out, at);
    let middle = text::put(out, spot, b": wanted ");
    let end = wanted::put_wanted(wanted, named, out, middle);
    text::put(out, end, b"\n")
}
