// The loop over a text of any length: what each read brings is fed.
ghost use Rattle.std.specs.Prelude.{◌+◌, ◌≤◌, ◌<◌, length};
ghost use Rattle.typed_lists.specs.Told.{told_room};
ghost use Rattle.listing.specs.Holds.{most_lines};
ghost use Rattle.text_stream.specs.Feeding.{line_room, Sane};

use options::Asked;
use shell::names::LABEL;
use shell::reading::{Input, Opened};
use shell::{failing, names, reading};
use text_stream::Feeding;

// So many bytes are read at a time.
const PIECE: usize = 65536;

// More pieces than any input has, so that their reading ends.
const MOST_PIECES: u64 = 1099511627776;

// What was fed up to the input's end; or a read failed.
#[derive(Clone, Copy)]
pub struct Text {
    pub feeding: Feeding,
    pub failed: bool,
}

// The text of an open input; a read that fails is told by its label.
fn read_text(
    rt: &HostRuntime,
    input: &mut Opened,
    label: &[u8],
    line: &mut [u8],
    out: &mut [u8],
) -> Text
    requires { (line_room ≤ length line.old) × (told_room ≤ length out.old) }
    ensures { Sane result.feeding out.new ×
        (result.feeding.listing.lines + 1 < most_lines) }
{
    let mut piece = [0u8; PIECE];
    let mut feeding = text_stream::start();
    for _ in 0..MOST_PIECES {
        let Input::Filled(filled) = reading::read_some(input, &mut piece) else {
            failing::fail(rt, label, reading::why(input));
            break;
        };
        if filled == 0 {
            return Text {
                feeding,
                failed: false,
            };
        }
        feeding = text_stream::feed(feeding, &piece[..filled], line, out);
    }
    Text {
        feeding,
        failed: true,
    }
}

// The text that is asked for; one that cannot be opened is told.
pub fn read_asked(rt: &HostRuntime, asked: Asked, line: &mut [u8], out: &mut [u8]) -> Text
    requires { (line_room ≤ length line.old) × (told_room ≤ length out.old) }
    ensures { Sane result.feeding out.new ×
        (result.feeding.listing.lines + 1 < most_lines) }
{
    let mut label = [0u8; LABEL];
    let end = names::put_label(rt, b"deckmake", asked.first, b"standard input", &mut label);
    let mut input = match reading::open(rt, asked.first) {
        Ok(input) => input,
        Err(why) => {
            failing::fail(rt, &label[..end], why);
            let feeding = text_stream::start();
            return Text {
                feeding,
                failed: true,
            };
        }
    };
    reading::tell_waiting(rt, b"deckmake", &input);
    read_text(rt, &mut input, &label[..end], line, out)
}
