// Where a line of a text ends.
ghost use Rattle.std.specs.Prelude.{◌≤◌, length};
ghost use Rattle.listing.specs.Lines.{LineEnds};

const NEWLINE: u8 = 10;

// At the first newline from a place on, or at the text's end.
pub fn line_end(text: &[u8], at: usize) -> usize
    requires { at ≤ length text.now }
    ensures { LineEnds text.now at result }
{
    for i in at..text.len() {
        if text[i] == NEWLINE {
            return i;
        }
    }
    text.len()
}
