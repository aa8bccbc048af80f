// A word as it is told.
ghost use Rattle.std.specs.Prelude.{◌≡◌, map, ◌+◌, ◌≤◌, length};
ghost use Rattle.text.specs.Added.{Added};
ghost use Rattle.faults.specs.Told.{plain, shown, shown_room};

// How much of a longer word is told.
const MOST_SHOWN: usize = 20;

// A byte as a plain character, a question mark for what is none.
fn plain(b: u8) -> u8
    ensures { result ≡ plain b }
{
    if b < 33 {
        return b'?';
    }
    if b > 126 {
        return b'?';
    }
    b
}

// Puts the bytes of a word, each as a plain character.
fn put_plain(word: &[u8], out: &mut [u8], at: usize) -> usize
    requires { at + length word.now ≤ length out.old }
    ensures { Added (map plain word.now) out.old at out.new result }
{
    for (k, byte) in word.iter().enumerate() {
        out[at + k] = plain(*byte);
    }
    at + word.len()
}

// Puts a word, of a longer one its first bytes and two points.
pub fn put_shown(word: &[u8], out: &mut [u8], at: usize) -> usize
    requires { at + shown_room ≤ length out.old }
    ensures { Added (shown word.now) out.old at out.new result }
{
    if word.len() == 0 {
        return text::put(out, at, b"the end");
    }
    if word.len() > MOST_SHOWN {
        let end = put_plain(&word[..MOST_SHOWN], out, at);
        return text::put(out, end, b"..");
    }
    put_plain(word, out, at)
}
