// Where the words of a line stand.
ghost use Rattle.std.specs.Prelude.{◌≡◌, ◌≤◌, length};
ghost use Rattle.grammar.specs.Words.{blank};
ghost use Rattle.grammar.specs.Stands.{Skipped, Passed, Spanned};

const COMMENT: u8 = 35;

// Whether a byte stands between words.
fn is_blank(b: u8) -> bool
    ensures { result ≡ blank b }
{
    if b == 32 {
        return true;
    }
    if b == 9 {
        return true;
    }
    b == 13
}

// Where the first byte from a place on stands that is no blank.
pub fn skip(line: &[u8], at: usize) -> usize
    requires { at ≤ length line.now }
    ensures { Skipped line.now at result }
{
    for i in at..line.len() {
        if !is_blank(line[i]) {
            return i;
        }
    }
    line.len()
}

// Where the word that begins at a place ends: at a blank, a comment or the line's end.
pub fn pass(line: &[u8], at: usize) -> usize
    requires { at ≤ length line.now }
    ensures { Passed line.now at result }
{
    for i in at..line.len() {
        if line[i] == COMMENT || is_blank(line[i]) {
            return i;
        }
    }
    line.len()
}

// Where a word stands: from one place up to another, which is the same one where there is no word.
#[derive(Clone, Copy)]
pub struct Span {
    pub from: usize,
    pub upto: usize,
}

// The next word from a place on.
pub fn next(line: &[u8], at: usize) -> Span
    requires { at ≤ length line.now }
    ensures { Spanned line.now at result.from result.upto }
{
    let from = skip(line, at);
    let upto = pass(line, from);
    Span { from, upto }
}
