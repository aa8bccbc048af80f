// What a program is asked for by its words: options, by a table that it names, and operands.
#![tactic(auto)]

ghost use Rattle.std.specs.Prelude.{◌≡◌, cond, ◌≤◌, ◌<◌, ◌*◌, ◌+◌, eqb, length, get_or};
ghost use Rattle.options.specs.Words.{row_length, most_options, rows_of, row_is, option_in, takes_word, is_option};
ghost use Rattle.options.specs.Words.{nothing, decided, option_at, ended_at, with_operand, with_row, with_option};
ghost use Rattle.options.specs.Words.{heard, finished, Sound};
ghost use Rattle.options.specs.Texts.{same_text};

// A row of the table: an option's name, blanks behind it, and `=` at the end where a word belongs to the option.
const ROW: usize = 12;

const NAME: usize = 11;

const BLANK: u8 = 32;

const EQUALS: u8 = 61;

const MINUS: u8 = 45;

// A program has no more options.
pub const OPTIONS: usize = 8;

// What a program is to do: its work, or what a word asks for or breaks first.
#[derive(Clone, Copy, PartialEq, Eq)]
pub enum Task {
    Work,
    Help,
    Version,
    Unknown,
    Many,
    Missing,
}

// Places are those of the program's words, from 1 on; 0 is none. What is to be done, and the place of the word that
// says so; where each option was given, its word's place or its own where none belongs to it; one more than the option
// that waits for its word; where `--` has ended the options; the operands.
#[derive(Clone, Copy)]
pub struct Asked {
    pub task: Task,
    pub at: usize,
    pub given: [usize; OPTIONS],
    pub waits: usize,
    pub ended: usize,
    pub operands: u64,
    pub first: usize,
}

// Before any word.
pub fn nothing() -> Asked
    ensures { result ≡ nothing }
{
    let given = [0usize; OPTIONS];
    Asked {
        task: Task::Work,
        at: 0,
        given,
        waits: 0,
        ended: 0,
        operands: 0,
        first: 0,
    }
}

// The byte of a word at a place, or a blank behind it.
fn byte_of(word: &[u8], j: usize) -> u8
    ensures { result ≡ get_or word.now j 32 }
{
    if j < word.len() {
        return word[j];
    }
    BLANK
}

// Is a word the name of option k?
fn row_is(table: &[u8], k: usize, word: &[u8]) -> bool
    requires { row_length * k + row_length ≤ length table.now }
    ensures { result ≡ row_is table.now k word.now }
{
    if word.len() > NAME {
        return false;
    }
    for j in 0..NAME {
        if table[ROW * k + j] != byte_of(word, j) {
            return false;
        }
    }
    true
}

// The option that a word names, or how many there are.
fn option_in(table: &[u8], word: &[u8]) -> usize
    ensures { result ≡ option_in table.now word.now }
{
    let rows = table.len() / ROW;
    for k in 0..rows {
        if row_is(table, k, word) {
            return k;
        }
    }
    rows
}

// A word that decides what is to be done.
fn decide(task: Task, asked: Asked, place: usize) -> Asked
    ensures { result ≡ decided task asked place }
{
    Asked {
        task,
        at: place,
        ..asked
    }
}

// Option k given at a place; it waits for its word, or does not.
fn give(k: usize, waits: usize, asked: Asked, place: usize) -> Asked
    requires { (k < most_options) × Sound asked }
    ensures { result ≡ option_at k waits asked place }
{
    let mut given = asked.given;
    given[k] = place;
    Asked {
        given,
        waits,
        ..asked
    }
}

// `--` ends the options.
fn end(asked: Asked, place: usize) -> Asked
    ensures { result ≡ ended_at asked place }
{
    Asked {
        ended: place,
        ..asked
    }
}

// The first operand's place.
fn first_of(asked: Asked, place: usize) -> usize
    ensures { result ≡ cond (eqb asked.operands 0) place asked.first }
{
    if asked.operands == 0 {
        place
    } else {
        asked.first
    }
}

// An operand, or one too many.
fn operand(most: u64, asked: Asked, place: usize) -> Asked
    ensures { result ≡ with_operand most asked place }
{
    if asked.operands < most {
        return Asked {
            operands: asked.operands + 1,
            first: first_of(asked, place),
            ..asked
        };
    }
    decide(Task::Many, asked, place)
}

// What option k waits for: one more than itself where a word belongs to it.
fn waiting(table: &[u8], k: usize) -> usize
    requires { row_length * k + row_length ≤ length table.now }
    ensures { result ≡ cond (takes_word table.now k) (k + 1) 0 }
{
    if table[ROW * k + NAME] == EQUALS {
        k + 1
    } else {
        0
    }
}

// Option k of the table, or one that it does not have.
fn row(table: &[u8], asked: Asked, place: usize, k: usize) -> Asked
    requires { (length table.now ≤ row_length * most_options) × Sound asked }
    ensures { result ≡ with_row table.now asked place k }
{
    if k < table.len() / ROW {
        return give(k, waiting(table, k), asked, place);
    }
    decide(Task::Unknown, asked, place)
}

// A word that is an option.
fn option(table: &[u8], asked: Asked, place: usize, word: &[u8]) -> Asked
    requires { (length table.now ≤ row_length * most_options) × Sound asked }
    ensures { result ≡ with_option table.now asked place word.now }
{
    if same(word, b"--") {
        return end(asked, place);
    }
    if same(word, b"--help") {
        return decide(Task::Help, asked, place);
    }
    if same(word, b"--version") {
        return decide(Task::Version, asked, place);
    }
    row(table, asked, place, option_in(table, word))
}

// Is a word an option?
fn is_option(ended: usize, word: &[u8]) -> bool
    ensures { result ≡ is_option ended word.now }
{
    if ended != 0 {
        return false;
    }
    if word.len() < 2 {
        return false;
    }
    word[0] == MINUS
}

// One word more.
pub fn hear(table: &[u8], most: u64, asked: Asked, place: usize, word: &[u8]) -> Asked
    requires { (length table.now ≤ row_length * most_options) × Sound asked }
    ensures is { result ≡ heard table.now most asked place word.now }
    ensures sound { Sound result }
{
    if asked.task != Task::Work {
        return asked;
    }
    if asked.waits != 0 {
        return give(asked.waits - 1, 0, asked, place);
    }
    if is_option(asked.ended, word) {
        return option(table, asked, place, word);
    }
    operand(most, asked, place)
}

// All words heard: an option that still waits misses its word.
pub fn finish(asked: Asked, place: usize) -> Asked
    ensures { result ≡ finished asked place }
{
    if asked.task != Task::Work {
        return asked;
    }
    if asked.waits == 0 {
        return asked;
    }
    decide(Task::Missing, asked, place)
}

// Whether two texts are the same.
pub fn same(a: &[u8], b: &[u8]) -> bool
    ensures { result ≡ same_text a.now b.now }
{
    a == b
}
