// What the words say: which fans have failed, or which word is wrong.
ghost use Rattle.std.specs.Prelude.{◌≡◌, ◌+◌, ◌≤◌, ◌<◌, length};
ghost use Rattle.rules.specs.Refusal.{most};
ghost use Rattle.deck.specs.Outcome.{Opens};
ghost use Rattle.options.specs.Words.{Sound};
ghost use Rattle.deckstate.specs.Words.{faulty, fans_heard, board_heard, board_asked, heard, ended};
ghost use Rattle.deckstate.specs.Words.{hearing_none, hears_word, SaidOf};

use deck::Head;
use options::Asked;
use rules::refusal::Refusal;
use shell::words;

// The longest word that is read: a longer one is cut to none, which names nothing.
const WORD: usize = 256;

// Any number of words is taken.
pub const MOST_WORDS: u64 = 4294967296;

// What the words so far say: the state of the deck; whether a board's number is due; and the number of the first wrong
// word, 0 for none, with what was wanted and the most that it could have been.
#[derive(Clone, Copy)]
pub struct Said {
    pub state: u64,
    pub due: bool,
    pub wrong: u64,
    pub wanted: u64,
    pub most: u64,
}

// What can be wanted: fans; a board; no board, since the deck has none; a board's number behind the last word.
pub const FANS: u64 = 1;

pub const BOARD: u64 = 2;

pub const NO_BOARD: u64 = 3;

pub const NUMBER: u64 = 4;

// What is said without a fault.
fn sound(state: u64, due: bool) -> Said
    ensures { result ≡ record { state = state; due = due; wrong = 0; wanted = 0; most = 0 } }
{
    Said {
        state,
        due,
        wrong: 0,
        wanted: 0,
        most: 0,
    }
}

// The at-th word is wrong.
fn faulty(state: u64, at: u64, wanted: u64, most: u64) -> Said
    ensures { result ≡ faulty state at wanted most }
{
    Said {
        state,
        due: false,
        wrong: at,
        wanted,
        most,
    }
}

// A word where fans may be named, the at-th.
fn fans_heard(n: u64, at: u64, word: &[u8], state: u64) -> Said
    requires { n ≤ most }
    ensures { result ≡ fans_heard n at word.now state }
{
    let named = naming::name_fans(n, word, state);
    if named.wrong {
        return faulty(state, at, FANS, n);
    }
    sound(named.state, false)
}

// A number where a board's is due.
fn board_heard(g: u64, boards: &[u8], at: u64, number: u64, state: u64) -> Said
    requires { length boards.now ≤ most }
    ensures { result ≡ board_heard g boards.now at number state }
{
    if refusals::outside(1, number, g) {
        return faulty(state, at, BOARD, g);
    }
    sound(states::board_failed(boards, number, state), false)
}

// The word that a board's number follows, where there are boards.
fn board_asked(g: u64, at: u64, state: u64) -> Said
    ensures { result ≡ board_asked g at state }
{
    if g == 0 {
        return faulty(state, at, NO_BOARD, 0);
    }
    sound(state, true)
}

// What is said with one word more, the at-th; what follows a wrong word is not looked at.
fn hear_word(n: u64, g: u64, boards: &[u8], at: u64, word: &[u8], said: Said) -> Said
    requires { (n ≤ most) × (length boards.now ≤ most) }
    ensures { result ≡ heard n g boards.now at word.now said }
{
    if said.wrong != 0 {
        return said;
    }
    let state = said.state;
    if said.due {
        return board_heard(g, boards, at, naming::number::number_of(word), state);
    }
    if options::same(word, b"board") {
        return board_asked(g, at, state);
    }
    fans_heard(n, at, word, state)
}

// At the end of so many words: one after which a board's number did not come is wrong.
fn end_words(g: u64, count: u64, said: Said) -> Said
    ensures { result ≡ ended g count said }
{
    if said.due {
        return faulty(said.state, count, NUMBER, g);
    }
    said
}

// What all words of the program so far ask for, how many of them are no options, and what those say.
#[derive(Clone, Copy)]
pub struct Hearing {
    pub asked: Asked,
    pub heard: u64,
    pub said: Said,
}

// Before the first word.
fn silence() -> Hearing
    ensures { (result ≡ hearing_none) × Sound result.asked }
{
    let asked = options::nothing();
    let said = sound(0, false);
    Hearing {
        asked,
        heard: 0,
        said,
    }
}

// One word of the program more, at its place.
fn hear(n: u64, g: u64, boards: &[u8], hearing: Hearing, place: usize, word: &[u8]) -> Hearing
    requires n_le_most { (n ≤ most) × (length boards.now ≤ most) }
    requires sound { Sound hearing.asked × (hearing.heard < place) }
    ensures value { result ≡ hears_word n g boards.now place word.now hearing }
    ensures sound_2 { Sound result.asked × (result.heard ≤ hearing.heard + 1) }
{
    let before = hearing.asked;
    let said = hearing.said;
    let next = options::hear(b"-f         =", MOST_WORDS, before, place, word);
    if next.operands == before.operands {
        return Hearing {
            asked: next,
            heard: hearing.heard,
            said,
        };
    }
    let heard = hearing.heard + 1;
    let more = hear_word(n, g, boards, heard, word, said);
    Hearing {
        asked: next,
        heard,
        said: more,
    }
}

// The place of the last word that was listened to: one that is no option, while none before it is wrong.
fn listened(before: Hearing, next: Hearing, place: usize, at: usize) -> usize {
    if before.said.wrong != 0 {
        return at;
    }
    if before.heard < next.heard { place } else { at }
}

// What was heard, and the place of the last word that was listened to: the wrong one, where one is.
#[derive(Clone, Copy)]
pub struct AllHeard {
    pub hearing: Hearing,
    pub at: usize,
}

// The loop over the words of the program, for a deck of n fans on these boards, of which there are g.
fn hear_words(rt: &HostRuntime, n: u64, g: u64, boards: &[u8]) -> AllHeard
    requires { (n ≤ most) × (length boards.now ≤ most) }
{
    let count = words::count(rt);
    let mut word = [0u8; WORD];
    let mut hearing = silence();
    let mut at: usize = 0;
    for i in 1..count {
        let length = words::put_word(rt, i, &mut word);
        let next = hear(n, g, boards, hearing, i, &word[..length]);
        at = listened(hearing, next, i, at);
        hearing = next;
    }
    AllHeard { hearing, at }
}

// The same for the deck of a file that was opened; of a refused file no word is heard.
pub fn hear_all(rt: &HostRuntime, file: &[u8], opened: Result<Head, Refusal>) -> AllHeard
    requires { Opens file.now opened }
{
    match opened {
        Ok(head) => {
            let boards = deck::boards_in(file, head);
            hear_words(rt, head.fans as u64, head.boards as u64, boards)
        }
        Err(_) => {
            let hearing = silence();
            AllHeard { hearing, at: 0 }
        }
    }
}

// What the words that were heard say of that deck.
pub fn settled(file: &[u8], opened: Result<Head, Refusal>, hearing: Hearing) -> Said
    requires { Opens file.now opened }
    ensures { SaidOf file.now hearing result }
{
    match opened {
        Ok(head) => {
            let said = hearing.said;
            end_words(head.boards as u64, hearing.heard, said)
        }
        Err(_) => sound(0, false),
    }
}
