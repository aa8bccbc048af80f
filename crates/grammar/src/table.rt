// What may follow what in a line: the table of the grammar, and the row that takes a word.
ghost use Rattle.std.specs.Prelude.{◌≡◌, ◌<◌, ◌≤◌};
ghost use Rattle.grammar.specs.Grammar.{reading, rows, grammar};
ghost use Rattle.grammar.specs.Line.{takes, row_for, value_by};

use crate::entries::ROWS;
use rules::version;

// Seven numbers a row: place, way of reading, least, most, what is set, to what, and where it leads.
pub const PER_ROW: usize = 7;

pub const ENTRIES: usize = ROWS * PER_ROW;

// Ways of reading a word; without a name, by its letters.
pub const WITH_BOARDS: u64 = 1;

pub const AS_NUMBER: u64 = 2;

pub const AS_PARTS: u64 = 3;

// The table, for a caller to lend: a use of the constant copies it to the stack, so it is used once for many words.
pub fn table() -> [u64; ENTRIES]
    ensures { result ≡ grammar }
{
    crate::entries::TABLE
}

// What a word is read as.
pub fn reading(version: u64, way: u64, word: &[u8]) -> u64
    ensures { result ≡ reading version way word.now }
{
    if way == AS_PARTS {
        return crate::numbers::parts(version, word);
    }
    if way == AS_NUMBER {
        return crate::numbers::whole(word);
    }
    if way == WITH_BOARDS {
        // a word of boards is read as one that is longer than all
        if version != version::BOARDED {
            return crate::numbers::LONGER;
        }
        return crate::numbers::letters(word);
    }
    crate::numbers::letters(word)
}

// Whether a row takes a word at a place.
fn row_takes(table: &[u64; ENTRIES], version: u64, place: u64, word: &[u8], i: usize) -> bool
    requires { (table.now ≡ grammar) × (i < rows) }
    ensures { result ≡ takes version place word.now i }
{
    let at = i * PER_ROW;
    if table[at] != place {
        return false;
    }
    let number = reading(version, table[at + 1], word);
    if number < table[at + 2] {
        return false;
    }
    number <= table[at + 3]
}

// What a row sets: by a word its own value, by a number that number.
pub fn value_by(table: &[u64; ENTRIES], version: u64, row: usize, word: &[u8]) -> u64
    requires { (table.now ≡ grammar) × (row < rows) }
    ensures { result ≡ value_by version row word.now }
{
    let at = row * PER_ROW;
    let way = table[at + 1];
    if way < AS_NUMBER {
        return table[at + 5];
    }
    reading(version, way, word)
}

// The first row that takes a word at a place; ROWS where none does.
pub fn row_for(table: &[u64; ENTRIES], version: u64, place: u64, word: &[u8]) -> usize
    requires { table.now ≡ grammar }
    ensures { (result ≡ row_for version place word.now) × (result ≤ rows) }
{
    for i in 0..ROWS {
        if row_takes(table, version, place, word, i) {
            return i;
        }
    }
    ROWS
}
