// The words that every call shares: a rule, a system of a deck, what each call answers, and the documents' numbers.
// They hold no code but a refusal's number.
#![tactic(auto)]

pub mod kind; // kind.rt: the kinds of a rule
pub mod limit; // limit.rt: the most and the least of everything
pub mod refusal; // refusal.rt: the refusal numbers
pub mod version; // version.rt: the file's versions and their units

// Document 01, "The seven verdicts": the rule carries two numbers, "first" and "second".
#[derive(Clone, Copy)]
pub struct Rule {
    pub kind: u64,
    pub first: u64,
    pub second: u64,
}

// Document 02, request 05, a pair of kind 8: of any r in a row at least k must work.
#[derive(Clone, Copy)]
pub struct Pair {
    pub k: u64,
    pub r: u64,
}

// Kind 8 with the rule's own pair alone; the list that kinds 1 to 7, which read none, are handed.
pub const NO_MORE: [u64; 0] = [];

// A system of a deck: a rule over the fans from a to b.
#[derive(Clone, Copy)]
pub struct System {
    pub rule: Rule,
    pub a: u64,
    pub b: u64,
}

// What is asked of a rating beside its lists: the version, which says the unit, the rule, and the stretch from a to b.
#[derive(Clone, Copy)]
pub struct Question {
    pub version: u64,
    pub rule: Rule,
    pub a: u64,
    pub b: u64,
}

// The lists that a rating reads: the survival numbers and the weights of a deck's fans, kind 8's further pairs, the
// fans' boards, and the boards' own survival numbers.
#[derive(Clone, Copy)]
pub struct RatedLists<'a> {
    pub survival: &'a [u32],
    pub weights: &'a [u16],
    pub more: &'a [u64],
    pub boards: &'a [u8],
    pub switchboards: &'a [u32],
}

// The verdict on one state. Where the system fails a place is named: the lowest component at which a failing window
// starts, or 0 where the rule has no windows.
#[derive(Clone, Copy)]
pub enum Verdict {
    Works,
    Fails(u64),
    Refused(u64),
}

// The figures of a list or a stretch.
#[derive(Clone, Copy)]
pub enum Rating {
    Range { low: u64, high: u64 },
    Refused(u64),
}

// A spare that is tried in the place of one fan, and its survival number.
#[derive(Clone, Copy)]
pub struct Spare {
    pub fan: u64,
    pub p: u64,
}

// The worth of one fan, or the gain of a spare in its place, in signed parts of the unit.
#[derive(Clone, Copy)]
pub enum Worth {
    Ends { lower: i64, upper: i64 },
    Refused(u64),
}

// Whether a count table was written.
#[derive(Clone, Copy)]
pub enum Counting {
    Counted,
    Refused(u64),
}

// Whether a deck file was written, and its length.
#[derive(Clone, Copy)]
pub enum Writing {
    Written(u64),
    Refused(u64),
}

// Whether a deck file was mended: how many bytes were written, how many of the file's were changed, and how many were
// cut.
#[derive(Clone, Copy)]
pub enum Mending {
    Mended { size: u64, changed: u64, cut: u64 },
    Refused(u64),
}
