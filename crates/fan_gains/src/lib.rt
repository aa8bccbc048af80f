// The gain of a spare to a system of a file.
#![tactic(auto)]

ghost use Rattle.std.specs.Prelude.{◌≡◌, replicate};
ghost use Rattle.rules.specs.Asked.{question_of, asked_with};
ghost use Rattle.rules.specs.Refusal.{cells};
ghost use Rattle.rules.specs.Gain.{gain_of};
ghost use Rattle.rules.specs.File.{gain_in, gain_loading_of};
ghost use Rattle.deck.specs.Outcome.{Placed};

use deck::Head;
use rules::limit::CELLS;
use rules::{NO_MORE, Question, RatedLists, Spare, System, Worth};

// The gain of a spare over a deck's lists, in a working table of its own, which nobody sees after it and nobody clears.
fn weigh_lists(version: u64, system: System, spare: Spare, lists: &RatedLists) -> Worth
    ensures { let question = question_of version system.rule system.a system.b in
        let q = asked_with question lists.now in
        result ≡ gain_of q spare.fan spare.p (replicate cells 0) }
{
    let rule = system.rule;
    let question = Question {
        version,
        rule,
        a: system.a,
        b: system.b,
    };
    let mut working = [0u64; CELLS];
    gain::weigh(question, spare, lists, &mut working)
}

// The gain of a spare to the system at a place of a file that is not refused, counted from 0. Only the lists are copied
// from the file's bytes.
pub fn weigh(file: &[u8], head: Head, s: usize, spare: Spare) -> Worth
    requires { Placed file.now head s }
    ensures { result ≡ gain_in file.now s spare.fan spare.p }
{
    let n = head.fans;
    let g = head.boards;
    let survival = deck::survival_in(file, head);
    let weights = deck::weights_in(file, head);
    let boards = deck::boards_in(file, head);
    let switchboards = deck::board_survival_in(file, head);
    let system = deck::system_in(file, head, s);
    let lists = RatedLists {
        survival: &survival[..n],
        weights: &weights[..n],
        more: &NO_MORE,
        boards,
        switchboards: &switchboards[..g],
    };
    weigh_lists(head.version, system, spare, &lists)
}

// The gain of a spare to a file's system, counted from 1: the file's refusal, then 14, then the system's own, then 17.
pub fn weigh_file(file: &[u8], system: u64, spare: Spare) -> Worth
    ensures { result ≡ gain_loading_of file.now system spare.fan spare.p }
{
    match systems::head_for(deck::open(file), system) {
        Ok(head) => weigh(file, head, (system - 1) as usize, spare),
        Err(refused) => Worth::Refused(refused.number()),
    }
}
