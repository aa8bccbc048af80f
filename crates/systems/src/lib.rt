// The figures of a system of a deck.
#![tactic(auto)]

ghost use Rattle.std.specs.Prelude.{◌≡◌, IfOk, Ok, replicate};
ghost use Rattle.rules.specs.Asked.{question_of, asked_with};
ghost use Rattle.rules.specs.Refusal.{cells, refusal_in};
ghost use Rattle.rules.specs.Answer.{figures_of};
ghost use Rattle.rules.specs.File.{answer_in, loading_of};
ghost use Rattle.deck.specs.Outcome.{Opens, Placed};
ghost use Rattle.systems.specs.Opened.{open_refusal};

use deck::Head;
use rules::limit::CELLS;
use rules::refusal::Refusal;
use rules::{NO_MORE, Question, RatedLists, Rating, System};

// The rating call over a deck's lists, in a working table of its own, which nobody sees after it and nobody clears.
fn rate_lists(version: u64, system: System, lists: &RatedLists) -> Rating
    ensures { let question = question_of version system.rule system.a system.b in
        let q = asked_with question lists.now in
        result ≡ figures_of q (replicate cells 0) }
{
    let rule = system.rule;
    let question = Question {
        version,
        rule,
        a: system.a,
        b: system.b,
    };
    let mut table = [0u64; CELLS];
    figures::rate(question, lists, &mut table)
}

// The figures of the system at a place of a file that is not refused, counted from 0. Only the lists are copied from
// the file's bytes.
pub fn rate(file: &[u8], head: Head, s: usize) -> Rating
    requires { Placed file.now head s }
    ensures { result ≡ answer_in file.now s }
{
    let n = head.fans;
    let g = head.boards;
    let survival = deck::survival_in(file, head);
    let weights = deck::weights_in(file, head);
    let boards = deck::boards_in(file, head);
    let switchboards = deck::board_survival_in(file, head);
    let system = deck::system_in(file, head, s);
    let lists = RatedLists {
        survival: &survival[..n],
        weights: &weights[..n],
        more: &NO_MORE,
        boards,
        switchboards: &switchboards[..g],
    };
    rate_lists(head.version, system, &lists)
}

// The head of a file that was opened, where the file has a system of this number; else the file's refusal, or 14.
pub fn head_for(opened: Result<Head, Refusal>, system: u64) -> Result<Head, Refusal>
    ensures refusal { refusal_in result ≡ open_refusal opened system }
    ensures head { IfOk result (λ head. opened ≡ Ok head) }
{
    let head = opened?;
    if refusals::outside(1, system, head.systems as u64) {
        return Err(Refusal::System);
    }
    Ok(head)
}

// The answer for a system, counted from 1, of a file that was opened: the file's refusal, then 14, then the system's
// own.
pub fn rate_opened(file: &[u8], opened: Result<Head, Refusal>, system: u64) -> Rating
    requires { Opens file.now opened }
    ensures { result ≡ loading_of file.now system }
{
    match head_for(opened, system) {
        Ok(head) => rate(file, head, (system - 1) as usize),
        Err(refused) => Rating::Refused(refused.number()),
    }
}

// The same of a file that was not.
pub fn rate_file(file: &[u8], system: u64) -> Rating
    ensures { result ≡ loading_of file.now system }
{
    rate_opened(file, deck::open(file), system)
}
