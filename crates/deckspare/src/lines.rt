// The lines that deckspare prints, put into a buffer.
ghost use Rattle.std.specs.Prelude.{◌+◌, ◌≤◌, length};
ghost use Rattle.text.specs.Added.{Added};
ghost use Rattle.deck.specs.Outcome.{Headed, Placed};
ghost use Rattle.printing.specs.Lines.{print_text};
ghost use Rattle.printing.specs.Front.{WholePrinted};
ghost use Rattle.spare_lines.specs.System.{system_room};
ghost use Rattle.deckspare.specs.Lines.{system_lines, systems_text, list_text, output_room};

use deck::Head;
use printing::INPUT;
use rules::{NO_MORE, Question, RatedLists};
use spare_lines::Job;

// Room for all lines: 218 bytes for each of 64 fans of 32 systems.
pub const OUTPUT: usize = 446464;

// What is asked for: so many of the best places, 0 for every place; or the best two places for two spares.
#[derive(Clone, Copy)]
pub struct Wanted {
    pub best: u64,
    pub two: bool,
}

// What is printed of a file's system. Only the lists are copied from the file's bytes.
fn put_system(
    rt: &HostRuntime,
    file: &[u8],
    head: Head,
    job: Job,
    out: &mut [u8],
    at: usize,
) -> usize
    requires placed { Placed file.now head job.s }
    requires room { at + system_room ≤ length out.old }
    ensures { Added (system_lines file.now job) out.old at out.new result }
{
    let n = head.fans;
    let g = head.boards;
    let survival = deck::survival_in(file, head);
    let weights = deck::weights_in(file, head);
    let boards = deck::boards_in(file, head);
    let switchboards = deck::board_survival_in(file, head);
    let system = deck::system_in(file, head, job.s);
    let rule = system.rule;
    let question = Question {
        version: head.version,
        rule,
        a: system.a,
        b: system.b,
    };
    let lists = RatedLists {
        survival: &survival[..n],
        weights: &weights[..n],
        more: &NO_MORE,
        boards,
        switchboards: &switchboards[..g],
    };
    spare_lines::put_asked(rt, question, job, &lists, out, at)
}

// The lines of its systems, of a spare with survival number p.
fn put_systems(
    rt: &HostRuntime,
    file: &[u8],
    head: Head,
    p: u64,
    wanted: Wanted,
    out: &mut [u8],
) -> usize
    requires headed { Headed file.now head }
    requires room { output_room ≤ length out.old }
    ensures { Added (systems_text p wanted file.now) out.old 0 out.new result }
{
    let mut end = 0;
    for s in 0..head.systems {
        let job = Job {
            s,
            p,
            best: wanted.best,
            two: wanted.two,
        };
        end = put_system(rt, file, head, job, out, end);
    }
    end
}

// All that is printed for a file, of the spare that a word names.
fn put_file(rt: &HostRuntime, word: &[u8], wanted: Wanted, file: &[u8], out: &mut [u8]) -> usize
    requires { output_room ≤ length out.old }
    ensures { let text = print_text (list_text word.now wanted) file.now in
        Added text out.old 0 out.new result }
{
    match deck::open(file) {
        Ok(head) => {
            let p = grammar::numbers::parts(head.version, word);
            put_systems(rt, file, head, p, wanted, out)
        }
        Err(refused) => printing::put_refused_file(refused.number(), out),
    }
}

// All that is printed for an input, of which the buffer holds the front: all of it, or as much as the buffer takes.
pub fn list_front(
    rt: &HostRuntime,
    word: &[u8],
    wanted: Wanted,
    input: &[u8; INPUT],
    filled: usize,
    out: &mut [u8],
) -> usize
    requires within { filled ≤ length input.now }
    requires room { output_room ≤ length out.old }
    ensures { let body = list_text word.now wanted in
        WholePrinted body input.now filled out.new result }
{
    put_file(rt, word, wanted, printing::front_of(input, filled), out)
}
