// The fans that a text lists, with the line of each.
ghost use Rattle.std.specs.Prelude.{◌+◌, ◌<◌, ◌≤◌, []};
ghost use Rattle.rules.specs.File.{most_fans};
ghost use Rattle.typed_lists.specs.Lists.{Fanned, MoreFans};

use rules::limit;

// So many of each list's entries count, from its front.
#[derive(Clone, Copy)]
pub struct Fans {
    pub count: usize,
    pub survival: [u32; limit::FANS],
    pub weights: [u16; limit::FANS],
    pub boards: [u8; limit::FANS],
    pub lines: [u64; limit::FANS],
}

// Those of an empty text.
pub fn no_fans() -> Fans
    ensures { Fanned result [] [] [] [] }
{
    let survival = [0u32; limit::FANS];
    let weights = [0u16; limit::FANS];
    let boards = [0u8; limit::FANS];
    let lines = [0u64; limit::FANS];
    Fans {
        count: 0,
        survival,
        weights,
        boards,
        lines,
    }
}

// One fan more.
fn plus_one(fans: Fans, parts: u32, weight: u16, board: u8, line: u64) -> Fans
    requires { fans.count < most_fans }
    ensures { MoreFans fans result 1 parts weight board line }
{
    let i = fans.count;
    let mut survival = fans.survival;
    let mut weights = fans.weights;
    let mut boards = fans.boards;
    let mut lines = fans.lines;
    survival[i] = parts;
    weights[i] = weight;
    boards[i] = board;
    lines[i] = line;
    Fans {
        count: i + 1,
        survival,
        weights,
        boards,
        lines,
    }
}

// So many fans more, all alike: the fans then.
pub fn plus(fans: Fans, more: u64, parts: u32, weight: u16, board: u8, line: u64) -> Fans
    requires { fans.count + more ≤ most_fans }
    ensures { MoreFans fans result more parts weight board line }
{
    let mut all = fans;
    for _ in 0..more {
        all = plus_one(all, parts, weight, board, line);
    }
    all
}
