// The programs for a deck file, and for many, each a function that answers the exit status.
#![tactic(auto)]

ghost use Rattle.shell.specs.Status.{Status};

pub fn deckshow_run(rt: &HostRuntime) -> i32
    ensures { Status result }
{
    deckshow::run(rt)
}

pub fn deckworth_run(rt: &HostRuntime) -> i32
    ensures { Status result }
{
    deckworth::run(rt)
}

pub fn deckspare_run(rt: &HostRuntime) -> i32
    ensures { Status result }
{
    deckspare::run(rt)
}

pub fn deckstate_run(rt: &HostRuntime) -> i32
    ensures { Status result }
{
    deckstate::run(rt)
}

pub fn deckpage_run(rt: &HostRuntime) -> i32
    ensures { Status result }
{
    deckpage::run(rt)
}

pub fn deckmend_run(rt: &HostRuntime) -> i32
    ensures { Status result }
{
    deckmend::run(rt)
}

pub fn season_run(rt: &HostRuntime) -> i32
    ensures { Status result }
{
    season::run(rt)
}
