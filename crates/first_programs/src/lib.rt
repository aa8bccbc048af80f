// The two programs from a typed list to figures, each a function that answers the exit status.
#![tactic(auto)]

ghost use Rattle.shell.specs.Status.{Status};

pub fn deckmake_run(rt: &HostRuntime) -> i32
    ensures { Status result }
{
    deckmake::run(rt)
}

pub fn decklist_run(rt: &HostRuntime) -> i32
    ensures { Status result }
{
    decklist::run(rt)
}
