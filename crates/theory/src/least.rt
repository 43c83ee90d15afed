// Laws of rules, least sets and walks: each function asks for the proof of one; none does work. E is the type of edges.
ghost use Rattle.theory.specs.Rules.{InTurnIsFair};
ghost use Rattle.theory.specs.Least.{LeastIsUnique, LeastGrows, LeastByBounds, LeastExists, LeastIsReached};
ghost use Rattle.theory.specs.Walk.{StepIsOne, StepExists, WalkIsLeast, WalkStaysInside, WalkDoesEachOnce, RunWalks, WalkRuns, RunEnds, RunFits};
ghost use Rattle.theory.specs.AllPass.{EveryIsPostOrder};
ghost use Rattle.theory.specs.Sample.{FromSource, FromMiddle, SampleWalk};

pub fn in_turn_is_fair<E>()
    ensures { InTurnIsFair E }
{}

pub fn least_is_unique<E>()
    ensures { LeastIsUnique E }
{}

pub fn least_grows<E>()
    ensures { LeastGrows E }
{}

pub fn least_by_bounds<E>()
    ensures { LeastByBounds E }
{}

pub fn least_exists<E>()
    ensures { LeastExists E }
{}

pub fn least_is_reached<E>()
    ensures { LeastIsReached E }
{}

pub fn step_is_one<E>()
    ensures { StepIsOne E }
{}

pub fn step_exists<E>()
    ensures { StepExists E }
{}

pub fn walk_is_least<E>()
    ensures { WalkIsLeast E }
{}

pub fn walk_stays_inside<E>()
    ensures { WalkStaysInside E }
{}

pub fn walk_does_each_once<E>()
    ensures { WalkDoesEachOnce E }
{}

pub fn run_walks<E>()
    ensures { RunWalks E }
{}

pub fn walk_runs<E>()
    ensures { WalkRuns E }
{}

pub fn run_ends<E>()
    ensures { RunEnds E }
{}

pub fn run_fits<E>()
    ensures { RunFits E }
{}

pub fn every_is_post_order<E>()
    ensures { EveryIsPostOrder E }
{}

pub fn sample_from_source()
    ensures { FromSource }
{}

pub fn sample_from_middle()
    ensures { FromMiddle }
{}

pub fn sample_walk()
    ensures { SampleWalk }
{}
