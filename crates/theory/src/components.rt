// The laws of the post-order walk and of Kosaraju's components. Each function asks for the proof of one; none does work.
ghost use Rattle.theory.specs.PostOrder.{WalkFinishesWhatItReaches, SweepFinishesInPostOrder, PostOrderSorts, StackFits, RunGoesBySteps};
ghost use Rattle.theory.specs.Components.{GroupsAreComponents, EdgesRunOnward, GatherFits, StacksFit, GatherGoesBySteps};

pub fn walk_finishes_what_it_reaches()
    ensures { WalkFinishesWhatItReaches }
{}

pub fn sweep_finishes_in_post_order()
    ensures { SweepFinishesInPostOrder }
{}

pub fn post_order_sorts()
    ensures { PostOrderSorts }
{}

pub fn groups_are_components<W>()
    ensures { GroupsAreComponents W }
{}

pub fn edges_run_onward<W>()
    ensures { EdgesRunOnward W }
{}

pub fn stack_fits()
    ensures { StackFits }
{}

pub fn gather_fits()
    ensures { GatherFits }
{}

pub fn stacks_fit<W>()
    ensures { StacksFit W }
{}

pub fn run_goes_by_steps()
    ensures { RunGoesBySteps }
{}

pub fn gather_goes_by_steps()
    ensures { GatherGoesBySteps }
{}
