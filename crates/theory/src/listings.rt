// The laws of the listings of a set of nodes: roots, order and links. Each function asks for the proof of one; none does work.
ghost use Rattle.theory.specs.Listings.{RootsAreEntries, RootsAreOne, OrderRunsOnward, LinksShowWhatRootsReach, RootsReachAll, LinksShowAll, LinksFit, ShowGoesBySteps};
ghost use Rattle.theory.specs.Example.{Example};

pub fn roots_are_entries<W>()
    ensures { RootsAreEntries W }
{}

pub fn roots_are_one<W>()
    ensures { RootsAreOne W }
{}

pub fn order_runs_onward<W>()
    ensures { OrderRunsOnward W }
{}

pub fn links_show_what_roots_reach<W>()
    ensures { LinksShowWhatRootsReach W }
{}

pub fn roots_reach_all<W>()
    ensures { RootsReachAll W }
{}

pub fn links_show_all<W>()
    ensures { LinksShowAll W }
{}

pub fn links_fit<W>()
    ensures { LinksFit W }
{}

pub fn show_goes_by_steps<X>()
    ensures { ShowGoesBySteps X }
{}

// A graph that meets what the laws ask for, with its listings.
pub fn example()
    ensures { Example }
{}
