// What a database holds: the pairs at home on reachable pages.
#![tactic(auto)]

ghost use Rattle.contents.specs.Laws.{HoldsOnce, PagesTidy, PlaceFound, TestsGood, WalkShows};

// The laws of what a database holds, whatever its blocks are. There is nothing to run: the contract is the point.
pub fn content_laws()
    ensures good { TestsGood }
    ensures place { PlaceFound }
    ensures tidy { PagesTidy }
    ensures held { HoldsOnce }
    ensures walk { WalkShows }
{}
