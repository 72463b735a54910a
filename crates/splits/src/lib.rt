// The writes of a store and of a delete, and how many splits a store makes.
#![tactic(auto)]

mod planning;

ghost use Rattle.splits.specs.Laws.{BlankSound, Deletes, DeletesSound, PlansLeast, RoomDecides, SplitsFree, Stores, StoresSound};

pub use planning::plan;

// The laws of the writes of a store and of a delete, on any contents. There is nothing to run: the contract is the point.
pub fn split_laws()
    ensures blank { BlankSound }
    ensures free { SplitsFree }
    ensures stores { Stores }
    ensures deletes { Deletes }
    ensures stores_sound { StoresSound }
    ensures deletes_sound { DeletesSound }
    ensures room { RoomDecides }
    ensures plan { PlansLeast }
{}
