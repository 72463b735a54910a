// What each call of a database leaves of the pairs that it holds.
#![tactic(auto)]

ghost use Rattle.std.specs.Prelude.{Bool};
ghost use Rattle.upkeep.specs.Cases.{StoreCases};
ghost use Rattle.upkeep.specs.Laws.{AnsweredByRule, BlankHolds, DeleteKeeps, DeleteNever, FlushKeeps, HoldsExactly, ReadsKeep, StoreKeeps, StoreNever};

// From a blank database on, on every device, whatever the answers are. There is nothing to run: the contract is the point.
pub fn upkeep_laws()
    ensures blank { BlankHolds }
    ensures exactly { HoldsExactly }
    ensures rule { AnsweredByRule Unit × AnsweredByRule Bool }
    ensures reads { ReadsKeep Unit × ReadsKeep Bool }
    ensures flush { FlushKeeps }
    ensures store { StoreKeeps }
    ensures delete { DeleteKeeps }
    ensures store_never { StoreNever }
    ensures delete_never { DeleteNever }
{}

// Worked examples of a store. The format's others are the contract of page_edits::worked_cases.
pub fn worked_stores()
    ensures cases { StoreCases }
{}
