ghost use Rattle.page_edits.specs.Laws.{Cases, Parts};
ghost use Rattle.page_edits.specs.Laws.{OnePage, ReadsBack, SameAgain};

// What a written page reads as, and that a list has one written page.
pub fn page_laws()
    ensures back { ReadsBack }
    ensures parts { Parts }
    ensures one { OnePage }
    ensures again { SameAgain }
{}

// The worked examples of docs/FORMAT.md.
pub fn worked_cases()
    ensures cases { Cases }
{}
