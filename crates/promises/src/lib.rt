// The theorems over more than one call, each what a function that does nothing ensures: a check asks for its proof as for any function's.
#![tactic(auto)]

ghost use Rattle.claims.specs.Demand.{Demand3};
ghost use Rattle.claims.specs.Weighing.{ReportByPosts};
ghost use Rattle.claims.specs.ByKind.{SumsByKinds};
ghost use Rattle.claims.specs.Singles.{BlockIsItsPosts};
ghost use Rattle.claims.specs.Stock.{StockByPosts};
ghost use Rattle.claims.specs.Written.{WriterHoldsJournal, EndedHoldsJournal, BlocksHoldPosts, BlocksPass};
ghost use Rattle.claims.specs.Reread.{JournalIsItsCalls, FilingIsOfCalls};
ghost use Rattle.records.specs.Batch.{BatchIsItsCalls};
ghost use Rattle.writer.specs.Writer.{WritersAreSound};
ghost use Rattle.amounts.specs.Filed.{StepIsTenthOfPower};
ghost use Rattle.claims.specs.Figures.{Established};
ghost use Rattle.stock.specs.Sheet.{StoreAndDifference, AnswersWithin};
ghost use Rattle.mixture.specs.Worked.{Toluene, AboveForm2, MinusNought};
ghost use Rattle.worked_claims.specs.Reread.{PremiseMet, PremiseNeeded};
ghost use Rattle.worked_claims.specs.Stock.{SheetOfMet, SoundNeeded};

// ---- lists of posts and blocks given to a fresh book

// What entered is what the report shows, and handled the same without the store, to the microgram; the filed figures are within half of their steps.
#[tactic(auto, using(claims::proofs::Demand::demand_3))]
pub fn demand_3()
    ensures { Demand3 }
{}

// The whole report is what the accepted posts' bytes say.
#[tactic(auto, using(claims::proofs::Weighing::report_by_posts))]
pub fn report_by_posts()
    ensures { ReportByPosts }
{}

// What entered, was handled and was found are sums over the posts by the numbers of their kinds.
pub fn sums_by_kinds()
    ensures { SumsByKinds }
{}

// A block of posts answers as its own bytes do and then as its posts do, given alone in turn.
#[tactic(auto, using(claims::proofs::Singles::block_is_its_posts))]
pub fn block_is_its_posts()
    ensures { BlockIsItsPosts }
{}

// A stock count is compared with what the accepted posts brought of a material less what they took.
#[tactic(auto, using(claims::proofs::Stock::stock_by_posts))]
pub fn stock_by_posts()
    ensures { StockByPosts }
{}

// ---- lists of a writer's calls

// The buffer is the journal of the accepted calls and then the bytes that were lent.
pub fn writer_holds_journal()
    ensures { WriterHoldsJournal }
{}

// And so it is once ended.
pub fn ended_holds_journal()
    ensures { EndedHoldsJournal }
{}

// The blocks, once ended, hold the posts that were taken, in order.
#[tactic(auto, using(claims::proofs::written::Claims::blocks_hold_posts))]
pub fn blocks_hold_posts()
    ensures { BlocksHoldPosts }
{}

// Each block passes the checks that need no book.
#[tactic(auto, using(claims::proofs::written::Claims::blocks_pass))]
pub fn blocks_pass()
    ensures { BlocksPass }
{}

// A book that takes the calls one by one takes the journal too, and is then the same but for its block number.
#[tactic(auto, using(claims::proofs::Reread::journal_is_its_calls))]
pub fn journal_is_its_calls()
    ensures { JournalIsItsCalls }
{}

// And what is printed of the journal is what that book's reports say.
#[tactic(auto, using(claims::proofs::Reread::filing_is_of_calls))]
pub fn filing_is_of_calls()
    ensures { FilingIsOfCalls }
{}

// A list of records is written as a writer writes their calls.
#[tactic(auto, using(records::proofs::batch::Calls::batch_is_its_calls))]
pub fn batch_is_its_calls()
    ensures { BatchIsItsCalls }
{}

// A writer is always one that the library made.
#[tactic(auto, using(writer::proofs::writer::Laws::sound))]
pub fn writers_are_sound()
    ensures { WritersAreSound }
{}

// ---- amounts, and the worked figures

// The table of steps is the paper's sentence.
#[tactic(auto, using(amounts::proofs::filed::Laws::step_is_tenth_of_power))]
pub fn step_is_tenth_of_power()
    ensures { StepIsTenthOfPower }
{}

// F1 to F13.
#[tactic(auto, using(claims::proofs::Figures::established))]
pub fn figures_established()
    ensures { Established }
{}

// Store plus difference is what was counted.
#[tactic(auto, using(stock::proofs::sheet::Laws::store_and_difference))]
pub fn store_and_difference()
    ensures { StoreAndDifference }
{}

// No difference is outside 8×10^12 g either way.
pub fn answers_within()
    ensures { AnswersWithin }
{}

// The manual's toluene, about 1,550 Pa.
#[tactic(auto, using(mixture::proofs::pressure::Worked::toluene))]
pub fn toluene()
    ensures { Toluene }
{}

// A partial pressure that form 2 declines.
#[tactic(auto, using(mixture::proofs::pressure::Worked::above_form_2))]
pub fn above_form_2()
    ensures { AboveForm2 }
{}

// −0 is taken, and stays −0.
#[tactic(auto, using(mixture::proofs::pressure::Worked::minus_nought))]
pub fn minus_nought()
    ensures { MinusNought }
{}

// ---- the premises of claims that have one

// A fresh book takes a worked list's calls one by one.
#[tactic(auto, using(worked_claims::proofs::Reread::premise_met))]
pub fn premise_met()
    ensures { PremiseMet }
{}

// Where it does not, the journal is refused.
#[tactic(auto, using(worked_claims::proofs::Reread::premise_needed))]
pub fn premise_needed()
    ensures { PremiseNeeded }
{}

// Counts on the worked book.
#[tactic(auto, using(worked_claims::proofs::Stock::sheet_of_met))]
pub fn sheet_of_met()
    ensures { SheetOfMet }
{}

// A book that no call makes, whose difference is outside the bound.
#[tactic(auto, using(worked_claims::proofs::Stock::sound_needed))]
pub fn sound_needed()
    ensures { SoundNeeded }
{}
