// What papers are good for: each function's contract names a statement.
ghost use Rattle.papers.specs.Trust.{AgreeingPapersAreRight, AgreeingPapersMakeASheet, OwnListsStandThere, PapersOfTheExchangePass, PapersPass};

// In accepted bytes, a trader's list with its count is the part that begins where the list begins.
#[tactic(auto, using(crate::proofs::Passes::own_lists_stand_there))]
pub fn own_lists_stand_there()
    ensures { OwnListsStandThere }
{}

// Every paper that is written from an accepted sheet passes with that trader's list.
#[tactic(auto, using(crate::proofs::Passes::papers_pass))]
pub fn papers_pass()
    ensures { PapersPass }
{}

// Every paper of the exchange passes.
#[tactic(auto, using(crate::proofs::Passes::papers_of_the_exchange_pass))]
pub fn papers_of_the_exchange_pass()
    ensures { PapersOfTheExchangePass }
{}

// Papers for all traders that pass and agree with each other make a valid sheet.
#[tactic(auto, using(crate::proofs::Agrees::agreeing_papers_make_a_sheet))]
pub fn agreeing_papers_make_a_sheet()
    ensures { AgreeingPapersMakeASheet }
{}

// So by such papers everybody has got what the exchange gives.
#[tactic(auto, using(crate::proofs::Agrees::agreeing_papers_are_right))]
pub fn agreeing_papers_are_right()
    ensures { AgreeingPapersAreRight }
{}
