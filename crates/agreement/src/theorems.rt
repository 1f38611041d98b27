// That no right papers are refused: each function's contract names a statement.
ghost use Rattle.agreement.specs.Agreement.{PapersOfASheetAgree, PapersOfTheExchangeAgree};

// The papers of all traders, written from an accepted sheet, are accepted together.
#[tactic(auto, using(crate::proofs::Accepts::papers_of_a_sheet_agree))]
pub fn papers_of_a_sheet_agree()
    ensures { PapersOfASheetAgree }
{}

// So are those of the exchange.
#[tactic(auto, using(crate::proofs::Accepts::papers_of_the_exchange_agree))]
pub fn papers_of_the_exchange_agree()
    ensures { PapersOfTheExchangeAgree }
{}
