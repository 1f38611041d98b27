// What is proved of the exchange as it is defined: each function's contract names a statement.
#![tactic(auto)]

ghost use Rattle.theory.specs.Promise.{Truthful, Core, Shared, Ends};
ghost use Rattle.theory.specs.Statements.{SomebodyOnARing, RingsApart, EveryRoundSomebodyLeaves, RoundsCounted, DearestOfThoseIn, NeverLessDear, AnyOrder, SomeOrder, OnlyTheTopMatters, ResultUnbettered, CoreUnique, NoGroupDoesBetter, OthersAreBettered, OwnSheetValid, ValidSheetIsTheResult, LeastRounds, RoundsByRings};
ghost use Rattle.theory.specs.Years.{WorkedYears, KeepingIsBettered, PairsAreNotEnough};

// Nobody gains by a list that is not true.
#[tactic(auto, using(crate::proofs::Promises::truthful))]
pub fn truthful()
    ensures { Truthful }
{}

// No group could do better among themselves.
#[tactic(auto, using(crate::proofs::Promises::core))]
pub fn core()
    ensures { Core }
{}

// Everybody has one stand, all different, and none less dear than the own one.
#[tactic(auto, using(crate::proofs::Promises::shared))]
pub fn shared()
    ensures { Shared }
{}

// After as many rounds as there are traders, nobody is in.
#[tactic(auto, using(crate::proofs::Promises::ends))]
pub fn ends()
    ensures { Ends }
{}

// Where somebody is in, somebody is on a ring, whoever takes part.
#[tactic(auto, using(crate::proofs::Results::somebody_on_a_ring))]
pub fn somebody_on_a_ring()
    ensures { SomebodyOnARing }
{}

// Two rings have nobody in common.
#[tactic(auto, using(crate::proofs::Results::rings_apart))]
pub fn rings_apart()
    ensures { RingsApart }
{}

// In every round before nobody is in, somebody goes out.
#[tactic(auto, using(crate::proofs::Results::every_round_somebody_leaves))]
pub fn every_round_somebody_leaves()
    ensures { EveryRoundSomebodyLeaves }
{}

// The number of rounds is the first after which nobody is in, and at most that of the traders.
#[tactic(auto, using(crate::proofs::Results::rounds_counted))]
pub fn rounds_counted()
    ensures { RoundsCounted }
{}

// Whoever goes out in a round has the dearest stand of those still in.
#[tactic(auto, using(crate::proofs::Results::dearest_of_those_in))]
pub fn dearest_of_those_in()
    ensures { DearestOfThoseIn }
{}

// Nobody has a stand less dear than the own one.
#[tactic(auto, using(crate::proofs::Results::never_less_dear))]
pub fn never_less_dear()
    ensures { NeverLessDear }
{}

// Rings taken out one at a time, in any order, give everybody the result.
#[tactic(auto, using(crate::proofs::Results::any_order))]
pub fn any_order()
    ensures { AnyOrder }
{}

// The rings can be taken out one at a time until nobody is in.
#[tactic(auto, using(crate::proofs::Results::some_order))]
pub fn some_order()
    ensures { SomeOrder }
{}

// What a list says after the stand that its trader gets does not matter.
#[tactic(auto, using(crate::proofs::Results::only_the_top_matters))]
pub fn only_the_top_matters()
    ensures { OnlyTheTopMatters }
{}

// No group could do better than by the result, whatever the lists.
#[tactic(auto, using(crate::proofs::Results::result_is_unbettered))]
pub fn result_unbettered()
    ensures { ResultUnbettered }
{}

// Of no other sharing this is so.
#[tactic(auto, using(crate::proofs::Results::core_unique))]
pub fn core_unique()
    ensures { CoreUnique }
{}

// No group does better than by the result.
#[tactic(auto, using(crate::proofs::Results::no_group_does_better))]
pub fn no_group_does_better()
    ensures { NoGroupDoesBetter }
{}

// By every other sharing some group does better.
#[tactic(auto, using(crate::proofs::Results::others_are_bettered))]
pub fn others_are_bettered()
    ensures { OthersAreBettered }
{}

// The results and rounds of the exchange are a valid sheet.
#[tactic(auto, using(crate::proofs::Results::own_sheet_valid))]
pub fn own_sheet_valid()
    ensures { OwnSheetValid }
{}

// Every valid sheet has the results of the exchange.
#[tactic(auto, using(crate::proofs::Results::valid_sheet_is_the_result))]
pub fn valid_sheet_is_the_result()
    ensures { ValidSheetIsTheResult }
{}

// In a valid sheet nobody has a lower round than in the exchange.
#[tactic(auto, using(crate::proofs::Results::least_rounds))]
pub fn least_rounds()
    ensures { LeastRounds }
{}

// A ring's round follows from the rounds of those who hold stands dearer to its members.
#[tactic(auto, using(crate::proofs::Results::rounds_by_rings))]
pub fn rounds_by_rings()
    ensures { RoundsByRings }
{}

// The years worked by hand come out as the table says.
#[tactic(auto, using(crate::proofs::Years::worked_years))]
pub fn worked_years()
    ensures { WorkedYears }
{}

// Three who could form a ring and keep their own stands could all do better.
#[tactic(auto, using(crate::proofs::Years::keeping_is_bettered))]
pub fn keeping_is_bettered()
    ensures { KeepingIsBettered }
{}

// Exchanges of two alone do not reach the result.
#[tactic(auto, using(crate::proofs::Years::pairs_are_not_enough))]
pub fn pairs_are_not_enough()
    ensures { PairsAreNotEnough }
{}
