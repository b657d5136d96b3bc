// What is claimed of the rules that the contract of `table::step` cites. No code runs: specs/ has each claim, and `hold` is proved where all of them are.
#![tactic(auto)]

ghost use Rattle.table.specs.Kept.{FormKept};
ghost use Rattle.frames.specs.Frames.{ReadsBack};
ghost use Rattle.engines.specs.Engines.{ours};
ghost use Rattle.demands.specs.Demands.{Demand2, Demand3, Demand3Follows};
ghost use Rattle.demands.specs.Useless.{ShutsOut, PassFirstSentence};
ghost use Rattle.demands.specs.Cases.{StarredCases};
ghost use Rattle.runs.specs.ShortRuns.{BoundMet, Repeats, NumbersEnd};
ghost use Rattle.demands.specs.Bench.{NeverFromTheBench};
ghost use Rattle.demands.specs.OneOutcome.{OneOutcome};

pub fn hold()
    ensures { Demand2 ours × Demand3 ours × Demand3Follows × ShutsOut × PassFirstSentence × StarredCases
        × BoundMet × Repeats × NumbersEnd × NeverFromTheBench × OneOutcome × FormKept × ReadsBack }
{}
