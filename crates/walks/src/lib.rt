// No code that runs: the laws of a walk along a list, as a chain over a slice takes it, and as a loop by index does. They know nothing of stations.
#![tactic(auto)]

ghost use Rattle.walks.specs.Walks.{LoopLaws, ScanLaws};

// The laws of a loop by index. Every walk of today is a chain, so this contract is what has them proved.
pub fn hold<X, R>()
    ensures { LoopLaws X R × ScanLaws X }
{}
