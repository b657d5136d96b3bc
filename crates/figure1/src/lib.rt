// What is claimed of the program of Figure 1 of source 003. No code runs: specs/ has the program and the claims, and `hold` is proved where they are.
#![tactic(auto)]

ghost use Rattle.figure1.specs.Assertions.{AssertionsHold, OvertakesOnce};

pub fn hold()
    ensures { AssertionsHold × OvertakesOnce }
{}
