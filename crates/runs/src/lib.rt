// No code: specs/ has runs that meet the bounds of the demands, and proofs/ computes them.
#![tactic(auto)]
