// No code: specs/ says what an engine is and what it makes of a list of offered steps.
#![tactic(auto)]
