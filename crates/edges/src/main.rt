// The cases of 01 that are executed and not proved: a line for each opening, each step and each input, with what it answers.
#![tactic(auto)]

mod inputs;
mod steps;

use std::io;

fn main(rt: HostRuntime) -> io::Result<()> {
    for n in [1, 2, 32, 33] {
        steps::open_with(&rt, n)?;
    }
    steps::repeat_the_tie(&rt)?;
    steps::try_bad_tables(&rt)?;
    steps::try_bad_takes(&rt)?;
    inputs::feed_all(&rt, inputs::LINES)?;
    inputs::feed_all(&rt, inputs::KINDS)?;
    inputs::feed_all(&rt, inputs::NUMBERS)?;
    inputs::feed_the_limit(&rt)
}
