// Station 1 of two gets the turn and gives it back. A line for each step: its code, and the station that then holds the turn (0: none).
#![tactic(auto)]

use network::Network;
use station::Step;
use std::io;

#[tactic(auto, using(network::proofs::Opens::opens), unfolding(station::specs::Stations::count_ok))]
fn main(rt: HostRuntime) -> io::Result<()> {
    let mut network = Network::open(2).unwrap();
    for step in [
        Step::Ask(1),
        Step::Send(1),
        Step::Send(1),
        Step::TakeRequest(2, 1),
        Step::TakeAnswer(1, 2),
        Step::Enter(1),
        Step::Leave(1),
        Step::Give(1),
        Step::Give(1),
    ] {
        let stepped = network.step(step);
        let code = station::code_of(stepped.answer);
        let holder = stepped.holder.unwrap_or(0);
        println!(rt; "{code} {holder}")?;
    }
    Ok(())
}
