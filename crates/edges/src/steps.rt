// Openings and steps of networks, fresh ones and doctored ones.
use network::{Network, Stepped};
use station::{Cells, Head, Place, Step};
use std::{fmt, io};

// The digits of a line of the bench: the code, the place of the named station, its answers due, and the station in Holding (0: none). Numbers, since 01 prints them so; a struct of its own, since that of crate session is private, writes bytes by contract, and shows no place under code 3.
#[derive(Clone, Copy, Default)]
struct Line {
    code: u8,
    place: u8,
    due: u8,
    holder: usize,
}

impl fmt::Display for Line {
    fn fmt<W: fmt::Write>(&self, f: &mut fmt::Formatter<W>) -> fmt::Result {
        let Line {
            code,
            place,
            due,
            holder,
        } = self;
        write!(f, "{code:02X}{place:02X}{due:02X}{holder:02X}")
    }
}

pub fn open_with(rt: &impl Print, n: usize) -> io::Result<()> {
    let code = station::code_of(Network::open(n).map(|_| ()));
    let line = Line {
        code,
        ..Line::default()
    };
    println!(rt; "open {n}: {line}")
}

// One step, with the station's own number behind its line.
fn take(rt: &impl Print, network: &mut Network, step: Step) -> io::Result<()> {
    let Stepped {
        answer,
        head,
        holder,
    } = network.step(step);
    let line = Line {
        code: station::code_of(answer),
        place: head.place,
        due: head.due,
        holder: holder.unwrap_or(0),
    };
    println!(rt; "{step}: {line} number {}", head.own)
}

fn take_all(rt: &impl Print, network: &mut Network, steps: &[Step]) -> io::Result<()> {
    for step in steps {
        take(rt, network, *step)?;
    }
    Ok(())
}

// A fresh network of two stations: the proof shows that this opening is not refused.
#[tactic(auto, using(network::proofs::Opens::opens), unfolding(station::specs::Stations::count_ok))]
fn opened() -> Network {
    Network::open(2).unwrap()
}

// Both ask with number 1, and send to the end.
const TIE: &[Step] = &[
    Step::Ask(1),
    Step::Ask(2),
    Step::Send(1),
    Step::Send(1),
    Step::Send(2),
    Step::Send(2),
];

// Station 1 is answered by 2, has its turn and gives it up, and 2's own request stays under way.
const PASS_BY: &[Step] = &[
    Step::TakeRequest(2, 1),
    Step::TakeAnswer(1, 2),
    Step::Enter(1),
    Step::Leave(1),
    Step::Give(1),
    Step::Give(1),
];

// Station 1 asks again, and sends to the end.
const ASK_AGAIN: &[Step] = &[Step::Ask(1), Step::Send(1), Step::Send(1)];

// 01's last edge: both ask with number 1, and 1 has its turn again and again until it takes 2's request.
pub fn repeat_the_tie(rt: &impl Print) -> io::Result<()> {
    let mut network = opened();
    take_all(rt, &mut network, TIE)?;
    take_all(rt, &mut network, PASS_BY)?;
    for _ in 0..2 {
        take_all(rt, &mut network, ASK_AGAIN)?;
        take_all(rt, &mut network, PASS_BY)?;
    }
    take(rt, &mut network, Step::TakeRequest(1, 2))
}

// What is put into an opened network of two before steps are offered: the place, next peer and answers due of station 1, its cells for 2, and 2's cells for 1.
#[derive(Clone, Copy, Default)]
struct Doctored {
    place: u8,
    next: u8,
    due: u8,
    mine: Cells,
    theirs: Cells,
}

fn try_steps(rt: &impl Print, doctored: Doctored, steps: &[Step]) -> io::Result<()> {
    let mut network = opened();
    network.table[0].head = Head {
        place: doctored.place,
        own: 1,
        next: doctored.next,
        due: doctored.due,
        ..Head::default()
    };
    network.table[0].cells[1] = doctored.mine;
    network.table[1].cells[0] = doctored.theirs;
    take_all(rt, &mut network, steps)
}

// A place that there is not, for which any step is refused, one of station 2 too; and the wire that a Send must fill occupied.
pub fn try_bad_tables(rt: &impl Print) -> io::Result<()> {
    let no_place = Doctored {
        place: 5,
        next: 1,
        ..Doctored::default()
    };
    try_steps(rt, no_place, &[Step::Ask(1), Step::Ask(2)])?;
    let full_wire = Doctored {
        place: Place::Sending as u8,
        next: 2,
        due: 1,
        theirs: Cells {
            request: 1,
            ..Cells::default()
        },
        ..Doctored::default()
    };
    try_steps(rt, full_wire, &[Step::Send(1), Step::Send(1)])
}

// The mark that a taking must set is set, and an answer comes that is not due.
pub fn try_bad_takes(rt: &impl Print) -> io::Result<()> {
    let waiting = Doctored {
        place: Place::Waiting as u8,
        next: 1,
        ..Doctored::default()
    };
    let marked = Doctored {
        due: 1,
        mine: Cells {
            request: 1,
            answer: false,
            mark: true,
        },
        ..waiting
    };
    try_steps(rt, marked, &[Step::TakeRequest(1, 2)])?;
    let early = Doctored {
        mine: Cells {
            answer: true,
            ..Cells::default()
        },
        ..waiting
    };
    try_steps(rt, early, &[Step::TakeAnswer(1, 2)])
}
