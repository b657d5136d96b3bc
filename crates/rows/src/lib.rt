// The seven rows: one step on the head of the station that takes it and on the two cells between it and one peer.
#![tactic(auto)]

ghost use Rattle.std.specs.Prelude.{◌≡◌, true, ◌≤◌};
ghost use Rattle.station.specs.Stations.{stations_ok};
ghost use Rattle.station.specs.Places.{place_number};
ghost use Rattle.rows.specs.Rows.{goes_first, answers_now, onward, told, answered, ask_rule, send_rule, enter_rule, leave_rule, give_rule, take_request_rule, take_answer_rule, step_rule, outcome};

use station::{Cells, Count, Head, LAST_NUMBER, Place, Refusal, Step};

// What a step reads and may change: the named station's head, its cells for the peer, and the peer's cells for it.
#[derive(Clone, Copy)]
pub struct Reach {
    pub head: Head,
    pub mine: Cells,
    pub theirs: Cells,
}

// A request: its number, and the station that asks, which decides between equal numbers.
#[derive(Clone, Copy, PartialEq, Eq, PartialOrd, Ord)]
struct Request {
    number: u16,
    station: usize,
    ghost is_station: { (1 ≤ station) × (station ≤ 32) },
}

// Whether a request goes before the own one of a station.
#[tactic(auto, unfolding(crate::specs::Rows::goes_first))]
fn goes_first(request: Request, own: Request) -> bool
    ensures { result ≡ goes_first request.number request.station own.number own.station }
{
    request < own
}

#[tactic(auto, unfolding(crate::specs::Rows::answers_now))]
fn answers_now(request: Request, place: u8, own: Request) -> bool
    ensures { result ≡ answers_now request.number request.station place own.number own.station }
{
    !station::is_asking(place) || goes_first(request, own)
}

// On to the next peer, or after the last one to the place `then`.
#[tactic(auto, unfolding(crate::specs::Rows::onward))]
fn go_onward(n: Count, head: Head, then: Place) -> Head
    ensures { result ≡ onward n.value head (place_number then) }
{
    if (head.next as usize) < n.value {
        Head {
            next: head.next + 1,
            ..head
        }
    } else {
        Head {
            next: 1,
            place: then as u8,
            ..head
        }
    }
}

// The cells with an answer put on the wire, which has one slot.
#[tactic(auto, unfolding(crate::specs::Rows::answered))]
fn answer(cells: Cells) -> Result<Cells, Refusal>
    ensures { result ≡ answered cells }
{
    if cells.answer {
        return Err(Refusal::AtOdds);
    }
    Ok(Cells {
        answer: true,
        ..cells
    })
}

#[tactic(auto, unfolding(crate::specs::Rows::ask_rule))]
fn ask(n: Count, reach: Reach) -> Result<Reach, Refusal>
    ensures { told reach result ≡ ask_rule n.value reach.head reach.mine reach.theirs }
{
    let head = reach.head;
    if !head.is_in(Place::Idle) {
        return Err(Refusal::WrongPlace);
    }
    if head.high == LAST_NUMBER {
        return Err(Refusal::NoNumberLeft);
    }
    let asked = Head {
        place: Place::Sending as u8,
        own: head.high + 1,
        due: (n.value - 1) as u8,
        next: 1,
        ..head
    };
    Ok(Reach {
        head: asked,
        ..reach
    })
}

#[tactic(auto, unfolding(crate::specs::Rows::send_rule))]
fn send(n: Count, s: usize, reach: Reach) -> Result<Reach, Refusal>
    ensures { told reach result ≡ send_rule n.value s reach.head reach.mine reach.theirs }
{
    let head = reach.head;
    if !head.is_in(Place::Sending) {
        return Err(Refusal::WrongPlace);
    }
    let sent = Reach {
        head: go_onward(n, head, Place::Waiting),
        ..reach
    };
    if head.next as usize == s {
        return Ok(sent);
    }
    if reach.theirs.request != 0 {
        return Err(Refusal::AtOdds);
    }
    let filled = Cells {
        request: head.own,
        ..reach.theirs
    };
    Ok(Reach {
        theirs: filled,
        ..sent
    })
}

#[tactic(auto, unfolding(crate::specs::Rows::enter_rule))]
fn enter(reach: Reach) -> Result<Reach, Refusal>
    ensures { told reach result ≡ enter_rule reach.head reach.mine reach.theirs }
{
    let head = reach.head;
    if !head.is_in(Place::Waiting) {
        return Err(Refusal::WrongPlace);
    }
    if head.due != 0 {
        return Err(Refusal::AnswersDue);
    }
    let entered = Head {
        place: Place::Holding as u8,
        ..head
    };
    Ok(Reach {
        head: entered,
        ..reach
    })
}

#[tactic(auto, unfolding(crate::specs::Rows::leave_rule))]
fn leave(reach: Reach) -> Result<Reach, Refusal>
    ensures { told reach result ≡ leave_rule reach.head reach.mine reach.theirs }
{
    let head = reach.head;
    if !head.is_in(Place::Holding) {
        return Err(Refusal::WrongPlace);
    }
    let left = Head {
        place: Place::Giving as u8,
        next: 1,
        ..head
    };
    Ok(Reach {
        head: left,
        ..reach
    })
}

#[tactic(auto, unfolding(crate::specs::Rows::give_rule, crate::specs::Rows::answered))]
fn give(n: Count, reach: Reach) -> Result<Reach, Refusal>
    ensures { told reach result ≡ give_rule n.value reach.head reach.mine reach.theirs }
{
    let head = reach.head;
    if !head.is_in(Place::Giving) {
        return Err(Refusal::WrongPlace);
    }
    let gave = Reach {
        head: go_onward(n, head, Place::Idle),
        ..reach
    };
    if !reach.mine.mark {
        return Ok(gave);
    }
    let cleared = Cells {
        mark: false,
        ..reach.mine
    };
    Ok(Reach {
        mine: cleared,
        theirs: answer(reach.theirs)?,
        ..gave
    })
}

#[tactic(auto, unfolding(crate::specs::Rows::take_request_rule, crate::specs::Rows::raised, crate::specs::Rows::larger, crate::specs::Rows::answered))]
fn take_request(s: usize, t: usize, reach: Reach) -> Result<Reach, Refusal>
    requires { ((1 ≤ t) × (t ≤ 32)) × ((1 ≤ s) × (s ≤ 32)) }
    ensures { told reach result ≡ take_request_rule s t reach.head reach.mine reach.theirs }
{
    let Reach { head, mine, theirs } = reach;
    if mine.request == 0 {
        return Err(Refusal::EmptyWire);
    }
    let raised = Head {
        high: head.high.max(mine.request),
        ..head
    };
    let taken = Cells { request: 0, ..mine };
    let request = Request {
        number: mine.request,
        station: t,
    };
    let own = Request {
        number: head.own,
        station: s,
    };
    if answers_now(request, head.place, own) {
        return Ok(Reach {
            head: raised,
            mine: taken,
            theirs: answer(theirs)?,
        });
    }
    if mine.mark {
        return Err(Refusal::AtOdds);
    }
    let marked = Cells {
        mark: true,
        ..taken
    };
    Ok(Reach {
        head: raised,
        mine: marked,
        theirs,
    })
}

#[tactic(auto, unfolding(crate::specs::Rows::take_answer_rule))]
fn take_answer(reach: Reach) -> Result<Reach, Refusal>
    ensures { told reach result ≡ take_answer_rule reach.head reach.mine reach.theirs }
{
    let Reach { head, mine, theirs } = reach;
    if !mine.answer {
        return Err(Refusal::EmptyWire);
    }
    if head.due == 0 {
        return Err(Refusal::AtOdds);
    }
    let counted = Head {
        due: head.due - 1,
        ..head
    };
    let taken = Cells {
        answer: false,
        ..mine
    };
    Ok(Reach {
        head: counted,
        mine: taken,
        theirs,
    })
}

// The row of a step whose stations are there. 01 has the step as an enum of seven, so this is a match.
#[tactic(auto, unfolding(crate::specs::Rows::step_rule, station::specs::Stations::stations_ok, station::specs::Stations::is_station))]
fn work(n: Count, step: Step, reach: Reach) -> Result<Reach, Refusal>
    requires { stations_ok n.value step ≡ true }
    ensures { told reach result ≡ step_rule n.value step reach.head reach.mine reach.theirs }
{
    match step {
        Step::Ask(_) => ask(n, reach),
        Step::Send(s) => send(n, s, reach),
        Step::Enter(_) => enter(reach),
        Step::Leave(_) => leave(reach),
        Step::Give(_) => give(n, reach),
        Step::TakeRequest(s, t) => take_request(s, t, reach),
        Step::TakeAnswer(_, _) => take_answer(reach),
    }
}

// The step on the head of the station that it names, that station's cells for the peer, and the peer's cells for it.
#[tactic(auto, unfolding(crate::specs::Rows::outcome))]
pub fn act(n: usize, step: Step, reach: Reach) -> Result<Reach, Refusal>
    ensures { told reach result ≡ outcome n step reach.head reach.mine reach.theirs }
{
    let count = Count::new(n).ok_or(Refusal::NotWellFormed)?;
    if !station::stations_ok(n, step) {
        return Err(Refusal::NoSuchStation);
    }
    work(count, step, reach)
}
