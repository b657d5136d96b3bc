// What a station is: its record, its places and the codes by their names, a step, and which stations a step names.
#![tactic(auto)]

ghost use Rattle.std.specs.Prelude.{◌≡◌, nat_eq, Some};
ghost use Rattle.station.specs.Stations.{count_ok, is_station, stations_ok, named_by, peer_of, index_of, is_asking, words_of_step};
ghost use Rattle.station.specs.Places.{place_number};

mod codes;
mod counts;
mod places;

pub use codes::{ACCEPTED, Refusal, code_of};
pub use counts::Count;
pub use places::{NoSuchPlace, Place};
use std::fmt;

// The records of a table, and the cells of a record.
pub const STATIONS: usize = 32;

// The last number that a request can carry.
pub const LAST_NUMBER: u16 = 65535;

// A step, with the numbers of its stations: any number, since a caller may name a station that is not there.
// 01 has it as an enum of seven, so what a step names is told by a match.
#[derive(Clone, Copy, Debug, PartialEq, Eq)]
pub enum Step {
    Ask(usize),
    Send(usize),
    Enter(usize),
    Leave(usize),
    Give(usize),
    TakeRequest(usize, usize),
    TakeAnswer(usize, usize),
}

// The place stays a byte: a lent table may hold any, and `table::step` answers for each (`well_formed`).
#[repr(C)]
#[derive(Clone, Copy, Default, PartialEq, Eq)]
pub struct Head {
    pub place: u8,
    pub own: u16,
    pub high: u16,
    pub next: u8,
    pub due: u8,
}

// Between a station and one peer: the request under way from the peer, an answer under way from it, the mark for it.
// A request stays a number with 0 for none, as 01 has it: the record is lent in this layout.
#[repr(C)]
#[derive(Clone, Copy, Default, PartialEq, Eq)]
pub struct Cells {
    pub request: u16,
    pub answer: bool,
    pub mark: bool,
}

#[repr(C)]
#[derive(Clone, Copy)]
pub struct Station {
    pub head: Head,
    pub cells: [Cells; STATIONS],
}

impl fmt::Display for Step {
    ghost output = { λ step. Some (words_of_step step) };

    fn fmt<W: fmt::Write>(&self, f: &mut fmt::Formatter<W>) -> fmt::Result {
        match self {
            Step::Ask(s) => write!(f, "Ask {s}"),
            Step::Send(s) => write!(f, "Send {s}"),
            Step::Enter(s) => write!(f, "Enter {s}"),
            Step::Leave(s) => write!(f, "Leave {s}"),
            Step::Give(s) => write!(f, "Give {s}"),
            Step::TakeRequest(s, t) => write!(f, "Take request {s} from {t}"),
            Step::TakeAnswer(s, t) => write!(f, "Take answer {s} from {t}"),
        }
    }
}

impl Head {
    // Whether the station is in a place.
    pub fn is_in(self, place: Place) -> bool
        ensures { result ≡ nat_eq self.place (place_number place) }
    {
        self.place == place as u8
    }
}

// Counts and stations are plain numbers in what follows: any is answered for.
#[tactic(auto, unfolding(crate::specs::Stations::count_ok))]
pub fn count_ok(n: usize) -> bool
    ensures { result ≡ count_ok n }
{
    2 <= n && n <= STATIONS
}

#[tactic(auto, unfolding(crate::specs::Stations::is_station))]
pub fn is_station(n: usize, s: usize) -> bool
    ensures { result ≡ is_station n s }
{
    1 <= s && s <= n
}

#[tactic(auto, unfolding(crate::specs::Stations::stations_ok))]
fn are_two_stations(n: usize, s: usize, t: usize) -> bool
    ensures { result ≡ stations_ok n (Step.TakeRequest s t) }
{
    is_station(n, s) && is_station(n, t) && s != t
}

// Whether the stations that a step names are there, and in a take are two.
#[tactic(auto, unfolding(crate::specs::Stations::stations_ok))]
pub fn stations_ok(n: usize, step: Step) -> bool
    ensures { result ≡ stations_ok n step }
{
    match step {
        Step::Ask(s) | Step::Send(s) | Step::Enter(s) | Step::Leave(s) | Step::Give(s) => {
            is_station(n, s)
        }
        Step::TakeRequest(s, t) | Step::TakeAnswer(s, t) => are_two_stations(n, s, t),
    }
}

// The station that takes the step.
pub fn named_by(step: Step) -> usize
    ensures { result ≡ named_by step }
{
    match step {
        Step::Ask(s)
        | Step::Send(s)
        | Step::Enter(s)
        | Step::Leave(s)
        | Step::Give(s)
        | Step::TakeRequest(s, _)
        | Step::TakeAnswer(s, _) => s,
    }
}

// The peer whose cells the step may touch; where it touches none, the station itself, as the contract `peer_of` says, so that each row has its two cells.
pub fn peer_of(step: Step, next: u8) -> usize
    ensures { result ≡ peer_of step next }
{
    match step {
        Step::Ask(s) | Step::Enter(s) | Step::Leave(s) => s,
        Step::Send(_) | Step::Give(_) => next as usize,
        Step::TakeRequest(_, t) | Step::TakeAnswer(_, t) => t,
    }
}

// Where the record of station s lies. Any s gets an index below 32, so that no caller can reach past a record.
#[tactic(auto, unfolding(crate::specs::Stations::index_of))]
pub fn index_of(s: usize) -> usize
    ensures { result ≡ index_of s }
{
    s.saturating_sub(1).min(STATIONS - 1)
}

// Whether a station in a place is asking: Sending, Waiting or Holding.
#[tactic(auto, unfolding(crate::specs::Stations::is_asking))]
pub fn is_asking(place: u8) -> bool
    ensures { result ≡ is_asking place }
{
    matches!(
        Place::try_from(place),
        Ok(Place::Sending | Place::Waiting | Place::Holding)
    )
}
