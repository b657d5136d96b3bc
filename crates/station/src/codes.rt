// The answers of an opening and a step, and the code that 01 gives to each.
ghost use Rattle.std.specs.Prelude.{◌≡◌, Some};
ghost use Rattle.station.specs.Codes.{refusal_code, words_of, code_of};

use std::error::Error;
use std::fmt;

// The code of an answer that is no refusal.
pub const ACCEPTED: u8 = 0;

// Why an opening or a step is refused.
#[derive(Clone, Copy, Debug, PartialEq, Eq)]
pub enum Refusal {
    BadCount = 1,
    NotWellFormed = 2,
    NoSuchStation = 3,
    WrongPlace = 4,
    AnswersDue = 5,
    EmptyWire = 6,
    NoNumberLeft = 7,
    AtOdds = 8,
}

impl From<Refusal> for u8 {
    ghost from_gives = { λ refusal code. code ≡ refusal_code refusal };

    fn from(refusal: Refusal) -> u8 {
        refusal as u8
    }
}

impl fmt::Display for Refusal {
    ghost output = { λ refusal. Some (words_of refusal) };

    fn fmt<W: fmt::Write>(&self, f: &mut fmt::Formatter<W>) -> fmt::Result {
        f.write_str(match self {
            Refusal::BadCount => "the count is not 2 to 32",
            Refusal::NotWellFormed => "the table is not well formed",
            Refusal::NoSuchStation => "there is no such station",
            Refusal::WrongPlace => "the station is not in the place that the step needs",
            Refusal::AnswersDue => "answers are due",
            Refusal::EmptyWire => "the wire is empty",
            Refusal::NoNumberLeft => "no number is left",
            Refusal::AtOdds => "the table is at odds",
        })
    }
}

impl Error for Refusal {}

// 01's code of an answer. A function and no From, since neither a Result nor a number is a type of ours.
pub fn code_of(answer: Result<(), Refusal>) -> u8
    ensures { result ≡ code_of answer }
{
    match answer {
        Ok(()) => ACCEPTED,
        Err(refusal) => u8::from(refusal),
    }
}
