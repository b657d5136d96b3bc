// Why a run ends early.
ghost use Rattle.std.specs.Prelude.{◌≡◌};
ghost use Rattle.session.specs.Session.{stop_code, RefusedAs};

use station::Refusal;

// The codes of a run that no step has.
pub const BAD_FRAME: u8 = 9;

pub const TOO_LONG: u8 = 10;

#[derive(Clone, Copy)]
pub(crate) enum Stop {
    Refused(Refusal),
    BadFrame,
    TooLong,
}

impl From<Refusal> for Stop {
    ghost from_gives = { RefusedAs };

    fn from(refusal: Refusal) -> Stop {
        Stop::Refused(refusal)
    }
}

impl From<Stop> for u8 {
    ghost from_gives = { λ stop code. code ≡ stop_code stop };

    // The code that 01 gives to it.
    fn from(stop: Stop) -> u8 {
        match stop {
            Stop::Refused(refusal) => u8::from(refusal),
            Stop::BadFrame => BAD_FRAME,
            Stop::TooLong => TOO_LONG,
        }
    }
}
