// A line of output.
ghost use Rattle.std.specs.Prelude.{◌≡◌, ◌+◌, ◌≤◌, ◌<◌, length, IfSome};
ghost use Rattle.std.specs.Option.{unwrap_or};
ghost use Rattle.station.specs.Codes.{code_of};
ghost use Rattle.std.proofs.lemmas.List.Edits.{sets};
ghost use Rattle.session.specs.Session.{stop_code, shown_of, line_of};

use crate::LINE_BYTES;
use crate::stops::Stop;
use frames::Pair;
use network::Stepped;
use station::{Head, Refusal};

// The four fields of a line, two digits each: numbers here, since 01 prints them so.
#[derive(Clone, Copy, Default)]
pub(crate) struct Line {
    code: u8,
    place: u8,
    due: u8,
    holder: u8,
}

impl Line {
    // The line at which a run ends early.
    pub(crate) fn of_stop(stop: Stop) -> Line
        ensures { result ≡ record { code = stop_code stop; place = 0; due = 0; holder = 0 } }
    {
        Line {
            code: u8::from(stop),
            ..Line::default()
        }
    }

    // The line of a step: under code 3 it shows zeros of the named station.
    #[tactic(auto, unfolding(crate::specs::Session::shown_of))]
    pub(crate) fn of_step(stepped: Stepped) -> Line
        requires { IfSome stepped.holder (λ s. s < 256) }
        ensures code { result.code ≡ code_of stepped.answer }
        ensures place { result.place ≡ shown_of result.code stepped.head.place }
        ensures due { result.due ≡ shown_of result.code stepped.head.due }
        ensures holder { result.holder ≡ unwrap_or stepped.holder 0 }
    {
        let head = match stepped.answer {
            Err(Refusal::NoSuchStation) => Head::default(),
            _ => stepped.head,
        };
        Line {
            code: station::code_of(stepped.answer),
            place: head.place,
            due: head.due,
            holder: stepped.holder.unwrap_or(0) as u8,
        }
    }

    // The digits of the four fields, and a line feed. Not by `write!`, since `Ran` fixes each byte of a lent buffer.
    #[tactic(auto, unfolding(crate::specs::Session::line_of, crate::specs::Session::pair_line))]
    pub(crate) fn bytes(self) -> [u8; LINE_BYTES]
        ensures { result ≡ line_of self.code self.place self.due self.holder }
    {
        let fields = [self.code, self.place, self.due, self.holder];
        let [code, place, due, holder] = fields.map(Pair::from);
        [
            code.high,
            code.low,
            place.high,
            place.low,
            due.high,
            due.low,
            holder.high,
            holder.low,
            b'\n',
        ]
    }

    // Writes the line at an index of the lent output.
    #[tactic(auto, using(crate::proofs::Stores::line_stored))]
    pub(crate) fn put(self, output: &mut [u8], at: usize)
        requires { at + 9 ≤ length output.old }
        ensures { output.new ≡ sets output.old at (line_of self.code self.place self.due self.holder) }
    {
        output[at..at + LINE_BYTES].copy_from_slice(&self.bytes());
    }
}
