// The run: a list of frames in, a line out for each, over a network of its own.
#![tactic(auto)]

ghost use Rattle.std.specs.Prelude.{◌≡◌, ◌*◌, ◌<◌, ◌≤◌, length};
ghost use Rattle.frames.specs.Frames.{frame_at};
ghost use Rattle.session.specs.Session.{step_of, count_of, lines_in, RoomFor, LinesWritten, Begins, Ran};

mod lines;
mod stops;

use frames::Frame;
use lines::Line;
use network::Network;
use station::Step;
use stops::Stop;
pub use stops::{BAD_FRAME, TOO_LONG};

// The most bytes of input that a run takes.
pub const INPUT_LIMIT: usize = 65536;

// The bytes of a line of output.
pub const LINE_BYTES: usize = 9;

// The most bytes of output that any run needs: a line for each that the longest input starts.
pub const OUTPUT_MOST: usize = (INPUT_LIMIT + 6) / frames::FRAME_BYTES * LINE_BYTES;

// The lines that an input of so many bytes starts.
#[tactic(auto, unfolding(crate::specs::Session::lines_in))]
fn lines_in(len: usize) -> usize
    requires { len ≤ 65536 }
    ensures { result ≡ lines_in len }
{
    (len + 6) / frames::FRAME_BYTES
}

// The bytes of output that a run of so many bytes of input may need.
#[tactic(auto, unfolding(crate::specs::Session::room_for, crate::specs::Session::lines_in))]
pub fn room_for(len: usize) -> usize
    ensures { RoomFor len OUTPUT_MOST result }
{
    if len == 0 || INPUT_LIMIT < len {
        return LINE_BYTES;
    }
    lines_in(len) * LINE_BYTES
}

// The step of line k, if that line says one.
fn step_at(input: &[u8], k: usize) -> Option<Step>
    requires { k < 10000 }
    ensures { result ≡ step_of (frame_at input.now (7 * k)) }
{
    match frames::frame_at(input, frames::FRAME_BYTES * k)? {
        Frame::Move(step) => Some(step),
        Frame::Open(_) => None,
    }
}

// The count of the first line, if that line opens a network.
fn count_in(input: &[u8]) -> Option<usize>
    ensures { result ≡ count_of (frame_at input.now 0) }
{
    match frames::frame_at(input, 0)? {
        Frame::Open(count) => Some(count),
        Frame::Move(_) => None,
    }
}

// The lines after the first, written behind it. Gives the index past the last. The offsets are by hand: `frame_at` takes one, and of the chunks of a slice that is written a proof knows no byte.
#[tactic(auto, unfolding(crate::specs::Session::lines_in))]
fn put_steps(input: &[u8], opened: Network, output: &mut [u8]) -> usize
    requires { (1 ≤ length input.now) × (length input.now ≤ 65536) × (9 * lines_in (length input.now) ≤ length output.old) }
    ensures { LinesWritten input.now opened.count opened.table output.old output.new result }
{
    let total = lines_in(input.len());
    let mut network = opened;
    for k in 1..total {
        let Some(step) = step_at(input, k) else {
            Line::of_stop(Stop::BadFrame).put(output, LINE_BYTES * k);
            return LINE_BYTES * k + LINE_BYTES;
        };
        let stepped = network.step(step);
        Line::of_step(stepped).put(output, LINE_BYTES * k);
    }
    LINE_BYTES * total
}

// The network that the first frame opens, or why there is none.
#[tactic(auto, using(crate::proofs::Whole::too_long, crate::proofs::Whole::not_opened, crate::proofs::Whole::opening_some, crate::proofs::Whole::accepted, crate::proofs::Whole::begun))]
fn begin(input: &[u8]) -> Result<Network, Stop>
    ensures { Begins input.now result }
{
    if INPUT_LIMIT < input.len() {
        return Err(Stop::TooLong);
    }
    let count = count_in(input).ok_or(Stop::BadFrame)?;
    Ok(Network::open(count)?)
}

// The whole run: what it writes at the start of the output, and how many bytes. Into an output with less room than `room_for` asks it writes nothing.
// The output is a lent buffer, since the contract `Ran` fixes each of its bytes; nothing here takes memory of its own.
#[tactic(auto, using(crate::proofs::Whole::room_least, crate::proofs::Whole::room_lines))]
pub fn run(input: &[u8], output: &mut [u8]) -> Option<usize>
    ensures { Ran input.now output.old output.new result }
{
    if output.len() < room_for(input.len()) {
        return None;
    }
    match begin(input) {
        Ok(opened) => {
            Line::default().put(output, 0);
            Some(put_steps(input, opened, output))
        }
        Err(stop) => {
            Line::of_stop(stop).put(output, 0);
            Some(LINE_BYTES)
        }
    }
}
