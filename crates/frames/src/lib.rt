// Frames: one hexadecimal pair, one line of six characters and a line feed, and the step that it says.
#![tactic(auto)]

ghost use Rattle.std.specs.Prelude.{◌≡◌};
ghost use Rattle.frames.specs.Frames.{digit_of, hex_of, byte_of, pair_of, meaning_of, frame_at};

use station::Step;

// A frame's line: six characters and a line feed.
pub const FRAME_BYTES: usize = 7;

const LINE_FEED: u8 = b'\n';

// The kind of the first frame.
const OPEN: u8 = 0xF0;

#[derive(Clone, Copy, Debug, PartialEq, Eq)]
pub enum Frame {
    Open(usize),
    Move(Step),
}

// The two characters of a byte.
#[derive(Clone, Copy, Debug, PartialEq, Eq)]
pub struct Pair {
    pub high: u8,
    pub low: u8,
}

// The value of a digit; by hand, since the library's digits are lower case too.
#[tactic(auto, unfolding(crate::specs::Frames::digit_of))]
fn digit(character: u8) -> Option<u8>
    ensures { result ≡ digit_of character }
{
    match character {
        b'0'..=b'9' => Some(character - b'0'),
        b'A'..=b'F' => Some(character - b'A' + 10),
        _ => None,
    }
}

// The byte that two characters say; a function of the two, as the theorem `ReadsBack` has it.
#[tactic(auto, unfolding(crate::specs::Frames::byte_of, crate::specs::Frames::digit_of))]
pub fn byte_of(high: u8, low: u8) -> Option<u8>
    ensures { result ≡ byte_of high low }
{
    let high = digit(high)?;
    let low = digit(low)?;
    Some(high * 16 + low)
}

// The character of a digit; of a larger number, that of its last digit. By hand: the library formats into a writer, and `pair_of` is of two bytes.
#[tactic(auto, unfolding(crate::specs::Frames::hex_of))]
fn hex_of(value: u8) -> u8
    ensures { result ≡ hex_of value }
{
    let last = value % 16;
    if last < 10 {
        last + b'0'
    } else {
        last + b'A' - 10
    }
}

impl From<u8> for Pair {
    ghost from_gives = { λ byte pair. pair ≡ pair_of byte };

    // The pair of characters that says a byte.
    #[tactic(auto, unfolding(crate::specs::Frames::pair_of))]
    fn from(byte: u8) -> Pair {
        Pair {
            high: hex_of(byte / 16),
            low: hex_of(byte),
        }
    }
}

// What the three bytes of a frame say; by their names and not as one array, as the theorem `ReadsBack` has them.
#[tactic(auto, unfolding(crate::specs::Frames::meaning_of, crate::specs::Frames::alone_of))]
pub fn meaning_of(kind: u8, station: u8, other: u8) -> Option<Frame>
    ensures { result ≡ meaning_of kind station other }
{
    let s = station as usize;
    let t = other as usize;
    match (kind, other) {
        (OPEN, 0) => Some(Frame::Open(s)),
        (0, 0) => Some(Frame::Move(Step::Ask(s))),
        (1, 0) => Some(Frame::Move(Step::Send(s))),
        (2, 0) => Some(Frame::Move(Step::Enter(s))),
        (3, 0) => Some(Frame::Move(Step::Leave(s))),
        (4, 0) => Some(Frame::Move(Step::Give(s))),
        (5, _) => Some(Frame::Move(Step::TakeRequest(s, t))),
        (6, _) => Some(Frame::Move(Step::TakeAnswer(s, t))),
        _ => None,
    }
}

// The frame whose line starts at `at`. A line that ends early, or has no line feed after its six characters, has none.
#[tactic(auto, unfolding(crate::specs::Frames::frame_at, crate::specs::Frames::of_bytes))]
pub fn frame_at(input: &[u8], at: usize) -> Option<Frame>
    ensures { result ≡ frame_at input.now at }
{
    let line = input.get(at..)?.get(..FRAME_BYTES)?;
    let &[
        kind_high,
        kind_low,
        station_high,
        station_low,
        other_high,
        other_low,
        LINE_FEED,
    ] = line
    else {
        return None;
    };
    let kind = byte_of(kind_high, kind_low)?;
    let station = byte_of(station_high, station_low)?;
    let other = byte_of(other_high, other_low)?;
    meaning_of(kind, station, other)
}
