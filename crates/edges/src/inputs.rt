// Inputs of the bench that keep or break the rules of a frame: for each, its name and the lines that the run writes.
use std::io;

// An input, with its name before it.
type Named = (&'static str, &'static [u8]);

// Lines of the wrong form.
pub const LINES: &[Named] = &[
    ("no input", b""),
    ("no line feed at the end", b"F00200\n000100"),
    ("lower case", b"f00200\n"),
    ("the character before 0", b"F0/200\n"),
    ("the character after 9", b"F0:200\n"),
    ("the character before A", b"F0@200\n"),
    ("the character after F", b"F0G200\n"),
    ("a carriage return", b"F00200\r\n000100\n"),
    ("a frame too long", b"F00200\n0001000\n"),
    ("a frame too short", b"F00200\n00010\n"),
];

// Kinds that are out of place or that there are not, and an `other` that has to be 00.
pub const KINDS: &[Named] = &[
    ("no first frame", b"000100\n"),
    ("kind 07", b"F00200\n070100\n000100\n"),
    ("kind EF", b"EF0200\n"),
    ("kind F1", b"F10200\n"),
    ("kind FF", b"F00200\nFF0100\n"),
    ("a second F0", b"F00200\n000100\nF00200\n000200\n"),
    ("other not 00 in the first frame", b"F00201\n"),
    ("other not 00 in an Ask", b"F00200\n000101\n"),
];

// Counts and stations at both ends of their ranges.
pub const NUMBERS: &[Named] = &[
    ("count 00", b"F00000\n"),
    ("count 01", b"F00100\n000100\n"),
    ("count 0A", b"F00A00\n000A00\n"),
    ("count 20", b"F02000\n002000\n"),
    ("count 21", b"F02100\n"),
    ("count FF", b"F0FF00\n"),
    (
        "stations 00 and FF",
        b"F00200\n000000\n00FF00\n060100\n050101\n000100\n",
    ),
];

// The output is of the most that a run writes: no heap.
fn feed(rt: &impl Print, name: &str, input: &[u8]) -> io::Result<()> {
    let mut output = [0u8; session::OUTPUT_MOST];
    let count = session::run(input, &mut output).unwrap();
    rt.println(name)?;
    rt.write_all(&output[..count])
}

pub fn feed_all(rt: &impl Print, inputs: &[Named]) -> io::Result<()> {
    for (name, input) in inputs {
        feed(rt, name, input)?;
    }
    Ok(())
}

// The largest input, and one byte more.
pub fn feed_the_limit(rt: &impl Print) -> io::Result<()> {
    let input = [b'0'; session::INPUT_LIMIT + 1];
    feed(rt, "65,536 bytes", &input[..session::INPUT_LIMIT])?;
    feed(rt, "65,537 bytes", &input)
}
