// Reads a list of frames from standard input, and writes a line for each.
#![tactic(auto)]

ghost use Rattle.std.specs.Prelude.{◌≤◌, length};

use std::io::{self, Read};

// Fills the lent buffer from standard input, until it is full, the input ends or a read fails, and returns how many bytes it read: no heap.
fn read_full(rt: &impl Input, input: &mut [u8]) -> usize
    ensures { result ≤ length input.new }
{
    let mut reader = rt.reader();
    let mut done = 0;
    // A loop of our own: `io::copy` into a cursor would go on after an interrupted read, at which this program ends its reading, `read_exact` leaves unsaid how much it read, and `read_to_end` needs the heap.
    while done < input.len() {
        let Ok(read @ 1..) = reader.read(&mut input[done..]) else {
            break;
        };
        done += read;
    }
    done
}

// Both buffers are of the most that a run takes and writes: no heap.
fn main(rt: HostRuntime) -> io::Result<()> {
    let mut input = [0u8; session::INPUT_LIMIT + 1];
    let mut output = [0u8; session::OUTPUT_MOST];
    let read = read_full(&rt, &mut input);
    let count = session::run(&input[..read], &mut output).unwrap();
    rt.write_all(&output[..count])
}
