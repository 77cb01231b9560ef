// Reading what a program gets on its standard input into a buffer of the caller's.

#![tactic(auto)]

ghost use Rattle.std.specs.Io.{ReadsAtMost};

use std::io;
use std::io::Read;

// Reads until the buffer is full or the input ends, and returns how many bytes it put at the buffer's start.
pub fn read_full<R: Read>(input: &mut R, buffer: &mut [u8]) -> io::Result<usize>
    ensures { ReadsAtMost result buffer.new }
{
    let mut done = 0;
    while done < buffer.len() {
        let size = input.read(&mut buffer[done..])?;
        if size == 0 {
            return Ok(done);
        }
        done += size;
    }
    Ok(done)
}
