// Reads an input into a buffer of a fixed size.

#![tactic(auto)]

ghost use Rattle.std.specs.Io.{ReadsAtMost};

use std::io;
use std::io::Read;

// Reads until the buffer is full or the input ends, and gives how many bytes stand at its front. A read that fails ends it with that error.
// A loop, since `read_exact` refuses an input that ends before the buffer is full, and `read_to_end` needs a heap.
pub fn read_full(from: &mut impl Read, buffer: &mut [u8]) -> io::Result<usize>
    ensures { ReadsAtMost result buffer.new }
{
    let mut filled: usize = 0;
    while filled < buffer.len() {
        let n = from.read(&mut buffer[filled..])?;
        if n == 0 {
            break;
        }
        filled += n;
    }
    Ok(filled)
}
