// Reads a record and a rule byte from standard input and writes what a search of it gives, in one line. What is written for what was read is the contract of
// printed::judge_line; no contract can say what standard input gives or standard output takes. A read or a write that fails ends the program with that error.

#![tactic(auto)]

use std::io;

// An input that fills the buffer has more than 22 bytes, however many follow.
fn main(rt: HostRuntime) -> io::Result<()> {
    let mut buffer = [0u8; 23];
    let n = intake::read_full(&mut rt.stdin(), &mut buffer)?;
    rt.write_all(printed::judge_line(&buffer[..n]).text())
}
