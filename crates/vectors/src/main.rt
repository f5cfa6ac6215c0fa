// Runs a stored list of the oracle's answers over the library. Standard input has lines `CALL => ANSWER`.
// Each line whose answer differs or that can't be read is named; in the end come the number of lines and how many agreed.

#![tactic(auto)]

mod answers;
mod books;
mod call_lines;
mod eight;
mod fields;
mod line;
mod margin;
mod publishing;
mod search_lines;
mod simulation;

ghost use Rattle.std.specs.Prelude.{◌≤◌, ◌≡◌, length, IfOk};

use answers::Outcome;
use books::Book;
use line::Unreadable;
use std::io;

// Runs a line. It starts with `book`, or with the call's name and a record, or a sheet.
fn run_line(text: &[u8], book: &mut Book) -> Outcome {
    match line::first_word(text) {
        (b"book", line) => books::run(line, book),
        (name, line) => call_lines::run(name, line),
    }
}

// Names a line that did not agree; gives 1 for one that did.
fn report(rt: &impl Print, number: u64, outcome: Outcome) -> io::Result<u64>
    ensures { IfOk result (λ n. n ≤ 1) }
{
    match outcome {
        Ok(true) => return Ok(1),
        Ok(false) => println!(rt; "line {number} differs")?,
        Err(Unreadable) => println!(rt; "line {number} can't be read")?,
    }
    Ok(0)
}

// Runs every line of the list. The book that is kept between them is at first one without bytes.
fn run_list(rt: &impl Print, text: &[u8]) -> io::Result<()> {
    let mut book = Book::empty(0);
    let mut rest = text;
    let mut lines: u64 = 0;
    let mut agreed: u64 = 0;
    while !rest.is_empty() {
        let (line, after) = rest.split_at(line::find(rest, b'\n'));
        lines += 1;
        agreed += report(rt, lines, run_line(line, &mut book))?;
        rest = after.strip_prefix(b"\n").unwrap_or(after);
    }
    println!(rt; "{lines} lines, {agreed} agreed")
}

// What the list is read into.
fn fresh_buffer() -> [u8; 655360]
    ensures { 655360 ≡ length result }
{
    [0u8; 655360]
}

// A list that fills the buffer may go on after it: none of it is run.
fn main(rt: HostRuntime) -> io::Result<()> {
    let mut buffer = fresh_buffer();
    let n = intake::read_full(&mut rt.stdin(), &mut buffer)?;
    if n == buffer.len() {
        return println!(rt; "the list has more than 655359 bytes");
    }
    run_list(&rt, &buffer[..n])
}
