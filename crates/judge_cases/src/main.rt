// Runs stored inputs of judge, each after a byte with its length, and writes the line of each. The stored ones, in their order:
// 0, 21, 23 and 255 bytes; W under rules 0, 1, 2, 3 and 255; D under 0, 1, 2; E under 0, 1, 2; records that a check turns back: by 2 a cell code 3, targets 9
// and 14, a last bit 1; by 3 one X with X to move, none with O to move, two X with O to move; by 4 a board with two lines; by 5 a line of boards of the side to
// move, one of both sides; by 6 D with target 0; by 2 a target 9 with rule 3; by 22 E with first byte FA; E with first byte 82, which is accepted; an open game after
// 44 moves under rule 1, answered with the last nodes of the pool; and one after 47 moves under rule 0, which runs short. After them come pairs of searches (pairs.rt).

#![tactic(auto)]

mod pairs;

use std::io;

// Runs them all. Standard input may end within the last one: then that one is not run.
fn run(rt: &impl Print, text: &[u8]) -> io::Result<()> {
    let mut rest = text;
    while let Some((&length, after)) = rest.split_first() {
        let Some((input, next)) = after.split_at_checked(length as usize) else {
            return println!(rt; "the last input is cut short");
        };
        rt.write_all(printed::judge_line(input).text())?;
        rest = next;
    }
    Ok(())
}

fn main(rt: HostRuntime) -> io::Result<()> {
    let mut buffer = [0u8; 4096];
    let n = intake::read_full(&mut rt.stdin(), &mut buffer)?;
    run(&rt, &buffer[..n])?;
    pairs::run(&rt)
}
