// The nine fields of a search's result, as the library gives them and as a line has them; and whether a pool was written where it must not.
ghost use Rattle.std.specs.Prelude.{◌≡◌, true, length};
ghost use Rattle.vectors.specs.Pools.{Kept};

use crate::line::{Line, Unreadable};
use ultimattt::exports::ResultFields;

// What a pool's words hold before a call.
const PATTERN: u32 = 0xA5A5A5A5;

// The words of the largest pool that is lent, whose nodes are 4096: five for each, and four more.
pub type Pool = [u32; 20484];

// The fields of a result in a line's order.
pub type Fields = [u64; 9];

// The fields as the library gives them. A verdict is 0 for Unknown, 1 for True, 2 for False.
pub fn numbers(r: ResultFields) -> Fields {
    [
        u64::from(r.verdict),
        u64::from(r.proof),
        u64::from(r.disproof),
        r.allocated,
        r.freed,
        r.proved,
        r.disproved,
        r.expanded,
        u64::from(r.cause),
    ]
}

// The verdict that the next word names.
pub fn read_verdict(line: &mut Line<'_>) -> Result<u64, Unreadable> {
    match line.word()? {
        b"Unknown" => Ok(0),
        b"True" => Ok(1),
        b"False" => Ok(2),
        _ => Err(Unreadable),
    }
}

// The nine fields that follow.
pub fn read(line: &mut Line<'_>) -> Result<Fields, Unreadable> {
    let mut all = [0; 9];
    all[0] = read_verdict(line)?;
    let rest: [u64; 8] = line.numbers()?;
    all[1..].copy_from_slice(&rest);
    Ok(all)
}

// The nine fields after a bar.
pub fn read_barred(line: &mut Line<'_>) -> Result<Fields, Unreadable> {
    line.expect(b"|")?;
    read(line)
}

// A pool as it is before a call.
pub fn fresh_pool() -> Pool
    ensures { 20484 ≡ length result }
{
    [PATTERN; 20484]
}

// Whether a pool is as before the call from a word on. By places: an iterator's `all` takes more instructions a word, and this loop is most of a short line's time.
pub fn untouched(pool: &Pool, from: usize) -> bool
    ensures { result ≡ true → Kept pool.now from 2779096485 }
{
    for i in from..pool.len() {
        if pool[i] != PATTERN {
            return false;
        }
    }
    true
}
