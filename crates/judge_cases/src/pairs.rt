// Pairs of searches of one record under one rule, run by two_searches, whose contract is the third condition. For each pair the line of either search, and
// whether they are alike. The answers are those of the original: harness/oracle/cases.txt has each of these searches that is answered.

ghost use Rattle.std.specs.Prelude.{◌≡◌, ◌≤◌};

use searches::SearchLimits;
use stay::Stay;
use std::io;

// The most words that a search is lent: 3,276 nodes, five words each.
const WORDS: usize = 16380;

const INTERVAL: u64 = 10000;

// What one search of a pair is given: a pool of so many nodes, and its limits.
#[derive(Clone, Copy)]
struct Search {
    nodes: usize,
    limits: SearchLimits,
    ghost few: { nodes ≤ 3276 },
}

fn given(nodes: usize, limit: u64, budget: u64, interval: u64) -> Search
    requires { nodes ≤ 3276 }
    ensures { result.nodes ≡ nodes }
{
    let limits = SearchLimits {
        limit,
        budget,
        interval,
        stay: Stay::Off,
    };
    Search { nodes, limits }
}

// Runs a pair, writes the lines of both answers, and says whether they are alike. The pool of the first holds zeros, that of the second ones.
fn run_pair(rt: &impl Print, record: &[u8], rule: u64, a: Search, b: Search) -> io::Result<()> {
    let mut zeros = [0; WORDS];
    let mut ones = [u32::MAX; WORDS];
    let two = searches::two_searches(
        record,
        rule,
        &mut zeros[..a.nodes * 5],
        a.limits,
        &mut ones[..b.nodes * 5],
        b.limits,
    );
    let first = printed::outcome_line(printed::numbered(two.first));
    let second = printed::outcome_line(printed::numbered(two.second));
    rt.write_all(first.text())?;
    rt.write_all(second.text())?;
    if first.text() == second.text() {
        println!(rt; "alike")
    } else {
        println!(rt; "not alike")
    }
}

// An ending A: more of a pool, and of a budget, than the first had; another interval, and less limit.
fn run_ending(rt: &impl Print) -> io::Result<()> {
    let a = b"\x78\x22\xd2\xcd\x2b\x35\x2c\xcb\x12\xd4\xcb\x52\xc9\x53\x4a\x84\xcc\xb3\x34\xad\x52";
    let nine = given(9, u64::MAX, 100000, INTERVAL);
    let most = given(3276, u64::MAX, 100000, INTERVAL);
    let less = given(3276, 4, 100000, 2);
    let pairs = [
        (nine, most),
        (given(8, u64::MAX, 100000, INTERVAL), nine),
        (given(3276, u64::MAX, 4, INTERVAL), most),
        (given(3276, 0, 100000, 7), less),
        (given(3276, 6, 100000, 2), less),
    ];
    for (first, second) in pairs {
        run_pair(rt, a, 0, first, second)?;
    }
    Ok(())
}

// W, a win in one move; D, a drawn position; E, the empty board, with no pool in the first search.
fn run_others(rt: &impl Print) -> io::Result<()> {
    let w = b"\x12\xa0\x00\xa8\x00\x28\x05\x15\x00\x05\x40\x00\x00\x00\x00\x00\x00\x00\x00\x00\x00";
    let d = b"\x7a\xb4\x00\xac\x00\x54\x00\x15\x00\x05\x40\x00\xa8\x00\x2a\x00\x0a\x80\x05\x40\x00";
    let e = b"\x78\x00\x00\x00\x00\x00\x00\x00\x00\x00\x00\x00\x00\x00\x00\x00\x00\x00\x00\x00\x00";
    let two = given(2, u64::MAX, 1, INTERVAL);
    let most = given(3276, u64::MAX, 100000, INTERVAL);
    run_pair(rt, w, 0, two, most)?;
    run_pair(rt, w, 0, given(1, u64::MAX, 1, INTERVAL), two)?;
    run_pair(rt, d, 1, most, most)?;
    run_pair(rt, e, 3, given(0, u64::MAX, 0, 1), given(1, u64::MAX, 0, 1))?;
    run_pair(
        rt,
        e,
        2,
        given(82, u64::MAX, 1, INTERVAL),
        given(90, u64::MAX, 2, INTERVAL),
    )
}

pub fn run(rt: &impl Print) -> io::Result<()> {
    run_ending(rt)?;
    run_others(rt)
}
