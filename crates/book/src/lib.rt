// The calls of a book of verdicts: lookup; add, which searches and stores; and publish, which marks an entry for trainers. A book is a lent buffer of entries and the count of the used ones.

#![tactic(auto)]

ghost use Rattle.std.specs.Prelude.{◌≡◌, ◌+◌, ◌*◌, ◌≤◌, IfOk, length};
ghost use Rattle.rules.specs.Record.{position_of};
ghost use Rattle.rules.specs.Refusals.{refuses};
ghost use Rattle.refusals.specs.Numbers.{refusal_code};
ghost use Rattle.game.specs.Words.{Holds};
ghost use Rattle.entries.specs.Entries.{is_trainer};
ghost use Rattle.searches.specs.Answers.{limits_of};
ghost use Rattle.searches.specs.Accepting.{Passed};
ghost use Rattle.book.specs.Book.{book_of, broken, lookup_refusal, lookup_call, add_refusal, searched_verdict, after_search, add_call, PoolAfterAdd, publish_refusal, publish_call};
ghost use Rattle.book.specs.Answers.{looked, added_of, added, published};

use calls::LAST_RULE;
use entries::{Caller, ENTRY};
use game::Game;
use prove::Evaluation;
use refusals::Refusal;
use searches::SearchLimits;

// A book and its count are two parameters in all functions here, as the C interface lends them to the exports.

// What add answers: the verdict of a pair that was held; or a search's, and the count after it. Only a True or False is stored.
#[derive(Clone, Copy)]
pub enum Added {
    Held(bool),
    Searched(Evaluation, usize),
}

// Check 19: a trainer adds or publishes.
fn check_caller(who: Caller) -> Result<(), Refusal>
    ensures { refusal_code result ≡ refuses 19 (is_trainer who) }
{
    if who.is_trainer() {
        return Err(Refusal::Trainer);
    }
    Ok(())
}

// The buffer is no whole number of entries, or the count is above them.
fn broken(book: &[u8], count: usize) -> bool
    ensures { result ≡ broken (book_of book.now count) }
{
    book.len() % ENTRY != 0 || count > book.len() / ENTRY
}

// Check 17: the book is broken.
fn check_book(book: &[u8], count: usize) -> Result<(), Refusal>
    ensures { refusal_code result ≡ refuses 17 (broken (book_of book.now count)) }
{
    if broken(book, count) {
        return Err(Refusal::BrokenBook);
    }
    Ok(())
}

// Lookup's checks, in their order.
fn check_lookup(book: &[u8], count: usize, bytes: &[u8], rule: u64) -> Result<(), Refusal>
    ensures { refusal_code result ≡ lookup_refusal bytes.now rule (book_of book.now count) }
{
    record::load(bytes)?;
    refusals::first(&[
        (rule > LAST_RULE, Refusal::Range),
        (broken(book, count), Refusal::BrokenBook),
    ])
}

// Looks a pair up: true for True, false for False; nothing if it is not held.
pub fn lookup(
    who: Caller,
    book: &[u8],
    count: usize,
    bytes: &[u8],
    rule: u64,
) -> Result<Option<bool>, Refusal>
    ensures { looked result (book_of book.now count) ≡ lookup_call who bytes.now rule (book_of book.now count) }
{
    check_lookup(book, count, bytes, rule)?;
    Ok(entries::find(who, book, count, bytes, rule))
}

// Add's checks up to 17, in their order, of a pool with so many nodes: the position, or the first that refuses.
fn accept_add(
    who: Caller,
    book: &[u8],
    count: usize,
    bytes: &[u8],
    nodes: usize,
    rule: u64,
    l: SearchLimits,
) -> Result<Game, Refusal>
    ensures code { refusal_code result ≡ add_refusal who bytes.now nodes rule (limits_of l) (book_of book.now count) }
    ensures position { IfOk result (λ g. Holds (position_of bytes.now) g.words 0) }
{
    check_caller(who)?;
    let game = searches::accept(bytes, nodes, rule, l)?;
    check_book(book, count)?;
    Ok(game)
}

// Unknown's number: it is not stored.
const UNKNOWN: u8 = 0;

// Searches a position that passed every check, and stores a True or False as the entry at the count.
fn search_and_store(
    book: &mut [u8],
    count: usize,
    bytes: &[u8],
    start: Game,
    words: &mut [u32],
    rule: u64,
    l: SearchLimits,
) -> Added
    requires { Passed bytes.now start.words (length words.old) rule (limits_of l) × (count * 22 + 22 ≤ length book.old) }
    ensures count_after { added_of result book.new count ≡
        after_search (book_of book.old count) bytes.now rule (searched_verdict bytes.now (length words.old) rule (limits_of l)) }
    ensures pool { PoolAfterAdd (added_of result book.new count).searched words.old words.new }
{
    let verdict = searches::search_accepted(start, words, rule, l).verdict;
    let v = verdict.number() as u8;
    if v == UNKNOWN {
        return Added::Searched(verdict, count);
    }
    entries::store(book, count, bytes, rule, v);
    Added::Searched(verdict, count + 1)
}

// Adds a pair: a verdict that is held is the answer; otherwise the pair is searched for, and a True or False stored.
pub fn add(
    who: Caller,
    book: &mut [u8],
    count: usize,
    bytes: &[u8],
    words: &mut [u32],
    rule: u64,
    l: SearchLimits,
) -> Result<Added, Refusal>
    ensures count_after { added result book.new count ≡ add_call who bytes.now (length words.old) rule (limits_of l) (book_of book.old count) }
    ensures pool { PoolAfterAdd (added result book.new count).searched words.old words.new }
{
    let nodes = node_pool::capacity(words);
    let start = accept_add(who, book, count, bytes, nodes, rule, l)?;
    let held = entries::find(Caller::Arbiter, book, count, bytes, rule);
    if let Some(verdict) = held {
        return Ok(Added::Held(verdict));
    }
    if count >= book.len() / ENTRY {
        return Err(Refusal::FullBook);
    }
    Ok(search_and_store(book, count, bytes, start, words, rule, l))
}

// Publish's checks, in their order.
fn check_publish(
    who: Caller,
    book: &[u8],
    count: usize,
    bytes: &[u8],
    rule: u64,
) -> Result<(), Refusal>
    ensures { refusal_code result ≡ publish_refusal who bytes.now rule (book_of book.now count) }
{
    check_caller(who)?;
    check_lookup(book, count, bytes, rule)
}

// Publishes a pair: sets the mark in the first entry that holds it. False if none does.
pub fn publish(
    who: Caller,
    book: &mut [u8],
    count: usize,
    bytes: &[u8],
    rule: u64,
) -> Result<bool, Refusal>
    ensures { published result book.new count ≡ publish_call who bytes.now rule (book_of book.old count) }
{
    check_publish(who, book, count, bytes, rule)?;
    let place = entries::first(Caller::Arbiter, book, count, bytes, rule);
    let Some(at) = place else {
        return Ok(false);
    };
    entries::mark(book, at);
    Ok(true)
}
