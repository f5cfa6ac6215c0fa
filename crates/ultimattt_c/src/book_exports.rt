// The calls lookup, add and publish under their names in C. Each is the library's own, with its contract; include/ultimattt.h says what is lent and answered.

ghost use Rattle.std.specs.Prelude.{◌≡◌, false, length};
ghost use Rattle.stay.specs.Margin.{given};
ghost use Rattle.searches.specs.Searches.{limits};
ghost use Rattle.entries.specs.Entries.{caller_of};
ghost use Rattle.book.specs.Book.{book_of, book_outcome, lookup_call, add_call, publish_call, PoolAfterAdd};

use ultimattt::book_exports::{AddAnswer, LookupAnswer, PublishAnswer};

#[unsafe(no_mangle)]
pub extern "C" fn uttt_book_lookup(
    trainer: bool,
    book: &[u8],
    count: u64,
    bytes: &[u8],
    rule: u64,
) -> LookupAnswer
    ensures { book_outcome result.code result.index result.verdict false (book_of book.now count) ≡
        lookup_call (caller_of trainer) bytes.now rule (book_of book.now count) }
{
    ultimattt::book_exports::uttt_book_lookup(trainer, book, count, bytes, rule)
}

#[unsafe(no_mangle)]
pub extern "C" fn uttt_book_add(
    trainer: bool,
    book: &mut [u8],
    count: u64,
    bytes: &[u8],
    words: &mut [u32],
    rule: u64,
    limit: u64,
    budget: u64,
    interval: u64,
    staying: bool,
    margin: f64,
) -> AddAnswer
    ensures count_after { let o = add_call (caller_of trainer) bytes.now (length words.old) rule
        (limits limit budget interval (given staying margin)) (book_of book.old count) in
        book_outcome result.code result.index result.verdict o.searched (book_of book.new result.count) ≡ o }
    ensures pool { let o = add_call (caller_of trainer) bytes.now (length words.old) rule
        (limits limit budget interval (given staying margin)) (book_of book.old count) in
        PoolAfterAdd o.searched words.old words.new }
{
    ultimattt::book_exports::uttt_book_add(
        trainer, book, count, bytes, words, rule, limit, budget, interval, staying, margin,
    )
}

#[unsafe(no_mangle)]
pub extern "C" fn uttt_book_publish(
    trainer: bool,
    book: &mut [u8],
    count: u64,
    bytes: &[u8],
    rule: u64,
) -> PublishAnswer
    ensures { book_outcome result.code result.index result.published false (book_of book.new count) ≡
        publish_call (caller_of trainer) bytes.now rule (book_of book.old count) }
{
    ultimattt::book_exports::uttt_book_publish(trainer, book, count, bytes, rule)
}
