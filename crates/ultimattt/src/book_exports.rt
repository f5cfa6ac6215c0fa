// The calls of the book of verdicts as C has them: the parameters in a row, the structs and the numbers are those of the C interface. `trainer` says who is calling:
// false an arbiter, true a trainer.

ghost use Rattle.std.specs.Prelude.{◌≡◌, false, List, ℕ, length};
ghost use Rattle.stay.specs.Margin.{given};
ghost use Rattle.searches.specs.Searches.{limits};
ghost use Rattle.entries.specs.Entries.{caller_of};
ghost use Rattle.book.specs.Book.{book_of, book_outcome, lookup_call, add_call, publish_call, PoolAfterAdd, Book};
ghost use Rattle.book.specs.Answers.{looked, published};

use book::Added;
use entries::Caller;
use prove::Evaluation;
use refusals::Refusal;
use searches::SearchLimits;

// The answer of lookup as C has it: code is 0 or the refusal's number; index is 0; verdict is 1 for True, 2 for False, 0 if the pair is not held and with a
// refusal.
#[repr(C)]
#[derive(Clone, Copy)]
pub struct LookupAnswer {
    pub code: u32,
    pub index: u64,
    pub verdict: u32,
}

impl From<Result<Option<bool>, Refusal>> for LookupAnswer {
    ghost from_gives = { λ answer r. (B : Book) → book_outcome r.code r.index r.verdict false B ≡ looked answer B };

    fn from(answer: Result<Option<bool>, Refusal>) -> LookupAnswer {
        match answer {
            Ok(held) => LookupAnswer {
                code: 0,
                index: 0,
                verdict: match held {
                    None => 0,
                    Some(true) => 1,
                    Some(false) => 2,
                },
            },
            Err(refusal) => LookupAnswer {
                code: refusal.number() as u32,
                index: 0,
                verdict: 0,
            },
        }
    }
}

pub fn uttt_book_lookup(
    trainer: bool,
    book: &[u8],
    count: u64,
    bytes: &[u8],
    rule: u64,
) -> LookupAnswer
    ensures { book_outcome result.code result.index result.verdict false (book_of book.now count) ≡
        lookup_call (caller_of trainer) bytes.now rule (book_of book.now count) }
{
    book::lookup(Caller::from(trainer), book, count as usize, bytes, rule).into()
}

// The answer of add as C has it: code is 0 or the refusal's number; index is 0; verdict is 1 for True, 2 for False, 0 for Unknown and with a refusal; count is
// the count of used entries afterwards, with a refusal the one that came in.
#[repr(C)]
#[derive(Clone, Copy)]
pub struct AddAnswer {
    pub code: u32,
    pub index: u64,
    pub verdict: u32,
    pub count: u64,
}

pub fn uttt_book_add(
    trainer: bool,
    book: &mut [u8],
    count: u64,
    bytes: &[u8],
    words: &mut [u32],
    rule: u64,
    limit: u64,
    budget: u64,
    interval: u64,
    staying: bool,
    margin: f64,
) -> AddAnswer
    ensures count_after { let o = add_call (caller_of trainer) bytes.now (length words.old) rule
        (limits limit budget interval (given staying margin)) (book_of book.old count) in
        book_outcome result.code result.index result.verdict o.searched (book_of book.new result.count) ≡ o }
    ensures pool { let o = add_call (caller_of trainer) bytes.now (length words.old) rule
        (limits limit budget interval (given staying margin)) (book_of book.old count) in
        PoolAfterAdd o.searched words.old words.new }
{
    let l = SearchLimits {
        limit,
        budget,
        interval,
        stay: stay::given(staying, margin),
    };
    match book::add(
        Caller::from(trainer),
        book,
        count as usize,
        bytes,
        words,
        rule,
        l,
    ) {
        Ok(Added::Held(verdict)) => AddAnswer {
            code: 0,
            index: 0,
            verdict: Evaluation::from(verdict).number(),
            count,
        },
        Ok(Added::Searched(verdict, after)) => AddAnswer {
            code: 0,
            index: 0,
            verdict: verdict.number(),
            count: after as u64,
        },
        Err(refusal) => AddAnswer {
            code: refusal.number() as u32,
            index: 0,
            verdict: 0,
            count,
        },
    }
}

// The answer of publish as C has it: code is 0 or the refusal's number; index is 0; published is 1, or 0 if the pair is not held and with a refusal.
#[repr(C)]
#[derive(Clone, Copy)]
pub struct PublishAnswer {
    pub code: u32,
    pub index: u64,
    pub published: u32,
}

impl From<Result<bool, Refusal>> for PublishAnswer {
    ghost from_gives = { λ answer r. (bytes : List ℕ) (count : ℕ) → book_outcome r.code r.index r.published false (book_of bytes count) ≡ published answer bytes count };

    fn from(answer: Result<bool, Refusal>) -> PublishAnswer {
        match answer {
            Ok(published) => PublishAnswer {
                code: 0,
                index: 0,
                published: published as u32,
            },
            Err(refusal) => PublishAnswer {
                code: refusal.number() as u32,
                index: 0,
                published: 0,
            },
        }
    }
}

pub fn uttt_book_publish(
    trainer: bool,
    book: &mut [u8],
    count: u64,
    bytes: &[u8],
    rule: u64,
) -> PublishAnswer
    ensures { book_outcome result.code result.index result.published false (book_of book.new count) ≡
        publish_call (caller_of trainer) bytes.now rule (book_of book.old count) }
{
    book::publish(Caller::from(trainer), book, count as usize, bytes, rule).into()
}
