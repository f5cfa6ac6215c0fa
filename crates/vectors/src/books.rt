// The calls on the book. One book is kept from line to line. A line whose call can't be read leaves it as it is.
ghost use Rattle.std.specs.Prelude.{◌≡◌, ◌≤◌, ◌*◌, true, length, IfOk, IsOk};

use crate::answers::{Answer, Outcome};
use crate::line::{Line, Unreadable};
use crate::search_lines::Settings;
use crate::{answers, fields, publishing, search_lines};
use ultimattt::book_exports::AddAnswer;

// The most entries of a book that is lent. A line with a longer book can't be read.
const MOST_ENTRIES: u64 = 50;

// A book: its bytes, 22 for each entry, at the front of an array of zeros; how many they are; and its count of used entries.
#[derive(Clone, Copy, PartialEq, Eq)]
pub struct Book {
    pub bytes: [u8; 1100],
    pub length: usize,
    pub count: u64,
    ghost fits: { length ≤ 1100 },
}

// Who calls, and the pair that the call is about.
#[derive(Clone, Copy)]
pub struct Asked<'a> {
    pub trainer: bool,
    pub record: &'a [u8],
    pub rule: u64,
}

impl Book {
    // A book of so many bytes, without used entries.
    pub fn empty(length: usize) -> Book
        requires { length ≤ 1100 }
    {
        Book {
            bytes: [0; 1100],
            length,
            count: 0,
        }
    }

    // Puts the entry that an add has stored into the book as it should be; none if the count stayed.
    fn put_entry(&mut self, x: Asked<'_>, got: AddAnswer) {
        if got.count == self.count || MOST_ENTRIES <= self.count || x.record.len() != 21 {
            return;
        }
        let start = self.count as usize * 22;
        self.bytes[start..start + 21].copy_from_slice(x.record);
        self.bytes[start + 21] = (x.rule % 4 * 64 + u64::from(got.verdict) % 4 * 16) as u8;
    }
}

// Passes `=> ok`, with which a line ends.
fn expect_ok(line: &mut Line<'_>) -> Result<(), Unreadable> {
    line.expect(b"=>")?;
    line.expect(b"ok")?;
    line.end()
}

// How many bytes a book of so many entries has, 22 for each. One with more entries than are lent can't be read.
fn book_length(entries: u64) -> Result<usize, Unreadable>
    ensures few { IfOk result (λ bytes. (entries ≤ 50) × (bytes ≡ entries * 22)) }
    ensures all { entries ≤ 50 → IsOk result }
{
    if MOST_ENTRIES < entries {
        return Err(Unreadable);
    }
    Ok(entries as usize * 22)
}

// `book new ENTRIES => ok`
fn new_book(mut line: Line<'_>, book: &mut Book) -> Outcome {
    let entries = line.number()?;
    expect_ok(&mut line)?;
    *book = Book::empty(book_length(entries)?);
    Ok(true)
}

// A book of the bytes that the next word spells.
fn read_bytes(line: &mut Line<'_>) -> Result<Book, Unreadable> {
    let mut bytes = [0; 1100];
    let length = line.bytes(&mut bytes)?;
    Ok(Book {
        bytes,
        length,
        count: 0,
    })
}

// `book set BYTES COUNT => ok`
fn set_book(mut line: Line<'_>, book: &mut Book) -> Outcome {
    let mut given = read_bytes(&mut line)?;
    given.count = line.number()?;
    expect_ok(&mut line)?;
    *book = given;
    Ok(true)
}

// Whether two books are the same: every byte of their arrays, their lengths and their counts.
fn same(a: &Book, b: &Book) -> bool
    ensures same { result ≡ true → (a.now.bytes ≡ b.now.bytes) × (a.now.length ≡ b.now.length) × (a.now.count ≡ b.now.count) }
    ensures alike { a.now.bytes ≡ b.now.bytes → a.now.length ≡ b.now.length → a.now.count ≡ b.now.count → result ≡ true }
{
    a == b
}

// `book dump => COUNT BYTES`
fn dump(mut line: Line<'_>, book: &Book) -> Outcome {
    line.expect(b"=>")?;
    let count = line.number()?;
    let mut want = read_bytes(&mut line)?;
    want.count = count;
    line.end()?;
    Ok(same(&want, book))
}

// `book lookup WHO RECORD RULE => VALUE`, from the arrow on.
fn lookup(mut line: Line<'_>, x: Asked<'_>, book: &Book) -> Outcome {
    line.expect(b"=>")?;
    let got = ultimattt::book_exports::uttt_book_lookup(
        x.trainer,
        &book.bytes[..book.length],
        book.count,
        x.record,
        x.rule,
    );
    let given = Answer::given(got.code, got.index, [u64::from(got.verdict)]);
    answers::settle_value(line, given)
}

// Compares what an add gave with the answer that a line ends with. With a refusal the verdict is 0, and the count is the one before the call.
fn settle_add(line: Line<'_>, before: u64, got: AddAnswer) -> Outcome {
    let given = Answer::given(got.code, got.index, [u64::from(got.verdict), got.count]);
    let stored = answers::stored(line, [0, before], |line| {
        Ok([fields::read_verdict(line)?, line.number()?])
    });
    answers::settle(stored, given)
}

// The first word of a pool that an add may not write. A True or False with the count as it was is of a pair that was held, not searched for: then it is the first of all.
fn closed_after_add(got: AddAnswer, before: u64, words: usize) -> usize {
    if got.count == before && got.verdict != 0 {
        0
    } else {
        search_lines::closed_from(got.code, words)
    }
}

// The call of add, and its answer. The pool comes first, as in `search_lines::run_search`.
fn run_add(
    line: Line<'_>,
    asked: Asked<'_>,
    x: Settings,
    book: &mut Book,
    want: &mut Book,
) -> Outcome
    requires { x.words ≤ 20484 }
{
    let mut pool = fields::fresh_pool();
    let before = book.count;
    // Tried, and no proof came: to lend `book.bytes`, a field beside a ghost field, to a call with a contract. So it is copied out and back.
    let mut bytes = book.bytes;
    let got = ultimattt::book_exports::uttt_book_add(
        asked.trainer,
        &mut bytes[..book.length],
        before,
        asked.record,
        &mut pool[..x.words],
        asked.rule,
        x.limit,
        x.budget,
        x.interval,
        x.margin.is_some(),
        x.margin.unwrap_or(0.0),
    );
    book.bytes = bytes;
    book.count = got.count;
    want.put_entry(asked, got);
    want.count = got.count;
    let closed = closed_after_add(got, before, x.words);
    answers::both(
        settle_add(line, before, got),
        fields::untouched(&pool, closed),
    )
}

// `book add WHO RECORD RULE POOL-NODES LIMIT BUDGET INTERVAL [MARGIN] => VERDICT COUNT`, from the pool on.
fn add(mut line: Line<'_>, asked: Asked<'_>, book: &mut Book, want: &mut Book) -> Outcome {
    let x = search_lines::read_settings(&mut line)?;
    run_add(line, asked, x, book, want)
}

// Runs the call of that name, an arbiter's or a trainer's, on the record and the rule that follow. `want` becomes the book as it should be after the call.
fn call(verb: &[u8], mut line: Line<'_>, book: &mut Book, want: &mut Book) -> Outcome {
    let trainer = match line.word()? {
        b"trainer" => true,
        b"arbiter" => false,
        _ => return Err(Unreadable),
    };
    let mut record = [0u8; 512];
    let n = line.bytes(&mut record)?;
    let asked = Asked {
        trainer,
        record: &record[..n],
        rule: line.number()?,
    };
    match verb {
        b"add" => add(line, asked, book, want),
        b"lookup" => lookup(line, asked, book),
        b"publish" => publishing::publish(line, asked, book, want),
        _ => Err(Unreadable),
    }
}

// Runs a line of the book's, from the word after `book` on. After an add, a lookup or a publish every byte of the array must be as it should.
pub fn run(mut line: Line<'_>, book: &mut Book) -> Outcome {
    match line.word()? {
        b"new" => new_book(line, book),
        b"set" => set_book(line, book),
        b"dump" => dump(line, book),
        verb => {
            let mut want = *book;
            let outcome = call(verb, line, book, &mut want);
            answers::both(outcome, same(&want, book))
        }
    }
}
