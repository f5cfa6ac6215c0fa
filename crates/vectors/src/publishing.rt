// The call publish, and the byte of the book's array that it should change. The entry is looked for here, by a plain scan, not by the library.
use crate::answers;
use crate::answers::{Answer, Outcome};
use crate::books::{Asked, Book};
use crate::line::{Line, Unreadable};

// Whether a last byte has a verdict, True or False, under a rule.
fn has_verdict(last: u8, rule: u64) -> bool {
    u64::from(last / 64) == rule && matches!(last / 16 % 4, 1 | 2)
}

// Whether an entry, a record and a last byte, holds a pair.
fn holds(entry: &[u8], x: Asked<'_>) -> bool {
    match entry.split_last() {
        Some((last, record)) => record == x.record && has_verdict(*last, x.rule),
        None => false,
    }
}

// Marks the first used entry that holds a pair in the book as it should be, if there is one: its last byte gets its lowest bit.
fn put_mark(want: &mut Book, x: Asked<'_>) {
    let used = want.count as usize;
    let mut entries = want.bytes.chunks_exact_mut(22).take(used);
    if let Some(entry) = entries.find(|entry| holds(entry, x)) {
        entry[21] |= 1;
    }
}

// `book publish WHO RECORD RULE => published`, from the arrow on. The numbers are 1 for published, 0 if the book holds none.
pub fn publish(mut line: Line<'_>, x: Asked<'_>, book: &mut Book, want: &mut Book) -> Outcome {
    line.expect(b"=>")?;
    // Tried, and no proof came: to lend `book.bytes`, a field beside a ghost field, to a call with a contract. So it is copied out and back.
    let mut bytes = book.bytes;
    let got = ultimattt::book_exports::uttt_book_publish(
        x.trainer,
        &mut bytes[..book.length],
        book.count,
        x.record,
        x.rule,
    );
    book.bytes = bytes;
    if got.published == 1 {
        put_mark(want, x);
    }
    let given = Answer::given(got.code, got.index, [u64::from(got.published)]);
    let stored = answers::stored(line, [0], |line| match line.word()? {
        b"notheld" => Ok([0]),
        b"published" => Ok([1]),
        _ => Err(Unreadable),
    });
    answers::settle(stored, given)
}
