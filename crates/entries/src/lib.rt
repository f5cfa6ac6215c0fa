// The entries of a book of verdicts in a lent buffer: the scan for a pair of a record and a rule, the storing of a new entry, and the published mark.

#![tactic(auto)]

ghost use Rattle.std.specs.Prelude.{◌≡◌, ◌&&◌, ◌+◌, ◌*◌, ◌≤◌, ◌<◌, length, take, MatchOption};
ghost use Rattle.std.specs.Simd.{first_chunks};
ghost use Rattle.entries.specs.Entries.{rule_bits, is_trainer, caller_of, may_read, entry_of, entries, has_verdict, same_bytes, holds_rule, answers, find, found_number, verdict_in, place};
ghost use Rattle.entries.specs.Entries.{new_entry, storing, with_entries, with_mark, marking};
ghost use Rattle.entries.specs.SameWords.{little_endian, SameWord};

// A book and its count of used entries are two parameters, as the C interface lends them. Words are read least significant byte first, those of a record (crate
// cells) most significant first: two methods of the library.

// The bytes of a record, and of an entry.
const RECORD: usize = 21;

pub const ENTRY: usize = 22;

// Who is calling.
#[derive(Clone, Copy)]
pub enum Caller {
    Arbiter,
    Trainer,
}

// The caller, as C names it: a trainer or not.
impl From<bool> for Caller {
    ghost from_gives = { λ trainer r. r ≡ caller_of trainer };

    fn from(trainer: bool) -> Caller {
        if trainer {
            Caller::Trainer
        } else {
            Caller::Arbiter
        }
    }
}

impl Caller {
    pub fn is_trainer(self) -> bool
        ensures { result ≡ is_trainer self }
    {
        match self {
            Caller::Arbiter => false,
            Caller::Trainer => true,
        }
    }

    // The caller may read an entry with such a last byte.
    fn may_read(self, last: u8) -> bool
        ensures { result ≡ may_read self last }
    {
        match self {
            Caller::Arbiter => true,
            Caller::Trainer => last % 2 == 1,
        }
    }
}

// The eight bytes from byte k on, as a word. Words are only compared, and in this order the compiled code reads each as it stands.
fn word_at(bytes: &[u8], k: usize) -> u64
    requires { k + 8 ≤ length bytes.now }
    ensures { result ≡ little_endian bytes.now k 8 }
{
    u64::from_le_bytes(*bytes[k..].first_chunk().unwrap())
}

// The eight bytes from byte k on, of an entry's record and of a record, are the same.
fn same_word(entry: &[u8; ENTRY], bytes: &[u8; RECORD], k: usize) -> bool
    requires { k ≤ 13 }
    ensures { SameWord entry.now 0 bytes.now k result }
{
    word_at(entry, k) == word_at(bytes, k)
}

// The record of an entry has these bytes: three words, from bytes 0, 13 and 8 on. Tried as `==` of slices: entries that differ in their last byte alone took nine times as long.
fn same_record(entry: &[u8; ENTRY], bytes: &[u8; RECORD]) -> bool
    ensures { result ≡ same_bytes (take 21 entry.now) bytes.now }
{
    same_word(entry, bytes, 0) && same_word(entry, bytes, 13) && same_word(entry, bytes, 8)
}

// The verdict of a last byte: true for True, false for False.
fn verdict(last: u8) -> Option<bool>
    ensures { result ≡ verdict_in last }
{
    match last / 16 % 4 {
        1 => Some(true),
        2 => Some(false),
        _ => None,
    }
}

// The rule of a last byte.
fn rule_bits(last: u8) -> u64
    ensures { result ≡ rule_bits last }
{
    (last / 64) as u64
}

// A last byte has the rule, and a verdict.
fn holds_rule(rule: u64, last: u8) -> bool
    ensures { result ≡ holds_rule rule last }
{
    rule_bits(last) == rule && verdict(last).is_some()
}

// An entry with such a last byte, of the pair's record, answers the caller.
fn answers_rule(who: Caller, rule: u64, last: u8) -> bool
    ensures { result ≡ (may_read who last && holds_rule rule last) }
{
    holds_rule(rule, last) && who.may_read(last)
}

// The entry answers the caller for the pair. Its last byte is read only if its record is the same.
fn entry_answers(who: Caller, entry: &[u8; ENTRY], bytes: &[u8; RECORD], rule: u64) -> bool
    ensures { result ≡ answers who bytes.now rule (entry_of entry.now) }
{
    same_record(entry, bytes) && answers_rule(who, rule, entry[RECORD])
}

// The first entries of a book, so many.
fn used(book: &[u8], count: usize) -> &[[u8; ENTRY]]
    requires { count * 22 ≤ length book.now }
    ensures { result.now ≡ first_chunks 22 count book.now }
{
    book[..count * ENTRY].as_chunks().0
}

// Where the first of so many entries that answers the caller for the pair begins.
pub fn first(who: Caller, book: &[u8], count: usize, bytes: &[u8], rule: u64) -> Option<usize>
    requires { (length bytes.now ≡ 21) × (count * 22 ≤ length book.now) }
    ensures { let i = place (answers who bytes.now rule) (entries count book.now) in MatchOption result (i ≡ count) (λ at. (i < count) × (at ≡ i * 22)) }
{
    let record = bytes.as_array().unwrap();
    let i = used(book, count)
        .iter()
        .position(|e| entry_answers(who, e, record, rule))?;
    Some(i * ENTRY)
}

// What the caller finds for the pair among so many entries, if it is held.
pub fn find(who: Caller, book: &[u8], count: usize, bytes: &[u8], rule: u64) -> Option<bool>
    requires { (length bytes.now ≡ 21) × (count * 22 ≤ length book.now) }
    ensures { found_number result ≡ find who bytes.now rule (entries count book.now) }
{
    let at = first(who, book, count, bytes, rule)?;
    verdict(book[at + RECORD])
}

// The last byte of a new entry. The verdict stays a number: a bool would ask more of callers of `store`.
fn last_byte(rule: u64, verdict: u8) -> u8
    requires { (rule < 4) × (verdict < 4) }
    ensures { result ≡ rule * 64 + verdict * 16 }
{
    (rule as u8) * 64 + verdict * 16
}

// Writes a new entry after so many.
pub fn store(book: &mut [u8], count: usize, bytes: &[u8], rule: u64, verdict: u8)
    requires { (length bytes.now ≡ 21) × (count * 22 + 22 ≤ length book.old) × (rule < 4) × (verdict < 4) }
    ensures { book.new ≡ with_entries (storing (new_entry bytes.now rule verdict) (entries count book.old)) book.old }
{
    let at = count * ENTRY;
    book[at..at + RECORD].copy_from_slice(bytes);
    book[at + RECORD] = last_byte(rule, verdict);
}

// A last byte with the mark.
fn with_mark(last: u8) -> u8
    ensures { result ≡ with_mark last }
{
    last / 2 * 2 + 1
}

// Sets the mark in the entry that begins at a place.
pub fn mark(book: &mut [u8], at: usize)
    requires { at + 22 ≤ length book.old }
    ensures { book.new ≡ marking at book.old }
{
    book[at + RECORD] = with_mark(book[at + RECORD]);
}
