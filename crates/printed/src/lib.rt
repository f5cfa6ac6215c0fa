// The printed line: what the program judge writes, from what it reads. Rests on the call search.

#![tactic(auto)]

ghost use Rattle.std.specs.Prelude.{◌≡◌, ◌++◌, ◌+◌, ◌-◌, ◌*◌, ◌≤◌, ◌<◌, length, replicate};
ghost use Rattle.prove.specs.Numbers.{verdict};
ghost use Rattle.searches.specs.Answers.{searched};
ghost use Rattle.printed.specs.Printed.{decimal, fields, newline, verdict_word, refused_line, numbered, answer_line, judge_line};

use pn::SearchResult;
use prove::Evaluation;
use record::RECORD_LENGTH;
use refusals::Refusal;
use searches::SearchLimits;
use stay::Stay;
use std::marker::Model;

// What judge gives a search: the pool's words, five a node, and the limits.
const WORDS: usize = 16380;

const LIMITS: SearchLimits = SearchLimits {
    limit: u64::MAX,
    budget: 100000,
    interval: 10000,
    stay: Stay::Off,
};

// The bytes of a record and a rule.
const INPUT_LENGTH: usize = RECORD_LENGTH + 1;

// A line's text at the front of an array, zeros after it: there is no heap, and contracts see the text alone. The longest has seven letters, eight times a space
// with twenty digits, and a newline.
#[derive(Clone, Copy)]
pub struct Line {
    bytes: [u8; 176],
    length: usize,
}

impl Model for Line {
    ghost use Rattle.std.specs.Prelude.{List, ℕ, take};

    ghost Value = { List ℕ };

    ghost use Rattle.printed.specs.Padding.{Padded, padded, padded_back};

    ghost view = { λ l. take l.length l.bytes };

    ghost invariant = { Padded };

    ghost inverse = { padded };

    ghost inverse_ok = { padded_back };
}

impl Line {
    // Its text.
    pub fn text(&self) -> &[u8]
        ensures { result.now ≡ self.now }
    {
        &self.bytes[..self.length]
    }

    // The whole array: the text, and zeros after it.
    pub fn bytes(&self) -> &[u8; 176]
        ensures { result.now ≡ self.now ++ replicate (176 - length self.now) 0 }
    {
        &self.bytes
    }

    // How many bytes the text has.
    pub fn length(&self) -> usize
        ensures { result ≡ length self.now }
    {
        self.text().len()
    }

    fn put_bytes(&mut self, bytes: &[u8])
        requires { length self.old + length bytes.now ≤ 176 }
        ensures { self.new ≡ self.old ++ bytes.now }
    {
        let end = self.length + bytes.len();
        self.bytes[self.length..end].copy_from_slice(bytes);
        self.length = end;
    }

    // The digits of a tenth of n, if n has more than one, and the last digit. By hand, since the contracts say numbers by `decimal` of specs/Printed.antt.
    fn put_number(&mut self, n: u64)
        requires { length self.old + length (decimal n) ≤ 176 }
        ensures { self.new ≡ self.old ++ decimal n }
    {
        if n >= 10 {
            self.put_number(n / 10);
        }
        self.put_bytes(&[b'0' + (n % 10) as u8]);
    }

    // A space and a number for each.
    fn put_fields(&mut self, numbers: &[u64])
        requires { length self.old + 21 * length numbers.now ≤ 176 }
        ensures text { self.new ≡ self.old ++ fields numbers.now }
        ensures few { length self.new ≤ length self.old + 21 * length numbers.now }
    {
        for &n in numbers {
            self.put_bytes(b" ");
            self.put_number(n);
        }
    }
}

// A verdict's word.
fn word(v: Evaluation) -> &'static [u8]
    ensures word { result.now ≡ verdict_word (verdict v) }
    ensures few { length result.now ≤ 7 }
{
    match v {
        Evaluation::True => b"True",
        Evaluation::False => b"False",
        Evaluation::Unknown => b"Unknown",
    }
}

// A word, numbers, and a newline.
fn line_of(word: &[u8], numbers: &[u64]) -> Line
    requires { length word.now + 21 * length numbers.now < 176 }
    ensures text { result ≡ word.now ++ fields numbers.now ++ newline }
    ensures few { length result ≤ 176 }
{
    let mut line = Line {
        bytes: [0; 176],
        length: 0,
    };
    line.put_bytes(word);
    line.put_fields(numbers);
    line.put_bytes(b"\n");
    line
}

fn refusal_line(number: u8) -> Line
    ensures text { result ≡ refused_line number }
    ensures few { length result ≤ 176 }
{
    line_of(b"refused", &[number as u64])
}

// The line of a search's answer: its fields, or the refusal's number. A number, since it has the line of any.
pub fn outcome_line(outcome: Result<SearchResult, u8>) -> Line
    ensures text { result ≡ answer_line (numbered outcome) }
    ensures few { length result ≤ 176 }
{
    match outcome {
        Ok(r) => {
            let numbers = [
                r.proof as u64,
                r.disproof as u64,
                r.allocated,
                r.freed,
                r.proved,
                r.disproved,
                r.expanded,
                r.cause.number() as u64,
            ];
            line_of(word(r.verdict), &numbers)
        }
        Err(number) => refusal_line(number),
    }
}

// A search's answer with its refusal's number.
pub fn numbered(answer: Result<SearchResult, Refusal>) -> Result<SearchResult, u8>
    ensures { numbered result ≡ searched answer }
{
    match answer {
        Ok(result) => Ok(result),
        Err(refusal) => Err(refusal.number()),
    }
}

// The line that judge writes for an input: 21 bytes of a record and a rule are searched with judge's pool and limits.
#[tactic(auto, using(crate::specs::Answers::wrong_length))]
pub fn judge_line(input: &[u8]) -> Line
    ensures text { result ≡ judge_line input.now }
    ensures few { length result ≤ 176 }
{
    if input.len() != INPUT_LENGTH {
        return refusal_line(Refusal::Length.number());
    }
    let mut pool = [0; WORDS];
    let rule = input[RECORD_LENGTH] as u64;
    let answer = searches::search(&input[..RECORD_LENGTH], &mut pool, rule, LIMITS);
    outcome_line(numbered(answer))
}
