// What the list says of a call, and whether the library says the same.
ghost use Rattle.std.specs.Prelude.{◌≡◌, true, Ok, Err, [], length, IfErr};
ghost use Rattle.vectors.specs.Words.{Counted};
ghost use Rattle.vectors.specs.Compared.{Compared};

use crate::line::{Line, Unreadable};

// What an output holds before a call. No legal move is this byte.
const PATTERN: u8 = 0xA5;

// An output that a call lends, or a part of.
pub type Output = [u8; 256];

// Whether a line's answer is the library's.
pub type Outcome = Result<bool, Unreadable>;

// An answer: 0 or a refusal's number; the refusal's index, 0 with a result; and a result, or what stands for it beside a refusal: numbers, as the C interface gives them.
#[derive(Clone, Copy, PartialEq, Eq)]
pub struct Answer<T> {
    pub code: u64,
    pub index: u64,
    pub value: T,
}

impl<T> Answer<T> {
    // What a call gave, a refusal or a result.
    pub fn given(code: u32, index: u64, value: T) -> Answer<T>
        ensures code { result.code ≡ code }
        ensures index { result.index ≡ index }
        ensures value { result.value ≡ value }
    {
        Answer {
            code: u64::from(code),
            index,
            value,
        }
    }
}

// What an answer that is no refusal has in its line: a record; a count and so many moves; a count and a record.
#[derive(Clone, Copy)]
pub enum Form {
    Record,
    Moves,
    Opening,
}

// The answer that a line ends with: a refusal, beside which `refused` stands, or the result that `value_of` reads.
pub fn stored<T, F: FnOnce(&mut Line<'_>) -> Result<T, Unreadable>>(
    mut line: Line<'_>,
    refused: T,
    value_of: F,
) -> Result<Answer<T>, Unreadable>
where
    T: Copy,
    requires { F.IsAlwaysCallable value_of }
{
    let answer = if line.skip(b"refused") {
        let [code, index]: [u64; 2] = line.numbers()?;
        if code == 0 {
            return Err(Unreadable);
        }
        Answer {
            code,
            index,
            value: refused,
        }
    } else {
        Answer {
            code: 0,
            index: 0,
            value: value_of(&mut line)?,
        }
    };
    line.end()?;
    Ok(answer)
}

// Whether the answers are the same, and the outputs in every byte.
fn compare<const N: usize>(
    stored: Result<Answer<[u64; N]>, Unreadable>,
    given: Answer<[u64; N]>,
    want: &[u8],
    out: &[u8],
) -> Outcome
    ensures { Compared stored.entry given.entry want.now out.now result }
{
    Ok(stored? == given && want == out)
}

// Compares what a call gave with the answer that is stored. No bytes were lent.
pub fn settle<const N: usize>(
    stored: Result<Answer<[u64; N]>, Unreadable>,
    given: Answer<[u64; N]>,
) -> Outcome
    ensures { Compared stored.entry given.entry [] [] result }
{
    compare(stored, given, &[], &[])
}

// An outcome, if the rest agrees too.
pub fn both(outcome: Outcome, rest: bool) -> Outcome
    ensures agreed { result ≡ Ok true → (outcome ≡ Ok true) × (rest ≡ true) }
    ensures alike { outcome ≡ Ok true → rest ≡ true → result ≡ Ok true }
    ensures unread { IfErr outcome (λ e. result ≡ Err e) }
{
    Ok(outcome? && rest)
}

// Puts the bytes that the next word spells, as many as asked, at the front of want.
fn read_exactly(line: &mut Line<'_>, bytes: u64, want: &mut Output) -> Result<(), Unreadable> {
    if line.bytes(want)? as u64 == bytes {
        Ok(())
    } else {
        Err(Unreadable)
    }
}

// What the form says of a result: its number, 0 where there is none, and the bytes that are put into want.
fn read_output(line: &mut Line<'_>, form: Form, want: &mut Output) -> Result<[u64; 1], Unreadable> {
    let number = match form {
        Form::Record => 0,
        Form::Moves | Form::Opening => line.number()?,
    };
    let bytes = match form {
        Form::Moves => number,
        Form::Record | Form::Opening => 21,
    };
    read_exactly(line, bytes, want)?;
    Ok([number])
}

// Compares what a call gave, and the output that it was lent, with the answer that a line ends with.
pub fn settle_output(line: Line<'_>, form: Form, given: Answer<[u64; 1]>, out: &Output) -> Outcome {
    let mut want = untouched();
    let stored = stored(line, [0], |line| read_output(line, form, &mut want));
    compare(stored, given, &want, out)
}

// Compares the value that a call gave, 1 for True, 2 for False, 0 if the book holds none, with the answer that a line ends with.
pub fn settle_value(line: Line<'_>, given: Answer<[u64; 1]>) -> Outcome {
    let stored = stored(line, [0], |line| match line.word()? {
        b"notheld" => Ok([0]),
        b"True" => Ok([1]),
        b"False" => Ok([2]),
        _ => Err(Unreadable),
    });
    settle(stored, given)
}

// The length of the output that a call lends, at most that of `most`, and the arrow. A line may leave the usual length out.
pub fn output_length(line: &mut Line<'_>, usual: u64, most: &Output) -> Result<usize, Unreadable>
    ensures { Counted result most.now }
{
    let n = if line.skip(b"=>") {
        usual
    } else {
        let n = line.number()?;
        line.expect(b"=>")?;
        n
    };
    if n <= most.len() as u64 {
        Ok(n as usize)
    } else {
        Err(Unreadable)
    }
}

// An output as it is before a call.
pub fn untouched() -> Output
    ensures { 256 ≡ length result }
{
    [PATTERN; 256]
}
