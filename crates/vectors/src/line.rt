// A line of the stored list, which has words with one space between: its words in turn, and the numbers and bytes that words spell.
ghost use Rattle.std.specs.Prelude.{◌≡◌, true, false, get_or, length, ℕ, List, IfOk, IfErr};
ghost use Rattle.vectors.specs.Words.{First, Leads, Next, DigitOf, Counted};

// That a line is not as it should be.
#[derive(Clone, Copy, PartialEq, Eq)]
pub struct Unreadable;

// What stands after a word of a line: a space and the next word, or nothing.
#[derive(Clone, Copy)]
pub struct Line<'a> {
    pub rest: &'a [u8],
}

// The first place where b stands, or the length.
pub fn find(s: &[u8], b: u8) -> usize
    ensures { First s.now 0 b result }
{
    s.iter().position(|x| *x == b).unwrap_or(s.len())
}

// The first word of a text, and what stands after it.
pub fn first_word(text: &[u8]) -> (&[u8], Line<'_>)
    ensures { Leads text.now result.0.now result.1.rest.now }
{
    let (word, rest) = text.split_at(find(text, b' '));
    (word, Line { rest })
}

impl<'a> Line<'a> {
    // The next word, which follows a space.
    pub fn word(&mut self) -> Result<&'a [u8], Unreadable>
        ensures next { IfOk result (λ w. Next self.old.rest.now w.now self.new.rest.now) }
        ensures none { IfErr result (λ e. get_or self.old.rest.now 0 0 ≡ 32 → ⊥) }
    {
        let [b' ', text @ ..] = self.rest else {
            return Err(Unreadable);
        };
        let (word, after) = first_word(text);
        *self = after;
        Ok(word)
    }

    // Passes the next word if it is the one asked for. Whether it is.
    pub fn skip(&mut self, asked: &[u8]) -> bool
        ensures found { result ≡ true → Next self.old.rest.now asked.now self.new.rest.now }
        ensures all { (after : List ℕ) → Next self.old.rest.now asked.now after → result ≡ true }
        ensures other { result ≡ false → self.new ≡ self.old }
    {
        let mut after = *self;
        match after.word() {
            Ok(word) if word == asked => {
                *self = after;
                true
            }
            _ => false,
        }
    }

    // Passes the next word, which has to be the one asked for.
    pub fn expect(&mut self, asked: &[u8]) -> Result<(), Unreadable>
        ensures found { IfOk result (λ u. Next self.old.rest.now asked.now self.new.rest.now) }
        ensures none { IfErr result (λ e. (after : List ℕ) → Next self.old.rest.now asked.now after → ⊥) }
    {
        if self.skip(asked) {
            Ok(())
        } else {
            Err(Unreadable)
        }
    }

    // Passes the line's end, at which nothing is left.
    pub fn end(&self) -> Result<(), Unreadable> {
        if self.rest.is_empty() {
            Ok(())
        } else {
            Err(Unreadable)
        }
    }

    // The number that the next word spells.
    pub fn number(&mut self) -> Result<u64, Unreadable> {
        number_of(self.word()?)
    }

    // The numbers that as many words spell.
    pub fn numbers<const N: usize>(&mut self) -> Result<[u64; N], Unreadable> {
        let mut all = [0; N];
        for n in all.iter_mut() {
            *n = self.number()?;
        }
        Ok(all)
    }

    // Puts the bytes that the next word spells at the front of out; `-` is none. How many they are.
    pub fn bytes(&mut self, out: &mut [u8]) -> Result<usize, Unreadable>
        ensures { Counted result out.new }
    {
        match self.word()? {
            b"-" => Ok(0),
            word => spell(word, out),
        }
    }
}

// The value of a hexadecimal digit.
pub fn hex_value(b: u8) -> Result<u8, Unreadable>
    ensures { DigitOf b result }
{
    match b {
        b'0'..=b'9' => Ok(b - b'0'),
        b'A'..=b'F' => Ok(b - b'A' + 10),
        _ => Err(Unreadable),
    }
}

// Puts the bytes that digits spell, two for each, at the front of out. There is one at least, and out takes them all.
fn spell(digits: &[u8], out: &mut [u8]) -> Result<usize, Unreadable>
    ensures { Counted result out.new }
{
    let (pairs, odd) = digits.as_chunks::<2>();
    if pairs.is_empty() || !odd.is_empty() || out.len() < pairs.len() {
        return Err(Unreadable);
    }
    for (byte, [high, low]) in out.iter_mut().zip(pairs) {
        *byte = hex_value(*high)? * 16 + hex_value(*low)?;
    }
    Ok(pairs.len())
}

// A number with one more digit, the last.
fn with_digit(n: u64, b: u8) -> Result<u64, Unreadable> {
    if !b.is_ascii_digit() {
        return Err(Unreadable);
    }
    n.checked_mul(10)
        .and_then(|tens| tens.checked_add(u64::from(b - b'0')))
        .ok_or(Unreadable)
}

// The number that digits spell. There is one at least.
pub fn number_of(digits: &[u8]) -> Result<u64, Unreadable> {
    if digits.is_empty() {
        return Err(Unreadable);
    }
    digits.iter().try_fold(0, |n, b| with_digit(n, *b))
}
