// Two sheets of one game: the agreed opening, the longest common beginning of two lists of moves in which every move is legal from the empty game.

#![tactic(auto)]

ghost use Rattle.std.specs.Prelude.{◌≡◌, ◌≢◌, ℕ, ◌<◌, ◌≤◌, IfOk, length, slice_index};
ghost use Rattle.game.specs.Words.{Holds};
ghost use Rattle.sheets.specs.Sheets.{empty_game, sheets_call, agreed};
ghost use Rattle.sheets.specs.AgreedOpening.{AgreedOpening};

use calls::RECORD_LENGTH;
use game::Game;
use refusals::Refusal;

// How many moves two lists begin with alike.
fn common_length(first: &[u8], second: &[u8]) -> usize
    ensures within { (result ≤ length first.now) × (result ≤ length second.now) }
    ensures alike { (k : ℕ) → k < result → slice_index first.now k ≡ slice_index second.now k }
    ensures differ { result < length first.now → result < length second.now → slice_index first.now result ≢ slice_index second.now result }
{
    first.iter().zip(second).take_while(|(a, b)| a == b).count()
}

// The empty game, from its record.
fn empty_game() -> Game
    ensures { Holds empty_game result.words 0 }
{
    let mut bytes = [0; RECORD_LENGTH];
    bytes[0] = 0x78;
    record::load(&bytes).unwrap()
}

// The agreed opening of two sheets, as that part of the first one itself; the record after it is written. A short output is refused.
pub fn agreed_opening<'a>(
    first: &'a [u8],
    second: &[u8],
    out: &mut [u8],
) -> Result<&'a [u8], Refusal>
    ensures out_after { agreed result out.new ≡ sheets_call first.now second.now out.old }
    ensures place { IfOk result (λ part. part.ref_ptr ≡ first.entry.ref_ptr) }
    ensures opening { AgreedOpening first.now second.now out.old (agreed result out.new) }
{
    if out.len() < RECORD_LENGTH {
        return Err(Refusal::ShortOutput);
    }
    let alike = &first[..common_length(first, second)];
    let line = calls::play_line(empty_game(), alike);
    record::store(out, line.game);
    Ok(&alike[..line.count])
}
