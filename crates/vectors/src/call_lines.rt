// The calls, a function for each, those that lend a pool in `search_lines`, `eight` and `simulation`: it reads the rest of its line, after the record or the first sheet, and runs the call.
use crate::answers::{Answer, Form, Outcome};
use crate::line::{Line, Unreadable};
use crate::{answers, eight, search_lines, simulation};

// What a lent number holds before a call. No call answers it.
const UNWRITTEN: u32 = 0xA5A5A5A5;

// `moves RECORD [OUTPUT-LENGTH] => COUNT MOVES`
fn moves(mut line: Line<'_>, record: &[u8]) -> Outcome {
    let mut out = answers::untouched();
    let length = answers::output_length(&mut line, 81, &out)?;
    let got = ultimattt::exports::uttt_legal_moves(record, &mut out[..length]);
    let given = Answer::given(got.code, got.index, [got.count]);
    answers::settle_output(line, Form::Moves, given, &out)
}

// `replay RECORD MOVES [OUTPUT-LENGTH] => RECORD`
fn replay(mut line: Line<'_>, record: &[u8]) -> Outcome {
    let mut moves = [0u8; 512];
    let n = line.bytes(&mut moves)?;
    let mut out = answers::untouched();
    let length = answers::output_length(&mut line, 21, &out)?;
    let got = ultimattt::exports::uttt_replay(record, &moves[..n], &mut out[..length]);
    let given = Answer::given(got.code, got.index, [0]);
    answers::settle_output(line, Form::Record, given, &out)
}

// `sheets FIRST SECOND [OUTPUT-LENGTH] => COUNT RECORD`
fn sheets(mut line: Line<'_>, first: &[u8]) -> Outcome {
    let mut second = [0u8; 512];
    let n = line.bytes(&mut second)?;
    let mut out = answers::untouched();
    let length = answers::output_length(&mut line, 21, &out)?;
    let mut code = UNWRITTEN;
    let count = ultimattt::exports::uttt_agreed_opening(
        first,
        &second[..n],
        &mut out[..length],
        &mut code,
    );
    let given = Answer::given(code, 0, [count]);
    answers::settle_output(line, Form::Opening, given, &out)
}

// `referee RECORD RULE => VALUE`
fn referee(mut line: Line<'_>, record: &[u8]) -> Outcome {
    let rule = line.number()?;
    line.expect(b"=>")?;
    let got = ultimattt::exports::uttt_referee(record, rule);
    let given = Answer::given(got.code, got.index, [u64::from(got.value)]);
    answers::settle_value(line, given)
}

// Runs the call of that name, on the record, or the first sheet, that follows it.
pub fn run(name: &[u8], mut line: Line<'_>) -> Outcome {
    let mut bytes = [0u8; 512];
    let n = line.bytes(&mut bytes)?;
    let record = &bytes[..n];
    match name {
        b"moves" => moves(line, record),
        b"replay" => replay(line, record),
        b"search" => search_lines::search(line, record),
        b"full" => search_lines::full(line, record),
        b"eight" => eight::judge(line, record),
        b"sim" => simulation::simulate(line, record),
        b"referee" => referee(line, record),
        b"sheets" => sheets(line, record),
        _ => Err(Unreadable),
    }
}
