// Parses a line of the bench sheet: its pair and its event, or why it is refused (definition 8.3, 8.4, 8.7).
#![tactic(auto)]

ghost use Rattle.std.specs.Prelude.{◌≡◌, map, ltb, length};
ghost use Rattle.names.specs.Names.{columns};
ghost use Rattle.parser.specs.Parsed.{dashes_agree, event_of, in_numbers, parsed};
ghost use Rattle.parser.specs.Code.{taken_at, taken_from, if_known, if_all_known, codes_in, as_byte, line_of};

use kinds::{EVENT_BYTES, Forward, FwdState, HIGHEST_PAIR, PairNumber, Refusal, RespErr};
use names::columns;
use names::columns::COLUMNS;

// A line that is not refused: its pair and its event.
#[derive(Clone, Copy, PartialEq, Eq)]
pub struct Line {
    pub pair: PairNumber,
    pub event: [u8; EVENT_BYTES],
}

// A line, and the offset at which its next field starts.
#[derive(Clone, Copy)]
pub struct Fields<'a> {
    pub line: &'a [u8],
    pub at: usize,
}

// One field: its code in its column, and the offset behind its comma.
#[derive(Clone, Copy)]
pub struct Taken {
    pub code: u32,
    pub next: usize,
}

// The codes of a line's first twelve fields, and the offset behind the last one.
#[derive(Clone, Copy)]
pub struct Codes {
    pub codes: [u32; COLUMNS],
    pub end: usize,
}

// Whether an offset is past the end of the line, so that no field starts there. At the end itself an empty one does.
fn past_end(line: &[u8], at: usize) -> bool
    ensures { result ≡ ltb (length line.now) at }
{
    line.len() < at
}

// Reads the field at an offset in the column with this number; none past the end of the line, or if the column does not know the field.
// Stays: a line and an offset as parameters, as the form for what reads fields has it.
#[tactic(auto, unfolding(crate::specs::Code::taken_at, crate::specs::Code::taken_by))]
fn field_at(number: usize, line: &[u8], at: usize) -> Option<Taken>
    ensures { result ≡ if_known (taken_at number line.now at) }
{
    if past_end(line, at) {
        return None;
    }
    let end = fields::end_of(line, at);
    let code = names::column(number, &line[at..end])?;
    Some(Taken {
        code,
        next: end + 1,
    })
}

// Reads the twelve fields one after another, if each is known in its column.
fn take_all(line: &[u8]) -> Option<Codes>
    ensures { result ≡ if_all_known (taken_from columns line.now 0) }
{
    let mut fields = Fields { line, at: 0 };
    let mut codes = [0u32; COLUMNS];
    for number in 0..COLUMNS {
        let field = field_at(number, fields.line, fields.at)?;
        codes[number] = field.code;
        fields.at = field.next;
    }
    Some(Codes {
        codes,
        end: fields.at,
    })
}

// Whether `-` stands in both of forward and fwdErr, or in neither.
pub fn dashes_agree(codes: [u32; COLUMNS]) -> bool
    ensures { result ≡ dashes_agree codes }
{
    // Stays: compared as numbers, which the codes of all columns are here.
    let no_forward = codes[columns::FORWARD] == FwdState::NONE.0 as u32;
    let no_error = codes[columns::FWD_ERR] == names::NO_FWD_ERR as u32;
    no_forward == no_error
}

// The codes of a line's fields, if it is well formed: twelve fields, each known in its column, and the dashes agree.
fn codes_of(line: &[u8]) -> Option<[u32; COLUMNS]>
    ensures { result ≡ codes_in line.now }
{
    let taken = take_all(line)?;
    if line.len() < taken.end && dashes_agree(taken.codes) {
        return Some(taken.codes);
    }
    None
}

// The codes as bytes.
fn as_bytes(codes: [u32; COLUMNS]) -> [u8; COLUMNS]
    ensures { result ≡ map as_byte codes }
{
    codes.map(|code| (code % 256) as u8)
}

// The event's bytes, from the codes of the fields (definition 8.4).
fn event_of(codes: [u8; COLUMNS]) -> [u8; EVENT_BYTES]
    ensures { result ≡ event_of codes }
{
    let [channel, opcode, resp, fwd_state, ..] = names::answer(codes[columns::RESPONSE]).wire();
    let state = FwdState(codes[columns::FORWARD]);
    let forward = Forward::from_state(state, RespErr(codes[columns::FWD_ERR]));
    let [present, fwd_resp] = forward.wire();
    [
        codes[columns::REQUEST],
        codes[columns::RET_TO_SRC],
        codes[columns::DO_NOT_GO_TO_SD],
        codes[columns::EXCL],
        codes[columns::TAG],
        channel,
        opcode,
        resp,
        fwd_state,
        codes[columns::TAG_OP],
        codes[columns::RESP_ERR],
        present,
        fwd_resp,
        codes[columns::FINAL],
        forward.error().0,
    ]
}

// The line that the codes of its fields stand for, if it is well formed: refused for its pair, or its pair and its event.
pub fn line_of(codes: [u32; COLUMNS]) -> Result<Line, Refusal>
    ensures { in_numbers result ≡ line_of codes }
{
    let pair = codes[columns::PAIR];
    if pair > HIGHEST_PAIR {
        return Err(Refusal::Pair);
    }
    Ok(Line {
        pair: PairNumber(pair as u16),
        event: event_of(as_bytes(codes)),
    })
}

// Parses a line.
pub fn parse_line(line: &[u8]) -> Result<Line, Refusal>
    ensures { in_numbers result ≡ parsed line.now }
{
    let Some(codes) = codes_of(line) else {
        return Err(Refusal::Fields);
    };
    line_of(codes)
}
