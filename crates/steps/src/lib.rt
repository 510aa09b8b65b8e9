// What one event can do to a line: the states after, found in one loop over the rows, and the duty (definition 6).
#![tactic(auto)]

ghost use Rattle.std.specs.Prelude.{◌≡◌, ◌<◌};
ghost use Rattle.kinds.specs.Codes.{state_not_seen};
ghost use Rattle.sets.specs.Sets.{set_of};
ghost use Rattle.rows.specs.Event.{seen};
ghost use Rattle.steps.specs.Steps.{sets_after, duty};
ghost use Rattle.steps.specs.Code.{column_at, table_at, answer_at, row_at, event_bytes, row_fits, row_adds};
ghost use Rattle.steps.specs.Code.{tables_of, message_of, row_key, event_key};

use kinds::{
    ALL_STATES, Answer, Channel, Duty, EVENT_BYTES, Forward, FwdState, LineState, Opcode, Request,
    Resp, RespErr, place,
};
use rows::Table;

mod printed;

// A row: `ret` is RetToSrc or X, `finals` is the set of states after, and `marked` is the star (definition 5.1, 5.7).
// Stays: a flag, since a row with the star has the same columns as one without.
#[derive(Clone, Copy)]
struct Row {
    table: Table,
    before: LineState,
    ret: u8,
    answer: Answer,
    finals: u8,
    marked: bool,
}

// The column of a word that starts at bit `place`.
fn column(word: u32, place: u32) -> u8
    requires { place < 32 }
    ensures { result ≡ column_at word place }
{
    ((word >> place) % printed::COLUMN) as u8
}

// The table with this number in its column.
// Stays: no `From`, which only the crate of `Table` could have.
fn table_of(number: u8) -> Table
    ensures { result ≡ table_at number }
{
    match number {
        0 => Table::B46,
        1 => Table::B57,
        2 => Table::B59,
        3 => Table::B60,
        4 => Table::Unique,
        5 => Table::CleanInvalid,
        6 => Table::MakeInvalid,
        _ => Table::NdErr,
    }
}

// The answer, from its three columns; the rows name no error field of forwarded data, and OK stands for it.
fn answer_of(message: u8, resp: u8, state: u8) -> Answer
    ensures { result ≡ answer_at message resp state }
{
    let forward = Forward::from_state(FwdState(state), RespErr::OK);
    match message {
        0 => Answer::SnpResp(Resp(resp), forward),
        1 => Answer::SnpRespData(Resp(resp), forward),
        _ => Answer::SnpRespDataPtl(Resp(resp)),
    }
}

impl From<u32> for Row {
    ghost from_gives = { λ word row. row ≡ row_at word };

    // The row that a word encodes.
    fn from(word: u32) -> Row {
        let message = column(word, printed::MESSAGE_AT);
        let resp = column(word, printed::RESP_AT);
        Row {
            table: table_of(column(word, printed::TABLE_AT)),
            before: LineState(column(word, printed::BEFORE_AT)),
            ret: column(word, printed::RET_AT),
            answer: answer_of(message, resp, column(word, printed::FWD_AT)),
            finals: (word % printed::MARK) as u8,
            marked: word / printed::MARK % 2 == 1,
        }
    }
}

// Whether the row permits the event, from the row's own state before.
fn row_fits(e: &[u8; EVENT_BYTES], row: Row) -> bool
    ensures { result ≡ row_fits e.now row }
{
    rows::asked(e, row.table, row.ret, row.marked)
        && rows::answered(e, row.table, row.answer)
        && rows::some_tag(e, row.table, row.before, row.answer)
}

// The states that the row adds to the set of its state before.
fn row_adds(e: &[u8; EVENT_BYTES], among: u8, row: Row) -> u8
    ensures { result ≡ row_adds e.now among row }
{
    if row_fits(e, row) {
        row.finals & among
    } else {
        0
    }
}

// The sets of possible states after by byte 13: each state by itself, and all seven for not seen.
static SEEN_STATES: [u8; 8] = [1, 2, 4, 8, 16, 32, 64, ALL_STATES];

// The states after that the event may have, as a set: the one that was seen, or all if none was seen.
pub fn seen_states(shown: LineState) -> u8
    ensures { result ≡ set_of (seen state_not_seen shown.0) }
{
    SEEN_STATES.get(shown.0 as usize).copied().unwrap_or(0)
}

// A copy of the event's 15 bytes, so that the loop over the rows does not check the slice's length again.
fn event_bytes(event: &[u8]) -> [u8; EVENT_BYTES]
    ensures { result ≡ event_bytes event.now }
{
    std::array::from_fn(|i| rows::byte_at(event, i))
}

// The key's table part: the table's number halved. B4.46 and B4.57 share a value, and so do B4.59 and B4.60, SnpUnique and
// SnpCleanInvalid, SnpMakeInvalid and NDERR.
fn tables_of(request: Request, error: RespErr) -> u8
    ensures { result ≡ tables_of request.0 error.0 }
{
    if error == RespErr::NDERR {
        return 3;
    }
    match request {
        Request::SNP_MAKE_INVALID => 3,
        Request::SNP_UNIQUE | Request::SNP_CLEAN_INVALID => 2,
        Request::SNP_PREFER_UNIQUE_FWD => 1,
        _ => 0,
    }
}

// The key's message part.
fn message_of(channel: Channel, opcode: Opcode) -> u8
    ensures { result ≡ message_of channel.0 opcode.0 }
{
    match (channel, opcode) {
        (Channel::RSP, _) => 0,
        (_, Opcode::SNP_RESP_DATA_PTL) => 2,
        _ => 1,
    }
}

// The key of a row: the upper bits of its word, from KEY_AT on.
fn row_key(tables: u8, message: u8, resp: u8, forward: u8) -> u32
    ensures { result ≡ row_key tables message resp forward }
{
    tables as u32
        + printed::RESP_WEIGHT * resp as u32
        + printed::FWD_WEIGHT * forward as u32
        + printed::MESSAGE_WEIGHT * message as u32
}

// The key of the event. Rows with another key are skipped.
fn event_key(e: &[u8; EVENT_BYTES]) -> u32
    ensures { result ≡ event_key e.now }
{
    let tables = tables_of(Request(e[place::REQUEST]), RespErr(e[place::RESP_ERR]));
    let message = message_of(Channel(e[place::CHANNEL]), Opcode(e[place::OPCODE]));
    row_key(tables, message, e[place::RESP], e[place::FWD_STATE])
}

// For each of the seven states before, the set of states after (definition 6.2).
pub fn sets_after(event: &[u8]) -> [u8; 7]
    ensures { result ≡ sets_after event.now }
{
    let e = event_bytes(event);
    let among = seen_states(LineState(e[place::STATE_AFTER]));
    let key = event_key(&e);
    let mut sets = [0u8; 7];
    for &word in printed::ROWS.iter() {
        if word >> printed::KEY_AT == key {
            let row = Row::from(word);
            sets[row.before.0 as usize] |= row_adds(&e, among, row);
        }
    }
    sets
}

// The duty byte of an explained event, given the set before (definition 6.3).
pub fn duty(event: &[u8], before: u8) -> Duty
    ensures { result.0 ≡ duty event.now before }
{
    let request = Request(rows::byte_at(event, place::REQUEST));
    let error = RespErr(rows::byte_at(event, place::RESP_ERR));
    let held = sets::holds_dirty(before);
    if Resp(rows::byte_at(event, place::RESP)).passes_dirty() {
        Duty::HOME
    } else if FwdState(rows::byte_at(event, place::FWD_STATE)).passes_dirty() {
        Duty::REQUESTER
    } else if error == RespErr::NDERR && held {
        Duty::LOST
    } else if request == Request::SNP_MAKE_INVALID && error == RespErr::OK && held {
        Duty::DISCARDED
    } else {
        Duty::NONE
    }
}
