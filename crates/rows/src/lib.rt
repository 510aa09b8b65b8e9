// What the rows of the tables ask of an event (definition 5).
#![tactic(auto)]

ghost use Rattle.std.specs.Prelude.{◌≡◌};
ghost use Rattle.kinds.specs.Tests.{◌∈?◌, same};
ghost use Rattle.kinds.specs.Codes.{tag_not_seen};
ghost use Rattle.kinds.specs.Answers.{wire};
ghost use Rattle.rows.specs.Event.{byte, seen, answer_of, tag_of};
ghost use Rattle.rows.specs.Permitted.{rules_of, ok_or_derr, on_forward, by_tags, tags_allow, asked, answered, tagged, some_tag, fits};

use kinds::{Answer, EVENT_BYTES, Forward, LineState, Request, RespErr, TagOp, TagState, place};

// The printed tables, the bench copy's rows for three snoops more, and the row of NDERR (definition 5.2 to 5.5, 5.11, 5.12).
#[derive(Clone, Copy, PartialEq, Eq)]
pub enum Table {
    B46,
    B57,
    B59,
    B60,
    Unique,
    CleanInvalid,
    MakeInvalid,
    NdErr,
}

// In a RetToSrc or excl column: 0 and 1 both fit.
// Stays: a number, since `asked` takes any column as one.
const X: u8 = 2;

// The byte of an event at an offset; 0 past the end.
pub fn byte_at(event: &[u8], at: usize) -> u8
    ensures { result ≡ byte event.now «at» }
{
    event.get(at).copied().unwrap_or(0)
}

// Whether a column (0, 1 or X) fits a flag.
fn fits(column: u8, flag: u8) -> bool
    ensures { result ≡ fits column flag }
{
    column == X || column == flag
}

// Whether the event may have this tag state: it was seen, or none was seen.
fn sees_tag(e: &[u8; EVENT_BYTES], tag: TagState) -> bool
    ensures { result ≡ seen tag_not_seen (tag_of e.now) tag.0 }
{
    let seen = TagState(e[place::TAG]);
    seen == TagState::NOT_SEEN || seen == tag
}

impl Table {
    // Whether the table is for this request.
    fn asks(self, request: Request) -> bool
        ensures { result ≡ request.0 ∈? (rules_of self).asks }
    {
        match self {
            Table::B46 => matches!(
                request,
                Request::SNP_SHARED
                    | Request::SNP_CLEAN
                    | Request::SNP_NOT_SHARED_DIRTY
                    | Request::SNP_PREFER_UNIQUE
            ),
            Table::B57 => {
                matches!(
                    request,
                    Request::SNP_CLEAN_FWD | Request::SNP_NOT_SHARED_DIRTY_FWD
                )
            }
            Table::B59 | Table::B60 => request == Request::SNP_PREFER_UNIQUE_FWD,
            Table::Unique => request == Request::SNP_UNIQUE,
            Table::CleanInvalid => request == Request::SNP_CLEAN_INVALID,
            Table::MakeInvalid => request == Request::SNP_MAKE_INVALID,
            Table::NdErr => request.known(),
        }
    }

    // The excl that the table is for; X for both.
    fn excl(self) -> u8
        ensures { result ≡ (rules_of self).excl }
    {
        match self {
            Table::B60 => 0,
            _ => X,
        }
    }

    // Whether an answer from this table may carry this RespErr.
    fn errors(self, answer: Answer, error: RespErr) -> bool
        ensures { result ≡ error.0 ∈? (rules_of self).errors answer }
    {
        match self {
            Table::NdErr => error == RespErr::NDERR,
            _ => ok_or_derr(answer, error),
        }
    }

    // Whether an answer with data from this table may carry this TagOp. For B4.46 and the bench copy's rows that is a house rule, until
    // their printed tag columns are at hand (definition 5.9).
    fn on_data(self, tag: TagState, before: LineState, answer: Answer, op: TagOp) -> bool
        ensures { result ≡ op.0 ∈? (rules_of self).on_data tag.0 before.0 answer }
    {
        match self {
            Table::NdErr => false,
            _ => by_tags(tag, before, answer, op),
        }
    }
}

// RespErr of the printed tables: OK, or DERR with data (definition 5.10).
fn ok_or_derr(answer: Answer, error: RespErr) -> bool
    ensures { result ≡ error.0 ∈? ok_or_derr answer }
{
    error == RespErr::OK || (error == RespErr::DERR && answer.has_data())
}

// The error field of forwarded data: OK or DERR; without a forward 0 (definition 5.13).
fn on_forward(answer: Answer, error: RespErr) -> bool
    ensures { result ≡ error.0 ∈? on_forward answer }
{
    match answer.forward() {
        Forward::CompData(_, _) => matches!(error, RespErr::OK | RespErr::DERR),
        Forward::NoForward => error == RespErr::OK,
    }
}

// TagOp of the printed tables, by the tag state, the state before and PD to Home (definition 5.9).
fn by_tags(tag: TagState, before: LineState, answer: Answer, op: TagOp) -> bool
    ensures { result ≡ op.0 ∈? by_tags tag.0 before.0 answer }
{
    if tag == TagState::DIRTY {
        if answer.resp().passes_dirty() {
            op == TagOp::UPDATE
        } else {
            op == TagOp::TRANSFER
        }
    } else if before == LineState::UDP {
        op == TagOp::INVALID
    } else {
        matches!(op, TagOp::INVALID | TagOp::TRANSFER)
    }
}

// Dirty tags exist only with UD and SD, and forbid a forward with PD (definition 5.8).
fn tags_allow(tag: TagState, before: LineState, answer: Answer) -> bool
    ensures { result ≡ tags_allow tag.0 before.0 answer }
{
    let exist = matches!(before, LineState::UD | LineState::SD);
    tag != TagState::DIRTY || (exist && !answer.fwd_state().passes_dirty())
}

// Whether the row is for the event's snoop: request, excl, RetToSrc and DoNotGoToSD.
pub fn asked(e: &[u8; EVENT_BYTES], table: Table, ret: u8, marked: bool) -> bool
    ensures { result ≡ asked e.now table ret marked }
{
    table.asks(Request(e[place::REQUEST]))
        && fits(table.excl(), e[place::EXCL])
        && fits(ret, e[place::RET_TO_SRC])
        && !(marked && e[place::DO_NOT_GO_TO_SD] == 1)
}

// Whether the event has the row's answer, a RespErr that it may carry, and an error field that its forwarded data may have.
pub fn answered(e: &[u8; EVENT_BYTES], table: Table, answer: Answer) -> bool
    ensures { result ≡ answered e.now table answer }
{
    same_answer(e, answer)
        && table.errors(answer, RespErr(e[place::RESP_ERR]))
        && on_forward(answer, RespErr(e[place::FORWARDED_ERR]))
}

// Whether the event's bytes are those of this answer.
fn same_answer(e: &[u8; EVENT_BYTES], answer: Answer) -> bool
    ensures { result ≡ same (answer_of e.now) (wire answer) }
{
    let shown = [
        e[place::CHANNEL],
        e[place::OPCODE],
        e[place::RESP],
        e[place::FWD_STATE],
        e[place::FORWARDED],
        e[place::FORWARDED_RESP],
    ];
    shown == answer.wire()
}

// Whether the row permits this tag state and the event's TagOp.
fn tagged(
    e: &[u8; EVENT_BYTES],
    tag: TagState,
    table: Table,
    before: LineState,
    answer: Answer,
) -> bool
    ensures { result ≡ tagged e.now tag.0 table before.0 answer }
{
    let op = TagOp(e[place::TAG_OP]);
    let fine = if answer.has_data() {
        table.on_data(tag, before, answer, op)
    } else {
        op == TagOp::INVALID
    };
    tags_allow(tag, before, answer) && fine
}

// Whether the row permits the event with the tag state that was seen, or with any if none was seen.
pub fn some_tag(e: &[u8; EVENT_BYTES], table: Table, before: LineState, answer: Answer) -> bool
    ensures { result ≡ some_tag e.now table before.0 answer }
{
    [TagState::INVALID, TagState::CLEAN, TagState::DIRTY]
        .iter()
        .any(|&tag| sees_tag(e, tag) && tagged(e, tag, table, before, answer))
}
