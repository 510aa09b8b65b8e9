// Finds the code of a field by its name (definition 8.4).
#![tactic(auto)]

ghost use Rattle.std.specs.Prelude.{◌≡◌, ◌≤◌, length};
ghost use Rattle.kinds.specs.Tests.{same};
ghost use Rattle.names.specs.Names.{code_of, request_names, flag_names, tag_names, response_names, tag_op_names, resp_err_names};
ghost use Rattle.names.specs.Names.{forward_names, final_names, fwd_err_names, most_digits, pair_of, known_as, answer_at, in_column};
ghost use Rattle.names.specs.Code.{code_in, as_names, number_in};

use kinds::{Answer, Forward, FwdState, LineState, Request, Resp, RespErr, TagOp, TagState};

pub mod columns;

// The most digits of a pair number.
pub const MOST_DIGITS: usize = 5;

// The first digit.
const ZERO: u8 = b'0';

// The last digit.
const NINE: u8 = b'9';

// Whether a field is exactly this name.
pub fn is(field: &[u8], name: &[u8]) -> bool
    ensures { result ≡ same field.now name.now }
{
    field == name
}

// The code of the name that is the field, among names with their codes. It is always inlined, so that each column's names are constants.
#[inline(always)]
fn code_in(names: &[(&[u8], u8)], field: &[u8]) -> Option<u32>
    ensures { result ≡ code_in (as_names names.now) field.now }
{
    for &(name, code) in names {
        if is(field, name) {
            return Some(code.into());
        }
    }
    None
}

// The ten requests.
static REQUESTS: [(&[u8], u8); 10] = [
    (b"SnpShared", Request::SNP_SHARED.0),
    (b"SnpClean", Request::SNP_CLEAN.0),
    (b"SnpNotSharedDirty", Request::SNP_NOT_SHARED_DIRTY.0),
    (b"SnpUnique", Request::SNP_UNIQUE.0),
    (b"SnpCleanInvalid", Request::SNP_CLEAN_INVALID.0),
    (b"SnpMakeInvalid", Request::SNP_MAKE_INVALID.0),
    (b"SnpCleanFwd", Request::SNP_CLEAN_FWD.0),
    (b"SnpNotSharedDirtyFwd", Request::SNP_NOT_SHARED_DIRTY_FWD.0),
    (b"SnpPreferUnique", Request::SNP_PREFER_UNIQUE.0),
    (b"SnpPreferUniqueFwd", Request::SNP_PREFER_UNIQUE_FWD.0),
];

// The code of a request.
pub fn request(field: &[u8]) -> Option<u32>
    ensures { result ≡ known_as (code_of request_names field.now) }
{
    code_in(&REQUESTS, field)
}

// The two values of RetToSrc, DoNotGoToSD and excl.
static FLAGS: [(&[u8], u8); 2] = [(b"0", 0), (b"1", 1)];

// The code of a flag: RetToSrc, DoNotGoToSD or excl.
pub fn flag(field: &[u8]) -> Option<u32>
    ensures { result ≡ known_as (code_of flag_names field.now) }
{
    code_in(&FLAGS, field)
}

// The tag states; `?` is not seen.
static TAG_STATES: [(&[u8], u8); 4] = [
    (b"Invalid", TagState::INVALID.0),
    (b"Clean", TagState::CLEAN.0),
    (b"Dirty", TagState::DIRTY.0),
    (b"?", TagState::NOT_SEEN.0),
];

// The code of a tag state.
pub fn tag(field: &[u8]) -> Option<u32>
    ensures { result ≡ known_as (code_of tag_names field.now) }
{
    code_in(&TAG_STATES, field)
}

// The 22 responses, each with its index.
static RESPONSES: [(&[u8], u8); 22] = [
    (b"SnpResp_I", 0),
    (b"SnpResp_SC", 1),
    (b"SnpRespData_I", 2),
    (b"SnpRespData_SC", 3),
    (b"SnpRespData_SD", 4),
    (b"SnpRespData_I_PD", 5),
    (b"SnpRespData_SC_PD", 6),
    (b"SnpRespDataPtl_I_PD", 7),
    (b"SnpResp_I_Fwded_SC", 8),
    (b"SnpResp_SC_Fwded_SC", 9),
    (b"SnpResp_SD_Fwded_SC", 10),
    (b"SnpResp_I_Fwded_SD_PD", 11),
    (b"SnpResp_SC_Fwded_SD_PD", 12),
    (b"SnpResp_I_Fwded_UC", 13),
    (b"SnpResp_I_Fwded_UD_PD", 14),
    (b"SnpRespData_I_Fwded_SC", 15),
    (b"SnpRespData_SC_Fwded_SC", 16),
    (b"SnpRespData_SD_Fwded_SC", 17),
    (b"SnpRespData_I_Fwded_SD_PD", 18),
    (b"SnpRespData_SC_Fwded_SD_PD", 19),
    (b"SnpRespData_I_PD_Fwded_SC", 20),
    (b"SnpRespData_SC_PD_Fwded_SC", 21),
];

// The index of a response among the 22.
pub fn response(field: &[u8]) -> Option<u32>
    ensures { result ≡ known_as (code_of response_names field.now) }
{
    code_in(&RESPONSES, field)
}

// TagOp.
static TAG_OPS: [(&[u8], u8); 4] = [
    (b"Invalid", TagOp::INVALID.0),
    (b"Transfer", TagOp::TRANSFER.0),
    (b"Update", TagOp::UPDATE.0),
    (b"Match", TagOp::MATCH.0),
];

// The code of a TagOp.
pub fn tag_op(field: &[u8]) -> Option<u32>
    ensures { result ≡ known_as (code_of tag_op_names field.now) }
{
    code_in(&TAG_OPS, field)
}

// RespErr.
static RESP_ERRS: [(&[u8], u8); 4] = [
    (b"OK", RespErr::OK.0),
    (b"EXOK", RespErr::EXOK.0),
    (b"DERR", RespErr::DERR.0),
    (b"NDERR", RespErr::NDERR.0),
];

// The code of a RespErr.
pub fn resp_err(field: &[u8]) -> Option<u32>
    ensures { result ≡ known_as (code_of resp_err_names field.now) }
{
    code_in(&RESP_ERRS, field)
}

// The forwards by their FwdState; `-` is none.
static FORWARDS: [(&[u8], u8); 5] = [
    (b"-", FwdState::NONE.0),
    (b"CompData_SC", FwdState::SC.0),
    (b"CompData_UC", FwdState::UC.0),
    (b"CompData_UD_PD", FwdState::UD_PD.0),
    (b"CompData_SD_PD", FwdState::SD_PD.0),
];

// The FwdState of a forward; 0 for none.
pub fn forward(field: &[u8]) -> Option<u32>
    ensures { result ≡ known_as (code_of forward_names field.now) }
{
    code_in(&FORWARDS, field)
}

// The code of `-` in the column fwdErr: no data is forwarded. It is no error field's.
// Stays: a code and no Option, since the definition `fwd_err_names` has it among the others.
pub const NO_FWD_ERR: u8 = 4;

// The error field of forwarded data, with the names of RespErr; NO_FWD_ERR for none.
pub fn fwd_err(field: &[u8]) -> Option<u32>
    ensures { result ≡ known_as (code_of fwd_err_names field.now) }
{
    if is(field, b"-") {
        return Some(NO_FWD_ERR.into());
    }
    resp_err(field)
}

// The states after; `?` is not seen.
static STATES_AFTER: [(&[u8], u8); 8] = [
    (b"I", LineState::I.0),
    (b"UC", LineState::UC.0),
    (b"UCE", LineState::UCE.0),
    (b"UD", LineState::UD.0),
    (b"UDP", LineState::UDP.0),
    (b"SC", LineState::SC.0),
    (b"SD", LineState::SD.0),
    (b"?", LineState::NOT_SEEN.0),
];

// The code of a state after.
pub fn state_after(field: &[u8]) -> Option<u32>
    ensures { result ≡ known_as (code_of final_names field.now) }
{
    code_in(&STATES_AFTER, field)
}

// The number that at most five digits stand for; none if some byte is not a digit.
fn digits(field: &[u8]) -> Option<u32>
    requires { length field.now ≤ most_digits }
    ensures { result ≡ number_in 0 field.now }
{
    let mut number: u32 = 0;
    for &byte in field {
        let ZERO..=NINE = byte else {
            return None;
        };
        number = number * 10 + ((byte - ZERO) as u32);
    }
    Some(number)
}

// The pair number.
#[tactic(auto, unfolding(crate::specs::Names::pair_of, crate::specs::Names::is_pair))]
pub fn pair(field: &[u8]) -> Option<u32>
    ensures { result ≡ known_as (pair_of field.now) }
{
    let 1..=MOST_DIGITS = field.len() else {
        return None;
    };
    if let [ZERO, _, ..] = field {
        return None;
    }
    digits(field)
}

// The answer with this index among the 22 responses; past the last, the first. A name says nothing of the forwarded data's error field:
// OK stands for it.
#[tactic(auto, unfolding(crate::specs::Names::answers, crate::specs::Names::responses))]
pub fn answer(place: u8) -> Answer
    ensures { result ≡ answer_at place }
{
    match place {
        0 => Answer::SnpResp(Resp::I, Forward::NoForward),
        1 => Answer::SnpResp(Resp::SC, Forward::NoForward),
        2 => Answer::SnpRespData(Resp::I, Forward::NoForward),
        3 => Answer::SnpRespData(Resp::SC, Forward::NoForward),
        4 => Answer::SnpRespData(Resp::SD, Forward::NoForward),
        5 => Answer::SnpRespData(Resp::I_PD, Forward::NoForward),
        6 => Answer::SnpRespData(Resp::SC_PD, Forward::NoForward),
        7 => Answer::SnpRespDataPtl(Resp::I_PD),
        8 => Answer::SnpResp(Resp::I, Forward::CompData(FwdState::SC, RespErr::OK)),
        9 => Answer::SnpResp(Resp::SC, Forward::CompData(FwdState::SC, RespErr::OK)),
        10 => Answer::SnpResp(Resp::SD, Forward::CompData(FwdState::SC, RespErr::OK)),
        11 => Answer::SnpResp(Resp::I, Forward::CompData(FwdState::SD_PD, RespErr::OK)),
        12 => Answer::SnpResp(Resp::SC, Forward::CompData(FwdState::SD_PD, RespErr::OK)),
        13 => Answer::SnpResp(Resp::I, Forward::CompData(FwdState::UC, RespErr::OK)),
        14 => Answer::SnpResp(Resp::I, Forward::CompData(FwdState::UD_PD, RespErr::OK)),
        15 => Answer::SnpRespData(Resp::I, Forward::CompData(FwdState::SC, RespErr::OK)),
        16 => Answer::SnpRespData(Resp::SC, Forward::CompData(FwdState::SC, RespErr::OK)),
        17 => Answer::SnpRespData(Resp::SD, Forward::CompData(FwdState::SC, RespErr::OK)),
        18 => Answer::SnpRespData(Resp::I, Forward::CompData(FwdState::SD_PD, RespErr::OK)),
        19 => Answer::SnpRespData(Resp::SC, Forward::CompData(FwdState::SD_PD, RespErr::OK)),
        20 => Answer::SnpRespData(Resp::I_PD, Forward::CompData(FwdState::SC, RespErr::OK)),
        21 => Answer::SnpRespData(Resp::SC_PD, Forward::CompData(FwdState::SC, RespErr::OK)),
        _ => Answer::SnpResp(Resp::I, Forward::NoForward),
    }
}

// The code of a field in the column with this number, if the column knows the field.
// Stays: a `match`, which says in a line for each column what a table of functions would say.
#[tactic(auto, unfolding(crate::specs::Names::in_column, crate::specs::Names::columns))]
pub fn column(number: usize, field: &[u8]) -> Option<u32>
    ensures { result ≡ known_as (in_column number field.now) }
{
    match number {
        columns::PAIR => pair(field),
        columns::REQUEST => request(field),
        columns::RET_TO_SRC | columns::DO_NOT_GO_TO_SD | columns::EXCL => flag(field),
        columns::TAG => tag(field),
        columns::RESPONSE => response(field),
        columns::TAG_OP => tag_op(field),
        columns::RESP_ERR => resp_err(field),
        columns::FORWARD => forward(field),
        columns::FINAL => state_after(field),
        columns::FWD_ERR => fwd_err(field),
        _ => None,
    }
}
