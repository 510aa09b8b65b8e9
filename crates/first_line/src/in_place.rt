// Takes a field by matching the names of its column where they stand in a text, without a search for the field's end (definition 8.4).
// A name is matched with its comma, in the last column with its CR LF, up to eight bytes at a time; a match gives the offset behind it.
// What is not matched is not taken here.
// Stays: a text and an offset as parameters, as the form for what reads fields has it.
ghost use Rattle.std.specs.Prelude.{◌+◌, ◌≤◌, ◌%◌, ◌^◌, ◌≡◌, [], ◌∷◌, ◌++◌, leb, length};
ghost use Rattle.text.specs.Text.{bytes, comma, eol};
ghost use Rattle.names.specs.Names.{code_of, pair_of, request_names, flag_names, tag_names, response_names, tag_op_names, resp_err_names};
ghost use Rattle.names.specs.Names.{forward_names, final_names, fwd_err_names};
ghost use Rattle.first_line.specs.InPlace.{word_length, Behind, Ends, Takes, DigitsAt};

use kinds::{FwdState, LineState, Request, RespErr, TagOp, TagState};
use names::MOST_DIGITS;
use parser::Taken;

// The number of bytes that are matched together. A field is taken only if as many are at hand from each place on where one is matched.
const WORD: usize = 8;

// Digits, and the number that they stand for.
// Stays: none is a count of 0, since `pair` asks for the count in any case.
#[derive(Clone, Copy)]
struct Digits {
    count: usize,
    value: u32,
}

// Whether enough bytes are at hand at an offset.
fn at_hand(len: usize, at: usize) -> bool
    ensures { result ≡ leb (at + word_length) len }
{
    WORD <= len && at <= len - WORD
}

// The first bytes of a word, as a number.
fn first_bytes(word: u64, count: usize) -> u64
    ensures { result ≡ word % 256 ^ count }
{
    if count < WORD {
        word % (1 << (8 * count))
    } else {
        word
    }
}

// The offset behind some bytes, at most eight, if they stand at an offset.
fn behind(text: &[u8], at: usize, name: &[u8]) -> Option<usize>
    ensures { Behind name.now text.now at result }
{
    let n = name.len();
    if WORD < n || !at_hand(text.len(), at) {
        return None;
    }
    if first_bytes(words::word_at(text, at), n) != words::word_at(name, 0) {
        return None;
    }
    Some(at + n)
}

// The field whose name ends with these bytes, its comma included.
fn ending(text: &[u8], at: usize, name: &[u8], code: u8) -> Option<Taken>
    ensures { Ends name.now code text.now at result }
{
    let next = behind(text, at, name)?;
    Some(Taken {
        code: u32::from(code),
        next,
    })
}

// The field whose name ends with these bytes and then those.
#[tactic(auto, using(crate::proofs::Matching::ends_both))]
fn in_two(text: &[u8], at: usize, first: &[u8], last: &[u8], code: u8) -> Option<Taken>
    ensures { Ends (first.now ++ last.now) code text.now at result }
{
    ending(text, behind(text, at, first)?, last, code)
}

// The digits at an offset, at most as many as a pair number has.
fn read_digits(text: &[u8], at: usize) -> Digits
    requires { at + word_length ≤ length text.now }
    ensures { DigitsAt text.now at result }
{
    let mut value: u32 = 0;
    for count in 0..MOST_DIGITS {
        let d = text[at + count];
        if !d.is_ascii_digit() {
            return Digits { count, value };
        }
        value = value * 10 + u32::from(d - b'0');
    }
    Digits {
        count: MOST_DIGITS,
        value,
    }
}

// The pair number.
pub fn pair(text: &[u8], at: usize) -> Option<Taken>
    ensures { Takes [] pair_of (comma ∷ []) text.now at result }
{
    if !at_hand(text.len(), at) {
        return None;
    }
    let Digits { count, value } = read_digits(text, at);
    if (count == 0) | (text[at + count] != b',') {
        return None;
    }
    if (text[at] == b'0') & (1 < count) {
        return None;
    }
    Some(Taken {
        code: value,
        next: at + count + 1,
    })
}

// A flag: RetToSrc, DoNotGoToSD or excl.
#[tactic(auto, using(crate::proofs::Matching::fields), unfolding(names::specs::Names::code_of, names::specs::Names::flag_names))]
pub fn flag(text: &[u8], at: usize) -> Option<Taken>
    ensures { Takes [] (code_of flag_names) (comma ∷ []) text.now at result }
{
    ending(text, at, b"0,", 0).or_else(|| ending(text, at, b"1,", 1))
}

// A request behind SnpClean.
#[tactic(auto, using(crate::proofs::Matching::fields), unfolding(names::specs::Names::code_of, names::specs::Names::request_names))]
fn clean(text: &[u8], at: usize) -> Option<Taken>
    ensures { Takes (bytes "SnpClean") (code_of request_names) (comma ∷ []) text.now at result }
{
    ending(text, at, b",", Request::SNP_CLEAN.0)
        .or_else(|| ending(text, at, b"Fwd,", Request::SNP_CLEAN_FWD.0))
        .or_else(|| ending(text, at, b"Invalid,", Request::SNP_CLEAN_INVALID.0))
}

// A request behind SnpNotSharedDirt.
#[tactic(auto, using(crate::proofs::Matching::fields), unfolding(names::specs::Names::code_of, names::specs::Names::request_names))]
fn not_shared_dirty(text: &[u8], at: usize) -> Option<Taken>
    ensures { Takes (bytes "SnpNotSharedDirt") (code_of request_names) (comma ∷ []) text.now at result }
{
    ending(text, at, b"y,", Request::SNP_NOT_SHARED_DIRTY.0).or_else(|| ending(
        text,
        at,
        b"yFwd,",
        Request::SNP_NOT_SHARED_DIRTY_FWD.0,
    ))
}

// A request behind SnpNotSh.
#[tactic(auto, using(crate::proofs::Matching::fields), unfolding(names::specs::Names::code_of, names::specs::Names::request_names))]
fn not_shared(text: &[u8], at: usize) -> Option<Taken>
    ensures { Takes (bytes "SnpNotSh") (code_of request_names) (comma ∷ []) text.now at result }
{
    not_shared_dirty(text, behind(text, at, b"aredDirt")?)
}

// A request behind SnpPrefe.
#[tactic(auto, using(crate::proofs::Matching::fields), unfolding(names::specs::Names::code_of, names::specs::Names::request_names))]
fn prefer_unique(text: &[u8], at: usize) -> Option<Taken>
    ensures { Takes (bytes "SnpPrefe") (code_of request_names) (comma ∷ []) text.now at result }
{
    ending(text, at, b"rUnique,", Request::SNP_PREFER_UNIQUE.0).or_else(|| in_two(
        text,
        at,
        b"rUniqueF",
        b"wd,",
        Request::SNP_PREFER_UNIQUE_FWD.0,
    ))
}

// The request.
pub fn request(text: &[u8], at: usize) -> Option<Taken>
    ensures { Takes [] (code_of request_names) (comma ∷ []) text.now at result }
{
    in_two(text, at, b"SnpShare", b"d,", Request::SNP_SHARED.0)
        .or_else(|| clean(text, behind(text, at, b"SnpClean")?))
        .or_else(|| not_shared(text, behind(text, at, b"SnpNotSh")?))
        .or_else(|| prefer_unique(text, behind(text, at, b"SnpPrefe")?))
        .or_else(|| in_two(text, at, b"SnpUniqu", b"e,", Request::SNP_UNIQUE.0))
        .or_else(|| in_two(
            text,
            at,
            b"SnpMakeI",
            b"nvalid,",
            Request::SNP_MAKE_INVALID.0,
        ))
}

// The tag state.
#[tactic(auto, using(crate::proofs::Matching::fields), unfolding(names::specs::Names::code_of, names::specs::Names::tag_names))]
pub fn tag(text: &[u8], at: usize) -> Option<Taken>
    ensures { Takes [] (code_of tag_names) (comma ∷ []) text.now at result }
{
    ending(text, at, b"Invalid,", TagState::INVALID.0)
        .or_else(|| ending(text, at, b"Clean,", TagState::CLEAN.0))
        .or_else(|| ending(text, at, b"Dirty,", TagState::DIRTY.0))
        .or_else(|| ending(text, at, b"?,", TagState::NOT_SEEN.0))
}

// A response behind SnpResp_I_Fwded_.
// Stays: this and its kin differ in names alone, but the claim of each is about the names that begin as its text does.
#[tactic(auto, using(crate::proofs::Matching::fields), unfolding(names::specs::Names::code_of, names::specs::Names::response_names, names::specs::Names::responses))]
fn i_fwded(text: &[u8], at: usize) -> Option<Taken>
    ensures { Takes (bytes "SnpResp_I_Fwded_") (code_of response_names) (comma ∷ []) text.now at result }
{
    ending(text, at, b"SC,", 8)
        .or_else(|| ending(text, at, b"SD_PD,", 11))
        .or_else(|| ending(text, at, b"UC,", 13))
        .or_else(|| ending(text, at, b"UD_PD,", 14))
}

// A response behind SnpResp_SC_Fwded.
#[tactic(auto, using(crate::proofs::Matching::fields), unfolding(names::specs::Names::code_of, names::specs::Names::response_names, names::specs::Names::responses))]
fn sc_fwded(text: &[u8], at: usize) -> Option<Taken>
    ensures { Takes (bytes "SnpResp_SC_Fwded") (code_of response_names) (comma ∷ []) text.now at result }
{
    ending(text, at, b"_SC,", 9).or_else(|| ending(text, at, b"_SD_PD,", 12))
}

// A response behind SnpResp_.
#[tactic(auto, using(crate::proofs::Matching::fields), unfolding(names::specs::Names::code_of, names::specs::Names::response_names, names::specs::Names::responses))]
fn without_data(text: &[u8], at: usize) -> Option<Taken>
    ensures { Takes (bytes "SnpResp_") (code_of response_names) (comma ∷ []) text.now at result }
{
    ending(text, at, b"I,", 0)
        .or_else(|| ending(text, at, b"SC,", 1))
        .or_else(|| i_fwded(text, behind(text, at, b"I_Fwded_")?))
        .or_else(|| sc_fwded(text, behind(text, at, b"SC_Fwded")?))
        .or_else(|| in_two(text, at, b"SD_Fwded", b"_SC,", 10))
}

// A response behind SnpRespData_I_Fw.
#[tactic(auto, using(crate::proofs::Matching::fields), unfolding(names::specs::Names::code_of, names::specs::Names::response_names, names::specs::Names::responses))]
fn i_data_fwded(text: &[u8], at: usize) -> Option<Taken>
    ensures { Takes (bytes "SnpRespData_I_Fw") (code_of response_names) (comma ∷ []) text.now at result }
{
    ending(text, at, b"ded_SC,", 15).or_else(|| in_two(text, at, b"ded_SD_P", b"D,", 18))
}

// A response behind SnpRespData_SC_F.
#[tactic(auto, using(crate::proofs::Matching::fields), unfolding(names::specs::Names::code_of, names::specs::Names::response_names, names::specs::Names::responses))]
fn sc_data_fwded(text: &[u8], at: usize) -> Option<Taken>
    ensures { Takes (bytes "SnpRespData_SC_F") (code_of response_names) (comma ∷ []) text.now at result }
{
    ending(text, at, b"wded_SC,", 16).or_else(|| in_two(text, at, b"wded_SD_", b"PD,", 19))
}

// A response behind SnpRespData_I_PD.
#[tactic(auto, using(crate::proofs::Matching::fields), unfolding(names::specs::Names::code_of, names::specs::Names::response_names, names::specs::Names::responses))]
fn i_pd(text: &[u8], at: usize) -> Option<Taken>
    ensures { Takes (bytes "SnpRespData_I_PD") (code_of response_names) (comma ∷ []) text.now at result }
{
    ending(text, at, b",", 5).or_else(|| in_two(text, at, b"_Fwded_S", b"C,", 20))
}

// A response behind SnpRespData_SC_P.
#[tactic(auto, using(crate::proofs::Matching::fields), unfolding(names::specs::Names::code_of, names::specs::Names::response_names, names::specs::Names::responses))]
fn sc_pd(text: &[u8], at: usize) -> Option<Taken>
    ensures { Takes (bytes "SnpRespData_SC_P") (code_of response_names) (comma ∷ []) text.now at result }
{
    ending(text, at, b"D,", 6).or_else(|| in_two(text, at, b"D_Fwded_", b"SC,", 21))
}

// A response behind SnpRespD.
fn with_data(text: &[u8], at: usize) -> Option<Taken>
    ensures { Takes (bytes "SnpRespD") (code_of response_names) (comma ∷ []) text.now at result }
{
    ending(text, at, b"ata_I,", 2)
        .or_else(|| ending(text, at, b"ata_SC,", 3))
        .or_else(|| ending(text, at, b"ata_SD,", 4))
        .or_else(|| i_pd(text, behind(text, at, b"ata_I_PD")?))
        .or_else(|| sc_pd(text, behind(text, at, b"ata_SC_P")?))
        .or_else(|| in_two(text, at, b"ataPtl_I", b"_PD,", 7))
        .or_else(|| i_data_fwded(text, behind(text, at, b"ata_I_Fw")?))
        .or_else(|| sc_data_fwded(text, behind(text, at, b"ata_SC_F")?))
        .or_else(|| in_two(text, at, b"ata_SD_F", b"wded_SC,", 17))
}

// The response, as its index among the 22.
#[tactic(auto, using(crate::proofs::Matching::fields), unfolding(names::specs::Names::code_of, names::specs::Names::response_names, names::specs::Names::responses))]
pub fn response(text: &[u8], at: usize) -> Option<Taken>
    ensures { Takes [] (code_of response_names) (comma ∷ []) text.now at result }
{
    if let Some(next) = behind(text, at, b"SnpResp_") {
        return without_data(text, next);
    }
    with_data(text, behind(text, at, b"SnpRespD")?)
}

// TagOp.
#[tactic(auto, using(crate::proofs::Matching::fields), unfolding(names::specs::Names::code_of, names::specs::Names::tag_op_names))]
pub fn tag_op(text: &[u8], at: usize) -> Option<Taken>
    ensures { Takes [] (code_of tag_op_names) (comma ∷ []) text.now at result }
{
    ending(text, at, b"Invalid,", TagOp::INVALID.0)
        .or_else(|| in_two(text, at, b"Transfer", b",", TagOp::TRANSFER.0))
        .or_else(|| ending(text, at, b"Update,", TagOp::UPDATE.0))
        .or_else(|| ending(text, at, b"Match,", TagOp::MATCH.0))
}

// RespErr.
#[tactic(auto, using(crate::proofs::Matching::fields), unfolding(names::specs::Names::code_of, names::specs::Names::resp_err_names))]
pub fn resp_err(text: &[u8], at: usize) -> Option<Taken>
    ensures { Takes [] (code_of resp_err_names) (comma ∷ []) text.now at result }
{
    ending(text, at, b"OK,", RespErr::OK.0)
        .or_else(|| ending(text, at, b"EXOK,", RespErr::EXOK.0))
        .or_else(|| ending(text, at, b"DERR,", RespErr::DERR.0))
        .or_else(|| ending(text, at, b"NDERR,", RespErr::NDERR.0))
}

// A forward behind CompData.
#[tactic(auto, using(crate::proofs::Matching::fields), unfolding(names::specs::Names::code_of, names::specs::Names::forward_names))]
fn comp_data(text: &[u8], at: usize) -> Option<Taken>
    ensures { Takes (bytes "CompData") (code_of forward_names) (comma ∷ []) text.now at result }
{
    ending(text, at, b"_SC,", FwdState::SC.0)
        .or_else(|| ending(text, at, b"_UC,", FwdState::UC.0))
        .or_else(|| ending(text, at, b"_UD_PD,", FwdState::UD_PD.0))
        .or_else(|| ending(text, at, b"_SD_PD,", FwdState::SD_PD.0))
}

// The FwdState of a forward; 0 for none.
#[tactic(auto, using(crate::proofs::Matching::fields), unfolding(names::specs::Names::code_of, names::specs::Names::forward_names))]
pub fn forward(text: &[u8], at: usize) -> Option<Taken>
    ensures { Takes [] (code_of forward_names) (comma ∷ []) text.now at result }
{
    ending(text, at, b"-,", FwdState::NONE.0).or_else(|| comp_data(
        text,
        behind(text, at, b"CompData")?,
    ))
}

// The state after.
#[tactic(auto, using(crate::proofs::Matching::fields), unfolding(names::specs::Names::code_of, names::specs::Names::final_names))]
pub fn state_after(text: &[u8], at: usize) -> Option<Taken>
    ensures { Takes [] (code_of final_names) (comma ∷ []) text.now at result }
{
    ending(text, at, b"I,", LineState::I.0)
        .or_else(|| ending(text, at, b"UC,", LineState::UC.0))
        .or_else(|| ending(text, at, b"UCE,", LineState::UCE.0))
        .or_else(|| ending(text, at, b"UD,", LineState::UD.0))
        .or_else(|| ending(text, at, b"UDP,", LineState::UDP.0))
        .or_else(|| ending(text, at, b"SC,", LineState::SC.0))
        .or_else(|| ending(text, at, b"SD,", LineState::SD.0))
        .or_else(|| ending(text, at, b"?,", LineState::NOT_SEEN.0))
}

// The error field of forwarded data, with the CR LF that ends its line.
#[tactic(auto, using(crate::proofs::Matching::fields), unfolding(names::specs::Names::code_of, names::specs::Names::fwd_err_names, names::specs::Names::resp_err_names))]
pub fn fwd_err(text: &[u8], at: usize) -> Option<Taken>
    ensures { Takes [] (code_of fwd_err_names) eol text.now at result }
{
    ending(text, at, b"-\r\n", names::NO_FWD_ERR)
        .or_else(|| ending(text, at, b"OK\r\n", RespErr::OK.0))
        .or_else(|| ending(text, at, b"EXOK\r\n", RespErr::EXOK.0))
        .or_else(|| ending(text, at, b"DERR\r\n", RespErr::DERR.0))
        .or_else(|| ending(text, at, b"NDERR\r\n", RespErr::NDERR.0))
}
