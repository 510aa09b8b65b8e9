// Every answer that a cache could have given to a snoop, listed (definition 11).
#![tactic(auto)]

ghost use Rattle.std.specs.Prelude.{ℕ, ◌*◌, ◌/◌, ◌%◌, ◌<◌, ◌≤◌, ◌≡◌, cond, [], ◌∷◌, ◌++◌, All, map, ltb, length, get_or, drop};
ghost use Rattle.kinds.specs.Codes.{RSP, DAT};
ghost use Rattle.kinds.specs.Refusals.{number_of};
ghost use Rattle.event.specs.Refusals.{issue_e};
ghost use Rattle.answers.specs.Listed.{answer_length, most_answers, joined, fault_of, in_numbers, list_left, listed};
ghost use Rattle.answers.specs.Code.{number_of_tables, tables_of, context_of, span_of, ten_of, IsAnswer, answer_at};
ghost use Rattle.answers.specs.Table.{answers, answer_count, first_on_dat};

use kinds::{LineState, Refusal, Request, RespErr, TagState};

mod table;

// The length of an answer in bytes: event bytes 5 to 14 (definition 11.2).
pub const ANSWER_BYTES: usize = 10;

// The most answers of a list (definition 11.6).
pub const MOST_ANSWERS: usize = 57;

// The place of the error field of its forwarded data in an answer, which is its last byte (definition 11.2).
const FORWARDED_ERR: usize = 9;

// What is added to the number of an answer with DERR on its forwarded data.
const WITH_DERR: u8 = 128;

// What is asked: a snoop, the tag state of the snoopee and the state of its line before (definition 11.1).
#[derive(Clone, Copy)]
pub struct Question {
    pub request: Request,
    pub ret_to_src: u8,
    pub do_not_go_to_sd: u8,
    pub excl: u8,
    pub tag: TagState,
    pub before: LineState,
}

// The bytes of the longest list: with a room of so many, 9 is never given (definition 11.6).
pub fn enough_room() -> usize
    ensures { result ≡ answer_length * most_answers }
{
    MOST_ANSWERS * ANSWER_BYTES
}

// Refuses a question with a byte outside its range, then one whose request is not judged (definition 11.5).
#[tactic(auto, unfolding(event::specs::Refusals::fault))]
fn fault(q: Question) -> Result<(), Refusal>
    ensures { number_of result ≡ fault_of issue_e q }
{
    let flags = (q.ret_to_src < 2) & (q.do_not_go_to_sd < 2) & (q.excl < 2);
    let fine = flags & (q.tag.0 < TagState::NOT_SEEN.0) & (q.before.0 < LineState::NOT_SEEN.0);
    if !fine {
        return Err(Refusal::Range);
    }
    if !q.request.known() {
        return Err(Refusal::Request);
    }
    Ok(())
}

// The tables that can hold for a question (definition 5.2 to 5.6, 5.12).
#[derive(Clone, Copy)]
enum Tables {
    B46,
    B57,
    B59,
    B59WithB60,
    Unique,
    CleanInvalid,
    MakeInvalid,
}

// The tables that hold for a request and excl.
fn tables_for(request: Request, excl: u8) -> Tables
    ensures { number_of_tables result ≡ tables_of request.0 excl }
{
    match request {
        Request::SNP_CLEAN_FWD | Request::SNP_NOT_SHARED_DIRTY_FWD => Tables::B57,
        Request::SNP_PREFER_UNIQUE_FWD if excl == 0 => Tables::B59WithB60,
        Request::SNP_PREFER_UNIQUE_FWD => Tables::B59,
        Request::SNP_UNIQUE => Tables::Unique,
        Request::SNP_CLEAN_INVALID => Tables::CleanInvalid,
        Request::SNP_MAKE_INVALID => Tables::MakeInvalid,
        _ => Tables::B46,
    }
}

// What the list of a question depends on, in one number: tables, RetToSrc, DoNotGoToSD, Dirty tags and state before.
fn context(q: Question) -> usize
    ensures { result ≡ context_of q }
{
    let tables = tables_for(q.request, q.excl) as usize;
    let dirty = usize::from(q.tag == TagState::DIRTY);
    let snoop = (tables * 2 + q.ret_to_src as usize) * 2 + q.do_not_go_to_sd as usize;
    (snoop * 2 + dirty) * 8 + q.before.0 as usize
}

// Where the list of a question that is not refused starts among the numbers, and how many answers it has.
fn span(q: Question) -> (usize, usize)
    requires { fault_of issue_e q ≡ 0 }
    ensures start { result.0 ≡ span_of q / 64 }
    ensures count { result.1 ≡ span_of q % 64 }
{
    let list = table::LISTS[context(q)];
    let (start, count) = table::SPANS[list as usize];
    (start as usize, count as usize)
}

// The bytes of an answer of the table, all but the error field of its forwarded data.
fn row(answer: u8) -> [u8; FORWARDED_ERR]
    requires { answer < answer_count }
    ensures { (error : ℕ) → result ++ error ∷ []
        ≡ ten_of (cond (ltb answer first_on_dat) RSP DAT) (get_or answers answer 0) error }
{
    table::ANSWERS[answer as usize]
}

// Puts the answer with this number into its ten bytes: a row of the table, and the error field of its forwarded data.
fn put_answer(slot: &mut [u8], number: u8)
    requires ten { length slot.old ≡ answer_length }
    requires in_table { IsAnswer number }
    ensures { slot.new ≡ answer_at number }
{
    let answer = row(number % WITH_DERR);
    slot[..FORWARDED_ERR].copy_from_slice(&answer);
    slot[FORWARDED_ERR] = kinds::choose(number < WITH_DERR, RespErr::OK, RespErr::DERR).0;
}

// Puts the answers with these numbers into the room, one after another. They must fit.
fn put_answers(room: &mut [u8], numbers: &[u8])
    requires in_table { All IsAnswer numbers.now }
    requires in_room { answer_length * length numbers.now ≤ length room.old }
    ensures { room.new ≡
        joined (map answer_at numbers.now) ++ drop (answer_length * length numbers.now) room.old }
{
    // Stays: by place, since of what is written through `chunks_exact_mut` a proof knows the length alone.
    for (k, &number) in numbers.iter().enumerate() {
        let at = k * ANSWER_BYTES;
        put_answer(&mut room[at..at + ANSWER_BYTES], number);
    }
}

// Lists every permitted answer to a question in the room, each once, ascending byte by byte, and returns how many there are
// (definition 11.3 to 11.5).
pub fn list_answers(question: Question, room: &mut [u8]) -> Result<usize, Refusal>
    ensures { list_left (in_numbers result) room.new ≡ listed issue_e question room.old }
{
    fault(question)?;
    let (start, count) = span(question);
    if room.len() < count * ANSWER_BYTES {
        return Err(Refusal::Room);
    }
    put_answers(room, &table::NUMBERS[start..start + count]);
    Ok(count)
}
