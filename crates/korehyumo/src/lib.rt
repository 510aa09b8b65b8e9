// The judge for other languages: one event alone, a whole trace and the list of permitted answers, as functions that korehyumo_c exports
// to C (definition 10). include/korehyumo.h says in words what these claims say.
#![tactic(auto)]

ghost use Rattle.std.specs.Prelude.{◌<◌, ◌≤◌, ◌^◌, ◌≡◌};
ghost use Rattle.event.specs.Refusals.{issue_e};
ghost use Rattle.event.specs.Alone.{judged_alone};
ghost use Rattle.trace.specs.Lent.{lent};
ghost use Rattle.trace.specs.Judged.{judged};
ghost use Rattle.answers.specs.Answers.{question};
ghost use Rattle.answers.specs.Listed.{most_answers, listed};
ghost use Rattle.korehyumo.specs.Calls.{places_end, in_one, with_more};
ghost use Rattle.korehyumo.specs.Calls.{event_call, event_told, trace_call, trace_told, answers_call, answers_told};

use answers::Question;
use kinds::{LineState, Request, TagState};

// What the upper half of a result is multiplied by.
const UPPER: u64 = 1 << 32;

// A refusal number and its place packed into one number.
#[tactic(auto, unfolding(crate::specs::Calls::in_one))]
fn in_one(number: u8, place: usize) -> u64
    requires { place < places_end }
    ensures { result ≡ in_one number place }
{
    (place as u64) * 256 + u64::from(number)
}

// A packed number with what more a call answers in its upper half.
#[tactic(auto, unfolding(crate::specs::Calls::with_more))]
fn with_more(packed: u64, more: usize) -> u64
    requires packed_bound { packed < 2 ^ 32 }
    requires more_le_most_answers { more ≤ most_answers }
    ensures { result ≡ with_more packed more }
{
    (more as u64) * UPPER + packed
}

// Judges one event alone: for each of the seven states before, the set of states after and the duty. The result packs number and place.
// A refused event leaves seven empty sets and seven duties 0.
pub fn korehyumo_event(event: &[u8], sets: &mut [u8; 7], duties: &mut [u8; 7]) -> u64
    ensures { event_call result sets.new duties.new ≡ event_told (judged_alone issue_e event.now) }
{
    match event::judge_event(event) {
        Ok(judgment) => {
            sets.copy_from_slice(&judgment.sets);
            duties.copy_from_slice(&judgment.duties);
            in_one(0, 1)
        }
        Err(refusal) => {
            *sets = [0; 7];
            *duties = [0; 7];
            in_one(u8::from(refusal), 0)
        }
    }
}

// Judges a whole trace. The result packs number and place. A refused trace leaves all buffers as they were.
pub fn korehyumo_trace(
    events: &[u8],
    pairs: &[u16],
    table: &mut [u8],
    verdicts: &mut [u8],
    duties: &mut [u8],
    afters: &mut [u8],
) -> u64
    ensures { trace_call result table.new verdicts.new duties.new afters.new
        ≡ trace_told (judged issue_e (lent
        events.now pairs.now table.old
        verdicts.old duties.old afters.old)) }
{
    match trace::judge_trace(events, pairs, table, verdicts, duties, afters) {
        Ok(count) => in_one(0, count),
        Err(refused) => in_one(u8::from(refused.refusal), refused.place),
    }
}

// Lists every permitted answer to a question in the room. The result packs number and place, and has the count in its upper half.
// A refused question leaves the room as it was.
#[tactic(auto, unfolding(crate::specs::Calls::in_one))]
pub fn korehyumo_answers(
    request: u8,
    ret_to_src: u8,
    do_not_go_to_sd: u8,
    excl: u8,
    tag: u8,
    before: u8,
    room: &mut [u8],
) -> u64
    ensures { answers_call result room.new
        ≡ answers_told (listed issue_e (question request ret_to_src do_not_go_to_sd excl tag before) room.old) }
{
    let question = Question {
        request: Request(request),
        ret_to_src,
        do_not_go_to_sd,
        excl,
        tag: TagState(tag),
        before: LineState(before),
    };
    match answers::list_answers(question, room) {
        Ok(count) => with_more(in_one(0, 0), count),
        Err(refusal) => with_more(in_one(u8::from(refusal), 0), 0),
    }
}
