// The C functions of include/korehyumo.h: one export for each of the library's three calls, with the same name and the same claim.
#![tactic(auto)]

ghost use Rattle.std.specs.Prelude.{◌≡◌};
ghost use Rattle.event.specs.Refusals.{issue_e};
ghost use Rattle.event.specs.Alone.{judged_alone};
ghost use Rattle.trace.specs.Lent.{lent};
ghost use Rattle.trace.specs.Judged.{judged};
ghost use Rattle.answers.specs.Answers.{question};
ghost use Rattle.answers.specs.Listed.{listed};
ghost use Rattle.korehyumo.specs.Calls.{event_call, event_told, trace_call, trace_told, answers_call, answers_told};

// Judges one event alone: for each of the seven states before, the set of states after and the duty. The result packs number and place.
// A refused event leaves seven empty sets and seven duties 0.
#[unsafe(no_mangle)]
pub extern "C" fn korehyumo_event(event: &[u8], sets: &mut [u8; 7], duties: &mut [u8; 7]) -> u64
    ensures { event_call result sets.new duties.new ≡ event_told (judged_alone issue_e event.now) }
{
    korehyumo::korehyumo_event(event, sets, duties)
}

// Judges a whole trace. The result packs number and place. A refused trace leaves all buffers as they were.
#[unsafe(no_mangle)]
pub extern "C" fn korehyumo_trace(
    events: &[u8],
    pairs: &[u16],
    table: &mut [u8],
    verdicts: &mut [u8],
    duties: &mut [u8],
    afters: &mut [u8],
) -> u64
    ensures { trace_call result table.new verdicts.new duties.new afters.new
        ≡ trace_told (judged issue_e (lent
        events.now pairs.now table.old
        verdicts.old duties.old afters.old)) }
{
    korehyumo::korehyumo_trace(events, pairs, table, verdicts, duties, afters)
}

// Lists every permitted answer to a question in the room. The result packs number and place, and has the count in its upper half.
// A refused question leaves the room as it was.
#[unsafe(no_mangle)]
pub extern "C" fn korehyumo_answers(
    request: u8,
    ret_to_src: u8,
    do_not_go_to_sd: u8,
    excl: u8,
    tag: u8,
    before: u8,
    room: &mut [u8],
) -> u64
    ensures { answers_call result room.new
        ≡ answers_told (listed issue_e (question request ret_to_src do_not_go_to_sd excl tag before) room.old) }
{
    korehyumo::korehyumo_answers(
        request,
        ret_to_src,
        do_not_go_to_sd,
        excl,
        tag,
        before,
        room,
    )
}
