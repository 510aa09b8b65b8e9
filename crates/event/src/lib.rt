// One event judged alone, whatever bytes are handed in (definition 3.1, 3.2).
#![tactic(auto)]

ghost use Rattle.std.specs.Prelude.{◌≡◌, cond, map, eqb};
ghost use Rattle.steps.specs.Steps.{no_duty, sets_after, duty_alone};
ghost use Rattle.kinds.specs.Codes.{states};
ghost use Rattle.kinds.specs.Refusals.{number_of};
ghost use Rattle.event.specs.Refusals.{issue_e, below, fault, refusal_alone};
ghost use Rattle.event.specs.Alone.{in_numbers, judged_alone};

use kinds::{Duty, EVENT_BYTES, LineState, Refusal, Request, place};

// The limits of bytes 1 to 7 (definition 2.3): the bits that a byte below its limit does not have, two digits a byte, byte 0 last. From
// byte 7 down: Resp below 8, opcode below 32, channel below 2, tag state below 4, excl, DoNotGoToSD and RetToSrc below 2; byte 0 is free.
const FRONT: u64 = 0xF8_E0_FE_FC_FE_FE_FE_00;

// The limits of bytes 8 to 14 likewise, byte 7 last. From byte 14 down: the forwarded data's error field below 4, state after below 8, the
// forwarded data's Resp below 8 and presence below 2, RespErr and TagOp below 4, FwdState below 8; byte 7 is free.
const BACK: u64 = 0xFC_F8_F8_FE_FC_FC_F8_00;

// The answer to an accepted event: for each of the seven states before, a set of states after and a duty.
#[derive(Clone, Copy)]
pub struct Judgment {
    pub sets: [u8; 7],
    pub duties: [u8; 7],
}

// Whether each byte of the event, from byte 1 on, is below its limit: eight bytes at a time.
fn in_range(event: &[u8]) -> bool
    ensures { result ≡ below event.now 1 issue_e.limits }
{
    (words::word_at(event, 0) & FRONT == 0) & (words::word_at(event, 7) & BACK == 0)
}

// Refuses an event for its bytes: with 4, then with 5 (definition 4.1).
#[tactic(auto, unfolding(crate::specs::Refusals::fault))]
pub fn fault(event: &[u8]) -> Result<(), Refusal>
    ensures { number_of result ≡ fault issue_e event.now }
{
    if !in_range(event) {
        return Err(Refusal::Range);
    }
    if !Request(rows::byte_at(event, place::REQUEST)).known() {
        return Err(Refusal::Request);
    }
    Ok(())
}

// Refuses one event alone: with 1, then with 4, then with 5 (definition 4.3).
#[tactic(auto, unfolding(crate::specs::Refusals::refusal_alone))]
fn refusal_alone(event: &[u8]) -> Result<(), Refusal>
    ensures { number_of result ≡ refusal_alone issue_e event.now }
{
    if event.len() != EVENT_BYTES {
        return Err(Refusal::Lengths);
    }
    fault(event)
}

// The duty from one state, given its set of states after: 0 if that is empty.
fn duty_from(duty: Duty, after: u8) -> u8
    ensures { result ≡ cond (eqb after 0) no_duty duty.0 }
{
    if after == 0 { Duty::NONE.0 } else { duty.0 }
}

// The seven duties, each judged from its own state (definition 6.5). Of the state only Dirty or not matters: UD and I stand for all.
fn duties_alone(event: &[u8], sets: [u8; 7]) -> [u8; 7]
    requires { sets ≡ sets_after event.now }
    ensures { result ≡ map (duty_alone event.now) states }
{
    let dirty = steps::duty(event, 1 << LineState::UD.0);
    let clean = steps::duty(event, 1 << LineState::I.0);
    // Stays: a line for each state, since the proof of an array made by a closure didn't close.
    [
        duty_from(clean, sets[0]),
        duty_from(clean, sets[1]),
        duty_from(clean, sets[2]),
        duty_from(dirty, sets[3]),
        duty_from(dirty, sets[4]),
        duty_from(clean, sets[5]),
        duty_from(dirty, sets[6]),
    ]
}

// Judges one event alone.
#[tactic(auto, using(crate::proofs::Ranges::looked_alone), unfolding(crate::specs::Alone::judged_alone))]
pub fn judge_event(event: &[u8]) -> Result<Judgment, Refusal>
    ensures { in_numbers result ≡ judged_alone issue_e event.now }
{
    refusal_alone(event)?;
    let sets = lookup::sets_after(event);
    let duties = duties_alone(event, sets);
    Ok(Judgment { sets, duties })
}
