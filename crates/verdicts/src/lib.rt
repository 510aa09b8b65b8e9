// One event judged on the set of its pair (definition 7.3, 6.3).
#![tactic(auto)]

ghost use Rattle.std.specs.Prelude.{◌≡◌};
ghost use Rattle.verdicts.specs.Verdicts.{finding};
ghost use Rattle.verdicts.specs.Looked.{no_step, duty_kept, found_by};

use kinds::{Duty, Verdict};

// What an event does to its pair: the set after, the verdict, and the duty byte.
#[derive(Clone, Copy)]
pub struct Finding {
    pub after: u8,
    pub verdict: Verdict,
    pub duty: Duty,
}

// What is found where no state of the set before makes a step.
#[tactic(auto, unfolding(crate::specs::Looked::no_step))]
fn no_step(before: u8) -> Finding
    ensures { result ≡ no_step before }
{
    let verdict = if before == 0 {
        Verdict::NOT_JUDGED
    } else {
        Verdict::UNEXPLAINED
    };
    Finding {
        after: 0,
        verdict,
        duty: Duty::NONE,
    }
}

// The duty of a step: nothing is lost or discarded where the set before holds no Dirty state.
fn duty_kept(told: Duty, before: u8) -> Duty
    ensures { result.0 ≡ duty_kept told.0 before }
{
    if matches!(told, Duty::LOST | Duty::DISCARDED) && !sets::holds_dirty(before) {
        return Duty::NONE;
    }
    told
}

// Judges an event by one lookup, for all states of the set before at once. It is the finding for every event that is not refused.
#[tactic(auto, unfolding(crate::specs::Looked::found_by))]
pub fn found(event: &[u8], before: u8) -> Finding
    ensures { result ≡ found_by event.now before }
{
    let effect = lookup::effect_of(event);
    let after = effect.to() & lookup::seen_after(event);
    if (effect.from() & before == 0) | (after == 0) {
        return no_step(before);
    }
    Finding {
        after,
        verdict: Verdict::EXPLAINED,
        duty: duty_kept(Duty(effect.told()), before),
    }
}

// Judges an event by the walk along the rows, whatever its bytes.
#[tactic(auto, using(crate::proofs::Laws::apply_after), unfolding(crate::specs::Verdicts::verdict, crate::specs::Verdicts::duty_byte))]
fn by_rows(event: &[u8], before: u8) -> Finding
    ensures { result ≡ finding event.now before }
{
    let after = sets::apply(steps::sets_after(event), before);
    let verdict = match (before, after) {
        (0, _) => Verdict::NOT_JUDGED,
        (_, 0) => Verdict::UNEXPLAINED,
        _ => Verdict::EXPLAINED,
    };
    let duty = if verdict == Verdict::EXPLAINED {
        steps::duty(event, before)
    } else {
        Duty::NONE
    };
    Finding {
        after,
        verdict,
        duty,
    }
}

// Judges an event, given the set of its pair before it. Only an event that would be refused needs the walk along the rows.
#[tactic(auto, using(crate::proofs::Looked::good_finding))]
pub fn judge(event: &[u8], before: u8) -> Finding
    ensures { result ≡ finding event.now before }
{
    if event::fault(event).is_ok() {
        found(event, before)
    } else {
        by_rows(event, before)
    }
}
