// A whole trace judged, whatever is lent (definition 3.3 to 3.5).
#![tactic(auto)]

ghost use Rattle.std.specs.Prelude.{◌<◌, ◌≡◌, length, IfSome, unwrap_or};
ghost use Rattle.kinds.specs.Places.{event_in};
ghost use Rattle.kinds.specs.Refusals.{number_of};
ghost use Rattle.event.specs.Refusals.{issue_e};
ghost use Rattle.trace.specs.Lent.{in_numbers, lent, left};
ghost use Rattle.trace.specs.Refusals.{lengths_fit, lowest_bad_set, fault_at, by_events, outcome_of};
ghost use Rattle.trace.specs.Judged.{judged};
ghost use Rattle.trace.specs.Code.{GoodBefore, Whole, WholeEvents, Good, Ready, OnTable, AllJudged};

use kinds::{ALL_STATES, EVENT_BYTES, EventNumber, MOST_EVENTS, MOST_PAIRS, Refusal};
use verdicts::Finding;

// Why a trace is refused, and the place that is to blame (definition 4.1).
#[derive(Clone, Copy)]
pub struct Refused {
    pub refusal: Refusal,
    pub place: usize,
}

// The events of a trace as they are lent: the bytes of all, and for each the number of its pair (definition 3.3).
#[derive(Clone, Copy)]
struct Trace<'a> {
    events: &'a [u8],
    pairs: &'a [u16],
}

impl<'a> Trace<'a> {
    // The bytes of event k, which are all in the buffer.
    // Stays: by `EventNumber::event_in`, which tests for bytes that are not there, a trace takes a third more instructions.
    fn event(self, k: EventNumber) -> &'a [u8]
        requires { Whole self.events.now k.0 }
        ensures { result.now ≡ event_in self.entry.events.now k.0 }
    {
        let start = k.0 as usize * EVENT_BYTES;
        &self.events[start..start + EVENT_BYTES]
    }

    // Refuses event k: with 3, then with 4, then with 5 (definition 4.2).
    #[tactic(auto, unfolding(crate::specs::Refusals::fault_at))]
    fn fault_at(self, k: EventNumber, table: &[u8]) -> Result<(), Refusal>
        requires { Whole self.events.now k.0 }
        ensures { number_of result ≡ fault_at issue_e self.entry.events.now self.entry.pairs.now table.now k.0 }
    {
        if !k.pair_in(self.pairs).within(table) {
            return Err(Refusal::Pair);
        }
        event::fault(self.event(k))
    }

    // Refuses the first event that is bad, with its number as the place; else gives the number of events.
    #[tactic(auto, using(crate::proofs::Laws::refused_here, crate::proofs::Laws::good_here, crate::proofs::Laws::good_all))]
    fn outcome(self, table: &[u8]) -> Result<usize, Refused>
        requires { WholeEvents self.events.now self.pairs.now }
        ensures { in_numbers result ≡ by_events issue_e self.entry.events.now self.entry.pairs.now table.now }
    {
        for place in 0..self.pairs.len() {
            if let Err(refusal) = self.fault_at(EventNumber(place as u32), table) {
                return Err(Refused { refusal, place });
            }
        }
        Ok(self.pairs.len())
    }

    // Judges event k, which is not refused, on the set of its pair, and writes the set after into the table.
    fn judge_on_table(self, k: EventNumber, table: &mut [u8]) -> Finding
        requires { Good self.events.now self.pairs.now table.old k.0 }
        ensures { OnTable self.entry.events.now self.entry.pairs.now k.0 table.old result table.new }
    {
        let pair = k.pair_in(self.pairs);
        let found = verdicts::found(self.event(k), pair.set_in(table));
        pair.put_in(table, found.after);
        found
    }

    // Stays: the three buffers of answers one by one, since they are read while a trace is tested and written while it is judged.
    // Judges all events, of which none is refused, one after another, and writes what is found for event k at index k.
    fn judge(self, table: &mut [u8], verdicts: &mut [u8], duties: &mut [u8], afters: &mut [u8])
        requires { Ready self.events.now self.pairs.now table.old verdicts.old duties.old afters.old }
        ensures { AllJudged self.entry.events.now self.entry.pairs.now table.old
            table.new verdicts.new duties.new afters.new }
    {
        for k in 0..self.pairs.len() {
            let found = self.judge_on_table(EventNumber(k as u32), table);
            verdicts[k] = found.verdict.0;
            duties[k] = found.duty.0;
            afters[k] = found.after;
        }
    }
}

// Whether all buffers have the right lengths (refusal 1).
#[tactic(auto, unfolding(crate::specs::Refusals::lengths_fit))]
fn lengths_fit(trace: Trace, table: &[u8], verdicts: &[u8], duties: &[u8], afters: &[u8]) -> bool
    ensures { result ≡ lengths_fit (lent
        trace.entry.events.now trace.entry.pairs.now table.now
        verdicts.now duties.now afters.now) }
{
    let n = trace.events.len() / EVENT_BYTES;
    trace.events.len() % EVENT_BYTES == 0
        && n <= MOST_EVENTS
        && table.len() <= MOST_PAIRS
        && trace.pairs.len() == n
        && verdicts.len() == n
        && duties.len() == n
        && afters.len() == n
}

// The top bit of each of eight bytes: no set up to 127 has it.
const TOP_BITS: u64 = 0x80_80_80_80_80_80_80_80;

// How many sets at the front are found to be good, eight at a time.
fn good_sets(table: &[u8]) -> usize
    ensures { GoodBefore table.now result }
{
    let mut good = 0;
    for eight in table.chunks_exact(8) {
        if words::word_at(eight, 0) & TOP_BITS != 0 {
            return good;
        }
        good += 8;
    }
    good
}

// The lowest pair with a set above 127 (refusal 2). The empty set is allowed (definition 4.4).
fn lowest_bad_set(table: &[u8]) -> Option<usize>
    ensures lowest { unwrap_or result (length table.now) ≡ lowest_bad_set table.now }
    ensures inside { IfSome result (λ pair. pair < length table.now) }
{
    let good = good_sets(table);
    let further = table[good..]
        .iter()
        .position(|&states| states > ALL_STATES)?;
    Some(good + further)
}

// The outcome: 1 first, then 2 over the whole table, then event by event (definition 4.2).
#[tactic(auto, unfolding(crate::specs::Refusals::outcome_of))]
fn outcome_of(
    trace: Trace,
    table: &[u8],
    verdicts: &[u8],
    duties: &[u8],
    afters: &[u8],
) -> Result<usize, Refused>
    ensures { in_numbers result ≡ outcome_of issue_e (lent
        trace.entry.events.now trace.entry.pairs.now table.now
        verdicts.now duties.now afters.now) }
{
    if !lengths_fit(trace, table, verdicts, duties, afters) {
        return Err(Refused {
            refusal: Refusal::Lengths,
            place: 0,
        });
    }
    if let Some(place) = lowest_bad_set(table) {
        return Err(Refused {
            refusal: Refusal::Set,
            place,
        });
    }
    trace.outcome(table)
}

// Judges a whole trace. An accepted trace leaves the table of sets at the end, and a verdict, a duty byte and an after-set for each event
// (definition 3.4). A refused trace leaves all buffers as they were (definition 3.5).
// Stays: six buffers one by one, as C hands them over.
pub fn judge_trace(
    events: &[u8],
    pairs: &[u16],
    table: &mut [u8],
    verdicts: &mut [u8],
    duties: &mut [u8],
    afters: &mut [u8],
) -> Result<usize, Refused>
    ensures { left (in_numbers result) table.new verdicts.new duties.new afters.new
        ≡ judged issue_e (lent
        events.now pairs.now table.old
        verdicts.old duties.old afters.old) }
{
    let trace = Trace { events, pairs };
    let count = outcome_of(trace, table, verdicts, duties, afters)?;
    trace.judge(table, verdicts, duties, afters);
    Ok(count)
}
