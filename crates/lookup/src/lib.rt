// What an event can do to a line, looked up by request and state (definition 6): by its answer too, and for all states before at once.
#![tactic(auto)]

ghost use Rattle.std.specs.Prelude.{◌<◌, ◌≡◌};
ghost use Rattle.lookup.specs.Code.{kind_of, context_of, entry_of, choice_of, looked_up, packed, effect_of};
ghost use Rattle.lookup.specs.Code.{from, to, told, spread, seen_after, looked_sets};

use kinds::{LineState, place};

mod table;

// One more than the highest number that four bytes make.
const HALF: u64 = 1 << 32;

// Brings RetToSrc, DoNotGoToSD, excl and tag state, a byte each, together in bits 24 to 28 of a product.
const GATHER: u64 = (1 << 3) + (1 << 10) + (1 << 17) + (1 << 24);

// What the rows say of an event, a byte each, the lowest first: the states before from which it is a step, the states after, the duty.
// Stays: one number, as `effect_of` in the definition has it.
#[derive(Clone, Copy, PartialEq, Eq)]
pub struct Effect(pub u64);

impl Effect {
    // The states before from which the event is a step, as a set.
    pub fn from(self) -> u8
        ensures { result ≡ from self.0 }
    {
        self.0.to_le_bytes()[0]
    }

    // The states after, as a set; the same from every state before.
    pub fn to(self) -> u8
        ensures { result ≡ to self.0 }
    {
        self.0.to_le_bytes()[1]
    }

    // The duty byte that the event tells.
    pub fn told(self) -> u8
        ensures { result ≡ told self.0 }
    {
        self.0.to_le_bytes()[2]
    }
}

// The kind of a packed answer; 0 if no row has the answer.
// Stays: an Option is no plainer, since the tables have kind 0 too, with no state before, and None would become 0 at once.
fn kind_of(answer: u64) -> u64
    ensures { result ≡ kind_of answer }
{
    let slot = table::SLOTS[((answer % HALF * table::FACTOR) >> 24) as usize % 256];
    if slot % HALF == answer { slot >> 32 } else { 0 }
}

// The context of a snoop: RetToSrc, DoNotGoToSD, excl and tag state in five bits.
fn context_of(flags: u64) -> u64
    ensures { result ≡ context_of flags }
{
    ((flags % HALF * GATHER) >> 24) % 32
}

// The entry for a request and a kind of answer: the states before, as sets, the states after and the duty.
fn entry_of(request: u8, kind: usize) -> u64
    requires { kind < 32 }
    ensures { result ≡ entry_of request kind }
{
    table::ENTRIES[table::STARTS[request as usize % 32] as usize + kind]
}

// Which of the entry's three sets of states before holds.
fn choice_of(kind: usize, flags: u64) -> u64
    requires { kind < 32 }
    ensures { result ≡ choice_of kind flags }
{
    (table::CHOICES[kind] >> (context_of(flags) * 2)) % 4
}

// The effect, by request, flags of the snoop and packed answer.
fn look_up(request: u8, flags: u64, answer: u64) -> Effect
    ensures { result.0 ≡ looked_up request flags answer }
{
    let kind = (kind_of(answer) % 32) as usize;
    let entry = entry_of(request, kind);
    let choice = choice_of(kind, flags);
    Effect((entry >> (choice * 8)) % 256 + (entry >> 32) * 256)
}

// The answer's nine bytes packed into 32 bits, where no field in range meets another.
fn packed(event: &[u8]) -> u64
    ensures { result ≡ packed event.now }
{
    let first = words::half_at(event, place::CHANNEL) % HALF;
    let last = words::half_at(event, place::TAG_OP) % HALF;
    let on_forward = rows::byte_at(event, place::FORWARDED_ERR) as u64;
    first + last * 32 + on_forward * 2
}

// The effect of an event. It is always inlined, so that the event's length is tested once wherever it is called.
#[inline(always)]
pub fn effect_of(event: &[u8]) -> Effect
    ensures { result.0 ≡ effect_of event.now }
{
    let request = rows::byte_at(event, place::REQUEST);
    let flags = words::half_at(event, place::RET_TO_SRC);
    look_up(request, flags, packed(event))
}

// An effect spread over the seven states before: its states after, as far as they were seen, from each state that it has.
// Stays: seven calls, since the proof of a map over the states didn't close.
fn spread(effect: Effect, seen: u8) -> [u8; 7]
    ensures { result ≡ spread effect.0 seen }
{
    let from = effect.from();
    let left = effect.to() & seen;
    [
        sets::from_state(from, LineState::I, left),
        sets::from_state(from, LineState::UC, left),
        sets::from_state(from, LineState::UCE, left),
        sets::from_state(from, LineState::UD, left),
        sets::from_state(from, LineState::UDP, left),
        sets::from_state(from, LineState::SC, left),
        sets::from_state(from, LineState::SD, left),
    ]
}

// The states after that the event may have, as a set.
pub fn seen_after(event: &[u8]) -> u8
    ensures { result ≡ seen_after event.now }
{
    let shown = rows::byte_at(event, place::STATE_AFTER) % 8;
    steps::seen_states(LineState(shown))
}

// For each of the seven states before, the set of states after (definition 6.2).
pub fn sets_after(event: &[u8]) -> [u8; 7]
    ensures { result ≡ looked_sets event.now }
{
    spread(effect_of(event), seen_after(event))
}
