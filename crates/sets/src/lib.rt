// Sets of states as bytes, one bit per state (definition 2.2).
#![tactic(auto)]

ghost use Rattle.std.specs.Prelude.{◌≡◌, cond};
ghost use Rattle.sets.specs.Sets.{bit, holds_dirty, apply};

use kinds::LineState;

// The seven states, in the order of their numbers.
static STATES: [LineState; 7] = [
    LineState::I,
    LineState::UC,
    LineState::UCE,
    LineState::UD,
    LineState::UDP,
    LineState::SC,
    LineState::SD,
];

// Whether the state is in the set.
pub fn has(set: u8, state: LineState) -> bool
    ensures { result ≡ bit «set» state.0 }
{
    state.0 < 8 && (set >> state.0) % 2 == 1
}

// Whether the set holds a Dirty state.
pub fn holds_dirty(set: u8) -> bool
    ensures { result ≡ holds_dirty «set» }
{
    STATES.iter().any(|&state| state.dirty() & has(set, state))
}

// The given set if the state is in the set before, else the empty set.
pub fn from_state(before: u8, state: LineState, states: u8) -> u8
    ensures { result ≡ cond (bit «before» state.0) states 0 }
{
    if has(before, state) { states } else { 0 }
}

// Given one set per state, the union of the sets of all states in `before`.
pub fn apply(sets: [u8; 7], before: u8) -> u8
    ensures { result ≡ apply sets «before» }
{
    let mut union = 0;
    for (&state, &states) in STATES.iter().zip(sets.iter()) {
        union |= from_state(before, state, states);
    }
    union
}
