// Writes the output of the bench sheet into a buffer, byte for byte (definition 8.6, 8.7).
#![tactic(auto)]

ghost use Rattle.std.specs.Prelude.{◌+◌, ◌≤◌, ◌<◌, ◌≡◌, ◌↔◌, IsTrue, [], ◌∷◌, ◌++◌, length, drop};
ghost use Rattle.text.specs.Text.{comma};
ghost use Rattle.replies.specs.Laid.{laid, lay, lay_all};
ghost use Rattle.replies.specs.Replies.{space, decimal_text, verdict_text, duty_text, state_text, states_texts};
ghost use Rattle.replies.specs.Replies.{header_line, answer_texts, refusal_texts};
ghost use Rattle.replies.specs.Code.{two_digits, explained_text, last_texts, judged_texts};

use kinds::{Duty, EventNumber, LineState, Verdict};
use verdicts::Finding;

// Every output line fits into this many bytes.
pub const ROOM: usize = 64;

// The byte of the digit 0; the other digits follow it.
const ZERO: u8 = b'0';

// The states in their order, each with its name after a space (definition 2.1).
const STATES: [(LineState, &[u8]); 7] = [
    (LineState::I, b" I"),
    (LineState::UC, b" UC"),
    (LineState::UCE, b" UCE"),
    (LineState::UD, b" UD"),
    (LineState::UDP, b" UDP"),
    (LineState::SC, b" SC"),
    (LineState::SD, b" SD"),
];

// A buffer that is being written, and the offset of the next byte.
// Stays: each method says that the buffer is the same one, since what takes `&mut self` could put another in its place.
#[derive(Drop)]
struct Page<'a> {
    out: &'a mut [u8],
    at: usize,
}

impl<'a> Page<'a> {
    ghost use Rattle.replies.specs.Page.{page};

    // Whether so many more bytes fit.
    fn has_room(&self, count: usize) -> bool
        ensures { IsTrue result ↔ (self.now.at + count ≤ length self.now.out.now) }
    {
        self.at
            .checked_add(count)
            .is_some_and(|end| end <= self.out.len())
    }

    // Writes a text. It must fit.
    fn lay(&mut self, text: &[u8])
        requires { self.old.at + length text.now ≤ length self.old.out.now }
        ensures same_buffer { self.new.out.ghost_name ≡ self.old.out.ghost_name }
        ensures written { page self.new ≡ lay (page self.old) text.now }
    {
        let end = self.at + text.len();
        self.out[self.at..end].copy_from_slice(text);
        self.at = end;
    }

    // Writes a text. One that does not fit is left out.
    fn put(&mut self, text: &[u8])
        ensures same_buffer { self.new.out.ghost_name ≡ self.old.out.ghost_name }
        ensures written { page self.new ≡ lay (page self.old) text.now }
    {
        if self.has_room(text.len()) {
            self.lay(text);
        }
    }

    // Writes a number in decimal.
    fn put_number(&mut self, n: u64)
        ensures same_buffer { self.new.out.ghost_name ≡ self.old.out.ghost_name }
        ensures written { page self.new ≡ lay (page self.old) (decimal_text n) }
    {
        let mut digits = [ZERO; 20];
        let mut first = 19;
        let mut rest = n;
        // Stays: no `for`, since how many digits there are is known when nothing is left of the number.
        while rest > 9 {
            digits[first] = ZERO + (rest % 10) as u8;
            first -= 1;
            rest /= 10;
        }
        digits[first] = ZERO + rest as u8;
        self.put(&digits[first..]);
    }

    // Writes a verdict's name between two commas; `unknown` for a code without a name.
    #[tactic(auto, unfolding(crate::specs::Replies::verdict_text))]
    fn put_verdict(&mut self, verdict: Verdict)
        ensures same_buffer { self.new.out.ghost_name ≡ self.old.out.ghost_name }
        ensures written { page self.new ≡
            lay (page self.old) (comma ∷ verdict_text verdict.0 ++ comma ∷ []) }
    {
        self.put(match verdict {
            Verdict::EXPLAINED => b",explained,",
            Verdict::UNEXPLAINED => b",unexplained,",
            Verdict::NOT_JUDGED => b",not judged,",
            _ => b",unknown,",
        });
    }

    // Writes a duty's name and a comma; `unknown` for a code without a name.
    // Stays: apart from `lay_explained`, whose texts have the verdict too, so that both are written at once.
    #[tactic(auto, unfolding(crate::specs::Replies::duty_text))]
    fn put_duty(&mut self, duty: Duty)
        ensures same_buffer { self.new.out.ghost_name ≡ self.old.out.ghost_name }
        ensures written { page self.new ≡ lay (page self.old) (duty_text duty.0 ++ comma ∷ []) }
    {
        self.put(match duty {
            Duty::NONE => b"none,",
            Duty::HOME => b"Home,",
            Duty::REQUESTER => b"Requester,",
            Duty::LOST => b"lost,",
            Duty::DISCARDED => b"discarded,",
            _ => b"unknown,",
        });
    }

    // Writes a state's name if the state is in the set. `spaced` is the name after a space, which only the first state leaves out.
    fn put_state(&mut self, states: u8, state: LineState, spaced: &[u8])
        requires is_state { state.0 < 7 }
        requires is_spaced { spaced.now ≡ space ∷ drop 1 spaced.now }
        ensures same_buffer { self.new.out.ghost_name ≡ self.old.out.ghost_name }
        ensures written { page self.new ≡
            lay (page self.old) (state_text states state.0 (drop 1 spaced.now)) }
    {
        if sets::has(states, state) {
            if states % (1 << state.0) == 0 {
                self.put(&spaced[1..]);
            } else {
                self.put(spaced);
            }
        }
    }

    // Writes the names of the states of a set, with spaces between them.
    fn put_states(&mut self, states: u8)
        ensures same_buffer { self.new.out.ghost_name ≡ self.old.out.ghost_name }
        ensures written { page self.new ≡ lay_all (page self.old) (states_texts states) }
    {
        for (state, spaced) in STATES {
            self.put_state(states, state, spaced);
        }
    }

    // Writes the two digits of a number below a hundred.
    fn lay_two(&mut self, n: u32)
        requires few_digits { n < 100 }
        requires has_room { self.old.at + 2 ≤ length self.old.out.now }
        ensures same_buffer { self.new.out.ghost_name ≡ self.old.out.ghost_name }
        ensures written { page self.new ≡ lay (page self.old) (two_digits n) }
    {
        self.lay(&[ZERO + (n / 10) as u8, ZERO + (n % 10) as u8]);
    }

    // Writes a number below a hundred in decimal.
    fn lay_upto_two(&mut self, n: u32)
        requires few_digits { n < 100 }
        requires has_room { self.old.at + 2 ≤ length self.old.out.now }
        ensures same_buffer { self.new.out.ghost_name ≡ self.old.out.ghost_name }
        ensures written { page self.new ≡ lay (page self.old) (decimal_text n) }
    {
        if n < 10 {
            self.lay(&[ZERO + n as u8]);
        } else {
            self.lay_two(n);
        }
    }

    // Writes a number below ten thousand in decimal.
    // Stays: one function for this and the next would take its bound and its room as constants, which cannot be computed from each other.
    fn lay_upto_four(&mut self, n: u32)
        requires few_digits { n < 10000 }
        requires has_room { self.old.at + 4 ≤ length self.old.out.now }
        ensures same_buffer { self.new.out.ghost_name ≡ self.old.out.ghost_name }
        ensures written { page self.new ≡ lay (page self.old) (decimal_text n) }
    {
        if n < 100 {
            self.lay_upto_two(n);
        } else {
            self.lay_upto_two(n / 100);
            self.lay_two(n % 100);
        }
    }

    // Writes a number below a million in decimal.
    fn lay_upto_six(&mut self, n: u32)
        requires few_digits { n < 1000000 }
        requires has_room { self.old.at + 6 ≤ length self.old.out.now }
        ensures same_buffer { self.new.out.ghost_name ≡ self.old.out.ghost_name }
        ensures written { page self.new ≡ lay (page self.old) (decimal_text n) }
    {
        if n < 10_000 {
            self.lay_upto_four(n);
        } else {
            self.lay_upto_four(n / 100);
            self.lay_two(n % 100);
        }
    }

    // Writes the verdict and the duty of an explained event; `unknown` for a duty without a name.
    #[tactic(auto, unfolding(crate::specs::Replies::verdict_text, crate::specs::Replies::duty_text))]
    fn lay_explained(&mut self, duty: Duty)
        requires { self.old.at + 21 ≤ length self.old.out.now }
        ensures same_buffer { self.new.out.ghost_name ≡ self.old.out.ghost_name }
        ensures written { page self.new ≡ lay (page self.old) (explained_text duty.0) }
    {
        self.lay(match duty {
            Duty::NONE => b",explained,none,",
            Duty::HOME => b",explained,Home,",
            Duty::REQUESTER => b",explained,Requester,",
            Duty::LOST => b",explained,lost,",
            Duty::DISCARDED => b",explained,discarded,",
            _ => b",explained,unknown,",
        });
    }

    // Writes the names of the states of a set and the end of the line, each part where it fits.
    fn put_last(&mut self, states: u8)
        ensures same_buffer { self.new.out.ghost_name ≡ self.old.out.ghost_name }
        ensures written { page self.new ≡ lay_all (page self.old) (last_texts states) }
    {
        self.put_states(states);
        self.put(b"\r\n");
    }

    // Writes the names of the states of a set and the end of the line.
    fn lay_states(&mut self, states: u8)
        requires { self.old.at + 6 ≤ length self.old.out.now }
        ensures same_buffer { self.new.out.ghost_name ≡ self.old.out.ghost_name }
        ensures written { page self.new ≡ lay_all (page self.old) (last_texts states) }
    {
        match states {
            1 => self.lay(b"I\r\n"),
            32 => self.lay(b"SC\r\n"),
            33 => self.lay(b"I SC\r\n"),
            64 => self.lay(b"SD\r\n"),
            _ => self.put_last(states),
        }
    }

    // Writes what stands behind the number in an event's output line, each part where it fits.
    fn put_judged(&mut self, found: Finding)
        ensures same_buffer { self.new.out.ghost_name ≡ self.old.out.ghost_name }
        ensures written { page self.new ≡ lay_all (page self.old) (judged_texts found) }
    {
        self.put_verdict(found.verdict);
        self.put_duty(found.duty);
        self.put_last(found.after);
    }

    // Writes what stands behind the number in an event's output line.
    fn lay_judged(&mut self, found: Finding)
        requires { self.old.at + 58 ≤ length self.old.out.now }
        ensures same_buffer { self.new.out.ghost_name ≡ self.old.out.ghost_name }
        ensures written { page self.new ≡ lay_all (page self.old) (judged_texts found) }
    {
        match (found.verdict, found.duty, found.after) {
            (Verdict::EXPLAINED, duty, states) => {
                self.lay_explained(duty);
                self.lay_states(states);
            }
            (Verdict::UNEXPLAINED, Duty::NONE, 0) => self.lay(b",unexplained,none,\r\n"),
            (Verdict::NOT_JUDGED, Duty::NONE, 0) => self.lay(b",not judged,none,\r\n"),
            _ => self.put_judged(found),
        }
    }
}

// Writes a text at an offset, and returns the offset behind it. A text that does not fit is left out.
// Stays: this and the three below have the buffer and the offset as parameters, since they promise it to any caller.
pub fn put(out: &mut [u8], at: usize, text: &[u8]) -> usize
    ensures { laid result out.new ≡ lay (laid at out.old) text.now }
{
    let mut page = Page { out, at };
    page.put(text);
    page.at
}

// Writes the output line of an event (definition 8.6).
#[tactic(auto, unfolding(crate::specs::Replies::answer_texts))]
pub fn put_answer(out: &mut [u8], at: usize, event: EventNumber, found: Finding) -> usize
    ensures { laid result out.new ≡ lay_all (laid at out.old) (answer_texts event.0 found) }
{
    let mut page = Page { out, at };
    if event.0 < 1_000_000 && page.has_room(ROOM) {
        page.lay_upto_six(event.0);
        page.lay_judged(found);
    } else {
        page.put_number(event.0 as u64);
        page.put_judged(found);
    }
    page.at
}

// Writes the line that ends a refused run: the refusal number and the bad line (definition 8.7).
// Stays: a number, which the definition takes of any size.
#[tactic(auto, unfolding(crate::specs::Replies::refusal_texts))]
pub fn put_refusal(out: &mut [u8], at: usize, number: u8, line: u64) -> usize
    ensures { laid result out.new ≡ lay_all (laid at out.old) (refusal_texts number line) }
{
    let mut page = Page { out, at };
    page.put(b"refused,");
    page.put_number(number as u64);
    page.put(b",");
    page.put_number(line);
    page.put(b"\r\n");
    page.at
}

// Writes the header of the output.
#[tactic(auto, unfolding(crate::specs::Replies::header_line))]
pub fn put_header(out: &mut [u8], at: usize) -> usize
    ensures { laid result out.new ≡ lay (laid at out.old) header_line }
{
    put(out, at, b"event,verdict,duty,states\r\n")
}
