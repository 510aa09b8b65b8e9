// The bench sheet judged as it arrives, piece by piece (definition 8).
#![tactic(auto)]

ghost use Rattle.std.specs.Prelude.{◌+◌, ◌≤◌, ◌<◌, ◌≡◌, true, length};
ghost use Rattle.kinds.specs.Refusals.{refusal_number};
ghost use Rattle.event.specs.Refusals.{issue_e, fault};
ghost use Rattle.parser.specs.Parsed.{parsed_as};
ghost use Rattle.replies.specs.Replies.{refused_line};
ghost use Rattle.sheet.specs.Sheet.{on_parsed, on_line, most_lines};
ghost use Rattle.sheet.specs.Turns.{wanted, answer_with, begun_with, begun, turn_left, turned};
ghost use Rattle.sheet.specs.Code.{SaidBy, Writes, GoesOn, Judged, Roomy, NextIn, eat_left, ate};

use kinds::{ALL_STATES, EventNumber, Refusal};
use lines::{LONGEST, TOO_LONG};
use parser::Line;
use replies::ROOM;

// With this many bytes held, the next line can be judged, whatever follows.
const ENOUGH: usize = TOO_LONG + 1;

// The most lines of a sheet (definition 8.7).
const MOST_LINES: u64 = 1_000_001;

// The header of the input (definition 8.2).
const HEADER: &[u8] =
    b"pair,request,RetToSrc,DoNotGoToSD,excl,tag,response,TagOp,RespErr,forward,final,fwdErr";

// What a run keeps between two turns: the number of bytes held at the front of the piece, the number of lines taken so far, whether
// the run goes on, and whether the input has ended.
// Stays: `turn` takes any of them, so each flag may stand beside any number.
#[derive(Clone, Copy)]
pub struct Carried {
    pub held: usize,
    pub lines: u32,
    pub going: bool,
    pub ended: bool,
}

// The result of a turn: what is kept, how many bytes of the output buffer to write now, whether to read before the next turn, and
// whether the run is over.
// Stays: the definition `Turns` reads its flags.
#[derive(Clone, Copy)]
pub struct Turned {
    pub carried: Carried,
    pub put: usize,
    pub wants: bool,
    pub over: bool,
}

// What was done with a piece: how many of its bytes are taken, how many bytes are put into the output buffer, how many lines are taken
// so far, and whether the run goes on.
// Stays: `Carried` keeps the flag.
#[derive(Clone, Copy)]
struct Eaten {
    taken: usize,
    put: usize,
    lines: u32,
    going: bool,
}

// The next line of a piece: where it ends, where the line behind it starts, and the line parsed.
#[derive(Clone, Copy)]
struct Next {
    end: usize,
    start: usize,
    line: Result<Line, Refusal>,
}

// Writes the line of a refusal, and returns the offset behind it.
// Stays: a buffer and an offset as parameters here and below, as `replies` takes them.
fn refuse(refusal: Refusal, lines: u32, out: &mut [u8], at: usize) -> usize
    requires { Roomy out.old at }
    ensures { Writes (refused_line (refusal_number refusal) (lines + 1)) out.old at result out.new }
{
    replies::put_refusal(out, at, u8::from(refusal), lines as u64 + 1)
}

// Judges the event of a line on the set of its pair, and returns the offset behind its answer. The event has no fault.
fn judge_event(lines: u32, line: Line, table: &mut [u8], out: &mut [u8], at: usize) -> usize
    requires roomy { Roomy out.old at }
    requires not_header { 0 < lines }
    requires not_too_many { lines < most_lines }
    requires no_fault { fault issue_e line.event ≡ 0 }
    ensures { GoesOn (on_parsed lines table.old (parsed_as line.pair.0 line.event))
        out.old at result out.new table.new }
{
    let before = line.pair.set_in(table);
    let found = verdicts::found(&line.event, before);
    line.pair.put_in(table, found.after);
    replies::put_answer(out, at, EventNumber(lines - 1), found)
}

// Judges a line, given the number of lines before it, and returns the offset behind its answer, or why it is refused. Unless it is line 1
// or too long, `parsed` is what it says.
fn judge_line(
    lines: u32,
    line: &[u8],
    parsed: Result<Line, Refusal>,
    table: &mut [u8],
    out: &mut [u8],
    at: usize,
) -> Result<usize, Refusal>
    requires roomy { Roomy out.old at }
    requires said_by { SaidBy lines line.now parsed }
    ensures { Judged lines table.old (on_line lines table.old line.now)
        out.old at result out.new table.new }
{
    if lines == 0 {
        return if line == HEADER {
            Ok(at)
        } else {
            Err(Refusal::Header)
        };
    }
    if MOST_LINES < lines as u64 + 1 || LONGEST < line.len() {
        return Err(Refusal::Line);
    }
    Ok(judge_event(lines, parsed?, table, out, at))
}

// The line that starts at an offset of a piece, if enough of it is known. Line 1 is not parsed.
fn next_line(piece: &[u8], start: usize, ended: bool, lines: u32) -> Option<Next>
    requires { start ≤ length piece.now }
    ensures { NextIn ended lines piece.now start result }
{
    let left = piece.len() - start;
    let first = first_line::parse(&piece[start..], ended, 0 < lines);
    let sure = first.whole | (TOO_LONG < left) | (ended & ((0 < left) | (lines == 0)));
    if !sure {
        return None;
    }
    let end = start + first.end;
    Some(Next {
        end,
        start: if first.whole { end + 2 } else { end },
        line: first.line,
    })
}

// Judges a piece line by line, as long as enough of the next line is known and the output buffer has room. `lines` lines come before
// the piece. `going` is false after a refusal. If `ended`, nothing follows the piece.
fn eat(
    piece: &[u8],
    ended: bool,
    lines: u32,
    going: bool,
    table: &mut [u8],
    out: &mut [u8],
) -> Eaten
    ensures { eat_left result table.new out.new
        ≡ ate ended piece.now lines going table.old out.old }
{
    let mut taken = 0;
    let mut put = 0;
    let mut count = lines;
    // Stays: no `for`, since each line decides where the next begins; `Roomy` in the contracts is what this test has shown.
    while going && ROOM <= out.len() - put {
        // where nothing is left there is no line, but for line 1: an empty input has an empty one
        if taken == piece.len() && 0 < count {
            break;
        }
        let Some(next) = next_line(piece, taken, ended, count) else {
            break;
        };
        put = match judge_line(count, &piece[taken..next.end], next.line, table, out, put) {
            Ok(behind) => behind,
            Err(refusal) => {
                return Eaten {
                    taken: next.start,
                    put: refuse(refusal, count, out, put),
                    lines: count,
                    going: false,
                };
            }
        };
        taken = next.start;
        count += 1;
    }
    Eaten {
        taken,
        put,
        lines: count,
        going,
    }
}

// Whether to read before the next turn: the input has not ended, and too few bytes are held.
fn wants_more(carried: Carried) -> bool
    ensures { result ≡ wanted carried }
{
    !carried.ended && carried.held < ENOUGH
}

// The result of a turn that keeps `carried` and has put `put` bytes into the output buffer.
fn answer(carried: Carried, put: usize) -> Turned
    ensures { result ≡ answer_with carried put }
{
    Turned {
        carried,
        put,
        wants: wants_more(carried),
        over: !carried.going || (carried.ended && carried.held == 0 && 0 < carried.lines),
    }
}

// Begins a run: every pair has the set of all states (definition 8.5), the output's header is written, and nothing is read yet.
pub fn begin(table: &mut [u8], out: &mut [u8]) -> Turned
    ensures { begun_with result table.new out.new ≡ begun table.old out.old }
{
    table.fill(ALL_STATES);
    let put = replies::put_header(out, 0);
    let nothing = Carried {
        held: 0,
        lines: 0,
        going: true,
        ended: false,
    };
    answer(nothing, put)
}

// One turn of a run, after `got` bytes arrived behind those that are held. Lines are judged as long as it is known where they end
// and the output buffer has room. The rest is moved to the front of the piece.
pub fn turn(
    carried: Carried,
    got: usize,
    piece: &mut [u8],
    table: &mut [u8],
    out: &mut [u8],
) -> Turned
    ensures { turn_left result piece.new table.new out.new
        ≡ turned carried got piece.old table.old out.old }
{
    let ended = carried.ended || (wants_more(carried) && got == 0);
    let held = carried.held.saturating_add(got).min(piece.len());
    let ate = eat(
        &piece[..held],
        ended,
        carried.lines,
        carried.going,
        table,
        out,
    );
    piece.copy_within(ate.taken..held, 0);
    let next = Carried {
        held: held - ate.taken,
        lines: ate.lines,
        going: ate.going,
        ended,
    };
    answer(next, ate.put)
}
