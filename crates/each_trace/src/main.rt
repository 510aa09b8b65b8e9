// A filter for tests: judges whole traces one after another. Cases come from standard input, and answers go to standard output.
// Numbers are little-endian. A case is six 32-bit numbers, and then the six buffers. The numbers are the length of the events in bytes,
// the count of pair numbers, and the lengths of table, verdicts, duties and after-sets. A pair number is two bytes. An answer is the
// refusal number in one byte, the place in 32 bits, and the last four buffers as left. A case that is cut off or too long ends the run.
#![tactic(auto)]

ghost use Rattle.std.specs.Prelude.{◌+◌, ◌≤◌};

use kinds::{MOST_EVENTS, MOST_PAIRS};
use std::io::{Stdin, Stdout};
use trace::Refused;

// The room for a case: bytes of events, twice the most sets of a table, twice the most events, and two bytes for each pair number.
const EVENTS_ROOM: usize = 65536;

const TABLE_ROOM: usize = MOST_PAIRS * 2;

const EACH_ROOM: usize = MOST_EVENTS * 2;

const PAIR_BYTES_ROOM: usize = EACH_ROOM * 2;

// The lengths in the head of a case, and the bytes of the head.
#[derive(Clone, Copy)]
struct Lengths {
    events: usize,
    pairs: usize,
    table: usize,
    verdicts: usize,
    duties: usize,
    afters: usize,
}

const HEAD: usize = 24;

// The 32-bit number at an offset in the head.
fn number_at(head: [u8; HEAD], at: usize) -> usize
    requires { at + 4 ≤ 24 }
{
    u32::from_le_bytes([head[at], head[at + 1], head[at + 2], head[at + 3]]) as usize
}

// Reads the head of a case; none if it is cut off.
fn read_lengths(mut stdin: Stdin) -> Option<Lengths> {
    let mut head = [0; HEAD];
    if blocks::read_full(&mut stdin, &mut head) < HEAD {
        return None;
    }
    Some(Lengths {
        events: number_at(head, 0),
        pairs: number_at(head, 4),
        table: number_at(head, 8),
        verdicts: number_at(head, 12),
        duties: number_at(head, 16),
        afters: number_at(head, 20),
    })
}

// Reads a buffer of a case, as much as there is room for; none if it is cut off, or too long for the room.
// Stays: a length beside the room, since a case says it, and may say more than there is room for.
fn read_part(mut stdin: Stdin, room: &mut [u8], len: usize) -> Option<&mut [u8]> {
    let end = len.min(room.len());
    let part = &mut room[..end];
    if blocks::read_full(&mut stdin, part) < len {
        return None;
    }
    Some(part)
}

// Reads the pair numbers of a case, as many as there is room for; none if they are cut off, or too many for the room.
fn read_pairs(stdin: Stdin, room: &mut [u16], count: usize) -> Option<&[u16]> {
    let mut bytes = [0; PAIR_BYTES_ROOM];
    let part = read_part(stdin, &mut bytes, count.saturating_mul(2))?;
    let pairs = room.get_mut(..count)?;
    for (pair, two) in pairs.iter_mut().zip(part.chunks_exact(2)) {
        *pair = u16::from_le_bytes([two[0], two[1]]);
    }
    Some(pairs)
}

// Writes the refusal number and the place; none if that fails.
fn write_outcome(stdout: Stdout, outcome: Result<usize, Refused>) -> Option<()> {
    let (number, place) = match outcome {
        Ok(count) => (0, count),
        Err(refused) => (refused.refusal.into(), refused.place),
    };
    let [first, second, third, fourth, ..] = place.to_le_bytes();
    stdout
        .write_all(&[number, first, second, third, fourth])
        .ok()
}

// Reads a case, judges it and writes the answer; none if there can be no more. All parts are read, and all are written, before any is
// found to have failed.
fn next_case(rt: &HostRuntime) -> Option<()> {
    let stdin = rt.stdin();
    let stdout = rt.stdout();
    let mut events = [0; EVENTS_ROOM];
    let mut pairs = [0; EACH_ROOM];
    let mut table = [0; TABLE_ROOM];
    let mut verdicts = [0; EACH_ROOM];
    let mut duties = [0; EACH_ROOM];
    let mut afters = [0; EACH_ROOM];
    let lengths = read_lengths(stdin)?;
    let events = read_part(stdin, &mut events, lengths.events);
    let pairs = read_pairs(stdin, &mut pairs, lengths.pairs);
    let table = read_part(stdin, &mut table, lengths.table);
    let verdicts = read_part(stdin, &mut verdicts, lengths.verdicts);
    let duties = read_part(stdin, &mut duties, lengths.duties);
    let afters = read_part(stdin, &mut afters, lengths.afters);
    let (events, pairs, table) = (events?, pairs?, table?);
    let (verdicts, duties, afters) = (verdicts?, duties?, afters?);
    let outcome = trace::judge_trace(events, pairs, table, verdicts, duties, afters);
    let outcome = write_outcome(stdout, outcome);
    let table = stdout.write_all(table).ok();
    let verdicts = stdout.write_all(verdicts).ok();
    let duties = stdout.write_all(duties).ok();
    let afters = stdout.write_all(afters).ok();
    outcome.and(table).and(verdicts).and(duties).and(afters)
}

// Answers case by case. A proved loop must end, so this one has a number of turns that no run uses up.
fn main(rt: HostRuntime) {
    for _ in 0..u64::MAX {
        if next_case(&rt).is_none() {
            return;
        }
    }
}
