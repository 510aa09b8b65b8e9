// A filter for tests: answers questions one by one. Records come from standard input, and answers go to standard output.
// A record is 648 bytes: request, RetToSrc, DoNotGoToSD, excl, tag state and state before; the length of the room, low byte first (above
// 640 counts as 640); and 640 bytes of which the first so many are the room. An answer is 648 bytes: refusal number, place in three bytes,
// count in four bytes, each low byte first; and the 640 bytes afterwards. A last record that is cut off gets no answer.
#![tactic(auto)]

ghost use Rattle.std.specs.Prelude.{◌≡◌, ◌∷◌, ◌++◌, take};
ghost use Rattle.std.specs.Int.{w64, to_le_bytes};
ghost use Rattle.answers.specs.Listed.{in_numbers};

use answers::Question;
use kinds::{LineState, Refusal, Request, TagState};

// The bytes before the room in a record, those of a record, and how many records make a block.
const HEAD: usize = 8;

const RECORD: usize = 648;

const BLOCK: usize = 64;

// The bytes over the head of a record: the place is always 0, and a refused question has the count 0.
fn answer_of(listed: Result<usize, Refusal>) -> [u8; HEAD]
    ensures { let told = in_numbers listed in
        result ≡ told.number ∷ (take 3 (to_le_bytes w64 told.place) ++ take 4 (to_le_bytes w64 told.count)) }
{
    let mut answer = [0; HEAD];
    match listed {
        Ok(count) => answer[4..].copy_from_slice(&count.to_le_bytes()[..4]),
        Err(refusal) => answer[0] = refusal.into(),
    }
    answer
}

// Answers a record in its place.
fn answer_record(record: &mut [u8]) {
    let Some((head, room)) = record.split_first_chunk_mut::<HEAD>() else {
        return;
    };
    let [
        request,
        ret_to_src,
        do_not_go_to_sd,
        excl,
        tag,
        before,
        low,
        high,
    ] = *head;
    let question = Question {
        request: Request(request),
        ret_to_src,
        do_not_go_to_sd,
        excl,
        tag: TagState(tag),
        before: LineState(before),
    };
    let end = (u16::from_le_bytes([low, high]) as usize).min(room.len());
    *head = answer_of(answers::list_answers(question, &mut room[..end]));
}

// Reads a block, answers its whole records in their places, and returns whether there may be more.
fn next_block(rt: &HostRuntime) -> bool {
    let mut block = [0; BLOCK * RECORD];
    let came = blocks::read_full(&mut rt.stdin(), &mut block);
    for record in block[..came].chunks_exact_mut(RECORD) {
        answer_record(record);
    }
    let answered = came / RECORD * RECORD;
    let written = rt.write_all(&block[..answered]).is_ok();
    written & (came == block.len())
}

// Answers block by block. A proved loop must end, so this one has a number of turns that no run uses up.
fn main(rt: HostRuntime) {
    for _ in 0..u64::MAX {
        if !next_block(&rt) {
            return;
        }
    }
}
