// A filter for tests: judges events one by one, each alone. Records come from standard input, and answers go to standard output.
// A record is 41 bytes: the length of the event (above 40 counts as 40), and 40 bytes of which the first so many are the event.
// An answer is 16 bytes: refusal number, place, seven sets, seven duties. A last record that is cut off gets no answer.
#![tactic(auto)]

ghost use Rattle.std.specs.Prelude.{◌≡◌, ◌∷◌, ◌++◌};
ghost use Rattle.event.specs.Alone.{in_numbers};

use event::Judgment;
use kinds::Refusal;

// The bytes of a record and of an answer, and how many of each make a block.
const RECORD: usize = 41;

const ANSWER: usize = 16;

const BLOCK: usize = 1024;

// The event in a record.
fn event_of(record: &[u8]) -> &[u8] {
    match record {
        [said, bytes @ ..] => &bytes[..(*said as usize).min(bytes.len())],
        [] => record,
    }
}

// The bytes of an answer: a refused event has only a refusal number, and an accepted one place 1.
fn answer_of(judged: Result<Judgment, Refusal>) -> [u8; ANSWER]
    ensures { let told = in_numbers judged in result ≡ told.number ∷ told.place ∷ (told.sets ++ told.duties) }
{
    let mut answer = [0; ANSWER];
    match judged {
        Ok(judgment) => {
            answer[1] = 1;
            answer[2..9].copy_from_slice(&judgment.sets);
            answer[9..].copy_from_slice(&judgment.duties);
        }
        Err(refusal) => answer[0] = refusal.into(),
    }
    answer
}

// Reads a block, answers its whole records, and returns whether there may be more.
fn next_block(rt: &HostRuntime) -> bool {
    let mut block = [0; BLOCK * RECORD];
    let mut answers = [0; BLOCK * ANSWER];
    let came = blocks::read_full(&mut rt.stdin(), &mut block);
    let records = block[..came].chunks_exact(RECORD);
    for (record, answer) in records.zip(answers.chunks_exact_mut(ANSWER)) {
        answer.copy_from_slice(&answer_of(event::judge_event(event_of(record))));
    }
    let answered = came / RECORD * ANSWER;
    let written = rt.write_all(&answers[..answered]).is_ok();
    written & (came == block.len())
}

// Answers block by block. A proved loop must end, so this one has a number of turns that no run uses up.
fn main(rt: HostRuntime) {
    for _ in 0..u64::MAX {
        if !next_block(&rt) {
            return;
        }
    }
}
