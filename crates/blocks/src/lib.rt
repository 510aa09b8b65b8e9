// How the filters for tests read their input.
#![tactic(auto)]

ghost use Rattle.std.specs.Prelude.{◌≤◌, length, take};
ghost use Rattle.std.specs.Io.KnownBytes.{Consumes};

use std::io::Read;

// Reads until the buffer is full, the input ends or a read fails, and returns how many bytes came: the front of the buffer.
pub fn read_full<R: Read>(input: &mut R, buffer: &mut [u8]) -> usize
    ensures bound { result ≤ length buffer.new }
    ensures bytes { Consumes (R.remaining input.old) (R.remaining input.new) (take result buffer.new) }
{
    let mut done = 0;
    // Stays: no `for`, since each read decides how far it goes.
    while done < buffer.len() {
        match input.read(&mut buffer[done..]) {
            Ok(0) | Err(_) => break,
            Ok(came) => done += came,
        }
    }
    done
}
