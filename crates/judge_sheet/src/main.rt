// The program that `./judge` runs: a sheet from standard input, its answers to standard output (definition 8).
// It only reads and writes, at most 65,536 bytes at a time. The crate `sheet` does the judging.
#![tactic(auto)]

ghost use Rattle.std.specs.Prelude.{◌≤◌, length};

use kinds::MOST_PAIRS;
use sheet::Turned;
use std::io::{ErrorKind, Read};
use std::process::ExitCode;

// The size of the input buffer and of the output buffer.
const SIZE: usize = 65536;

// Why a run ends early: standard input can't be read, standard output can't be written, nobody reads it any more, or the turns are used up.
#[derive(Clone, Copy)]
enum Failure {
    Read,
    Write,
    ClosedPipe,
    Turns,
}

// Reads if the run wants more input, behind the bytes that are still held, and returns how many bytes arrived. A read error is not taken
// for the end of the input (definition 8.10).
fn read_wanted(rt: &HostRuntime, run: Turned, piece: &mut [u8]) -> Result<usize, Failure>
    requires { run.carried.held ≤ length piece.old }
{
    if !run.wants {
        return Ok(0);
    }
    rt.stdin()
        .read(&mut piece[run.carried.held..])
        .map_err(|_| Failure::Read)
}

// Writes what was put into the output buffer.
fn write_out(rt: &HostRuntime, put: &[u8]) -> Result<(), Failure> {
    rt.write_all(put).map_err(|error| {
        if error.kind() == ErrorKind::BrokenPipe {
            Failure::ClosedPipe
        } else {
            Failure::Write
        }
    })
}

// Reads, judges and writes until the run is over or fails.
fn judge(rt: &HostRuntime) -> Result<(), Failure> {
    let mut piece = [0u8; SIZE];
    let mut table = [0u8; MOST_PAIRS];
    let mut out = [0u8; SIZE];
    let mut run = sheet::begin(&mut table, &mut out);
    write_out(rt, &out[..run.put])?;
    for _ in 0..1_000_000_000_000u64 {
        let got = read_wanted(rt, run, &mut piece)?;
        run = sheet::turn(run.carried, got, &mut piece, &mut table, &mut out);
        write_out(rt, &out[..run.put])?;
        if run.over {
            return Ok(());
        }
    }
    Err(Failure::Turns)
}

// Reports on standard error why the run ended early.
fn complain(rt: &HostRuntime, why: &[u8]) -> bool {
    rt.stderr().write_all(why).is_ok()
}

// Judges the sheet. A failed read or write is reported, unless the output is a closed pipe (definition 8.10).
fn main(rt: HostRuntime) -> ExitCode {
    match judge(&rt) {
        Ok(()) => return ExitCode::SUCCESS,
        Err(Failure::Read) => {
            complain(&rt, b"judge_sheet: standard input can't be read\n");
        }
        Err(Failure::Write) => {
            complain(&rt, b"judge_sheet: standard output can't be written\n");
        }
        Err(Failure::ClosedPipe | Failure::Turns) => {}
    }
    ExitCode::FAILURE
}
