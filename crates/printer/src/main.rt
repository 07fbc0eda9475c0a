// The printer: reads a tape from standard input to its end and writes its lines to standard output, each call's as soon as
// it is made. A tape may print more than ten megabytes, and no buffer holds more than the lines of one call.
//
// A read or a write that fails ends the run, is said on standard error, and gives status 1.
#![tactic(auto)]

ghost use Rattle.std.specs.Prelude.{◌≡◌, ℕ, ◌<◌, ◌≤◌, length, take, OnOk, IfOk, MatchResult};
ghost use Rattle.std.specs.Io.KnownBytes.{Appends, Consumes, IsAtEnd};
ghost use Rattle.tape.specs.Output.{lines, most_bytes};

use std::io;
use std::io::{Read, Write};
use std::process::ExitCode;
use tape::running::{LARGEST, Run};

// A tape that is too long shows in one byte more than it may have.
fn main(rt: HostRuntime) -> ExitCode {
    let mut tape = [0u8; LARGEST + 1];
    let Ok(n) = read_all(&mut rt.stdin(), &mut tape) else {
        return complain(&rt, "standard input could not be read");
    };
    let mut out = rt.stdout();
    // a constant line; tape's own are those of calls
    let written = if n > LARGEST {
        out.write_all(b"refused 10\n")
    } else {
        print(&mut out, &tape[..n])
    };
    match written {
        Ok(()) => ExitCode::SUCCESS,
        Err(_) => complain(&rt, "standard output could not be written"),
    }
}

// Says what went wrong. Where that cannot be written either, the status alone tells.
fn complain(rt: &impl Eprint, what: &str) -> ExitCode {
    let _ = eprintln!(rt; "printer: {what}");
    ExitCode::FAILURE
}

// Reads until the input ends, the memory is full or a read fails; how many bytes were read. Where a read fails, those before it are
// still at the front of the memory.
fn read_all<R: Read>(input: &mut R, tape: &mut [u8]) -> io::Result<usize>
    ensures fits { IfOk result (λ n. n ≤ length tape.new) }
    ensures taken { IfOk result (λ n. n ≡ length (take n tape.new)) }
    ensures bytes { MatchResult result (λ n. Consumes (R.remaining input.old) (R.remaining input.new) (take n tape.new))
        (λ _. (n : ℕ) × (n ≤ length tape.new) × (n ≡ length (take n tape.new))
        × Consumes (R.remaining input.old) (R.remaining input.new) (take n tape.new)) }
    ensures end { IfOk result (λ n. n < length tape.new → IsAtEnd (R.remaining input.new)) }
{
    let mut count = 0;
    // No `for`: a read gives any number of bytes, and the next one goes behind them.
    while count < tape.len() {
        let more = input.read(&mut tape[count..])?;
        if more == 0 {
            break;
        }
        count += more;
    }
    Ok(count)
}

// A call's lines at a time. No call is made after a failed write.
fn print<W: Write>(to: &mut W, tape: &[u8]) -> io::Result<()>
    ensures { length tape.now ≤ most_bytes → OnOk result (Appends (W.contents to.old) (W.contents to.new) (lines tape.now)) }
{
    let mut run = Run::new(tape);
    // No `for`: what a run lends lies in its own buffer, which an `Iterator` cannot lend.
    while let Some(told) = run.next_lines() {
        to.write_all(told)?;
    }
    Ok(())
}
