// A whole tape: how many bytes its lines are, and the lines.
ghost use Rattle.std.specs.Prelude.{◌≡◌, ◌≤◌, length, IfSome};
ghost use Rattle.std.specs.Borrow.{sem};
ghost use Rattle.slices.specs.Over.{over};
ghost use Rattle.tape.specs.Output.{left_over_line, most_bytes, lines};
ghost use Rattle.tape.specs.Reader.{call_room};
ghost use Rattle.tape.specs.Run.{to_print, PrintsOn};

use crate::calling::{CALL_ROOM, next};
use crate::printing::refused;
use questions::Refusal;
use sheet::Sheet;
use slices::copying::copy;

// The bytes of a tape, at most.
pub const LARGEST: usize = 65536;

// The line of the 1 to 3 bytes that are left over behind the last word, if there are any; how many bytes it is.
pub fn left_over(rest: &[u8], out: &mut [u8]) -> usize
    requires { call_room ≤ length out.old }
    ensures value { result ≡ length (left_over_line rest.now) }
    ensures out_after { out.new ≡ over (left_over_line rest.now) out.old }
{
    if rest.len() % 4 == 0 {
        return 0;
    }
    refused(Refusal::LeftOver, out)
}

// A run over a tape: a sheet, fresh at first, the rest of the tape, and the lines of one call at a time, which lie in `told`.
#[derive(Drop)]
pub struct Run<'a> {
    sheet: [u32; Sheet::SIZE],
    rest: &'a [u8],
    told: [u8; CALL_ROOM],
}

impl<'a> Run<'a> {
    pub fn new(tape: &'a [u8]) -> Run<'a>
        ensures rest { result.rest.now ≡ tape.now }
        ensures all { length tape.now ≤ most_bytes → to_print result ≡ lines tape.now }
    {
        let fresh = Sheet::fresh();
        let sheet = fresh.numbers;
        let told = [0u8; CALL_ROOM];
        Run {
            sheet,
            rest: tape,
            told,
        }
    }

    // Makes the next call and gives its lines; behind the last call, the line of the bytes left over.
    pub fn next_lines(&mut self) -> Option<&[u8]>
        ensures* lines { sem 𝓛 (PrintsOn self.entry result) }
        ensures fits { IfSome result (λ told. length told.now ≤ call_room) }
    {
        let rest = self.rest;
        if rest.is_empty() {
            return None;
        }
        if rest.len() < 4 {
            self.rest = &[];
            let over = left_over(rest, &mut self.told);
            let told = &self.told[..over];
            return Some(told);
        }
        let step = next(&mut self.sheet, rest, &mut self.told);
        let used = step.used;
        self.rest = &rest[used..];
        let told = &self.told[..step.written];
        Some(told)
    }
}

// How many bytes the lines are.
pub fn count(tape: &[u8]) -> usize
    requires { length tape.now ≤ most_bytes }
    ensures { result ≡ length (lines tape.now) }
{
    let mut run = Run::new(tape);
    let mut written: usize = 0;
    // No `for`, here and in `write`: a run lends lines that lie in its own buffer, which an `Iterator` cannot lend.
    while let Some(told) = run.next_lines() {
        written += told.len();
    }
    written
}

// The lines, at the front of out; each call's behind those of the calls before it.
pub fn write(tape: &[u8], out: &mut [u8])
    requires { (length tape.now ≤ most_bytes) × (length (lines tape.now) ≤ length out.old) }
    ensures { out.new ≡ over (lines tape.now) out.old }
{
    let mut run = Run::new(tape);
    let mut at: usize = 0;
    while let Some(told) = run.next_lines() {
        copy(told, &mut out[at..]);
        at += told.len();
    }
}
