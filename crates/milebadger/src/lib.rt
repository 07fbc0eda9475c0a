// The C face: every call that a C program can make, thin over the crates that do the work. Here are those without a sheet.
#![tactic(auto)]

mod posing;
mod reasoning;
mod replying;
pub mod sheets;

ghost use Rattle.std.specs.Prelude.{◌≡◌, ◌+◌, ◌*◌, ◌≤◌};
ghost use Rattle.equations.specs.Lines.{equations_of};
ghost use Rattle.system.specs.Block.{block_of};
ghost use Rattle.system.specs.Posed.{Posed};
ghost use Rattle.setting.specs.Calls.{made_of, sheet_after};
ghost use Rattle.safe.specs.Calls.{turned_of, buffer_after};
ghost use Rattle.milebadger.specs.Calls.{version, Replied, block_reply, gcd_reply, congruence_reply, solve_reply, tape_reply, counted_result, turned_result};

use congruence::solve as solve_one;
use posing::refusal;
use questions::Refusal;
use replying::{counted, give, give_block, refuse};
use residue::euclid::gcd;
use safe::solve as solve_safe;
use setting::sheet_for;
use system::limits::ENTRIES;
use system::solving::solve_into;
use tape::running::{LARGEST, count, write};

// So many unknowns are few: an array of 20 numbers is enough for their vectors.
const FEW: u32 = 4;

const FEW_NUMBERS: usize = 20;

// The header's: 10,000 · 4 + 100 · 0 + 0.
const VERSION: u32 = 40000;

#[unsafe(no_mangle)]
pub extern "C" fn milebadger_version() -> u32
    ensures { result ≡ version }
{
    VERSION
}

// Euclid's chain: the divisor of a and b and the number of divisions made.
#[unsafe(no_mangle)]
pub extern "C" fn milebadger_gcd(a: u32, b: u32, out: &mut [u32]) -> i64
    ensures { Replied (gcd_reply a b) out.old out.new result }
{
    let chain = gcd(a, b);
    let numbers = [chain.divisor, chain.divisions];
    give(1, &numbers, out)
}

// One congruence a·t = b mod m, for signed a and b: its least solution and the spacing of its solutions.
#[unsafe(no_mangle)]
pub extern "C" fn milebadger_congruence(a: i32, b: i32, m: u32, out: &mut [u32]) -> i64
    ensures { Replied (congruence_reply a b m) out.old out.new result }
{
    match solve_one(a, b, m) {
        Ok(None) => 0,
        Ok(Some(solutions)) => {
            let numbers = [solutions.least, solutions.spacing];
            give(1, &numbers, out)
        }
        Err(refusal) => refuse(refusal),
    }
}

// A list of equations in n unknowns mod m, each a line of n coefficients and a right side: its answer block. For few unknowns a
// small array is cleared.
#[unsafe(no_mangle)]
pub extern "C" fn milebadger_solve(m: u32, n: u32, lines: &[u32], out: &mut [u32]) -> i64
    ensures { Replied (solve_reply m n lines.now) out.old out.new result }
{
    if let Err(refusal) = refusal(m, n, lines) {
        return refuse(refusal);
    }
    let unknowns = n as usize;
    if n <= FEW {
        return give_answer::<FEW_NUMBERS>(m, unknowns, lines, out);
    }
    give_answer::<ENTRIES>(m, unknowns, lines, out)
}

// The answer block of equations that no question turns away, which has at most ROOM numbers behind its head.
fn give_answer<const ROOM: usize>(m: u32, n: usize, lines: &[u32], out: &mut [u32]) -> i64
    requires { Posed m n lines.now × (n + n * n ≤ ROOM) × (16 ≤ ROOM) × (ROOM ≤ 272) }
    ensures { Replied (block_reply (block_of m n (equations_of n lines.now))) out.old out.new result }
{
    let mut numbers = [0u32; ROOM];
    let block = solve_into(m, n, lines, &mut numbers);
    give_block(block.head, &numbers[..block.len], out)
}

// A safe of rows times columns locks with these values, as words: the first turns that bring all locks to 0.
#[unsafe(no_mangle)]
pub extern "C" fn milebadger_safe(
    m: u32,
    rows: u32,
    columns: u32,
    values: &[u32],
    out: &mut [u32],
) -> i64
    ensures value { result ≡ turned_result (turned_of m rows columns values.now out.old) }
    ensures out_after { out.new ≡ buffer_after m rows columns values.now out.old }
{
    match solve_safe(m, rows, columns, values, out) {
        Ok(Some(words)) => words as i64,
        Ok(None) => 0,
        Err(refusal) => refuse(refusal),
    }
}

// A sheet for a wanted answer: at most n equations mod m that just the vectors of a claim solve, as words that an add takes.
#[unsafe(no_mangle)]
pub extern "C" fn milebadger_sheet_for(m: u32, n: u32, claim: &[u32], out: &mut [u32]) -> i64
    ensures value { result ≡ counted_result (made_of m n claim.now out.old) }
    ensures out_after { out.new ≡ sheet_after m n claim.now out.old }
{
    counted(sheet_for(m, n, claim, out))
}

// A tape of calls from a fresh sheet: its lines. Where they do not all fit, nothing is written.
#[unsafe(no_mangle)]
pub extern "C" fn milebadger_tape(tape: &[u8], out: &mut [u8]) -> i64
    ensures { Replied (tape_reply tape.now) out.old out.new result }
{
    if tape.len() > LARGEST {
        return refuse(Refusal::Tape);
    }
    let size = count(tape);
    if out.len() < size {
        return refuse(Refusal::Buffer);
    }
    write(tape, out);
    size as i64
}
