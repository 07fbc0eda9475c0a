// Lines of text: a word, and numbers in decimal behind it.
ghost use Rattle.std.specs.Prelude.{◌≡◌, ◌∷◌, ◌+◌, ◌*◌, ◌<◌, ◌≤◌, length};
ghost use Rattle.slices.specs.Over.{over};
ghost use Rattle.tape.specs.Text.{decimal, spaced, line_of};

use residue::division::divide;
use slices::copying::copy;

const SPACE: u8 = b' ';

const NEWLINE: u8 = b'\n';

fn digit(x: u32) -> u8
    requires { x < 10 }
    ensures { result ≡ 48 + x }
{
    b'0' + x as u8
}

// A number in decimal: the number without its last digit, and that digit behind it; how many digits there are. (std's `write!` to a
// slice says how many bytes it took and not which stand there, and wants an answer for its error: no plainer with a writer of our own.)
fn decimal_into(x: u32, out: &mut [u8]) -> usize
    requires { length (decimal x) ≤ length out.old }
    ensures value { result ≡ length (decimal x) }
    ensures out_after { out.new ≡ over (decimal x) out.old }
{
    if x < 10 {
        out[0] = digit(x);
        return 1;
    }
    let tens = divide(x, 10);
    let at = decimal_into(tens.quotient, out);
    out[at] = digit(tens.remainder);
    at + 1
}

// A space and a number of at most ten digits; how many bytes they are.
fn spaced_number(x: u32, out: &mut [u8]) -> usize
    requires { 11 ≤ length out.old }
    ensures value { (result ≡ length (32 ∷ decimal x)) × (result ≤ 11) }
    ensures out_after { out.new ≡ over (32 ∷ decimal x) out.old }
{
    out[0] = SPACE;
    let digits = decimal_into(x, &mut out[1..]);
    digits + 1
}

// The numbers, each behind a space; how many bytes they are.
fn numbers_into(numbers: &[u32], out: &mut [u8]) -> usize
    requires { 11 * length numbers.now ≤ length out.old }
    ensures value { (result ≡ length (spaced numbers.now)) × (result ≤ 11 * length numbers.now) }
    ensures out_after { out.new ≡ over (spaced numbers.now) out.old }
{
    let mut at = 0;
    for x in numbers {
        at += spaced_number(*x, &mut out[at..]);
    }
    at
}

// A line at the front of out; how many bytes it has.
pub(crate) fn line(name: &[u8], numbers: &[u32], out: &mut [u8]) -> usize
    requires { length name.now + 11 * length numbers.now + 1 ≤ length out.old }
    ensures value { (result ≡ length (line_of name.now numbers.now))
        × (result ≤ length name.now + 11 * length numbers.now + 1) }
    ensures out_after { out.new ≡ over (line_of name.now numbers.now) out.old }
{
    copy(name, out);
    let start = name.len();
    let written = numbers_into(numbers, &mut out[start..]);
    let end = start + written;
    out[end] = NEWLINE;
    end + 1
}
