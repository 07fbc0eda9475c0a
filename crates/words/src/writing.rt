// Words into memory.
ghost use Rattle.std.specs.Prelude.{◌≡◌, ℕ, ◌<◌, ◌≤◌, length};
ghost use Rattle.slices.specs.Over.{over};
ghost use Rattle.words.specs.Words.{numbers_of_a_kind, words_for, words_of};
ghost use Rattle.words.specs.Words.{word as word_of};

use crate::kinds::TOP;
use crate::unpacking::{NUMBERS, unpack};

pub fn word(kind: u32, number: u32) -> u32
    requires { (kind < 16) × (number < numbers_of_a_kind) }
    ensures { result ≡ word_of kind number }
{
    kind * NUMBERS + number
}

// How many memory words a number takes.
#[tactic(auto, unfolding(crate::specs::Words::words_for))]
fn length_for(number: u32) -> usize
    ensures { (kind : ℕ) → result ≡ length (words_for kind number) }
{
    if number < NUMBERS { 1 } else { 2 }
}

// How many memory words these numbers take.
pub fn written_length(numbers: &[u32]) -> usize
    ensures { (kind : ℕ) → result ≡ length (words_of kind numbers.now) }
{
    numbers.iter().map(|number| length_for(*number)).sum()
}

// A word of this kind with this number, at the front of out; how many memory words it takes. A number of 32 bits comes apart into its top and
// the rest as a word does into its kind and its number.
#[tactic(auto, unfolding(crate::specs::Words::words_for))]
fn write_one(kind: u32, number: u32, out: &mut [u32]) -> usize
    requires { (kind < 16) × (length (words_for kind number) ≤ length out.old) }
    ensures value { result ≡ length (words_for kind number) }
    ensures out_after { out.new ≡ over (words_for kind number) out.old }
{
    if number >= NUMBERS {
        let parts = unpack(number);
        out[0] = word(TOP, parts.kind);
        out[1] = word(kind, parts.number);
        return 2;
    }
    out[0] = word(kind, number);
    1
}

// Words of one kind with these numbers, at the front of out; how many memory words they take.
pub fn write(kind: u32, numbers: &[u32], out: &mut [u32]) -> usize
    requires { (kind < 16) × (length (words_of kind numbers.now) ≤ length out.old) }
    ensures value { result ≡ length (words_of kind numbers.now) }
    ensures out_after { out.new ≡ over (words_of kind numbers.now) out.old }
{
    let mut at: usize = 0;
    for number in numbers {
        let written = write_one(kind, *number, &mut out[at..]);
        at += written;
    }
    at
}
