// The words of an answer block, written to lent memory.
#![tactic(auto)]

ghost use Rattle.std.specs.Prelude.{◌≡◌, ◌∷◌, ◌<◌, ◌≤◌, length};
ghost use Rattle.slices.specs.Over.{over};
ghost use Rattle.words.specs.Words.{words_of, entry_kind};
ghost use Rattle.ledger.specs.Shapes.{largest_head};
ghost use Rattle.ledger.specs.Block.{block_words, counts_for, block_room};

use words::kinds::{ENTRY, HEAD, MULTIPLIER};
use words::unpacking::NUMBERS;
use words::writing::{word, write, written_length};

// How many words a multiplier counts for question 8, and an entry beside a reason.
pub fn counts_for(m: u32) -> usize
    ensures { (result ≡ counts_for m) × (result ≤ 2) }
{
    if m > NUMBERS {
        return 2;
    }
    1
}

// How much room question 8 asks for: a block's entries count as they are written, its multipliers by the modulus.
pub fn block_room(m: u32, head: u32, numbers: &[u32]) -> usize
    ensures { result ≡ block_room m (head ∷ numbers.now) }
{
    if head == 0 {
        return 1 + numbers.len() * counts_for(m);
    }
    1 + written_length(numbers)
}

// A head with the numbers behind it, as words at the front of the buffer; how many memory words they take.
pub fn write_block(head: u32, n: usize, numbers: &[u32], buffer: &mut [u32]) -> usize
    requires { (head ≤ largest_head) × (0 < head → n ≤ length numbers.now) × (length (block_words (head ∷ numbers.now)) ≤ length buffer.old) }
    ensures value { result ≡ length (block_words (head ∷ numbers.now)) }
    ensures buffer_after { buffer.new ≡ over (block_words (head ∷ numbers.now)) buffer.old }
{
    buffer[0] = word(HEAD, head);
    if head == 0 {
        return 1 + write(MULTIPLIER, numbers, &mut buffer[1..]);
    }
    1 + write_vectors(n, numbers, &mut buffer[1..])
}

// The starting vector, and the steps in the part behind it. The paper asks for this form: "the buffer's part behind the starting
// vector lent on to the writer of the steps", though one call of `write` would do.
fn write_vectors(n: usize, numbers: &[u32], out: &mut [u32]) -> usize
    requires { (n ≤ length numbers.now) × (length (words_of entry_kind numbers.now) ≤ length out.old) }
    ensures value { result ≡ length (words_of entry_kind numbers.now) }
    ensures out_after { out.new ≡ over (words_of entry_kind numbers.now) out.old }
{
    let start = write(ENTRY, &numbers[..n], out);
    start + write_steps(&numbers[n..], &mut out[start..])
}

fn write_steps(steps: &[u32], behind: &mut [u32]) -> usize
    requires { length (words_of entry_kind steps.now) ≤ length behind.old }
    ensures value { result ≡ length (words_of entry_kind steps.now) }
    ensures behind_after { behind.new ≡ over (words_of entry_kind steps.now) behind.old }
{
    write(ENTRY, steps, behind)
}
