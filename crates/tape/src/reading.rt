// The words of the first call on the rest of a tape: how much memory they take is seen word by word.
ghost use Rattle.std.specs.Prelude.{◌≡◌, ◌*◌, ◌≤◌, length, take};
ghost use Rattle.words.specs.Fronts.{first_word, front};
ghost use Rattle.ledger.specs.Block.{longest_block};
ghost use Rattle.tape.specs.Bytes.{words_on};

use crate::bytes::words;
use system::limits::BLOCK;
use words::unpacking::{Word, first_at, front_length};

// Memory enough for the words of any call.
pub(crate) const CALL_MEMORY: usize = 2 * BLOCK;

// The first word. Two memory words are enough to see it.
pub(crate) fn first_word(rest: &[u8]) -> Word
    requires { 4 ≤ length rest.now }
    ensures { result ≡ first_word (words_on rest.now) }
{
    let mut memory = [0u32; 2];
    let count = (rest.len() / 4).min(2);
    words(rest, count, &mut memory);
    let first = first_at(&memory[..count], 0);
    first.word
}

// The memory of so many words, or of all that there are, at the front of `taken`; how much it is. Twice as many memory words are enough to see them.
pub(crate) fn take_words(rest: &[u8], wanted: usize, taken: &mut [u32]) -> usize
    requires { (wanted ≤ longest_block) × (length taken.old ≡ 2 * longest_block) }
    ensures value { (result ≡ length (front wanted (words_on rest.now))) × (result ≤ 2 * longest_block) }
    ensures taken_after { take result taken.new ≡ front wanted (words_on rest.now) }
{
    let count = (rest.len() / 4).min(2 * wanted);
    words(rest, count, taken);
    front_length(&taken[..count], wanted)
}
