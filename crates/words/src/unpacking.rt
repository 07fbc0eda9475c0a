// Words out of memory. This is the one place that knows how a word lies there: most take one memory word, and those with a number of more than
// 28 bits two, the first of which carries the number's top.
ghost use Rattle.std.specs.Prelude.{◌≡◌, true, ◌<◌, min, length, take, drop, map};
ghost use Rattle.words.specs.declared.unpacking.Word.{Word};
ghost use Rattle.std.specs.Iterator.{YieldsFirst, item_count};
ghost use Rattle.slices.specs.Over.{over};
ghost use Rattle.words.specs.Words.{word_of, takes_top, joined, words_in, tops_fit, kinds_of, numbers_of};
ghost use Rattle.words.specs.Words.{carries};
ghost use Rattle.words.specs.Fronts.{first_word, first_length, front_length};

use crate::kinds::{
    COEFFICIENT, ENTRY, MINUS_COEFFICIENT, MINUS_RIGHT, MODULUS, MULTIPLIER, OWN_MODULUS, RIGHT,
    TOP,
};
use residue::division::divide;

// 2^28: the kind stands above it, the number below.
pub const NUMBERS: u32 = 268435456;

// The largest number that a word of kind 13 may have: 4 bits.
const LARGEST_TOP: u32 = 15;

#[derive(Clone, Copy, PartialEq, Eq, Debug)]
pub struct Word {
    pub kind: u32,
    pub number: u32,
}

// A word, and how many memory words it takes.
#[derive(Clone, Copy)]
pub struct Taken {
    pub word: Word,
    pub length: usize,
}

// One memory word by itself.
pub fn unpack(word: u32) -> Word
    ensures { result ≡ word_of word }
{
    let parts = divide(word, NUMBERS);
    Word {
        kind: parts.quotient,
        number: parts.remainder,
    }
}

// Whether the number of a word of this kind may have a top.
fn takes_top(kind: u32) -> bool
    ensures { result ≡ takes_top kind }
{
    matches!(
        kind,
        MODULUS
            | COEFFICIENT
            | RIGHT
            | ENTRY
            | MULTIPLIER
            | MINUS_COEFFICIENT
            | MINUS_RIGHT
            | OWN_MODULUS
    )
}

// Whether the first memory word carries the top of the second one's number.
#[tactic(auto, unfolding(crate::specs::Words::carries))]
fn carries(first: u32, second: u32) -> bool
    ensures { result ≡ carries first second }
{
    let top = unpack(first);
    top.kind == TOP
        && 1 <= top.number
        && top.number <= LARGEST_TOP
        && takes_top(unpack(second).kind)
}

// The word that two memory words are, the first with the top of its number.
fn join(first: u32, second: u32) -> Word
    requires { carries first second ≡ true }
    ensures { result ≡ joined first second }
{
    let top = unpack(first);
    let low = unpack(second);
    Word {
        kind: low.kind,
        number: top.number * NUMBERS + low.number,
    }
}

// The first of the words that lie from a place on. Most are one memory word, and then no other is looked at.
pub fn first_at(memory: &[u32], at: usize) -> Taken
    requires { at < length memory.now }
    ensures word_value { result.word ≡ first_word (drop at memory.now) }
    ensures length_value { result.length ≡ first_length (drop at memory.now) }
{
    let word = unpack(memory[at]);
    if word.kind == TOP {
        return top_at(memory, at);
    }
    Taken { word, length: 1 }
}

// The same, where the memory word there may carry the top of the next one.
fn top_at(memory: &[u32], at: usize) -> Taken
    requires { at < length memory.now }
    ensures word_value { result.word ≡ first_word (drop at memory.now) }
    ensures length_value { result.length ≡ first_length (drop at memory.now) }
{
    let first = memory[at];
    match memory.get(at + 1) {
        Some(second) if carries(first, *second) => Taken {
            word: join(first, *second),
            length: 2,
        },
        _ => Taken {
            word: unpack(first),
            length: 1,
        },
    }
}

// The words that lie in memory, one after the other.
#[derive(Drop)]
pub struct Words<'a> {
    pub memory: &'a [u32],
}

impl<'a> Iterator for Words<'a> {
    type Item = Word;

    ghost next_gives = { YieldsFirst (λ s. words_in s.memory.now) };

    ghost remaining = { item_count (λ s. words_in s.memory.now) };

    fn next(&mut self) -> Option<Word> {
        if self.memory.len() == 0 {
            return None;
        }
        let first = first_at(self.memory, 0);
        self.memory = &self.memory[first.length..];
        Some(first.word)
    }
}

// Whether every word of kind 13 is part of another word.
pub fn tops_fit(memory: &[u32]) -> bool
    ensures { result ≡ tops_fit (words_in memory.now) }
{
    Words { memory }.all(|word| word.kind != TOP)
}

// How much memory the first `count` words take; all of it, where there are fewer. It counts memory, where `Words` gives words.
pub fn front_length(memory: &[u32], count: usize) -> usize
    ensures { result ≡ front_length count memory.now }
{
    let mut at: usize = 0;
    for _ in 0..count {
        if at >= memory.len() {
            return at;
        }
        at += first_at(memory, at).length;
    }
    at
}

// The kinds and the numbers of the words that lie in memory, as many as there is room for; how many they are. Two slices and no slice of
// words: callers hand kinds and numbers on apart (docs/CONTRACTS.md names this call).
pub fn unpack_into(memory: &[u32], kinds: &mut [u32], numbers: &mut [u32]) -> usize
    requires { length kinds.old ≡ length numbers.old }
    ensures value { result ≡ min (length kinds.old) (length (words_in memory.now)) }
    ensures kinds_after { kinds.new
        ≡ over (take (length kinds.old) (kinds_of (words_in memory.now))) kinds.old }
    ensures numbers_after { numbers.new
        ≡ over (take (length kinds.old) (numbers_of (words_in memory.now))) numbers.old }
{
    read_into(memory, kinds, numbers, |word| word)
}

// What is read of each word, as many as there is room for: its kind to one place, its number to the other. The words are counted beside the
// `for`, since the call gives back how many they were, which `enumerate` doesn't say at its end; and of what is written through `iter_mut`
// and `zip` a proof knows the length alone. Two slices, as both callers lend them.
pub(crate) fn read_into<F: Fn(Word) -> Word>(
    memory: &[u32],
    kinds: &mut [u32],
    numbers: &mut [u32],
    read: F,
) -> usize
    requires callable { F.IsAlwaysCallable read }
    requires room { length kinds.old ≡ length numbers.old }
    ensures value { result ≡ min (length kinds.old) (length (words_in memory.now)) }
    ensures kinds_after { (part : Word → Word) → ((w r : Word) → F.post read w r → r ≡ part w)
        → kinds.new ≡ over (take (length kinds.old) (map (λ (w : Word). (part w).kind) (words_in memory.now))) kinds.old }
    ensures numbers_after { (part : Word → Word) → ((w r : Word) → F.post read w r → r ≡ part w)
        → numbers.new ≡ over (take (length kinds.old) (map (λ (w : Word). (part w).number) (words_in memory.now))) numbers.old }
{
    let mut count: usize = 0;
    for word in (Words { memory }).take(kinds.len()) {
        let said = read(word);
        kinds[count] = said.kind;
        numbers[count] = said.number;
        count += 1;
    }
    count
}
