// Words whose kind may have a minus sign, and the residues of their numbers.
ghost use Rattle.std.specs.Prelude.{◌≡◌, ◌<◌, min, length, take};
ghost use Rattle.slices.specs.Over.{over};
ghost use Rattle.words.specs.Words.{words_in};
ghost use Rattle.words.specs.Signs.{has_minus, without_minus, whole_of, plain_of, plain_kinds_of, residues_of};

use crate::kinds::{COEFFICIENT, MINUS_COEFFICIENT, MINUS_RIGHT, RIGHT};
use crate::unpacking::{Word, read_into};
use residue::modular::residue;

fn has_minus(kind: u32) -> bool
    ensures { result ≡ has_minus kind }
{
    matches!(kind, MINUS_COEFFICIENT | MINUS_RIGHT)
}

// The kind in whose place a kind may stand. No `From`: a kind is a number.
fn without_minus(kind: u32) -> u32
    ensures { result ≡ without_minus kind }
{
    match kind {
        MINUS_COEFFICIENT => COEFFICIENT,
        MINUS_RIGHT => RIGHT,
        _ => kind,
    }
}

// The number of a word, with its sign.
fn whole(word: Word) -> i64
    ensures { result ≡ whole_of word }
{
    let number = i64::from(word.number);
    if has_minus(word.kind) {
        -number
    } else {
        number
    }
}

// A word without its sign, its number the residue.
fn plain(word: Word, m: u32) -> Word
    requires { 0 < m }
    ensures { result ≡ plain_of m word }
{
    Word {
        kind: without_minus(word.kind),
        number: residue(whole(word), m),
    }
}

// The kinds without their signs and the residues of the words that lie in memory, as many as there is room for; how many they are. Two
// slices, as in `unpack_into`: callers hand kinds and residues on apart.
pub fn residues_into(memory: &[u32], m: u32, kinds: &mut [u32], residues: &mut [u32]) -> usize
    requires { (length kinds.old ≡ length residues.old) × (0 < m) }
    ensures value { result ≡ min (length kinds.old) (length (words_in memory.now)) }
    ensures kinds_after { kinds.new
        ≡ over (take (length kinds.old) (plain_kinds_of (words_in memory.now))) kinds.old }
    ensures residues_after { residues.new
        ≡ over (take (length kinds.old) (residues_of m (words_in memory.now))) residues.old }
{
    read_into(memory, kinds, residues, |word| plain(word, m))
}
