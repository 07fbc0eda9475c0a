// The claims of a class, which lie one after another in words.
ghost use Rattle.std.specs.Prelude.{◌≡◌, List, ℕ, ◌*◌, ◌<◌, ◌≤◌, min, length};
ghost use Rattle.std.specs.Iterator.{YieldsFirstRef, item_count};
ghost use Rattle.questions.specs.Refusals.{refused_with};
ghost use Rattle.ledger.specs.Ledger.{Ledger, most_unknowns};
ghost use Rattle.ledger.specs.Block.{longest_block};
ghost use Rattle.ledger.specs.Classes.{claim_words, first_claim, claims_in};
ghost use Rattle.ledger.specs.Calls.{classes, queries};
ghost use Rattle.ledger.specs.Questions.{refusal_of};
ghost use Rattle.asking.specs.Sees.{Sees, counted_claims};

use crate::Seen;
use crate::queries::claim_length;
use questions::{Refusal, ask};
use words::kinds::HEAD;
use words::unpacking::{Word, first_at, front_length};

// "up to 64 claims"
const CLAIMS: usize = 64;

// How many words a claim takes by its first one.
fn claim_words(first: Word, n: usize) -> usize
    requires { n ≤ most_unknowns }
    ensures { (result ≡ claim_words n first) × (result ≤ longest_block) }
{
    if first.kind != HEAD {
        return 1;
    }
    claim_length(first.number, n)
}

// How much memory the first claim takes: all that remains, where it is cut short.
pub fn first_claim(words: &[u32], n: usize) -> usize
    requires { (0 < length words.now) × (n ≤ most_unknowns) }
    ensures { (result ≡ length (first_claim n words.now)) × (result ≤ 2 * longest_block) }
{
    let first = first_at(words, 0);
    let count = claim_words(first.word, n);
    front_length(words, count)
}

// The claims that lie in words, one after the other.
#[derive(Drop)]
struct EachClaim<'a> {
    words: &'a [u32],
    n: usize,
}

impl<'a> Iterator for EachClaim<'a> {
    type Item = &'a [u32];

    ghost can_next = { λ s. s.n ≤ most_unknowns };

    ghost next_gives = { YieldsFirstRef (λ s. claims_in s.n s.words.now) };

    ghost remaining = { item_count (λ s. claims_in s.n s.words.now) };

    fn next(&mut self) -> Option<&'a [u32]> {
        if self.words.len() == 0 {
            return None;
        }
        let used = first_claim(self.words, self.n);
        let (first, others) = self.words.split_at(used);
        self.words = others;
        Some(first)
    }
}

// How many claims there are. One too many is enough to refuse them: those behind it are not counted.
pub fn claims(words: &[u32], n: usize) -> usize
    requires { n ≤ most_unknowns }
    ensures { result ≡ min counted_claims (length (claims_in n words.now)) }
{
    EachClaim { words, n }.take(CLAIMS + 1).count()
}

// For so many claims, and room for so many marks.
pub fn class_refusal(seen: Seen, claims: usize, room: usize) -> Result<(), Refusal>
    ensures { (l : Ledger) (ws marks : List ℕ) → Sees l seen
        → claims ≡ min counted_claims (length (claims_in seen.unknowns ws)) → room ≡ length marks
        → refused_with result ≡ refusal_of l (queries (classes ws marks)) }
{
    ask(seen.opened, Refusal::Unopened)?;
    ask(claims <= CLAIMS, Refusal::Claims)?;
    ask(claims <= room, Refusal::Buffer)
}
