// Marking a student's claim about a sheet's equations.
ghost use Rattle.std.specs.Prelude.{◌≡◌};
ghost use Rattle.questions.specs.Refusals.{by_number};
ghost use Rattle.sheet.specs.Record.{ledger_of};
ghost use Rattle.sheet.specs.Calls.{marked_of};
ghost use Rattle.sheet.specs.View.{ledger_in, ReadyFor};

use crate::viewing::View;
use crate::{Sheet, wide};
use asking::queries::{CLAIM_ROOM, mark_refusal};
use equations::Mark;
use questions::Refusal;
use system::limits::BASIS;
use system::marking::mark as mark_entries;

impl Sheet {
    pub fn mark(sheet: &[u32; Sheet::SIZE], words: &[u32]) -> Result<Mark, Refusal>
        ensures { by_number result ≡ marked_of (ledger_of sheet.now) words.now }
    {
        let seen = Sheet::seen(sheet);
        let mut rows = [0u32; BASIS];
        View { sheet, seen }.mark_claim(&mut rows, words)
    }
}

impl View<'_> {
    ghost use Rattle.std.specs.Prelude.{IfOk};
    ghost use Rattle.questions.specs.Refusals.{refused_with};
    ghost use Rattle.words.specs.Words.{words_in};
    ghost use Rattle.ledger.specs.Shapes.{entries_of};
    ghost use Rattle.ledger.specs.Calls.{marks, queries};
    ghost use Rattle.ledger.specs.Questions.{refusal_of};

    // The entries of a claim in words, so many times n as the head says: they stand behind the head in the memory that is lent.
    pub(crate) fn entries<'n>(
        &self,
        words: &[u32],
        numbers: &'n mut [u32; CLAIM_ROOM],
    ) -> Result<&'n [u32], Refusal>
        ensures refusal_value { refused_with result ≡ refusal_of (ledger_in self.now) (queries (marks words.now)) }
        ensures entries_value { IfOk result (λ entries. entries.now ≡ entries_of (words_in words.now)) }
    {
        mark_refusal(self.seen, words, numbers)?;
        let end = wide(numbers[0]) * self.seen.unknowns + 1;
        Ok(&numbers[1..end])
    }

    // The entries are marked. `rows` keeps what the equations alone decide for the next claim.
    pub(crate) fn mark_claim(&self, rows: &mut [u32], words: &[u32]) -> Result<Mark, Refusal>
        requires { ReadyFor self.now rows.old }
        ensures value { by_number result ≡ marked_of (ledger_in self.now) words.now }
        ensures ready { ReadyFor self.now rows.new }
    {
        let mut numbers = [0u32; CLAIM_ROOM];
        let entries = self.entries(words, &mut numbers)?;
        let seen = self.seen;
        let mark = mark_entries(seen.modulus, seen.unknowns, self.lines(), rows, entries);
        Ok(mark)
    }
}
