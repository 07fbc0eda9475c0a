// Marking a class: the claims of many students about a sheet's equations.
ghost use Rattle.std.specs.Prelude.{◌≡◌, ◌≤◌, length};
ghost use Rattle.slices.specs.Over.{over};
ghost use Rattle.questions.specs.Refusals.{by_number};
ghost use Rattle.sheet.specs.Record.{ledger_of};
ghost use Rattle.sheet.specs.Calls.{marked_of, mark_byte, claims_of, class_bytes, classed_of, marks_after};
ghost use Rattle.sheet.specs.View.{ledger_in, ReadyFor};

use crate::Sheet;
use crate::viewing::View;
use asking::classes::{claims, class_refusal, first_claim};
use questions::Refusal;
use system::limits::BASIS;

// "the refusal number plus 100"
const REFUSED: u32 = 100;

impl Sheet {
    // A byte for each claim, at the front of the marks: how many claims were marked.
    pub fn class(
        sheet: &[u32; Sheet::SIZE],
        words: &[u32],
        marks: &mut [u8],
    ) -> Result<usize, Refusal>
        ensures value { by_number result ≡ classed_of (ledger_of sheet.now) words.now marks.old }
        ensures marks_after { marks.new ≡ marks_after (ledger_of sheet.now) words.now marks.old }
    {
        let seen = Sheet::seen(sheet);
        let count = claims(words, seen.unknowns);
        class_refusal(seen, count, marks.len())?;
        View { sheet, seen }.mark_all(words, marks);
        Ok(count)
    }
}

impl View<'_> {
    // One claim after the other. What the equations alone decide is computed for the first claim that asks for it, and kept for the others. The
    // `for` goes over the marks, so that the claims go beside it: by `first_claim`, which docs/CONTRACTS.md promises.
    fn mark_all(&self, words: &[u32], marks: &mut [u8])
        requires { length (claims_of (ledger_in self.now) words.now) ≤ length marks.old }
        ensures { marks.new ≡ over (class_bytes (ledger_in self.now) words.now) marks.old }
    {
        let n = self.seen.unknowns;
        let mut rows = [0u32; BASIS];
        let mut rest = words;
        for mark in marks.iter_mut() {
            if rest.is_empty() {
                return;
            }
            let used = first_claim(rest, n);
            *mark = self.byte_of(&mut rows, &rest[..used]);
            rest = &rest[used..];
        }
    }

    // The byte of one claim.
    fn byte_of(&self, rows: &mut [u32], words: &[u32]) -> u8
        requires { ReadyFor self.now rows.old }
        ensures value { result ≡ mark_byte (marked_of (ledger_in self.now) words.now) }
        ensures ready { ReadyFor self.now rows.new }
    {
        match self.mark_claim(rows, words) {
            Ok(mark) => u8::from(mark),
            Err(refusal) => (REFUSED + u32::from(refusal)) as u8,
        }
    }
}
