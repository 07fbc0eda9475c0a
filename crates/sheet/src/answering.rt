// The answer to a sheet's equations: as a block of words, or as its numbers.
ghost use Rattle.std.specs.Prelude.{◌≡◌, T};
ghost use Rattle.questions.specs.Refusals.{by_number};
ghost use Rattle.system.specs.Block.{answer_from};
ghost use Rattle.system.specs.Lines.{line_block};
ghost use Rattle.ledger.specs.Ledger.{is_opened, modulus_of, unknowns_of, lines_in};
ghost use Rattle.sheet.specs.Record.{ledger_of};
ghost use Rattle.sheet.specs.Calls.{answered_of, buffer_after, shown_of};
ghost use Rattle.sheet.specs.View.{ledger_in};

use crate::Sheet;
use crate::viewing::View;
use asking::queries::answer_word_refusal;
use blocks::{block_room, write_block};
use questions::{Refusal, ask};
use system::solving::{Answer, solve};

impl Sheet {
    // Head, starting vector and steps, or head and multipliers, at the front of the buffer: how many memory words they are.
    pub fn answer(sheet: &[u32; Sheet::SIZE], buffer: &mut [u32]) -> Result<usize, Refusal>
        ensures value { by_number result ≡ answered_of (ledger_of sheet.now) buffer.old }
        ensures buffer_after { buffer.new ≡ buffer_after (ledger_of sheet.now) buffer.old }
    {
        let seen = Sheet::seen(sheet);
        ask(seen.opened, Refusal::Unopened)?;
        let block = View { sheet, seen }.block();
        let numbers = &block.numbers[..block.len];
        let room = block_room(seen.modulus, block.head, numbers);
        ask(room <= buffer.len(), Refusal::Buffer)?;
        Ok(write_block(block.head, seen.unknowns, numbers, buffer))
    }

    // An answer from tape, with its word's number: the numbers of the block.
    pub fn answer_from_tape(sheet: &[u32; Sheet::SIZE], number: u32) -> Result<Answer, Refusal>
        ensures { by_number result ≡ shown_of (ledger_of sheet.now) number }
    {
        let seen = Sheet::seen(sheet);
        answer_word_refusal(seen, number)?;
        Ok(View { sheet, seen }.block())
    }
}

impl View<'_> {
    // The block that answers the lines.
    fn block(&self) -> Answer
        requires { T (is_opened (ledger_in self.now)) }
        ensures { result ≡ answer_from (line_block (modulus_of (ledger_in self.now)) (unknowns_of (ledger_in self.now))
            (lines_in (ledger_in self.now))) }
    {
        let seen = self.seen;
        solve(seen.modulus, seen.unknowns, self.lines())
    }
}
