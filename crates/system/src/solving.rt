// The answer to a list of equations in n unknowns mod m.
ghost use Rattle.std.specs.Prelude.{◌≡◌, ◌+◌, ◌*◌, ◌≤◌, length};
ghost use Rattle.slices.specs.Over.{over};
ghost use Rattle.equations.specs.Lines.{equations_of};
ghost use Rattle.system.specs.Block.{behind_head, written_of, answer_of};
ghost use Rattle.system.specs.Posed.{Posed};

use crate::asked::System;
use crate::limits::ENTRIES;

// An answer block: its head, and behind it the first len of the numbers. The others are zeros. There is no heap: an array, and how much of
// it counts.
#[derive(Clone, Copy)]
pub struct Answer {
    pub head: u32,
    pub len: usize,
    pub numbers: [u32; ENTRIES],
}

pub fn solve(m: u32, n: usize, lines: &[u32]) -> Answer
    requires { Posed m n lines.now }
    ensures { result ≡ answer_of m n (equations_of n lines.now) }
{
    let mut numbers = [0u32; ENTRIES];
    let written = solve_into(m, n, lines, &mut numbers);
    Answer {
        head: written.head,
        len: written.len,
        numbers,
    }
}

// A block whose numbers lie in lent memory: its head, and how many they are. `written_of`, by which `solve_into` is promised, has these two
// fields; there is no heap for the numbers themselves.
#[derive(Clone, Copy)]
pub struct Written {
    pub head: u32,
    pub len: usize,
}

// The same with the numbers at the front of lent memory, which can be small where there are few unknowns; what stands behind them
// is left alone. The first run carries no columns: multipliers are computed only where nothing solves the equations.
pub fn solve_into(m: u32, n: usize, lines: &[u32], numbers: &mut [u32]) -> Written
    requires { Posed m n lines.now × (n + n * n ≤ length numbers.old) × (16 ≤ length numbers.old) }
    ensures value { result ≡ written_of m n (equations_of n lines.now) }
    ensures numbers_after { numbers.new ≡ over (behind_head m n (equations_of n lines.now)) numbers.old }
{
    let system = System { m, n, lines };
    let Some(vectors) = system.solution(numbers) else {
        let len = system.refutation(numbers);
        return Written { head: 0, len };
    };
    let head = vectors as u32;
    let len = vectors * n;
    Written { head, len }
}
