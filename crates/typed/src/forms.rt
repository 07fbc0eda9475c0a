// Linear forms mod m, and what the signs of a text make of them.
ghost use Rattle.std.specs.Prelude.{◌≡◌, ◌&&◌, ◌+◌, ◌*◌, ◌%◌, ◌-◌, ◌≤◌, ◌<◌};
ghost use Rattle.equations.specs.Lines.{equation_at};
ghost use Rattle.equations.specs.Vectors.{combine};
ghost use Rattle.grammar.specs.Grammar.{largest_unknown};
ghost use Rattle.grammar.specs.Model.Reader.{joined};
ghost use Rattle.typed.specs.Model.Forms.{forms, zero_form, number_form, unknown_form, added_form, product_form, forms_equation};

use residue::modular::{combine, mul};
use std::array;

// "unknowns are x1 to x16"
pub(crate) const UNKNOWNS: usize = 16;

// The numbers of a line: a coefficient for each unknown, and the right side.
pub const LINE: usize = UNKNOWNS + 1;

// All that is kept of an expression: its coefficients and its plain number mod m, the number of its last unknown, and whether it is
// linear. A flag and no `Option` round the first two: the last unknown counts where it isn't linear too, since question 12 comes before 13,
// so `added`, `multiplied` and `line_of` would match on both sides and be spared no case.
#[derive(Clone, Copy)]
pub struct Form {
    pub coefficients: [u32; UNKNOWNS],
    pub constant: u32,
    pub largest: u32,
    pub linear: bool,
}

// s·a + t·b mod m, entry by entry. Most entries are 0, and no remainder is taken of these.
fn combine_all(s: u32, a: &[u32; UNKNOWNS], t: u32, b: &[u32; UNKNOWNS], m: u32) -> [u32; UNKNOWNS]
    requires { 0 < m }
    ensures { result ≡ combine m s t a.now b.now }
{
    array::from_fn(|j| combine_entry(s, a[j], t, b[j], m))
}

fn combine_entry(s: u32, a: u32, t: u32, b: u32, m: u32) -> u32
    requires { 0 < m }
    ensures { result ≡ (s * a + t * b) % m }
{
    match (a, b) {
        (0, 0) => 0,
        (0, _) => mul(t, b, m),
        (_, 0) => mul(s, a, m),
        _ => combine(s, a, t, b, m),
    }
}

// The form of 0.
pub(crate) fn zero() -> Form
    ensures { result ≡ zero_form largest_unknown }
{
    Form {
        coefficients: [0; UNKNOWNS],
        constant: 0,
        largest: 0,
        linear: true,
    }
}

pub(crate) fn number_form(k: u32, m: u32) -> Form
    requires { 0 < m }
    ensures { result ≡ number_form m largest_unknown k }
{
    Form {
        constant: k % m,
        ..zero()
    }
}

// The form of the unknown with this number: x1 is the first.
pub(crate) fn unknown_form(number: u32) -> Form
    requires { (1 ≤ number) × (number ≤ largest_unknown) }
    ensures { result ≡ unknown_form largest_unknown (number - 1) }
{
    let mut coefficients = [0; UNKNOWNS];
    coefficients[number as usize - 1] = 1;
    Form {
        coefficients,
        largest: number,
        ..zero()
    }
}

// a + t·b: the sum for t = 1, the difference for t = m - 1.
fn added(a: &Form, t: u32, b: &Form, m: u32) -> Form
    requires { 0 < m }
    ensures { result ≡ added_form m t a.now b.now }
{
    Form {
        coefficients: combine_all(1, &a.coefficients, t, &b.coefficients, m),
        constant: combine(1, a.constant, t, b.constant, m),
        largest: a.largest.max(b.largest),
        linear: a.linear && b.linear,
    }
}

// What `+` or `-` makes of two forms.
pub(crate) fn joined(sign: u8, a: &Form, b: &Form, m: u32) -> Form
    requires { 0 < m }
    ensures { result ≡ joined (forms m largest_unknown) sign a.now b.now }
{
    if sign == b'+' {
        return added(a, 1, b, m);
    }
    added(a, m - 1, b, m)
}

// Of a linear product one side is a number, and the other is multiplied by it.
pub(crate) fn multiplied(a: &Form, b: &Form, m: u32) -> Form
    requires { 0 < m }
    ensures { result ≡ product_form m a.now b.now }
{
    let unknowns = 0 < a.largest && 0 < b.largest;
    let largest = a.largest.max(b.largest);
    Form {
        coefficients: combine_all(a.constant, &b.coefficients, b.constant, &a.coefficients, m),
        constant: mul(a.constant, b.constant, m),
        largest,
        linear: a.linear && b.linear && !unknowns,
    }
}

// The equation of two sides, as a line: n coefficients, brought to the left, and the plain number, brought to the right.
pub(crate) fn line_of(a: &Form, b: &Form, m: u32, n: usize) -> [u32; LINE]
    requires { (0 < m) × (n ≤ largest_unknown) }
    ensures { equation_at n result ≡ forms_equation m n a.now b.now }
{
    let coefficients = combine_all(1, &a.coefficients, m - 1, &b.coefficients, m);
    let mut line = [0; LINE];
    line[..n].copy_from_slice(&coefficients[..n]);
    line[n] = combine(1, b.constant, m - 1, a.constant, m);
    line
}
