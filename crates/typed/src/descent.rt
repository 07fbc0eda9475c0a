// Readers of an expression, a term and a factor that call each other. They build no tree: each gives the linear form at once, and
// the text behind what it read, or `None` where what is looked for does not stand in front.
// No struct holds text and m: each call has another text, so each would make one, `term(Reader { text: rest, m })`, no plainer.
ghost use Rattle.std.specs.Prelude.{◌≡◌, ℕ, ◌<◌};
ghost use Rattle.grammar.specs.Grammar.{largest_unknown};
ghost use Rattle.grammar.specs.Model.Reader.{number_in, unknown_in, closed};
ghost use Rattle.typed.specs.Model.Forms.{forms};
ghost use Rattle.typed.specs.Model.Contract.{reading, Onwards, Expression, Sums, Term, Products, Factor};

use crate::forms::{Form, joined, multiplied, number_form, unknown_form, zero};
use crate::scan::{digits_of, is_sign, past_sign, past_spaces, peek};

// "Numbers have 1 to 5 decimal digits, zeros in front allowed".
fn number(text: &[u8], m: u32) -> Option<(Form, &[u8])>
    requires { 0 < m }
    ensures onwards { Onwards text.now result }
    ensures value { reading result ≡ number_in (forms m largest_unknown) text.now }
{
    let d = digits_of(text);
    if d.count < 1 {
        return None;
    }
    if 5 < d.count {
        return None;
    }
    Some((number_form(d.value, m), past_spaces(d.rest)))
}

// What stands behind an x: "unknowns are x1 to x16, without them", which is without zeros in front. With `number` it shares the calls of
// `digits_of` and `past_spaces` alone: that one asks how many digits there are, and this one what they make.
fn unknown(text: &[u8]) -> Option<(Form, &[u8])>
    ensures onwards { Onwards text.now result }
    ensures value { (m : ℕ) → reading result ≡ unknown_in (forms m largest_unknown) text.now }
{
    if peek(text) == b'0' {
        return None;
    }
    let d = digits_of(text);
    if d.value < 1 {
        return None;
    }
    if 16 < d.value {
        return None;
    }
    Some((unknown_form(d.value), past_spaces(d.rest)))
}

// The form of a bracketed expression, where the bracket closes.
fn close(form: Form, text: &[u8]) -> Option<(Form, &[u8])>
    ensures onwards { Onwards text.now result }
    ensures value { (m : ℕ) → reading result ≡ closed (forms m largest_unknown) form text.now }
{
    if peek(text) != b')' {
        return None;
    }
    Some((form, past_sign(text)))
}

// A term, and what follows it.
#[cycle(expression_factor_products_sums_term)]
pub(crate) fn expression(text: &[u8], m: u32) -> Option<(Form, &[u8])>
    requires { 0 < m }
    ensures onwards { Onwards text.now result }
    ensures expression { Expression text.now m result }
{
    let (a, rest) = term(text, m)?;
    sums(a, rest, m)
}

// What follows the expression a: a sign and a term, any number of times. Here and in `products` a `while` counts nothing: each reader lends
// what is left. The loop stands by itself, so that its forms take no stack in `expression`, which brackets call again and again.
// `expression` with `sums` and `term` with `products` are two pairs and not one with closures for the reader, the test and the joining: its
// contract would say for which texts the reader may be called, so that the measure falls, and what it gives there, and so be longer than both.
#[inline(never)]
#[cycle(expression_factor_products_sums_term)]
fn sums(mut a: Form, text: &[u8], m: u32) -> Option<(Form, &[u8])>
    requires { 0 < m }
    ensures onwards { Onwards text.now result }
    ensures sums { Sums text.now m a result }
{
    let mut rest = text;
    while is_sign(peek(rest)) {
        let sign = peek(rest);
        let (b, behind) = term(past_sign(rest), m)?;
        a = joined(sign, &a, &b, m);
        rest = behind;
    }
    Some((a, rest))
}

// A factor, and what follows it.
#[cycle(expression_factor_products_sums_term)]
fn term(text: &[u8], m: u32) -> Option<(Form, &[u8])>
    requires { 0 < m }
    ensures onwards { Onwards text.now result }
    ensures term { Term text.now m result }
{
    let (a, rest) = factor(text, m)?;
    products(a, rest, m)
}

// What follows the term a: a star and a factor, any number of times.
#[inline(never)]
#[cycle(expression_factor_products_sums_term)]
fn products(mut a: Form, text: &[u8], m: u32) -> Option<(Form, &[u8])>
    requires { 0 < m }
    ensures onwards { Onwards text.now result }
    ensures products { Products text.now m a result }
{
    let mut rest = text;
    while peek(rest) == b'*' {
        let (b, behind) = factor(past_sign(rest), m)?;
        a = multiplied(&a, &b, m);
        rest = behind;
    }
    Some((a, rest))
}

// A bracketed expression, a minus before a factor, which is 0 less that factor, an unknown, or a number.
#[cycle(expression_factor_products_sums_term)]
fn factor(text: &[u8], m: u32) -> Option<(Form, &[u8])>
    requires { 0 < m }
    ensures onwards { Onwards text.now result }
    ensures factor { Factor text.now m result }
{
    match text {
        [b'(', rest @ ..] => {
            let (form, rest) = expression(past_spaces(rest), m)?;
            close(form, rest)
        }
        [b'-', rest @ ..] => {
            let (form, rest) = factor(past_spaces(rest), m)?;
            Some((joined(b'-', &zero(), &form, m), rest))
        }
        [b'x', rest @ ..] => unknown(rest),
        _ => number(text, m),
    }
}
