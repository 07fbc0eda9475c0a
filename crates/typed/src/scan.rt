// Bytes, spaces and digits in front of a text.
ghost use Rattle.std.specs.Prelude.{◌≡◌, ◌-◌, ◌≤◌, ◌<◌, length};
ghost use Rattle.grammar.specs.Model.Reader.{next, tail, skip, is_digit, is_sign};
ghost use Rattle.typed.specs.Model.Contract.{capped, RunOf};

// The first byte, 0 where there is none.
pub(crate) fn peek(text: &[u8]) -> u8
    ensures { result ≡ next text.now }
{
    match text {
        [first, ..] => *first,
        [] => 0,
    }
}

// What stands behind the spaces in front. `while let` has it at hand at each turn, and counts nothing: `take_while` and `count` would count the
// spaces, to cut the text there.
pub(crate) fn past_spaces(text: &[u8]) -> &[u8]
    ensures left { length result.now ≤ length text.now }
    ensures text_value { result.now ≡ skip text.now }
{
    let mut rest = text;
    while let [b' ', after @ ..] = rest {
        rest = after;
    }
    rest
}

// What stands behind the first byte and the spaces that follow it.
pub(crate) fn past_sign(text: &[u8]) -> &[u8]
    ensures left { length result.now ≤ length text.now - 1 }
    ensures text_value { result.now ≡ skip (tail text.now) }
{
    match text {
        [_, rest @ ..] => past_spaces(rest),
        [] => text,
    }
}

// Whether a byte is `+` or `-`.
pub(crate) fn is_sign(c: u8) -> bool
    ensures { result ≡ is_sign c }
{
    matches!(c, b'+' | b'-')
}

// The digits in front: what they make, but no more than six digits' worth, how many they are, and what stands behind them.
#[derive(Clone, Copy)]
pub struct Run<'a> {
    pub value: u32,
    pub count: usize,
    pub rest: &'a [u8],
}

fn is_digit(c: u8) -> bool
    ensures { result ≡ is_digit c }
{
    matches!(c, b'0'..=b'9')
}

// One digit more, unless there are too many already.
fn appended(value: u32, c: u8) -> u32
    requires { (value < 1000000) × (48 ≤ c) × (c ≤ 57) }
    ensures { (result ≡ capped value (c - 48)) × (result < 1000000) }
{
    if value < 100000 {
        value * 10 + u32::from(c - b'0')
    } else {
        value
    }
}

pub(crate) fn digits_of(text: &[u8]) -> Run<'_>
    ensures { RunOf text.now result }
{
    let mut value = 0;
    for (count, &c) in text.iter().enumerate() {
        if !is_digit(c) {
            return Run {
                value,
                count,
                rest: &text[count..],
            };
        }
        value = appended(value, c);
    }
    Run {
        value,
        count: text.len(),
        rest: &text[text.len()..],
    }
}
