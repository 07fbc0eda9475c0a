// Both sides of a typed equation, as forms.
ghost use Rattle.std.specs.Prelude.{◌≡◌, ◌<◌};
ghost use Rattle.grammar.specs.Grammar.{largest_unknown};
ghost use Rattle.grammar.specs.Model.Reader.{sides_of};
ghost use Rattle.grammar.specs.Texts.{typed_of};
ghost use Rattle.typed.specs.Model.Forms.{forms};
ghost use Rattle.typed.specs.Model.Contract.{sides_found, typed_forms};

use crate::descent::expression;
use crate::forms::Form;
use crate::scan::{past_sign, past_spaces, peek};

// "at most 256 bytes"
const LONGEST: usize = 256;

// The forms of the left side and of the right side, where the text is in the grammar.
fn sides(text: &[u8], m: u32) -> Option<(Form, Form)>
    requires { 0 < m }
    ensures { sides_found result ≡ sides_of (forms m largest_unknown) text.now }
{
    let (left, rest) = expression(past_spaces(text), m)?;
    if peek(rest) != b'=' {
        return None;
    }
    let (right, rest) = expression(past_sign(rest), m)?;
    if !rest.is_empty() {
        return None;
    }
    Some((left, right))
}

// The same for texts that are not too long.
pub(crate) fn typed_sides(text: &[u8], m: u32) -> Option<(Form, Form)>
    requires { 0 < m }
    ensures { result ≡ typed_forms m (typed_of text.now) }
{
    if LONGEST < text.len() {
        return None;
    }
    sides(text, m)
}
