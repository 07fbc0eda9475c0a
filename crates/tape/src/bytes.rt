// The words that lie in the bytes of a tape.
ghost use Rattle.std.specs.Prelude.{◌≡◌, ◌*◌, ◌≤◌, length};
ghost use Rattle.slices.specs.Over.{over};
ghost use Rattle.tape.specs.Bytes.{word_at, words_within};

// The first word, low byte first.
pub(crate) fn word(bytes: &[u8]) -> u32
    requires { 4 ≤ length bytes.now }
    ensures { result ≡ word_at bytes.now }
{
    u32::from_le_bytes([bytes[0], bytes[1], bytes[2], bytes[3]])
}

// The first so many words, at the front of out.
pub(crate) fn words(bytes: &[u8], count: usize, out: &mut [u32])
    requires { (4 * count ≤ length bytes.now) × (count ≤ length out.old) }
    ensures { out.new ≡ over (words_within count bytes.now) out.old }
{
    for i in 0..count {
        out[i] = word(&bytes[4 * i..]);
    }
}
