// Parts of a text.

ghost use Rattle.std.specs.Prelude.{◌≡◌, ◌-◌, ◌≤◌, IsTrue, length, take, drop};

/// The text up to the place.
pub(crate) fn up_to(text: &[u8], place: usize) -> &[u8]
    requires { place ≤ length text.now }
    ensures { result.now ≡ take place text.now }
{
    &text[..place]
}

/// The text from the place on.
pub(crate) fn from_place(text: &[u8], place: usize) -> &[u8]
    requires { place ≤ length text.now }
    ensures { result.now ≡ drop place text.now }
{
    &text[place..]
}

/// Whether what is put begins with the text's bytes from one place to the other.
pub(crate) fn begins_with_part(put: &[u8], text: &[u8], from: usize, to: usize) -> bool
    requires order { from ≤ to }
    requires within { to ≤ length text.now }
    ensures { IsTrue result → take (to - from) put.now ≡ take (to - from) (drop from text.now) }
{
    put.starts_with(&text[from..to])
}
