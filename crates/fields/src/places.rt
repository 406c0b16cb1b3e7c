ghost use Rattle.std.specs.Prelude.{◌≡◌, position, ◌==◌};

// The place of the first byte of a kind in a text.
pub(crate) fn place_of(text: &[u8], byte: u8) -> Option<usize>
    ensures { result ≡ position (λ b. b == byte) text.now }
{
    text.iter().position(|b| *b == byte)
}
