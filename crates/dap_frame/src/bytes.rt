ghost use Rattle.std.specs.Prelude.{◌≡◌, ◌==◌, position};

/// Where the first `byte` stands.
pub fn place_of(byte: u8, bytes: &[u8]) -> Option<usize>
    ensures { result ≡ position (λ b. b == byte) bytes.now }
{
    bytes.iter().position(|b| *b == byte)
}
