//! Padding to a multiple of four bytes.

ghost use Rattle.std.specs.Prelude.{◌≡◌, ◌<◌, length, replicate};
ghost use Rattle.xdr_grammar.specs.Items.{padding as padding_of};

/// How many bytes of padding stand behind `n` bytes.
pub fn padding(n: usize) -> usize
    ensures is { result ≡ padding_of n }
    ensures small { result < 4 }
{
    (4 - n % 4) % 4
}

/// The longest padding.
const ZEROS: [u8; 3] = [0; 3];

/// The padding that is written behind `n` bytes.
pub fn zeros(n: usize) -> &'static [u8]
    ensures zeros { result.now ≡ replicate (padding_of n) 0 }
    ensures len { length result.now ≡ padding_of n }
{
    &ZEROS[..padding(n)]
}
