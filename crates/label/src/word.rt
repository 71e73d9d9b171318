// Words: what a label is stored as.
ghost use Rattle.std.specs.Prelude.{◌≡◌, ◌^◌, ◌<◌};
ghost use Rattle.label.specs.Label.{word_bits};

// A label's word: its bits at the left, with zeros behind.
pub type Word = u64;

// How many bits a word has. A label has at most so many.
pub const WORD_BITS: u32 = 64;

// The value of the bit that has `k` bits behind it.
pub(crate) fn power(k: u32) -> Word
    requires { k < word_bits }
    ensures { result ≡ 2 ^ k }
{
    1 << k
}
