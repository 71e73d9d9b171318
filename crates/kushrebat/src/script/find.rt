// The first place of a byte.
ghost use Rattle.kushrebat.specs.Places.{First};

// The index of the first byte of `bytes` that equals `byte`, or the length where there is none.
pub(crate) fn find(bytes: &[u8], byte: u8) -> usize
    ensures { First byte bytes.now result }
{
    bytes.iter().position(|x| *x == byte).unwrap_or(bytes.len())
}
