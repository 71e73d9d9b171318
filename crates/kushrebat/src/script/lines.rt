// The lines of a script.
ghost use Rattle.std.specs.Prelude.{◌≡◌, length};
ghost use Rattle.std.specs.Iterator.{at_most};
ghost use Rattle.kushrebat.specs.Lines.{trimmed, NextLine};

// What is left of a script.
#[derive(Drop)]
pub(crate) struct Lines<'a> {
    rest: &'a [u8],
}

impl<'a> Lines<'a> {
    pub(crate) fn of(script: &'a [u8]) -> Lines<'a>
        ensures { result.rest.now ≡ script.now }
    {
        Lines { rest: script }
    }
}

// A line that ends in a carriage return and a line feed is the same line without the carriage return.
fn without_return(line: &[u8]) -> &[u8]
    ensures { result.now ≡ trimmed line.now }
{
    line.strip_suffix(b"\r").unwrap_or(line)
}

// A line ends at a line feed, which the last one may lack.
impl<'a> Iterator for Lines<'a> {
    type Item = &'a [u8];

    ghost next_gives = { λ s r t. NextLine s.rest.now r t.rest.now };

    ghost remaining = { λ s. at_most (length s.rest.now) };

    fn next(&mut self) -> Option<&'a [u8]> {
        let line = self.rest.split_inclusive(|x| *x == b'\n').next()?;
        self.rest = &self.rest[line.len()..];
        Some(line.strip_suffix(b"\n").map_or(line, without_return))
    }
}
