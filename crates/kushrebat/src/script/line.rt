// The words of a line.
ghost use Rattle.std.specs.Prelude.{◌≡◌};
ghost use Rattle.std.specs.Iterator.{YieldsFirstRef, item_count};
ghost use Rattle.kushrebat.specs.Lines.{until, comment};
ghost use Rattle.kushrebat.specs.Grammar.{left};

use crate::script::find::find;

// The line in front of its comment.
pub(crate) fn without_comment(line: &[u8]) -> &[u8]
    ensures { result.now ≡ until comment line.now }
{
    &line[..find(line, b'#')]
}

// What is left of a line whose words are taken from left to right.
#[derive(Drop)]
pub(crate) struct Words<'a> {
    rest: &'a [u8],
}

impl<'a> Words<'a> {
    pub(crate) fn of(command: &'a [u8]) -> Words<'a>
        ensures { result.rest.now ≡ command.now }
    {
        Words { rest: command }
    }
}

// A word goes to the next space.
impl<'a> Iterator for Words<'a> {
    type Item = &'a [u8];

    ghost next_gives = { YieldsFirstRef left };

    ghost remaining = { item_count left };

    fn next(&mut self) -> Option<&'a [u8]> {
        let spaces = self.rest.iter().position(|x| *x != b' ')?;
        let begins = &self.rest[spaces..];
        let (word, rest) = begins.split_at(find(begins, b' '));
        self.rest = rest;
        Some(word)
    }
}
