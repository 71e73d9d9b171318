// What the program tells of itself.

pub(crate) const USAGE: &str = "usage: kushrebat [FILE | --help]";

pub(crate) const HELP: &str = "
Reads a script from FILE, or from standard input, and prints one answer for each command.
A script has one command to a line; words are separated by spaces; # starts a comment.
WORD is a label word: sixteen hexadecimal digits. Numbers are decimal.

plan position W..         widths of 1 to 8 bits, by position within a level (at the start: 4)
plan level W..            widths of 1 to 8 bits, by level
ask WORD                  bits B level L parent WORD text TEXT, with parent none at level 1
relate WORD WORD          same, above, below, before or after
between WORD LOWER UPPER  label WORD TEXT: the label between for a child of the first WORD;
                          LOWER and UPPER are each a WORD or none
factory                   rows N, then a line WORD STATE TEXT CARD for each row of the
                          factory's sheet, indented by two spaces a level

ok                where there is nothing to tell
no NUMBER NAME    where a call is turned down, with bit B where a word is no label's
error REASON      where a line cannot be read
";
