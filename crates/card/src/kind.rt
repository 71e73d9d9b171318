// Kinds of card.
ghost use Rattle.std.specs.Prelude.{◌≡◌, ℕ, ◌^◌, ◌<◌, is_some, Some, Ok, Decides, Option, ◌≢◌};
ghost use Rattle.card.specs.declared.fault.CardFault.TheVariants.{NoCard};
ghost use Rattle.std.specs.Option.{ok_or};

use crate::fault::CardFault;

// A kind of card. Each card has a word of 64 bits, which is what is stored of it, and each word makes a card of
// this kind or none. `code` is a card's word, and `decode` the card that a word makes, if any.
pub trait Card: Copy {
    ghost code: { Self → ℕ };

    ghost decode: { ℕ → Option Self };

    // The card's word.
    fn word(self) -> u64
        ensures { result ≡ code self };

    // The card that the word makes.
    fn from_word(word: u64) -> Result<Self, CardFault>
        ensures { result ≡ ok_or (decode word) NoCard };

    // A card's word is never 0, so that 0 can stand for no card.
    ghost nonzero: { (c : Self) → code c ≢ 0 };

    // A card's word can be stored in 64 bits.
    ghost fits: { (c : Self) → code c < 2 ^ 64 };

    // Reading a card's word gives the card back.
    ghost round: { (c : Self) → decode (code c) ≡ Some c };

    // A word makes at most the card whose word it is.
    ghost own: { (word : ℕ) (c : Self) → decode word ≡ Some c → code c ≡ word };
}

// The word of a card, read again: it is always the card.
pub fn again<C: Card>(card: C) -> Result<C, CardFault>
    ensures { result ≡ Ok card }
{
    C::from_word(card.word())
}

// Whether the word makes a card: exactly when it is the word of one.
pub fn makes_card<C: Card>(word: u64) -> bool
    ensures { Decides result ((c : C) × (C.code c ≡ word)) }
{
    C::from_word(word).is_ok()
}

// Whether two cards are the same: exactly when their words are.
// Kept: equality by the words, since a bound `PartialEq` would ask more of callers: a kind of card need not have it.
pub fn same_card<C: Card>(one: C, other: C) -> bool
    ensures { Decides result (one ≡ other) }
{
    one.word() == other.word()
}
