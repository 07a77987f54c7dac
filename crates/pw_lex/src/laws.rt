//! Laws of texts and of their tokens, each the contract of a function.
ghost use Rattle.std.specs.Prelude.{◌≡◌, map};
ghost use Rattle.pw_lex.specs.Laws.{HasReading, NotBoth, OneList, OneFault, TokensStand};
ghost use Rattle.pw_lex.specs.Spellings.{keywords, punctuators};

use crate::spellings::{KEYWORDS, PUNCTUATORS};

/// A text has tokens or a fault, and never both; and it has one list of tokens, or one fault, at most.
pub fn a_text_reads_in_one_way()
    ensures has_reading { HasReading }
    ensures not_both { NotBoth }
    ensures one_list { OneList }
    ensures one_fault { OneFault }
{}

/// The tokens of a text stand in it: the bytes from `first` to `end` are a token of the kind, on the line.
pub fn tokens_stand_in_their_text()
    ensures { TokensStand }
{}

/// The texts that tokens are read by are the keywords and the punctuators of the language, each with its number.
#[tactic(auto, unfolding(crate::specs::Spellings::keywords, crate::specs::Spellings::punctuators))]
pub fn tokens_go_by_their_spellings()
    ensures keywords { map (λ entry. entry.now) KEYWORDS ≡ keywords }
    ensures punctuators { map (λ entry. entry.now) PUNCTUATORS ≡ punctuators }
{}
