//! Laws of the grammar, each the contract of a function.
ghost use Rattle.pw_grammar.specs.Laws.{KeywordsByText, PunctuatorsByText, HasReading, NotBoth, OneTree, OneFault, TokensAreSmall, TreesAreRead, TreesAreWritten};
ghost use Rattle.pw_grammar.specs.Reading.Whole.{ReadingTells};

/// A keyword and a punctuator, which a token gives by its number, have the symbol that stands beside their text.
#[tactic(auto, unfolding(pw_lex::specs::Spellings::keywords, pw_lex::specs::Spellings::punctuators))]
pub fn symbols_stand_beside_their_texts()
    ensures keywords { KeywordsByText }
    ensures punctuators { PunctuatorsByText }
{}

/// A list of tokens has a tree or a first fault, and never both; and it has one tree, or one first fault, at most.
pub fn a_list_has_a_tree_or_a_first_fault()
    ensures has_reading { HasReading }
    ensures not_both { NotBoth }
    ensures one_tree { OneTree }
    ensures one_fault { OneFault }
{}

/// The trees that the grammar derives from fewer than 2 to the 32nd tokens stand in them: the parts of a phrase in order of
/// text, none over another, and within the phrase.
pub fn trees_are_written()
    ensures { TreesAreWritten }
{}

/// The tokens of a text of fewer than 2 to the 32nd bytes have lines of 32 bits and constants of 64.
pub fn tokens_are_small()
    ensures { TokensAreSmall }
{}

/// The tree of a list without fault, of fewer than 2 to the 32nd tokens with lines of 32 bits and constants of 64, is that of
/// a unit that was read: each phrase has a token of its own; a local is declared in a block or by a `for` alone; the parts of a
/// `for` are simple; a function's body has at most 8,192 tokens; an `extern` variable has no initialiser.
pub fn trees_are_read()
    ensures { TreesAreRead }
{}

/// For the parser: reading a list of tokens from left to right gives its tree, if it has one, and else exactly its first
/// fault.
pub fn reading_tells_the_tree_or_the_first_fault()
    ensures { ReadingTells }
{}
