//! Which names no declaration may have.
ghost use Rattle.std.specs.Prelude.{◌≡◌, bytes_eq};
ghost use Rattle.std.specs.List.{list_any};
ghost use Rattle.pw_types.specs.Reserved as spec;

/// The keywords of C that this language does not have (C17, 6.4.1).
const OTHER_KEYWORDS_OF_C: [&[u8]; 21] = [
    b"auto",
    b"case",
    b"char",
    b"const",
    b"default",
    b"double",
    b"enum",
    b"float",
    b"goto",
    b"inline",
    b"int",
    b"register",
    b"restrict",
    b"short",
    b"signed",
    b"sizeof",
    b"struct",
    b"switch",
    b"typedef",
    b"union",
    b"volatile",
];

/// Whether a list of words has this one.
fn is_word_of(words: &[&[u8]], name: &[u8]) -> bool
    ensures { result ≡ list_any (λ word. bytes_eq word.now name.now) words.now }
{
    words.iter().any(|word| *word == name)
}

/// Whether no declaration may have this name: it begins with `__`, or is `_start` or another keyword of C.
#[tactic(auto, unfolding(crate::specs::Reserved::is_reserved))]
pub(crate) fn is_reserved(name: &[u8]) -> bool
    ensures { result ≡ spec.is_reserved name.now }
{
    name.starts_with(b"__")
        || name == b"_start".as_slice()
        || is_word_of(&OTHER_KEYWORDS_OF_C, name)
}
