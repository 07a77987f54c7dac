//! The keywords and the punctuators, and how a text is looked up among them.
ghost use Rattle.std.specs.Prelude.{◌≡◌, ◌≤◌, length, map, ℕ};
ghost use Rattle.pw_lex.specs.Reading as spec;

/// The keywords (C17, 6.4.1); the number of each is its position.
pub const KEYWORDS: [&[u8]; 22] = [
    b"long",
    b"unsigned",
    b"void",
    b"fn0",
    b"fn1",
    b"fn2",
    b"fn3",
    b"fn4",
    b"fn5",
    b"fn6",
    b"extern",
    b"static",
    b"if",
    b"else",
    b"while",
    b"do",
    b"for",
    b"return",
    b"break",
    b"continue",
    b"__in",
    b"__out",
];

/// The punctuators (C17, 6.4.6); the number of each is its position. From `++` on, they have no place in the grammar.
pub const PUNCTUATORS: [&[u8]; 43] = [
    b"(", b")", b"{", b"}", b"[", b"]", b";", b",", b"=", b"+", b"-", b"*", b"/", b"%", b"<", b">",
    b"<=", b">=", b"==", b"!=", b"<<", b">>", b"&", b"|", b"^", b"~", b"!", b"&&", b"||", b"?",
    b":", b"++", b"--", b"+=", b"-=", b"*=", b"/=", b"%=", b"&=", b"|=", b"^=", b"<<=", b">>=",
];

/// The number of a text in a list: its position.
pub fn number_of(list: &[&[u8]], text: &[u8]) -> Option<u8>
    requires { length list.now ≤ 256 }
    ensures { result ≡ spec.number_from 0 (map (λ entry. entry.now) list.now) text.now }
{
    for (number, entry) in list.iter().enumerate() {
        if *entry == text {
            return Some(number as u8);
        }
    }
    None
}

/// The number of the punctuator that the first `len` bytes are.
#[tactic(auto, unfolding(crate::specs::Spellings::punctuators))]
fn punctuator_of(text: &[u8], len: usize) -> Option<u8>
    ensures { result ≡ spec.punctuator_of len text.now }
{
    if len <= text.len() {
        number_of(&PUNCTUATORS, &text[..len])
    } else {
        None
    }
}

/// The number and the length of the longest punctuator that the text begins with.
#[tactic(auto, unfolding(crate::specs::Reading::longest_punctuator))]
pub fn longest_punctuator(text: &[u8]) -> Option<(u8, usize)>
    ensures { result ≡ spec.longest_punctuator text.now }
{
    if let Some(number) = punctuator_of(text, 3) {
        Some((number, 3))
    } else if let Some(number) = punctuator_of(text, 2) {
        Some((number, 2))
    } else {
        punctuator_of(text, 1).map(|number| (number, 1))
    }
}
