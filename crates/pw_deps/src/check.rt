//! What may be wrong with the numbers of a record.
ghost use Rattle.std.specs.Prelude.{◌≡◌};
ghost use Rattle.pw_module.specs.Reading as definition;

use pw_module::{DepError, FunRec};

/// Whether it is the number of a symbol, of which the first is none.
pub(crate) fn is_symbol(symbols: u32, n: u32) -> bool
    ensures { result ≡ definition.is_symbol symbols n }
{
    if 0 < n { n < symbols } else { false }
}

/// The first of the numbers that is no symbol's.
pub(crate) fn bad_in(symbols: u32, numbers: &[u32]) -> Option<u32>
    ensures { result ≡ definition.bad_in symbols numbers.now }
{
    for n in numbers {
        if !is_symbol(symbols, *n) {
            return Some(*n);
        }
    }
    None
}

/// The first wrong number of a function: its symbol, its unit, or one of those on which it depends.
#[tactic(auto, unfolding(pw_module::specs::Reading::bad_index))]
fn bad_index(symbols: u32, units: u32, function: &FunRec) -> Option<u32>
    ensures { result ≡ definition.bad_index symbols units function.now }
{
    if !is_symbol(symbols, function.sym) {
        return Some(function.sym);
    }
    if let Some(unit) = function.unit {
        if units <= unit {
            return Some(unit);
        }
    }
    bad_in(symbols, function.deps.as_slice())
}

/// What is wrong with a function's place in the text, after its former's end.
#[tactic(auto, unfolding(pw_module::specs::Reading::range_fault))]
fn range_fault(text: u64, former: u64, index: u32, function: &FunRec) -> Option<DepError>
    ensures { result ≡ definition.range_fault text former index function.now }
{
    let start = u64::from(function.start);
    if start < former {
        return Some(DepError::Overlap(index));
    }
    if function.size == 0 {
        return Some(DepError::BadRange(index));
    }
    if function.size % 4 != 0 {
        return Some(DepError::BadRange(index));
    }
    if former < start {
        return Some(DepError::BadRange(index));
    }
    if text < start + u64::from(function.size) {
        return Some(DepError::BadRange(index));
    }
    None
}

/// What is wrong with a function: its numbers first, then its place.
#[tactic(auto, unfolding(pw_module::specs::Reading::function_fault))]
pub(crate) fn function_fault(
    symbols: u32,
    text: u64,
    units: u32,
    former: u64,
    index: u32,
    function: &FunRec,
) -> Option<DepError>
    ensures { result ≡ definition.function_fault symbols text units former index function.now }
{
    match bad_index(symbols, units, function) {
        Some(n) => Some(DepError::BadIndex(index, n)),
        None => range_fault(text, former, index, function),
    }
}

/// What is wrong where the last function, of so many, does not end with the text.
#[tactic(auto, unfolding(pw_module::specs::Reading::end_fault))]
pub(crate) fn end_fault(text: u64, count: u32, last: u64) -> Option<DepError>
    ensures { result ≡ definition.end_fault text count last }
{
    if last < text {
        return Some(DepError::BadRange(count.saturating_sub(1)));
    }
    None
}
