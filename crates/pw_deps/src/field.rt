//! Numbers and strings at the start of what is left of a table.
ghost use Rattle.std.specs.Prelude.{◌≡◌, ◌≤◌, length, IfOk};
ghost use Rattle.pw_module.specs.Answer.{ReadsAs};
ghost use Rattle.pw_module.specs.Reading.{number_at, sized_string_at};

use pw_module::DepError;
use pw_wire::u32_at;

/// The number that stands for no unit, as the entry has it.
pub(crate) const NO_UNIT: u32 = 0xffff_ffff;

/// What the numbers of a table are held against: the bytes of the whole table, the symbols and the bytes of the text that
/// it speaks of.
#[derive(Clone, Copy)]
pub(crate) struct Frame {
    pub total: u64,
    pub symbols: u32,
    pub text: u64,
}

/// The number that stands first, and the bytes after it.
#[tactic(auto, unfolding(pw_module::specs::Reading::number_at))]
pub(crate) fn number(total: u64, rest: &[u8]) -> Result<(u32, &[u8]), DepError>
    requires { length rest.now ≤ total }
    ensures value { ReadsAs (λ x. (x.0, x.1.now)) result (number_at total rest.now) }
    ensures shorter { IfOk result (λ x. length x.1.now ≤ length rest.now) }
{
    match u32_at(rest, 0) {
        Some(n) => Ok((n, &rest[4..])),
        None => Err(DepError::Short(total - rest.len() as u64)),
    }
}

/// The string that stands first, which its length precedes, and the bytes after it.
#[tactic(auto, unfolding(pw_module::specs::Reading::sized_string_at))]
pub(crate) fn sized_string(total: u64, rest: &[u8]) -> Result<(&[u8], &[u8]), DepError>
    requires { length rest.now ≤ total }
    ensures value { ReadsAs (λ x. (x.0.now, x.1.now)) result (sized_string_at total rest.now) }
    ensures shorter { IfOk result (λ x. length x.1.now ≤ length rest.now) }
{
    let (count, rest) = number(total, rest)?;
    let count = count as usize;
    if rest.len() < count {
        return Err(DepError::Short(total - rest.len() as u64));
    }
    let (string, rest) = rest.split_at(count);
    Ok((string, rest))
}
