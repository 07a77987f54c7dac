//! The bytes of a text of which functions are left out.
ghost use Rattle.std.specs.Prelude.{◌≡◌, ◌≤◌, ◌+◌, ◌/◌, length, map, IfOk};
ghost use Rattle.std.specs.List.{All};
ghost use Rattle.std.specs.Option.{is_some};
ghost use Rattle.pw_mem.specs.Words.{text_bytes};
ghost use Rattle.pw_image.specs.Blanked.{word_bytes, without_function, blanked};
ghost use Rattle.pw_image.specs.Keeping.{have_levels};

use pw_base::NoMemory;
use pw_close::Levels;
use pw_module::FunRec;
use std::alloc::Global;

/// The bytes of an instruction word.
const WORD_BYTES: u32 = 4;

/// Puts zeros in place of a function.
#[tactic(auto, unfolding(pw_mem::specs::Memory::zeros))]
fn blank_function(words: &mut [u32], record: &FunRec)
    requires { record.now.start / word_bytes + record.now.size / word_bytes ≤ length words.old }
    ensures { words.new ≡ without_function words.old record.now }
{
    let start = (record.start / WORD_BYTES) as usize;
    let end = start + (record.size / WORD_BYTES) as usize;
    words[start..end].fill(0);
}

/// Puts zeros in place of each function that has no level.
fn blank(words: &mut [u32], records: &[FunRec], levels: &[Option<u32>])
    requires { All (λ r. r.start / word_bytes + r.size / word_bytes ≤ length words.old) records.now }
    ensures { words.new ≡ blanked words.old records.now (map (λ level. is_some level) levels.now) }
{
    for (record, level) in records.iter().zip(levels) {
        if level.is_none() {
            blank_function(words, record);
        }
    }
}

/// The bytes of words, the lowest first.
fn bytes_of(alloc: Global, words: &[u32]) -> Result<Vec<u8>, NoMemory>
    ensures { IfOk result (λ bytes. bytes.items ≡ text_bytes words.now) }
{
    let mut bytes = Vec::new(alloc);
    for word in words {
        bytes.extend_from_slice(&word.to_le_bytes())?;
    }
    Ok(bytes)
}

/// The bytes of a text, with zeros in place of each function that has no level.
pub fn kept_text(
    alloc: Global,
    words: &[u32],
    records: &[FunRec],
    levels: &Levels,
) -> Result<Vec<u8>, NoMemory>
    requires { All (λ r. r.start / word_bytes + r.size / word_bytes ≤ length words.now) records.now }
    ensures { IfOk result (λ text. text.items ≡ text_bytes (blanked words.now records.now (have_levels levels.now))) }
{
    let mut kept = words.to_vec(alloc)?;
    blank(&mut kept, records, &levels.level);
    bytes_of(alloc, &kept)
}
