//! The external names that a unit defines or uses, with the texts of their types.
ghost use Rattle.std.specs.Prelude.{◌≡◌, length, IfOk};
ghost use Rattle.pw_types.specs.Steps.Texts.{HasText, HaveTexts, AreFlags};
ghost use Rattle.pw_types.specs.Units as spec;
ghost use Rattle.pw_types.specs.Steps.Uses.{names_by_number};

use crate::names::File;
use crate::type_texts::type_text;
use pw_base::NoMemory;
use pw_tree::Ext;
use sqlite_items::Items;
use std::alloc::Global;

/// Which of so many numbers are used.
fn flags_of(alloc: Global, used: &[usize], count: usize) -> Result<Vec<bool>, NoMemory>
    ensures length { IfOk result (λ flags. length flags.items ≡ count) }
    ensures flags { IfOk result (λ flags. AreFlags used.now flags.items) }
{
    let mut flags = vec![in alloc; false; count]?;
    for number in used {
        if *number < flags.len() {
            flags[*number] = true;
        }
    }
    Ok(flags)
}

/// The name and the text of its type.
fn external(alloc: Global, f: &File) -> Result<Ext, NoMemory>
    requires { HasText f.now.kind }
    ensures { IfOk result (λ ext. ext ≡ record { name = f.now.name; text = spec.text_of_kind f.now.kind }) }
{
    Ok(Ext {
        name: f.name.copy(alloc)?,
        text: type_text(alloc, &f.kind)?,
    })
}

/// The names that are external, and defined or used.
#[tactic(auto, unfolding(crate::specs::Steps::Uses::names_by_number, crate::specs::Steps::Texts::HaveTexts))]
pub(crate) fn external_names(
    alloc: Global,
    used: &[usize],
    files: &[File],
) -> Result<Items<Ext>, NoMemory>
    requires { HaveTexts files.now }
    ensures { IfOk result (λ names. names ≡ names_by_number used.now 0 files.now) }
{
    let flags = flags_of(alloc, used, files.len())?;
    let mut names = Items::new(alloc);
    let mut number = 0;
    let mut rest = files;
    while let [f, more @ ..] = rest {
        if f.external && (f.defined || flags[number]) {
            names.push(external(alloc, f)?)?;
        }
        number += 1;
        rest = more;
    }
    Ok(names)
}
