//! What variables begin with.
ghost use Rattle.std.specs.Prelude.{◌≡◌, ◌||◌, not, false};
ghost use Rattle.std.specs.Option.{option_map_or};
ghost use Rattle.pw_tree.specs.declared.decl.InitKind.TheVariants.{Word};
ghost use Rattle.pw_tree.specs.declared.tunit.Init.TheVariants.{Num, Fun};
ghost use Rattle.pw_types.specs.declared.rule.Rule.TheVariants as rules;
ghost use Rattle.pw_types.specs.Faults.{broken};
ghost use Rattle.pw_tree.specs.Types as types;
ghost use Rattle.pw_types.specs.Scopes.{function_reference};
ghost use Rattle.pw_types.specs.Typed.{function_of_kind};
ghost use Rattle.pw_types.specs.Declarations as spec;
ghost use Rattle.pw_types.specs.Units.{designated_or};
ghost use Rattle.pw_types.specs.Steps.CheckingDeclarations.{faults_of_value, IsElement, AreElements};
ghost use Rattle.pw_types.specs.Steps.Refusals.{Judges};
ghost use Rattle.pw_types.specs.Steps.UnitFaults.{faults_of_elements};

use crate::fault::Refusal;
use crate::meaning::Meaning;
use crate::names::{File, Kind};
use crate::refuse::{broken, broken_by, refuse_if};
use crate::rule::Rule;
use crate::same::same_type;
use crate::scope::Scope;
use crate::types::{is_pointer, pointer_to};
use pw_base::{Name, NoMemory};
use pw_tree::{Init, InitItem, InitKind, Sig, Ty};
use sqlite_items::Items;
use std::alloc::Global;

/// Whether this type of pointers points to functions of a signature.
fn points_to(ty: Ty, sig: &Sig) -> bool
    ensures { result ≡ option_map_or (λ p. types.same_type p ty) (types.pointer_to sig.now) false }
{
    match pointer_to(sig) {
        Some(pointer) => same_type(pointer, ty),
        None => false,
    }
}

/// The value of an element that is a number, or its fault.
fn judge_number(ty: Ty, is_extra: bool, at: u32, value: u64) -> Result<Init, Refusal>
    ensures { Judges (broken rules.Initialiser at (types.is_pointer ty || is_extra)) (λ init. init ≡ Num value) result }
{
    refuse_if(is_pointer(ty) || is_extra, Rule::Initialiser, at)?;
    Ok(Init::Num(value))
}

/// The value of an element that is the name of a function, or its fault.
fn judge_function(
    alloc: Global,
    scope: &Scope<'_>,
    ty: Ty,
    is_extra: bool,
    at: u32,
    file: &File,
    sig: &Sig,
) -> Result<Init, Refusal>
    ensures { Judges (broken rules.Initialiser at (not (option_map_or (λ p. types.same_type p ty) (types.pointer_to sig.now) false) || is_extra)) (λ init. init ≡ Fun (function_reference scope.now file.now)) result }
{
    refuse_if(!points_to(ty, sig) || is_extra, Rule::Initialiser, at)?;
    Ok(Init::Fun(scope.function_reference(alloc, file)?))
}

/// The value of an element that is a name at file scope, or its fault.
fn judge_file(
    alloc: Global,
    scope: &Scope<'_>,
    ty: Ty,
    is_extra: bool,
    at: u32,
    file: &File,
) -> Result<Init, Refusal>
    ensures { Judges (broken rules.Initialiser at (not (spec.points_to ty (function_of_kind scope.now file.now file.now.kind)) || is_extra)) (λ init. init ≡ designated_or (function_of_kind scope.now file.now file.now.kind)) result }
{
    match &file.kind {
        Kind::Function(sig) => judge_function(alloc, scope, ty, is_extra, at, file, sig),
        Kind::Variable(_, _) => Err(broken(Rule::Initialiser, u64::from(at))),
    }
}

/// The value of an element that is a name, or its first fault; the name's number is noted.
fn judge_word(
    alloc: Global,
    scope: &Scope<'_>,
    used: &mut Vec<usize>,
    ty: Ty,
    is_extra: bool,
    at: u32,
    name: &Name,
) -> Result<Init, Refusal>
    ensures { Judges (faults_of_value scope.now ty is_extra at (Word name.now)) (IsElement scope.now (Word name.now) used.old.items used.new.items) result }
{
    match scope.meaning(name.bytes()) {
        Meaning::Missing => Err(broken_by(alloc, Rule::Unknown, u64::from(at), name)),
        Meaning::Local(_) => Err(broken(Rule::Initialiser, u64::from(at))),
        Meaning::File(number, file) => {
            let value = judge_file(alloc, scope, ty, is_extra, at, file)?;
            match used.push(number) {
                Ok(()) => Ok(value),
                Err(_) => Err(Refusal::NoMemory),
            }
        }
    }
}

/// The value of an element, or its first fault.
fn judge_element(
    alloc: Global,
    scope: &Scope<'_>,
    used: &mut Vec<usize>,
    ty: Ty,
    is_extra: bool,
    item: &InitItem,
) -> Result<Init, Refusal>
    ensures { Judges (faults_of_value scope.now ty is_extra item.now.last item.now.kind) (IsElement scope.now item.now.kind used.old.items used.new.items) result }
{
    match &item.kind {
        InitKind::Num(value) => judge_number(ty, is_extra, item.last, *value),
        InitKind::Word(name) => judge_word(alloc, scope, used, ty, is_extra, item.last, name),
    }
}

/// The values of a variable's elements, for which it has this much room, or their first fault.
#[tactic(auto, unfolding(crate::specs::Steps::UnitFaults::faults_of_elements, crate::specs::Steps::Uses::uses_of_elements))]
pub(crate) fn judge_elements(
    alloc: Global,
    scope: &Scope<'_>,
    used: &mut Vec<usize>,
    ty: Ty,
    room: u64,
    items: &[InitItem],
) -> Result<Items<Init>, Refusal>
    ensures { Judges (faults_of_elements scope.now ty room 0 items.now) (AreElements scope.now items.now used.old.items used.new.items) result }
{
    let mut values = Items::new(alloc);
    let mut rest = items;
    while let [item, more @ ..] = rest {
        let is_extra = values.len() as u64 >= room;
        values.push(judge_element(alloc, scope, used, ty, is_extra, item)?)?;
        rest = more;
    }
    Ok(values)
}
