//! Names that a module uses and does not define.
ghost use Rattle.std.specs.Prelude.{◌≡◌, IfOk};
ghost use Rattle.std.specs.Option.{is_some};
ghost use Rattle.pw_image.specs.Unbound as unbound;

use pw_base::{Name, NoMemory};
use pw_module::{SymKind, Symbol};
use std::alloc::Global;

/// Whether a symbol has no definition.
fn is_undefined(symbol: &Symbol) -> bool
    ensures { result ≡ is_some (unbound.undefined_name_of symbol.now.kind symbol.now.name) }
{
    matches!(symbol.kind, SymKind::Undefined)
}

/// The name of the first symbol that has no definition.
pub fn first_undefined(alloc: Global, symbols: &[Option<Symbol>]) -> Result<Option<Name>, NoMemory>
    ensures { IfOk result (λ found. found ≡ unbound.first_undefined symbols.now) }
{
    for symbol in symbols {
        if let Some(symbol) = symbol {
            if is_undefined(symbol) {
                return Ok(Some(symbol.name.copy(alloc)?));
            }
        }
    }
    Ok(None)
}
