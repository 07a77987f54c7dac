//! One number for all parts of a module: each number and each byte of them in turn, mixed as FNV-1a does.

use pw_base::{Name, TypeText};
use pw_module::{DepTable, FunRec, Reloc, RelocKind, SymKind, Symbol};
use pw_place::Placed;

/// The number so far.
#[derive(Clone, Copy)]
struct Mix(u64);

impl Mix {
    /// What FNV-1a starts with.
    fn new() -> Mix {
        Mix(0xcbf2_9ce4_8422_2325)
    }

    fn number(&mut self, x: u64) {
        self.0 = (self.0 ^ x).wrapping_mul(0x100_0000_01b3);
    }

    /// How many bytes, then each.
    fn bytes(&mut self, bytes: &[u8]) {
        self.number(bytes.len() as u64);
        for byte in bytes {
            self.number(u64::from(*byte));
        }
    }

    fn numbers(&mut self, xs: &[u32]) {
        self.number(xs.len() as u64);
        for x in xs {
            self.number(u64::from(*x));
        }
    }

    fn names(&mut self, names: &[Name]) {
        self.number(names.len() as u64);
        for name in names {
            self.bytes(name.bytes());
        }
    }

    fn text(&mut self, text: &TypeText) {
        self.bytes(text.bytes());
    }

    fn kind(&mut self, kind: SymKind) {
        match kind {
            SymKind::Fun(start, size) => {
                self.number(0);
                self.number(start);
                self.number(size);
            }
            SymKind::Var(start, size) => {
                self.number(1);
                self.number(start);
                self.number(size);
            }
            SymKind::Undefined => self.number(2),
        }
    }

    fn symbol(&mut self, symbol: &Option<Symbol>) {
        match symbol {
            None => self.number(0),
            Some(symbol) => {
                self.number(1);
                self.bytes(symbol.name.bytes());
                self.number(u64::from(symbol.global));
                self.kind(symbol.kind);
                self.text(&symbol.text);
            }
        }
    }

    fn relocation(&mut self, relocation: &Reloc) {
        self.number(relocation.offset);
        match relocation.kind {
            RelocKind::Sym(symbol) => {
                self.number(0);
                self.number(u64::from(symbol));
            }
            RelocKind::Base(place) => {
                self.number(1);
                self.number(place);
            }
        }
    }

    fn function(&mut self, function: &FunRec) {
        self.number(u64::from(function.sym));
        match function.unit {
            None => self.number(0),
            Some(unit) => {
                self.number(1);
                self.number(u64::from(unit));
            }
        }
        self.number(u64::from(function.start));
        self.number(u64::from(function.size));
        self.numbers(function.deps.as_slice());
    }

    fn functions(&mut self, functions: &[FunRec]) {
        self.number(functions.len() as u64);
        for function in functions {
            self.function(function);
        }
    }

    fn table(&mut self, table: &DepTable) {
        self.number(u64::from(table.version));
        self.names(table.units.as_slice());
        self.functions(table.funs.as_slice());
        self.number(table.roots.len() as u64);
        for root in table.roots.as_slice() {
            self.number(u64::from(root.var));
            self.number(u64::from(root.fun));
        }
        self.number(table.types.len() as u64);
        for found in table.types.as_slice() {
            self.number(u64::from(found.sym));
            self.text(&found.text);
        }
    }

    fn symbols(&mut self, symbols: &[Option<Symbol>]) {
        self.number(symbols.len() as u64);
        for symbol in symbols {
            self.symbol(symbol);
        }
    }

    fn relocations(&mut self, relocations: &[Reloc]) {
        self.number(relocations.len() as u64);
        for relocation in relocations {
            self.relocation(relocation);
        }
    }
}

/// The number of a module: of its text, slots, bytes, zeros, symbols, relocations and table.
pub(crate) fn digest(placed: &Placed) -> u64 {
    let mut mix = Mix::new();
    mix.numbers(placed.text.as_slice());
    mix.names(placed.got.as_slice());
    mix.bytes(placed.bytes.as_slice());
    mix.number(placed.zeros);
    mix.symbols(placed.symbols.as_slice());
    mix.relocations(placed.relocs.as_slice());
    mix.table(&placed.deps);
    mix.0
}
