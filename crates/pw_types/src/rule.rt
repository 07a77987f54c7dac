//! The rules that a unit may break.
ghost use Rattle.std.specs.Prelude.{◌≡◌, Some};
ghost use Rattle.pw_types.specs.RuleNames.{name_of};

use std::fmt::{self, Display, Formatter, Write};

/// A rule of types, limits and names, in the order in which they are judged where one phrase breaks several.
#[derive(Clone, Copy, PartialEq, Eq, Debug)]
pub enum Rule {
    /// A name has no visible declaration, or a static prototype no definition in the unit.
    Unknown,
    /// A second definition at file scope, or a second local in one block.
    Redeclared,
    /// A declaration has another type or linkage than an earlier one of its name.
    Conflict,
    /// Void where a value is needed, or a function that no pointer type fits as a value.
    NotValue,
    /// An operator or an index has operands of other types than it takes.
    Operands,
    /// A call has another number of arguments than its callee takes.
    ArgCount,
    /// An argument does not convert to its parameter's type, or `__out` is given a function.
    ArgType,
    /// A callee is neither a function nor a pointer to one.
    NotCallable,
    /// The base of an index is not an array's name.
    NotArray,
    /// An array's name is not the base of an index.
    NeedsIndex,
    /// A value does not convert to what it is assigned to, or a function is assigned to.
    AssignType,
    /// `return e` in a void function, `return` alone in another, or `e` does not convert to the result's type.
    ReturnType,
    /// `break` or `continue` outside a loop.
    OutsideLoop,
    /// An element of an initialiser does not fit its variable, or is one too many.
    Initialiser,
    /// An array's size is 0 or above 65,536, or the unit's variables have more than 262,144 elements.
    ArraySize,
    /// The 121st parameter or local of a function.
    TooManyLocals,
    /// An expression or an assignment holds too many values.
    TooDeep,
    /// A name that is declared is kept for the entry, the tools or C.
    Reserved,
    /// The seventh parameter of a function.
    TooManyParameters,
}

impl Rule {
    /// The name of the rule, as messages give it.
    pub fn name(self) -> &'static str
        ensures { result.now ≡ name_of self }
    {
        match self {
            Rule::Unknown => "Unknown",
            Rule::Redeclared => "Redeclared",
            Rule::Conflict => "Conflict",
            Rule::NotValue => "NotValue",
            Rule::Operands => "Operands",
            Rule::ArgCount => "ArgCount",
            Rule::ArgType => "ArgType",
            Rule::NotCallable => "NotCallable",
            Rule::NotArray => "NotArray",
            Rule::NeedsIndex => "NeedsIndex",
            Rule::AssignType => "AssignType",
            Rule::ReturnType => "ReturnType",
            Rule::OutsideLoop => "OutsideLoop",
            Rule::Initialiser => "Initialiser",
            Rule::ArraySize => "ArraySize",
            Rule::TooManyLocals => "TooManyLocals",
            Rule::TooDeep => "TooDeep",
            Rule::Reserved => "Reserved",
            Rule::TooManyParameters => "TooManyParameters",
        }
    }
}

/// Its name.
impl Display for Rule {
    ghost output = { λ rule. Some (name_of rule) };

    fn fmt<W: Write>(&self, f: &mut Formatter<W>) -> fmt::Result {
        f.write_str(self.name())
    }
}
