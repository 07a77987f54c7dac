//! Declarations and faults of units, as an independent model of the language gives them.
use crate::parsed::parsed;
use pw_tree::Unit;
use std::alloc::{AllocError, Global};
use std::process::Abort;
use std::test::Fail;

/// A text, and the places of its last declaration, or its fault.
type Row = (&'static [u8], &'static str);

/// The last declaration's first token, name, declarator's last token and last token, and its line.
fn places(alloc: Global, unit: &Unit) -> Result<String, AllocError> {
    match unit.decls.as_slice() {
        [.., decl] => {
            let (first, name_at, declarator) = (decl.first, decl.name_at, decl.declarator);
            let (last, line) = (decl.last, decl.line);
            format!(in alloc; "{first},{name_at},{declarator},{last}/{line}")
        }
        [] => Ok(String::new(alloc)),
    }
}

/// The last declaration's places, or the fault.
fn outcome(rt: &impl Abort, alloc: Global, text: &[u8]) -> Result<String, Fail> {
    match parsed(rt, alloc, text)? {
        Ok(unit) => Ok(places(alloc, &unit)?),
        Err(fault) => Ok(format!(in alloc; "{fault:?}")?),
    }
}

/// Each text has its outcome.
fn agree(rt: &impl Abort, alloc: Global, rows: &[Row]) -> Result<(), Fail> {
    for (text, expected) in rows {
        assert_eq!(rt;
            outcome(rt, alloc, text)?.as_str(),
            *expected,
            "in {text:?}"
        );
    }
    Ok(())
}

const EACH_STATEMENT_STANDS_IN_A_FUNCTION: [Row; 27] = [
    // none
    (b"long f(void){}", "0,1,4,6/1"),
    // an empty one
    (b"long f(void){;}", "0,1,4,7/1"),
    // a block
    (b"long f(void){{}}", "0,1,4,8/1"),
    // a block in a block
    (b"long f(void){{;a;}}", "0,1,4,11/1"),
    // a local
    (b"long f(void){long x;}", "0,1,4,9/1"),
    // a local with a value
    (b"long f(void){unsigned long x=1;}", "0,1,4,12/1"),
    // a local pointer
    (b"long f(void){fn2 g=f;}", "0,1,4,11/1"),
    // an assignment
    (b"long f(void){a=b;}", "0,1,4,10/1"),
    // an assignment to an element
    (b"long f(void){a[1]=b;}", "0,1,4,13/1"),
    // an expression
    (b"long f(void){a+b;}", "0,1,4,10/1"),
    // brackets alone
    (b"long f(void){(a);}", "0,1,4,10/1"),
    // `if`
    (b"long f(void){if(a)b;}", "0,1,4,12/1"),
    // `if` and `else`
    (b"long f(void){if(a)b;else c;}", "0,1,4,15/1"),
    // the inner `else`
    (b"long f(void){if(a)if(b)c;else d;}", "0,1,4,19/1"),
    // the outer `else`
    (b"long f(void){if(a){if(b)c;}else d;}", "0,1,4,21/1"),
    // `while`, on two lines
    (b"long f(void){while(a)\nb;}", "0,1,4,12/1"),
    // `do`
    (b"long f(void){do a;while(b);}", "0,1,4,14/1"),
    // `do` with a block
    (b"long f(void){do{a;}while(b);}", "0,1,4,16/1"),
    // `for` without parts
    (b"long f(void){for(;;);}", "0,1,4,12/1"),
    // `for` with a local
    (b"long f(void){for(long i=0;i<9;i=i+1)f(i);}", "0,1,4,28/1"),
    // `for` with assignments
    (b"long f(void){for(a=0;;a[1]=2){}}", "0,1,4,22/1"),
    // `for` with expressions
    (b"long f(void){for(a;b;c)break;}", "0,1,4,16/1"),
    // `return`
    (b"long f(void){return;}", "0,1,4,8/1"),
    // `return` with a value
    (b"long f(void){return a+1;}", "0,1,4,11/1"),
    // `break`, which the grammar allows here
    (b"long f(void){break;}", "0,1,4,8/1"),
    // `continue`, the same
    (b"long f(void){continue;}", "0,1,4,8/1"),
    // several lines
    (b"long f(void){\nlong x;\n{\nreturn\nx;}}", "0,1,4,14/1"),
];

#[test]
fn each_statement_stands_in_a_function(rt: HostRuntime) -> Result<(), Fail> {
    agree(&rt, rt.alloc(), &EACH_STATEMENT_STANDS_IN_A_FUNCTION)
}

const A_STATEMENT_STOPS_AT_THE_FIRST_TOKEN_WITH_NO_PLACE: [Row; 31] = [
    // no `;`
    (b"long f(void){a}", "At(7)"),
    // no value
    (b"long f(void){a=}", "At(8)"),
    // a target has no brackets round it
    (b"long f(void){(a)=1;}", "At(9)"),
    // nor round an element
    (b"long f(void){(a[1])=1;}", "At(12)"),
    // nor round its array
    (b"long f(void){(a)[1]=2;}", "At(12)"),
    // an element of an element is no target
    (b"long f(void){a[1][2]=3;}", "At(13)"),
    // a call is no target
    (b"long f(void){f()=1;}", "At(9)"),
    // assignment is no expression
    (b"long f(void){a=b=c;}", "At(9)"),
    // no `(` after `if`
    (b"long f(void){if a}", "At(7)"),
    // no statement after the test
    (b"long f(void){if(a)}", "At(10)"),
    // a declaration is no body
    (b"long f(void){if(a)long x;}", "At(10)"),
    // `else` without `if`
    (b"long f(void){else}", "At(6)"),
    // a second `else`
    (b"long f(void){if(a);else;else;}", "At(13)"),
    // no `while` after `do`
    (b"long f(void){do a;}", "At(9)"),
    // no `(` after `while`
    (b"long f(void){do a;while b}", "At(10)"),
    // no `;` after `do`
    (b"long f(void){do;while(a)b}", "At(12)"),
    // two `;` in a `for`
    (b"long f(void){for(;)}", "At(9)"),
    // no `)` of a `for`
    (b"long f(void){for(;;}", "At(10)"),
    // there is no comma operator
    (b"long f(void){for(a,b;;)}", "At(9)"),
    // a type without a name
    (b"long f(void){long;}", "At(7)"),
    // no `;` after a local
    (b"long f(void){long x}", "At(8)"),
    // `unsigned` without `long`
    (b"long f(void){unsigned x;}", "At(7)"),
    // a local is not void
    (b"long f(void){void x;}", "At(6)"),
    // one local a declaration
    (b"long f(void){long x,y;}", "At(8)"),
    // a local is no array
    (b"long f(void){long x[1];}", "At(8)"),
    // a name after a value
    (b"long f(void){return a b;}", "At(8)"),
    // `break` takes nothing
    (b"long f(void){break a;}", "At(7)"),
    // no `;` after `continue`
    (b"long f(void){continue}", "At(7)"),
    // a block that does not end
    (b"long f(void){{}", "At(8)"),
    // a brace that closes nothing
    (b"long f(void){}}", "At(7)"),
    // a local is not static
    (b"long f(void){static long x;}", "At(6)"),
];

#[test]
fn a_statement_stops_at_the_first_token_with_no_place(rt: HostRuntime) -> Result<(), Fail> {
    agree(
        &rt,
        rt.alloc(),
        &A_STATEMENT_STOPS_AT_THE_FIRST_TOKEN_WITH_NO_PLACE,
    )
}

const DECLARATIONS_HAVE_THEIR_PLACES: [Row; 22] = [
    // no declaration
    (b"", ""),
    // a variable
    (b"long x;", "0,1,1,2/1"),
    // an `extern` one
    (b"extern long x;", "0,2,2,3/1"),
    // a static one
    (b"static long x;", "0,2,2,3/1"),
    // with a number
    (b"long x=1;", "0,1,1,4/1"),
    // with a number below 0
    (b"long x=-1;", "0,1,1,5/1"),
    // with a function
    (b"long x=f;", "0,1,1,4/1"),
    // an unsigned one
    (b"unsigned long x=0x10u;", "0,2,2,5/1"),
    // with a character
    (b"long x='a';", "0,1,1,4/1"),
    // a pointer
    (b"fn0 g;", "0,1,1,2/1"),
    // an array
    (b"long a[3];", "0,1,4,5/1"),
    // an array with one element
    (b"long a[3]={1};", "0,1,4,9/1"),
    // an array with elements of all forms
    (b"long a[3]={1,-2,f};", "0,1,4,14/1"),
    // a last comma, on two lines
    (b"long a[2]={1,\n2,};", "0,1,4,12/1"),
    // an `extern` array
    (b"extern long a[2];", "0,2,5,6/1"),
    // a prototype
    (b"long f(void);", "0,1,4,5/1"),
    // a void prototype
    (b"void f(void);", "0,1,4,5/1"),
    // an `extern` prototype with names
    (b"extern long f(long a,fn1 g);", "0,2,9,10/1"),
    // a prototype without names
    (b"long f(long,unsigned long);", "0,1,7,8/1"),
    // a definition
    (b"static void f(long a){}", "0,2,6,8/1"),
    // the last of three, on the second line
    (b"long x;long f(void){}\nlong y;", "10,11,11,12/2"),
    // a body with a statement
    (b"void f(long a,long b){a;}", "0,1,8,12/1"),
];

#[test]
fn declarations_have_their_places(rt: HostRuntime) -> Result<(), Fail> {
    agree(&rt, rt.alloc(), &DECLARATIONS_HAVE_THEIR_PLACES)
}

const A_DECLARATION_STOPS_AT_THE_FIRST_TOKEN_WITH_NO_PLACE: [Row; 31] = [
    // no type
    (b"x", "At(0)"),
    // no name
    (b"long", "At(1)"),
    // no `;`
    (b"long x", "At(2)"),
    // a variable is not void
    (b"void x;", "At(2)"),
    // nothing after `static`
    (b"static", "At(1)"),
    // two storage classes
    (b"extern static long x;", "At(1)"),
    // an `extern` variable has no initialiser
    (b"extern long x=1;", "At(3)"),
    // an array begins with a list
    (b"long a[3]=1;", "At(6)"),
    // a variable begins with one element
    (b"long x={1};", "At(3)"),
    // an empty list
    (b"long a[3]={};", "At(7)"),
    // a list that begins with a comma
    (b"long a[3]={,};", "At(7)"),
    // two commas
    (b"long a[3]={1,,};", "At(9)"),
    // no size
    (b"long a[]={1};", "At(3)"),
    // a character is no size
    (b"long a['a'];", "At(3)"),
    // a sign in a size
    (b"long a[-1];", "At(3)"),
    // an initialiser is no expression
    (b"long x=1+2;", "At(4)"),
    // `--` is another token
    (b"long x=--1;", "At(3)"),
    // a sign before a name
    (b"long x=-f;", "At(4)"),
    // an `extern` function has no body
    (b"extern long f(void){}", "At(6)"),
    // a parameter of a definition has a name
    (b"long f(long){}", "At(5)"),
    // each of them
    (b"long f(long a,long){}", "At(8)"),
    // nothing in the brackets of a prototype
    (b"long f();", "At(3)"),
    // `void` stands alone
    (b"long f(void,long a);", "At(4)"),
    // no parameter after the comma
    (b"long f(long a,);", "At(6)"),
    // a body that does not end
    (b"long f(long a){", "At(7)"),
    // a name after the parameters
    (b"long f(void)x", "At(5)"),
    // `;` alone
    (b";", "At(0)"),
    // a second `;`
    (b"long x;;", "At(3)"),
    // `unsigned` without `long`
    (b"unsigned f(void);", "At(1)"),
    // `void` with a name
    (b"long f(void a);", "At(4)"),
    // no such pointer type, so a name
    (b"fn7 x;", "At(0)"),
];

#[test]
fn a_declaration_stops_at_the_first_token_with_no_place(rt: HostRuntime) -> Result<(), Fail> {
    agree(
        &rt,
        rt.alloc(),
        &A_DECLARATION_STOPS_AT_THE_FIRST_TOKEN_WITH_NO_PLACE,
    )
}

const WHAT_A_READER_OF_C_TRIES_FIRST: [Row; 29] = [
    // nothing
    (b"", ""),
    // a word without its statement
    (b"else", "At(0)"),
    // a type alone
    (b"long", "At(1)"),
    // there is no `long long`
    (b"long long", "At(1)"),
    // nor with a name
    (b"long long x;", "At(1)"),
    // a void variable
    (b"void v;", "At(2)"),
    // a parameter without a name in a prototype
    (b"long f(long);", "0,1,4,5/1"),
    // a parameter without a name in a definition
    (b"long f(long) {", "At(5)"),
    // brackets round a target's array
    (b"long f(void) { (t)[i] = e; }", "At(12)"),
    // an element as a target
    (b"long f(void) { t[i] = e; }", "0,1,4,13/1"),
    // two assignments in one
    (b"long f(void) { a = b = c; }", "At(9)"),
    // comparisons in a row
    (b"long f(void) { return a < b < c; }", "0,1,4,13/1"),
    // signs in a row
    (b"long f(void) { return - - 1; }", "0,1,4,11/1"),
    // choices in a row
    (b"long f(void) { return a ? b : c ? d : e; }", "0,1,4,17/1"),
    // calls in a row
    (b"long f(void) { return f(a)(b); }", "0,1,4,15/1"),
    // `else` twice, for two `if`
    (
        b"long f(void) { if (a) if (b) c; else d; else e; }",
        "0,1,4,22/1",
    ),
    // `else` alone
    (b"long f(void) { else; }", "At(6)"),
    // `for` without parts
    (b"long f(void) { for (;;) ; }", "0,1,4,12/1"),
    // `for` with all parts
    (
        b"long f(void) { for (i = 0; i < 2; i = i + 1) ; }",
        "0,1,4,23/1",
    ),
    // `for` with a local alone
    (b"long f(void) { for (long i = 0; ; ) ; }", "0,1,4,16/1"),
    // `for` with a condition alone
    (b"long f(void) { for (; a; ) ; }", "0,1,4,13/1"),
    // `for` with a last part alone
    (b"long f(void) { for (; ; a) ; }", "0,1,4,13/1"),
    // `for` without a last part
    (b"long f(void) { for (a; b; ) ; }", "0,1,4,14/1"),
    // `for` without a condition
    (b"long f(void) { for (a; ; c) ; }", "0,1,4,14/1"),
    // `for` without a first part
    (b"long f(void) { for (; b; c) ; }", "0,1,4,14/1"),
    // a last comma
    (b"long t[2] = { 1, 2, };", "0,1,4,12/1"),
    // no right operand
    (b"long f(void) { return 1 + ; }", "At(9)"),
    // a text that ends in a test
    (b"long f(void) { if (a", "At(9)"),
    // a declaration as a body
    (b"long f(void) { if (a) long x; }", "At(10)"),
];

#[test]
fn what_a_reader_of_c_tries_first(rt: HostRuntime) -> Result<(), Fail> {
    agree(&rt, rt.alloc(), &WHAT_A_READER_OF_C_TRIES_FIRST)
}
