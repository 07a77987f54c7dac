//! The trees of statements, as an independent model of the language gives them.
use crate::parsed::parsed;
use crate::tree_text::show_statements;
use pw_tree::{DeclKind, Unit};
use std::alloc::{AllocError, Global};
use std::process::Abort;
use std::test::Fail;

/// A text, and the body of its last declaration.
type Row = (&'static [u8], &'static str);

/// The body of the last declaration, in braces.
fn body_text(alloc: Global, unit: &Unit) -> Result<String, AllocError> {
    let mut out = String::new(alloc);
    if let [.., decl] = unit.decls.as_slice()
        && let DeclKind::Fun(_, _, body) = &decl.kind
    {
        out.push('{')?;
        show_statements(alloc, &mut out, body.as_slice())?;
        out.push_str(" }")?;
    }
    Ok(out)
}

/// Each text has its body.
fn agree(rt: &impl Abort, alloc: Global, rows: &[Row]) -> Result<(), Fail> {
    for (text, expected) in rows {
        let unit = parsed(rt, alloc, text)??;
        assert_eq!(rt; body_text(alloc, &unit)?.as_str(), *expected, "in {text:?}");
    }
    Ok(())
}

const AN_ELSE_BELONGS_TO_THE_NEAREST_IF: [Row; 5] = [
    // the inner `if`
    (
        b"long f(void){if(a)if(b)c();else d();}",
        "{ (If@6-22/1 a@8-8/1 (If@10-22/1 b@12-12/1 (Eval@14-17/1 (Call@14-16/1 c@14-14/1)) (Eval@19-22/1 (Call@19-21/1 d@19-19/1))) -) }",
    ),
    // a block ends the inner one
    (
        b"long f(void){if(a){if(b)c();}else d();}",
        "{ (If@6-24/1 a@8-8/1 (Block@10-19/1 (If@11-18/1 b@13-13/1 (Eval@15-18/1 (Call@15-17/1 c@15-15/1)) -)) (Eval@21-24/1 (Call@21-23/1 d@21-21/1))) }",
    ),
    // through a `while`
    (
        b"long f(void){if(a)while(b)if(c);else;}",
        "{ (If@6-20/1 a@8-8/1 (While@10-20/1 b@12-12/1 (If@14-20/1 c@16-16/1 (Empty@18-18/1) (Empty@20-20/1))) -) }",
    ),
    // a `do` ends what stands in it
    (
        b"long f(void){if(a)do if(b);else;while(c);else;}",
        "{ (If@6-24/1 a@8-8/1 (Do@10-22/1 (If@11-17/1 b@13-13/1 (Empty@15-15/1) (Empty@17-17/1)) c@20-20/1) (Empty@24-24/1)) }",
    ),
    // one after another
    (
        b"long f(void){if(a)b();else if(c)d();else if(e);else{}}",
        "{ (If@6-31/1 a@8-8/1 (Eval@10-13/1 (Call@10-12/1 b@10-10/1)) (If@15-31/1 c@17-17/1 (Eval@19-22/1 (Call@19-21/1 d@19-19/1)) (If@24-31/1 e@26-26/1 (Empty@28-28/1) (Block@30-31/1)))) }",
    ),
];

#[test]
fn an_else_belongs_to_the_nearest_if(rt: HostRuntime) -> Result<(), Fail> {
    agree(&rt, rt.alloc(), &AN_ELSE_BELONGS_TO_THE_NEAREST_IF)
}

const LOOPS_HAVE_THEIR_PARTS: [Row; 6] = [
    // a statement that holds another as the body
    (
        b"long f(void){while(a)if(b)c();}",
        "{ (While@6-17/1 a@8-8/1 (If@10-17/1 b@12-12/1 (Eval@14-17/1 (Call@14-16/1 c@14-14/1)) -)) }",
    ),
    // both words in a body
    (
        b"long f(void){while(a){break;continue;}}",
        "{ (While@6-15/1 a@8-8/1 (Block@10-15/1 (Break@11-12/1) (Continue@13-14/1))) }",
    ),
    // the condition after the body
    (
        b"long f(void){do a();while(b);}",
        "{ (Do@6-15/1 (Eval@7-10/1 (Call@7-9/1 a@7-7/1)) b@13-13/1) }",
    ),
    // a local as the first part
    (
        b"long f(void){for(long i=0;i<9;i=i+1)f(i);}",
        "{ (For@6-27/1 (Local@8-12/1 Long i 0@11-11/1) (Lt@13-15/1 i@13-13/1 9@15-15/1) (Set@17-21/1 i - (Add@19-21/1 i@19-19/1 1@21-21/1)) (Eval@23-27/1 (Call@23-26/1 f@23-23/1 i@25-25/1))) }",
    ),
    // an expression first, an assignment last
    (
        b"long f(void){for(g();a;t[1]=2){}}",
        "{ (For@6-22/1 (Eval@8-10/1 (Call@8-10/1 g@8-8/1)) a@12-12/1 (Set@14-19/1 t 1@16-16/1 2@19-19/1) (Block@21-22/1)) }",
    ),
    // no part but the body
    (
        b"long f(void){for(;;);}",
        "{ (For@6-11/1 - - - (Empty@11-11/1)) }",
    ),
];

#[test]
fn loops_have_their_parts(rt: HostRuntime) -> Result<(), Fail> {
    agree(&rt, rt.alloc(), &LOOPS_HAVE_THEIR_PARTS)
}

const SIMPLE_STATEMENTS_HAVE_THEIR_PARTS: [Row; 6] = [
    // none
    (b"long f(void){}", "{ }"),
    // an empty one
    (b"long f(void){;}", "{ (Empty@6-6/1) }"),
    // blocks in one another
    (
        b"long f(void){{;{{}a;}}}",
        "{ (Block@6-14/1 (Empty@7-7/1) (Block@8-13/1 (Block@9-10/1) (Eval@11-12/1 a@11-11/1))) }",
    ),
    // assignments, and expressions alone
    (
        b"long f(void){a=b;t[i]=e;f(e);t[i];}",
        "{ (Set@6-9/1 a - b@8-8/1) (Set@10-16/1 t i@12-12/1 e@15-15/1) (Eval@17-21/1 (Call@17-20/1 f@17-17/1 e@19-19/1)) (Eval@22-26/1 (Index@22-25/1 t@22-22/1 i@24-24/1)) }",
    ),
    // with a value and without
    (
        b"long f(void){return;return e;}",
        "{ (Return@6-7/1 -) (Return@8-10/1 e@9-9/1) }",
    ),
    // locals of several types
    (
        b"long f(void){long a=1;unsigned long b;fn2 c=f;}",
        "{ (Local@6-10/1 Long a 1@9-9/1) (Local@11-14/1 Ulong b -) (Local@15-19/1 Fn(2) c f@18-18/1) }",
    ),
];

#[test]
fn simple_statements_have_their_parts(rt: HostRuntime) -> Result<(), Fail> {
    agree(&rt, rt.alloc(), &SIMPLE_STATEMENTS_HAVE_THEIR_PARTS)
}

const EXPRESSIONS_STAND_IN_STATEMENTS: [Row; 6] = [
    // to the left
    (
        b"long f(void){a<b<c;}",
        "{ (Eval@6-11/1 (Lt@6-10/1 (Lt@6-8/1 a@6-6/1 b@8-8/1) c@10-10/1)) }",
    ),
    // prefix operators in one another
    (
        b"long f(void){- -1;}",
        "{ (Eval@6-9/1 (Neg@6-8/1 (Neg@7-8/1 1@8-8/1))) }",
    ),
    // a choice to the right
    (
        b"long f(void){a?b:c?d:e;}",
        "{ (Eval@6-15/1 (Cond@6-14/1 a@6-6/1 b@8-8/1 (Cond@10-14/1 c@10-10/1 d@12-12/1 e@14-14/1))) }",
    ),
    // a call of what a call gives
    (
        b"long f(void){f(a)(b);}",
        "{ (Eval@6-13/1 (Call@6-12/1 (Call@6-9/1 f@6-6/1 a@8-8/1) b@11-11/1)) }",
    ),
    // the phrase round brackets counts them
    (
        b"long f(void){return(a+b)*2u;}",
        "{ (Return@6-14/1 (Mul@7-13/1 (Add@8-10/1 a@8-8/1 b@10-10/1) 2u@13-13/1)) }",
    ),
    // input, output, and a character as an index
    (
        b"long f(void){t[__in()]=__out(t['A']);}",
        "{ (Set@6-20/1 t (Input@8-10/1) (Output@13-19/1 (Index@15-18/1 t@15-15/1 65@17-17/1))) }",
    ),
];

#[test]
fn expressions_stand_in_statements(rt: HostRuntime) -> Result<(), Fail> {
    agree(&rt, rt.alloc(), &EXPRESSIONS_STAND_IN_STATEMENTS)
}

const STATEMENTS_STAND_ON_SEVERAL_LINES: [Row; 2] = [
    // a statement has its first token's line, an operator its own
    (
        b"long f(void)\n{\nif(a)\n{\nb=\n1;}\nelse\nreturn\nc\n+d;\nlong x;}",
        "{ (If@6-21/3 a@8-8/3 (Block@10-15/4 (Set@11-14/5 b - 1@13-13/6)) (Return@17-21/8 (Add@18-20/10 c@18-18/9 d@20-20/10))) (Local@22-24/11 Long x -) }",
    ),
    // each part of a `for` has its own line
    (
        b"long x;\nlong f(void){\nfor(\nlong i=0;\n;\ni=1\n)\n{\ndo\n;while(\n1);}}",
        "{ (For@9-29/3 (Local@11-15/4 Long i 0@14-14/4) - (Set@17-19/6 i - 1@19-19/6) (Block@21-29/8 (Do@22-28/9 (Empty@23-23/10) 1@26-26/11))) }",
    ),
];

#[test]
fn statements_stand_on_several_lines(rt: HostRuntime) -> Result<(), Fail> {
    agree(&rt, rt.alloc(), &STATEMENTS_STAND_ON_SEVERAL_LINES)
}
