// Trees that are copied, compared, counted and inverted.
ghost use Rattle.std.specs.Prelude.{◌≡◌, IfOk};
ghost use Rattle.stmt_inverter.specs.rpp_tree.Tree.{nodes as node_count, index_nodes, statement_nodes};
ghost use Rattle.stmt_inverter.specs.rpp_tree.Views.{expression_of, lvalue_of, statement_of};

use roopl_judge::{Checked, judge};
use std::alloc::{AllocError, Global};
use std::process::Abort;
use std::test::Fail;
use stmt_inverter::tree::{BinOp, Block, Ident, Place, Program, UpdateOp};
use stmt_inverter::{
    Expr, NoMemory, Stmt, Text, alike, copy_program, depth, invert_block, invert_stmt, nodes,
};

const FIRST: &str = "class P int x int[] a method main() a[x = 0] += x = 1";

const ELSEWHERE: &str = "class P  int x  int[] a\nmethod main()\n  a[x = 0] += x = 1";

const OTHER: &str = "class P int x int[] a method main() a[x = 0] += x = 2";

/// A program, if a text is one.
fn checked<R: Abort>(rt: &R, alloc: Global, text: &str) -> Result<Option<Checked>, Fail> {
    assert!(rt; text.len() < 1000);
    match judge(alloc, text.as_bytes()) {
        Ok(checked) => Ok(Some(checked)),
        Err(_) => Ok(None),
    }
}

/// Whether a program, and its copy, are as the first one.
fn compare(alloc: Global, first: &Program, other: &Program) -> Result<(bool, bool), AllocError> {
    let copied = copy_program(alloc, other)?;
    Ok((alike(first, other), alike(first, &copied)))
}

/// The same of the program that a text is, if it is one.
fn compare_text<R: Abort>(
    rt: &R,
    alloc: Global,
    first: &Program,
    text: &str,
) -> Result<Option<(bool, bool)>, Fail> {
    match checked(rt, alloc, text)? {
        Some(other) => Ok(Some(compare(alloc, first, other.program())?)),
        None => Ok(None),
    }
}

/// Compares the texts with the first one.
fn compare_texts<R: Abort>(rt: &R, alloc: Global, first: &Program) -> Result<(), Fail> {
    for (text, same) in [(FIRST, true), (ELSEWHERE, true), (OTHER, false)] {
        let found = compare_text(rt, alloc, first, text)?;
        assert_eq!(rt; found, Some((same, same)), "{text}");
    }
    Ok(())
}

#[test]
fn compares_and_copies(rt: HostRuntime) -> Result<(), Fail> {
    let alloc = rt.alloc();
    match checked(&rt, alloc, FIRST)? {
        Some(first) => compare_texts(&rt, alloc, first.program())?,
        None => assert!(rt; false),
    }
    Ok(())
}

/// The operator of an update.
fn operator_of(statement: &Stmt) -> Option<UpdateOp> {
    match statement {
        Stmt::Update { op, .. } => Some(*op),
        _ => None,
    }
}

/// The first statement of the first method.
fn first_statement(program: &Program) -> Option<&Stmt> {
    program.classes.first()?.methods.first()?.body.list.first()
}

/// The operator of the first statement of a block.
fn first_operator(block: &Block) -> Option<UpdateOp> {
    match block.list.first() {
        Some(statement) => operator_of(statement),
        None => None,
    }
}

/// The block of the inverse of a statement.
fn inverse_of(alloc: Global, there: &Stmt) -> Result<Block, NoMemory> {
    let list = vec![in alloc; invert_stmt(alloc, there)?]?;
    Ok(Block { list })
}

/// The operators of the inverse of an update, and of the inverse of its inverse in a block.
fn inverse_operators(
    alloc: Global,
    there: &Stmt,
) -> Result<(Option<UpdateOp>, Option<UpdateOp>), NoMemory> {
    let back = inverse_of(alloc, there)?;
    let again = invert_block(alloc, &back)?;
    Ok((first_operator(&back), first_operator(&again)))
}

#[test]
fn inverts(rt: HostRuntime) -> Result<(), Fail> {
    let alloc = rt.alloc();
    match checked(&rt, alloc, FIRST)? {
        Some(checked) => match first_statement(checked.program()) {
            Some(there) => {
                let (back, again) = inverse_operators(alloc, there)?;
                assert_eq!(rt; back, Some(UpdateOp::Sub), "the inverse");
                assert_eq!(rt; again, Some(UpdateOp::Add), "the inverse of the inverse");
            }
            None => assert!(rt; false),
        },
        None => assert!(rt; false),
    }
    Ok(())
}

fn ident(alloc: Global, text: &str) -> Result<Ident, AllocError> {
    Ok(Ident {
        at: 5,
        text: Text::of(alloc, text.as_bytes())?,
    })
}

/// `x`
fn variable(alloc: Global) -> Result<Expr, AllocError>
    ensures { IfOk result (λ e. node_count (expression_of e) ≡ 1) }
{
    Ok(Expr::Read(Place {
        name: ident(alloc, "x")?,
        index: None,
    }))
}

/// `x = word`
fn comparison(alloc: Global, word: u32) -> Result<Expr, AllocError>
    ensures { IfOk result (λ e. node_count (expression_of e) ≡ 3) }
{
    let left = Box::new(alloc, variable(alloc)?)?;
    Ok(Expr::Binary {
        at: 5,
        op: BinOp::Equal,
        left,
        right: Box::new(alloc, Expr::Number { at: 5, word })?,
    })
}

/// `a[x = 0]`
fn element(alloc: Global) -> Result<Place, AllocError>
    ensures { IfOk result (λ place. index_nodes (lvalue_of place) ≡ 3) }
{
    let name = ident(alloc, "a")?;
    let index = Box::new(alloc, comparison(alloc, 0)?)?;
    Ok(Place {
        name,
        index: Some(index),
    })
}

/// `a[x = 0] += x = 1`
fn update(alloc: Global) -> Result<Stmt, AllocError>
    ensures nodes { IfOk result (λ s. statement_nodes (statement_of s) ≡ 6) }
{
    let place = element(alloc)?;
    Ok(Stmt::Update {
        at: 5,
        op: UpdateOp::Add,
        place,
        value: comparison(alloc, 1)?,
    })
}

#[test]
fn counts(rt: HostRuntime) -> Result<(), Fail> {
    let simple = update(rt.alloc())?;
    assert_eq!(rt; nodes(&simple), 6, "nodes");
    let empty = Block {
        list: Vec::new(rt.alloc()),
    };
    assert_eq!(rt; depth(&empty), 0, "depth");
    Ok(())
}
