// Statements of each form, with copies of their names, places and expressions.
ghost use Rattle.std.specs.Prelude.{◌≡◌, IfOk};
ghost use Rattle.tree_walks.specs.rpp_tree.Tree.{Update, If, From as FromLoop, Construct, Local, New, Delete, Copy as CopyTo, Uncopy, Call};
ghost use Rattle.tree_walks.specs.rpp_tree.Views.{expression_of, lvalue_of, creation_of, optional_lvalue_of, statement_of, block_of};
ghost use Rattle.inverse_rules.specs.Inverse.{inverse_operator};

use std::alloc::Global;
use tree_walks::tree::{Block, Ident, Made, Place, UpdateOp, Var, VarType};
use tree_walks::{
    Expr, NoMemory, Stmt, copy_expr, copy_made, copy_names, copy_place, copy_receiver,
};

/// The operator of the update that undoes one.
pub fn invert_op(op: UpdateOp) -> UpdateOp
    ensures { result ≡ inverse_operator op }
{
    match op {
        UpdateOp::Add => UpdateOp::Sub,
        UpdateOp::Sub => UpdateOp::Add,
        UpdateOp::Xor => UpdateOp::Xor,
    }
}

/// The statement that updates a place by a value.
pub fn update(
    alloc: Global,
    at: u32,
    op: UpdateOp,
    place: &Place,
    value: &Expr,
) -> Result<Stmt, NoMemory>
    ensures { IfOk result (λ s. statement_of s
        ≡ Update at op (lvalue_of place.now) (expression_of value.now)) }
{
    let place = copy_place(alloc, place)?;
    let value = copy_expr(alloc, value)?;
    Ok(Stmt::Update {
        at,
        op,
        place,
        value,
    })
}

/// The statement that runs one of two blocks, with its test and its assertion.
pub fn conditional(
    alloc: Global,
    at: u32,
    test: &Expr,
    yes: Block,
    no: Block,
    after: &Expr,
) -> Result<Stmt, NoMemory>
    ensures { IfOk result (λ s. statement_of s
        ≡ If at (expression_of test.now) (block_of yes) (block_of no) (expression_of after.now)) }
{
    let test = copy_expr(alloc, test)?;
    let after = copy_expr(alloc, after)?;
    Ok(Stmt::If {
        at,
        test,
        yes,
        no,
        after,
    })
}

/// The statement that repeats two blocks between two tests.
pub fn turns(
    alloc: Global,
    at: u32,
    entry: &Expr,
    first: Block,
    again: Block,
    until: &Expr,
) -> Result<Stmt, NoMemory>
    ensures { IfOk result (λ s. statement_of s
        ≡ FromLoop at (expression_of entry.now) (block_of first) (block_of again)
        (expression_of until.now)) }
{
    let entry = copy_expr(alloc, entry)?;
    let until = copy_expr(alloc, until)?;
    Ok(Stmt::From {
        at,
        entry,
        first,
        again,
        until,
    })
}

/// The statement that makes an object for a block and then unmakes it.
pub fn construct(
    alloc: Global,
    at: u32,
    class: &Ident,
    name: &Ident,
    body: Block,
    end: &Ident,
) -> Result<Stmt, NoMemory>
    ensures { IfOk result (λ s. statement_of s
        ≡ Construct at class.now name.now (block_of body) end.now) }
{
    let class = class.copy(alloc)?;
    let name = name.copy(alloc)?;
    let end = end.copy(alloc)?;
    Ok(Stmt::Construct {
        at,
        class,
        name,
        body,
        end,
    })
}

/// A `local`: what it begins with, its body, and what it ends with.
pub fn local(
    alloc: Global,
    at: u32,
    var: &Var,
    value: &Expr,
    body: Block,
    end_var: &Var,
    end_value: &Expr,
) -> Result<Stmt, NoMemory>
    ensures { IfOk result (λ s. statement_of s
        ≡ Local at var.now (expression_of value.now) (block_of body) end_var.now
        (expression_of end_value.now)) }
{
    let var = var.copy(alloc)?;
    let value = copy_expr(alloc, value)?;
    let end_var = end_var.copy(alloc)?;
    let end_value = copy_expr(alloc, end_value)?;
    Ok(Stmt::Local {
        at,
        var,
        value,
        body,
        end_var,
        end_value,
    })
}

/// The statement that makes an object or an array at a place.
pub fn new_stmt(alloc: Global, at: u32, made: &Made, place: &Place) -> Result<Stmt, NoMemory>
    ensures { IfOk result (λ s. statement_of s ≡ New at (creation_of made.now) (lvalue_of place.now)) }
{
    let made = copy_made(alloc, made)?;
    let place = copy_place(alloc, place)?;
    Ok(Stmt::New { at, made, place })
}

/// The statement that unmakes an object or an array at a place.
pub fn delete_stmt(alloc: Global, at: u32, made: &Made, place: &Place) -> Result<Stmt, NoMemory>
    ensures { IfOk result (λ s. statement_of s ≡ Delete at (creation_of made.now) (lvalue_of place.now)) }
{
    let made = copy_made(alloc, made)?;
    let place = copy_place(alloc, place)?;
    Ok(Stmt::Delete { at, made, place })
}

/// The statement that gives a place a second reference to what another refers to.
pub fn copy_stmt(
    alloc: Global,
    at: u32,
    kind: &VarType,
    source: &Place,
    target: &Place,
) -> Result<Stmt, NoMemory>
    ensures { IfOk result (λ s. statement_of s
        ≡ CopyTo at kind.now (lvalue_of source.now) (lvalue_of target.now)) }
{
    let kind = kind.copy(alloc)?;
    let source = copy_place(alloc, source)?;
    let target = copy_place(alloc, target)?;
    Ok(Stmt::Copy {
        at,
        kind,
        source,
        target,
    })
}

/// The statement that takes back such a second reference.
pub fn uncopy_stmt(
    alloc: Global,
    at: u32,
    kind: &VarType,
    source: &Place,
    target: &Place,
) -> Result<Stmt, NoMemory>
    ensures { IfOk result (λ s. statement_of s
        ≡ Uncopy at kind.now (lvalue_of source.now) (lvalue_of target.now)) }
{
    let kind = kind.copy(alloc)?;
    let source = copy_place(alloc, source)?;
    let target = copy_place(alloc, target)?;
    Ok(Stmt::Uncopy {
        at,
        kind,
        source,
        target,
    })
}

/// A call, or an `uncall` if `back` holds.
pub fn call(
    alloc: Global,
    at: u32,
    back: bool,
    receiver: &Option<Place>,
    method: &Ident,
    args: &[Ident],
) -> Result<Stmt, NoMemory>
    ensures { IfOk result (λ s. statement_of s
        ≡ Call at back (optional_lvalue_of receiver.now) method.now args.now) }
{
    let receiver = copy_receiver(alloc, receiver)?;
    let method = method.copy(alloc)?;
    let args = copy_names(alloc, args)?;
    Ok(Stmt::Call {
        at,
        back,
        receiver,
        method,
        args,
    })
}
