// The inverses of statements and blocks.
ghost use Rattle.std.specs.Prelude.{◌≡◌, not, if◌then◌else◌, IfOk};
ghost use Rattle.tree_walks.specs.rpp_tree.Views.{statement_of, block_of};
ghost use Rattle.inverse_rules.specs.Inverse.{inverse_statement_as, inverse_as, inverse_statement, inverse};

use crate::form::{
    call, conditional, construct, copy_stmt, delete_stmt, invert_op, local, new_stmt, turns,
    uncopy_stmt, update,
};
use std::alloc::Global;
use tree_walks::tree::Block;
use tree_walks::{NoMemory, Stmt, copy_statement};

/// The statement that undoes a statement.
pub fn invert_stmt(alloc: Global, s: &Stmt) -> Result<Stmt, NoMemory>
    ensures { IfOk result (λ inverted. statement_of inverted ≡ inverse_statement (statement_of s.now)) }
{
    undo_stmt(alloc, s, true)
}

/// The block that undoes a block.
pub fn invert_block(alloc: Global, b: &Block) -> Result<Block, NoMemory>
    ensures { IfOk result (λ inverted. block_of inverted ≡ inverse (block_of b.now)) }
{
    undo_block(alloc, b, true)
}

/// The direction of an inverted call.
fn turn_call(back: bool, turn: bool) -> bool
    ensures { result ≡ (if turn then not back else back) }
{
    if turn { !back } else { back }
}

/// The statements of a block undone, the last first; calls turn or stay.
#[cycle(undo)]
pub(crate) fn undo_block(alloc: Global, b: &Block, turn: bool) -> Result<Block, NoMemory>
    ensures { IfOk result (λ inverted. block_of inverted ≡ inverse_as turn (block_of b.now)) }
{
    let mut list = Vec::new(alloc);
    for stmt in &b.list {
        list.push(undo_stmt(alloc, stmt, turn)?)?;
    }
    list.reverse();
    Ok(Block { list })
}

/// A statement undone; calls turn or stay.
#[cycle(undo)]
fn undo_stmt(alloc: Global, s: &Stmt, turn: bool) -> Result<Stmt, NoMemory>
    ensures { IfOk result (λ inverted. statement_of inverted
        ≡ inverse_statement_as turn (statement_of s.now)) }
{
    match s {
        Stmt::If {
            at,
            test,
            yes,
            no,
            after,
        } => {
            let yes = undo_block(alloc, yes, turn)?;
            let no = undo_block(alloc, no, turn)?;
            conditional(alloc, *at, after, yes, no, test)
        }
        Stmt::From {
            at,
            entry,
            first,
            again,
            until,
        } => {
            let first = undo_block(alloc, first, turn)?;
            let again = undo_block(alloc, again, turn)?;
            turns(alloc, *at, until, first, again, entry)
        }
        Stmt::Construct {
            at,
            class,
            name,
            body,
            end,
        } => {
            let body = undo_block(alloc, body, turn)?;
            construct(alloc, *at, class, name, body, end)
        }
        Stmt::Local {
            at,
            var,
            value,
            body,
            end_var,
            end_value,
        } => {
            let body = undo_block(alloc, body, turn)?;
            local(alloc, *at, end_var, end_value, body, var, value)
        }
        Stmt::Update {
            at,
            op,
            place,
            value,
        } => update(alloc, *at, invert_op(*op), place, value),
        Stmt::New { at, made, place } => delete_stmt(alloc, *at, made, place),
        Stmt::Delete { at, made, place } => new_stmt(alloc, *at, made, place),
        Stmt::Copy {
            at,
            kind,
            source,
            target,
        } => uncopy_stmt(alloc, *at, kind, source, target),
        Stmt::Uncopy {
            at,
            kind,
            source,
            target,
        } => copy_stmt(alloc, *at, kind, source, target),
        Stmt::Call {
            at,
            back,
            receiver,
            method,
            args,
        } => { call(alloc, *at, turn_call(*back, turn), receiver, method, args) }
        Stmt::Swap { .. } | Stmt::Skip { .. } => Ok(copy_statement(alloc, s)?),
    }
}
