// Copies of blocks and statements.
ghost use Rattle.std.specs.Prelude.{◌≡◌, IfOk, map};
ghost use Rattle.rpp_tree.specs.Views.{statement_of, block_of, statements_of};

use crate::copy_values::{copy_created, copy_exprs, copy_places, copy_receiver, copy_sides};
use rpp_tree::copy_names;
use rpp_tree::tree::{Block, Stmt};
use std::alloc::{AllocError, Global};

/// An equal block, with equal places. The only error is that memory ran out.
#[cycle(copy_code)]
pub fn copy_block(alloc: Global, block: &Block) -> Result<Block, AllocError>
    ensures { IfOk result (λ copied. block_of copied ≡ block_of block.now) }
{
    let mut list = Vec::new(alloc);
    for stmt in &block.list {
        list.push(copy_statement(alloc, stmt)?)?;
    }
    Ok(Block { list })
}

/// An equal statement, with equal places. The only error is that memory ran out.
#[cycle(copy_code)]
pub fn copy_statement(alloc: Global, stmt: &Stmt) -> Result<Stmt, AllocError>
    ensures { IfOk result (λ copied. statement_of copied ≡ statement_of stmt.now) }
{
    match stmt {
        Stmt::Update {
            at,
            op,
            place,
            value,
        } => {
            let (place, value) = copy_sides(alloc, place, value)?;
            Ok(Stmt::Update {
                at: *at,
                op: *op,
                place,
                value,
            })
        }
        Stmt::Swap { at, left, right } => {
            let (left, right) = copy_places(alloc, left, right)?;
            Ok(Stmt::Swap {
                at: *at,
                left,
                right,
            })
        }
        Stmt::If {
            at,
            test,
            yes,
            no,
            after,
        } => {
            let yes = copy_block(alloc, yes)?;
            let no = copy_block(alloc, no)?;
            let (test, after) = copy_exprs(alloc, test, after)?;
            Ok(Stmt::If {
                at: *at,
                test,
                yes,
                no,
                after,
            })
        }
        Stmt::From {
            at,
            entry,
            first,
            again,
            until,
        } => {
            let first = copy_block(alloc, first)?;
            let again = copy_block(alloc, again)?;
            let (entry, until) = copy_exprs(alloc, entry, until)?;
            Ok(Stmt::From {
                at: *at,
                entry,
                first,
                again,
                until,
            })
        }
        Stmt::Construct {
            at,
            class,
            name,
            body,
            end,
        } => {
            let class = class.copy(alloc)?;
            let name = name.copy(alloc)?;
            let body = copy_block(alloc, body)?;
            Ok(Stmt::Construct {
                at: *at,
                class,
                name,
                body,
                end: end.copy(alloc)?,
            })
        }
        Stmt::Local {
            at,
            var,
            value,
            body,
            end_var,
            end_value,
        } => {
            let var = var.copy(alloc)?;
            let end_var = end_var.copy(alloc)?;
            let body = copy_block(alloc, body)?;
            let (value, end_value) = copy_exprs(alloc, value, end_value)?;
            Ok(Stmt::Local {
                at: *at,
                var,
                value,
                body,
                end_var,
                end_value,
            })
        }
        Stmt::New { at, made, place } => {
            let (made, place) = copy_created(alloc, made, place)?;
            Ok(Stmt::New {
                at: *at,
                made,
                place,
            })
        }
        Stmt::Delete { at, made, place } => {
            let (made, place) = copy_created(alloc, made, place)?;
            Ok(Stmt::Delete {
                at: *at,
                made,
                place,
            })
        }
        Stmt::Copy {
            at,
            kind,
            source,
            target,
        } => {
            let kind = kind.copy(alloc)?;
            let (source, target) = copy_places(alloc, source, target)?;
            Ok(Stmt::Copy {
                at: *at,
                kind,
                source,
                target,
            })
        }
        Stmt::Uncopy {
            at,
            kind,
            source,
            target,
        } => {
            let kind = kind.copy(alloc)?;
            let (source, target) = copy_places(alloc, source, target)?;
            Ok(Stmt::Uncopy {
                at: *at,
                kind,
                source,
                target,
            })
        }
        Stmt::Call {
            at,
            back,
            receiver,
            method,
            args,
        } => {
            let method = method.copy(alloc)?;
            let args = copy_names(alloc, args)?;
            Ok(Stmt::Call {
                at: *at,
                back: *back,
                receiver: copy_receiver(alloc, receiver)?,
                method,
                args,
            })
        }
        Stmt::Skip { at } => Ok(Stmt::Skip { at: *at }),
    }
}
