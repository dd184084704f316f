// Counts over syntax trees.
ghost use Rattle.std.specs.Prelude.{◌≡◌, ◌+◌, ◌<◌, ◌^◌};
ghost use Rattle.rpp_tree.specs.Tree.{nodes as node_count, index_nodes, creation_nodes, receiver_nodes, statement_nodes, depth as nesting, statement_depth};
ghost use Rattle.rpp_tree.specs.Views.{expression_of, lvalue_of, creation_of, optional_lvalue_of, statement_of, block_of};

use rpp_tree::tree::{Block, Expr, Made, Place, Stmt};

/// The nodes of an expression.
#[cycle(count_nodes)]
fn expr_nodes(e: &Expr) -> u64
    requires { node_count (expression_of e.now) < 2 ^ 64 }
    ensures { result ≡ node_count (expression_of e.now) }
{
    match e {
        Expr::Number { .. } => 1,
        Expr::Nil { .. } => 1,
        Expr::Read(place) => 1 + place_nodes(place),
        Expr::Binary { left, right, .. } => 1 + expr_nodes(left) + expr_nodes(right),
    }
}

/// The nodes of a place's index.
#[cycle(count_nodes)]
fn place_nodes(place: &Place) -> u64
    requires { index_nodes (lvalue_of place.now) < 2 ^ 64 }
    ensures { result ≡ index_nodes (lvalue_of place.now) }
{
    match &place.index {
        None => 0,
        Some(index) => expr_nodes(index),
    }
}

fn made_nodes(made: &Made) -> u64
    requires { creation_nodes (creation_of made.now) < 2 ^ 64 }
    ensures { result ≡ creation_nodes (creation_of made.now) }
{
    match made {
        Made::Object(_) => 0,
        Made::Ints(length) => expr_nodes(length),
        Made::Objects(_, length) => expr_nodes(length),
    }
}

fn receiver_count(receiver: &Option<Place>) -> u64
    requires { receiver_nodes (optional_lvalue_of receiver.now) < 2 ^ 64 }
    ensures { result ≡ receiver_nodes (optional_lvalue_of receiver.now) }
{
    match receiver {
        None => 0,
        Some(place) => place_nodes(place),
    }
}

/// How many expression nodes are in a statement itself, and not in its inner statements: one for
/// each literal, variable, element and operator, with those of indexes. An element receiver counts
/// its index once.
pub fn nodes(s: &Stmt) -> u64
    requires { statement_nodes (statement_of s.now) < 2 ^ 64 }
    ensures { result ≡ statement_nodes (statement_of s.now) }
{
    match s {
        Stmt::Update { place, value, .. } => place_nodes(place) + expr_nodes(value),
        Stmt::Swap { left, right, .. } => place_nodes(left) + place_nodes(right),
        Stmt::If { test, after, .. } => expr_nodes(test) + expr_nodes(after),
        Stmt::From { entry, until, .. } => expr_nodes(entry) + expr_nodes(until),
        Stmt::Construct { .. } => 0,
        Stmt::Local {
            value,
            end_value,
            ..
        } => expr_nodes(value) + expr_nodes(end_value),
        Stmt::New { made, place, .. } => made_nodes(made) + place_nodes(place),
        Stmt::Delete { made, place, .. } => made_nodes(made) + place_nodes(place),
        Stmt::Copy { source, target, .. } => place_nodes(source) + place_nodes(target),
        Stmt::Uncopy { source, target, .. } => place_nodes(source) + place_nodes(target),
        Stmt::Call { receiver, .. } => receiver_count(receiver),
        Stmt::Skip { .. } => 0,
    }
}

/// The deepest nesting of statements: 0 for an empty block, and 1 if no statement holds another.
#[cycle(nesting)]
pub fn depth(b: &Block) -> u64
    requires { nesting (block_of b.now) < 2 ^ 64 }
    ensures { result ≡ nesting (block_of b.now) }
{
    let mut deepest = 0;
    for stmt in &b.list {
        let below = stmt_depth(stmt);
        if below > deepest {
            deepest = below;
        }
    }
    deepest
}

#[cycle(nesting)]
fn stmt_depth(s: &Stmt) -> u64
    requires { statement_depth (statement_of s.now) < 2 ^ 64 }
    ensures { result ≡ statement_depth (statement_of s.now) }
{
    match s {
        Stmt::If { yes, no, .. } => 1 + depth(yes).max(depth(no)),
        Stmt::From { first, again, .. } => 1 + depth(first).max(depth(again)),
        Stmt::Construct { body, .. } => 1 + depth(body),
        Stmt::Local { body, .. } => 1 + depth(body),
        _ => 1,
    }
}
