// Equality up to offsets.
ghost use Rattle.std.specs.Prelude.{◌≡◌, ◌↔◌, IsTrue};
ghost use Rattle.rpp_tree.specs.Views.{expression_of, lvalue_of};
ghost use Rattle.rpp_tree.specs.Bare.{bare_name, bare_type, bare_var, bare_expression, bare_lvalue};

use rpp_tree::tree::{Expr, Ident, Place, Var, VarType};

/// Whether two names are the same up to their offsets.
pub fn alike_names(a: &Ident, b: &Ident) -> bool
    ensures { IsTrue result ↔ (bare_name a.now ≡ bare_name b.now) }
{
    a.text.same(&b.text)
}

/// Whether two types are the same up to the offsets of their names.
pub fn alike_types(a: &VarType, b: &VarType) -> bool
    ensures { IsTrue result ↔ (bare_type a.now ≡ bare_type b.now) }
{
    match (a, b) {
        (VarType::Int, VarType::Int) => true,
        (VarType::Class(x), VarType::Class(y)) => alike_names(x, y),
        (VarType::IntArray, VarType::IntArray) => true,
        (VarType::ClassArray(x), VarType::ClassArray(y)) => alike_names(x, y),
        _ => false,
    }
}

/// Whether two variables are the same up to the offsets of their names.
pub fn alike_vars(a: &Var, b: &Var) -> bool
    ensures { IsTrue result ↔ (bare_var a.now ≡ bare_var b.now) }
{
    alike_types(&a.kind, &b.kind) && alike_names(&a.name, &b.name)
}

/// Whether two places are the same up to offsets, those of their indices included.
#[cycle(alike_values)]
pub fn alike_places(a: &Place, b: &Place) -> bool
    ensures { IsTrue result ↔ (bare_lvalue (lvalue_of a.now) ≡ bare_lvalue (lvalue_of b.now)) }
{
    match (&a.index, &b.index) {
        (None, None) => alike_names(&a.name, &b.name),
        (Some(x), Some(y)) => alike_names(&a.name, &b.name) && alike_exprs(x, y),
        _ => false,
    }
}

/// Whether two expressions are the same up to the offsets in them.
#[cycle(alike_values)]
pub fn alike_exprs(a: &Expr, b: &Expr) -> bool
    ensures { IsTrue result ↔ (bare_expression (expression_of a.now)
        ≡ bare_expression (expression_of b.now)) }
{
    match (a, b) {
        (Expr::Number { word: x, .. }, Expr::Number { word: y, .. }) => x == y,
        (Expr::Nil { .. }, Expr::Nil { .. }) => true,
        (Expr::Read(x), Expr::Read(y)) => alike_places(x, y),
        (
            Expr::Binary {
                op,
                left,
                right,
                ..
            },
            Expr::Binary {
                op: other_op,
                left: other_left,
                right: other_right,
                ..
            },
        ) => op == other_op && alike_exprs(left, other_left) && alike_exprs(right, other_right),
        _ => false,
    }
}
