// Calls on elements of arrays.
ghost use Rattle.std.specs.Prelude.{◌≡◌, ◌<◌, ◌≤◌, ◌+◌, ◌*◌, [], Some, length, IfOk, OnOk};
ghost use Rattle.std.specs.Option.{option_map};
ghost use Rattle.refine_objects.specs.rpp_tree.Places.{place_name};
ghost use Rattle.refine_objects.specs.rpp_tree.Tree.{Whole};
ghost use Rattle.refine_objects.specs.rpp_tree.Views.{lvalue_of};
ghost use Rattle.branch_codegen.specs.code_conventions.declared.memory.TheConstants.{MOST_VARIABLES};
ghost use Rattle.branch_codegen.specs.code_scope.Visible.{spot_of as spot_of_name, free_words_of, kind_named, known_in};
ghost use Rattle.branch_codegen.specs.expr_uncompute.Code.{place_words as words_of_place};
ghost use Rattle.branch_codegen.specs.expr_uncompute.Promises.{SwapLaw};
ghost use Rattle.branch_codegen.specs.expr_uncompute.Steps.{place_tokens};
ghost use Rattle.branch_codegen.specs.roopl_semantics.Execution.{element_name};
ghost use Rattle.statement_codegen.specs.Laws.{element_type as type_of_element, element_var as var_of_element, ExchangedCall, ElementLaw};

use crate::calls::call_code;
use crate::locals::local_code;
use branch_codegen::{Scope, swap_code};
use refine_form::memory::EXPRESSION_WORDS;
use refine_form::{NoMemory, Piece, seq};
use refine_objects::tree::{Ident, Place, Var, VarType};
use refine_objects::{Expr, Text};
use std::alloc::Global;

// The type of the elements of an array of references; int for any other type.
fn element_type(alloc: Global, kind: &VarType) -> Result<VarType, NoMemory>
    ensures { IfOk result (λ element. element ≡ type_of_element (Some kind.now)) }
{
    match kind {
        VarType::Int => Ok(VarType::Int),
        VarType::Class(_name) => Ok(VarType::Int),
        VarType::IntArray => Ok(VarType::Int),
        VarType::ClassArray(name) => Ok(VarType::Class(name.copy(alloc)?)),
    }
}

// The type of the elements of the variable of a name.
fn type_in(alloc: Global, array: &Ident, scope: &Scope) -> Result<VarType, NoMemory>
    ensures { IfOk result (λ element. element
        ≡ type_of_element (kind_named (known_in scope.now) array.now.text)) }
{
    match scope.kind(&array.text) {
        None => Ok(VarType::Int),
        Some(kind) => element_type(alloc, kind),
    }
}

// The variable that holds an element of this array.
fn element_var(alloc: Global, at: u32, array: &Ident, scope: &Scope) -> Result<Var, NoMemory>
    ensures { IfOk result (λ var. var ≡ var_of_element scope.now at array.now) }
{
    let kind = type_in(alloc, array, scope)?;
    let text = Text::of(alloc, &[])?;
    Ok(Var {
        kind,
        name: Ident { at, text },
    })
}

// The variable and an element exchanged.
fn exchange_code(
    alloc: Global,
    name: &Ident,
    element: &Place,
    scope: &Scope,
) -> Result<Piece, NoMemory>
    requires room { words_of_place (lvalue_of element.now) ≤ EXPRESSION_WORDS }
    ensures law { IfOk result (λ p.
        SwapLaw (spot_of_name (known_in scope.now)) (free_words_of (known_in scope.now)) (Whole name.now)
        (lvalue_of element.now) p.cells) }
    ensures none { IfOk result (λ p. p.marks ≡ []) }
    ensures size { IfOk result (λ p. length p.cells ≤ 80 * (2 + place_tokens (lvalue_of element.now))) }
{
    let place = Place {
        name: name.copy(alloc)?,
        index: None,
    };
    swap_code(alloc, &place, element, scope)
}

// What is in the scope of the variable.
fn exchanged_call(
    alloc: Global,
    at: u32,
    back: bool,
    name: &Ident,
    element: &Place,
    method: &Ident,
    args: &[Ident],
    scope: &Scope,
) -> Result<Piece, NoMemory>
    requires named { name.now ≡ element_name at }
    requires few { length args.now ≤ 32 }
    requires room { words_of_place (lvalue_of element.now) ≤ EXPRESSION_WORDS }
    ensures law { IfOk result (λ p.
        ExchangedCall scope.now at back (lvalue_of element.now) method.now args.now p.cells) }
    ensures none { IfOk result (λ p. p.marks ≡ []) }
    ensures size { IfOk result (λ p.
        length p.cells ≤ 160 * (2 + place_tokens (lvalue_of element.now))
        + 18 * length args.now + 77) }
{
    let first = exchange_code(alloc, name, element, scope)?;
    let called = call_code(alloc, back, Some(name), method, args, scope)?;
    let last = exchange_code(alloc, name, element, scope)?;
    seq(first, seq(called, last)?)
}

/// The code of a call or uncall on an element: it moves into a variable without a name, on whose
/// object the call is, and moves back. The variable has the first free word of the frame. It stops
/// with the faults of the element, with those of a call on a variable, and with fault 3 if the
/// variable does not end with nil. If it is made, the scope is as before; after an error nothing is
/// said about it. The only error is that memory ran out.
pub fn element_call_code(
    alloc: Global,
    at: u32,
    back: bool,
    element: &Place,
    method: &Ident,
    args: &[Ident],
    scope: &mut Scope,
) -> Result<Piece, NoMemory>
    requires few { length args.now ≤ 32 }
    requires free { length scope.old.variables < MOST_VARIABLES }
    requires room { words_of_place (lvalue_of element.now) ≤ EXPRESSION_WORDS }
    ensures law { IfOk result (λ p.
        ElementLaw scope.old at back (lvalue_of element.now) method.now args.now p.cells) }
    ensures none { IfOk result (λ p. p.marks ≡ []) }
    ensures size { IfOk result (λ p.
        length p.cells ≤ 160 * (2 + place_tokens (lvalue_of element.now))
        + 18 * length args.now + 205) }
    ensures scope { OnOk result (scope.new ≡ scope.old) }
{
    let var = element_var(alloc, at, &element.name, scope)?;
    scope.push(alloc, &var)?;
    let inside = exchanged_call(alloc, at, back, &var.name, element, method, args, scope)?;
    scope.pop();
    let nothing = Expr::Nil { at };
    local_code(alloc, &var, &nothing, inside, &nothing, scope)
}
