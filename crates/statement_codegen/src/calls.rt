// Calls of methods, the bodies of their routines, and `skip`.
ghost use Rattle.std.specs.Prelude.{◌≡◌, ◌<◌, ◌≤◌, ◌^◌, ◌+◌, ◌*◌, [], Some, None, map, length, IfOk};
ghost use Rattle.std.specs.List.{All};
ghost use Rattle.std.specs.Option.{option_map, unwrap_or};
ghost use Rattle.refine_objects.specs.rpp_tree.Views.{source_of};
ghost use Rattle.branch_codegen.specs.class_rules.Table.{table_of, class_of, slot_in};
ghost use Rattle.branch_codegen.specs.class_rules.Scope.{kind_of};
ghost use Rattle.refine_form.specs.Held.{HoldsCode};
ghost use Rattle.branch_codegen.specs.code_scope.Visible.{spot_of as spot_of_name, known_in};
ghost use Rattle.branch_codegen.specs.method_calls.Facts.{IsNear};
ghost use Rattle.branch_codegen.specs.method_calls.Names.{class_of_kind, class_number_named, method_slot_of};
ghost use Rattle.statement_codegen.specs.Codes.{scope_of};
ghost use Rattle.statement_codegen.specs.Laws.{SkipLaw, CallLaw, RoutineLaw};

use branch_codegen::{Scope, Spot, spot_of};
use refine_form::{Cell, NoMemory, Op, Piece, plain};
use refine_objects::tree::{Ident, VarType};
use refine_objects::{ClassTable, Text, call_on, own_call};
use std::alloc::Global;

/// The code of `skip`: one cell that does nothing. The only error is that memory ran out.
pub fn skip_code(alloc: Global) -> Result<Piece, NoMemory>
    ensures law { IfOk result (λ p. SkipLaw p.cells) }
    ensures none { IfOk result (λ p. p.marks ≡ []) }
    ensures size { IfOk result (λ p. length p.cells ≡ 1) }
{
    plain(
        alloc,
        Cell {
            op: Op::Xori,
            a: 1,
            b: 0,
            c: 0,
            imm: 0,
        },
    )
}

// The storage slot of a name; the first field for a name that means nothing.
fn spot_at(scope: &Scope, name: &Ident) -> Spot
    ensures value { result ≡ spot_of_name (known_in scope.now) name.now.text }
    ensures near { IsNear result }
{
    let names = scope.names();
    spot_of(&names, &name.text)
}

// The storage slots of the names.
fn spots_at(alloc: Global, names: &[Ident], scope: &Scope) -> Result<Vec<Spot>, NoMemory>
    ensures values { IfOk result (λ spots.
        spots.items ≡ map (λ name. spot_of_name (known_in scope.now) name.text) names.now) }
    ensures near { IfOk result (λ spots. All IsNear spots.items) }
{
    let mut spots = Vec::new(alloc);
    for name in names {
        spots.push(spot_at(scope, name))?;
    }
    Ok(spots)
}

// The slot of a method of a class; the first one if it has none of the name.
fn slot_in_table(table: &ClassTable, class: u32, name: &Text) -> u32
    ensures value { result ≡ unwrap_or (slot_in table.now class name.now) 0 }
    ensures small { result < 2 ^ 20 }
{
    let _slots = table.slot_count(class); // proof: bounds the slots
    match table.method_slot(class, name) {
        None => 0,
        Some(slot) => slot,
    }
}

fn slot_at(scope: &Scope, class: u32, method: &Ident) -> u32
    ensures value { result ≡ method_slot_of (source_of scope.now.program) class method.now }
    ensures small { result < 2 ^ 20 }
{
    let checked = scope.checked();
    slot_in_table(checked.table(), class, &method.text)
}

// The class of a name of classes; the first one for any other.
fn class_of_name(table: &ClassTable, name: &Text) -> u32
    ensures { result ≡ unwrap_or (class_of table.now name.now) 0 }
{
    match table.class_of(name) {
        None => 0,
        Some(class) => class,
    }
}

// The class of a type; the first one if it is none.
#[tactic(auto, using(crate::proofs::Names::class_or_first, crate::proofs::Names::array_first))]
fn class_of_type(table: &ClassTable, kind: &VarType) -> u32
    ensures { result ≡ class_of_kind (kind_of table.now kind.now) }
{
    match kind {
        VarType::Int => 0,
        VarType::Class(name) => class_of_name(table, &name.text),
        VarType::IntArray => 0,
        VarType::ClassArray(_name) => 0,
    }
}

fn class_in(scope: &Scope, kind: &VarType) -> u32
    ensures { result ≡ class_of_kind (kind_of (table_of (source_of scope.now.program)) kind.now) }
{
    let checked = scope.checked();
    class_of_type(checked.table(), kind)
}

// The class of the variable of a name; the first one if it is of no class.
fn class_at(scope: &Scope, name: &Ident) -> u32
    ensures { result ≡ class_number_named (source_of scope.now.program) (scope_of scope.now) name.now }
{
    match scope.kind(&name.text) {
        None => 0,
        Some(kind) => class_in(scope, kind),
    }
}

// A call or uncall on the current object.
fn own_code(
    alloc: Global,
    back: bool,
    method: &Ident,
    args: &[Ident],
    scope: &Scope,
) -> Result<Piece, NoMemory>
    requires few { length args.now ≤ 32 }
    ensures law { IfOk result (λ p. CallLaw scope.now back None method.now args.now p.cells) }
    ensures none { IfOk result (λ p. p.marks ≡ []) }
    ensures size { IfOk result (λ p. length p.cells ≡ 18 * length args.now + 41) }
{
    let spots = spots_at(alloc, args, scope)?;
    let id = scope.method();
    let slot = slot_at(scope, id.class, method);
    own_call(alloc, back, slot, &spots)
}

// A call or uncall on the object of a variable.
fn code_on(
    alloc: Global,
    back: bool,
    receiver: &Ident,
    method: &Ident,
    args: &[Ident],
    scope: &Scope,
) -> Result<Piece, NoMemory>
    requires few { length args.now ≤ 32 }
    ensures law { IfOk result (λ p. CallLaw scope.now back (Some receiver.now) method.now args.now
        p.cells) }
    ensures none { IfOk result (λ p. p.marks ≡ []) }
    ensures size { IfOk result (λ p. length p.cells ≡ 18 * length args.now + 77) }
{
    let spots = spots_at(alloc, args, scope)?;
    let class = class_at(scope, receiver);
    let slot = slot_at(scope, class, method);
    let spot = spot_at(scope, receiver);
    call_on(alloc, back, spot, slot, &spots)
}

/// The code of a call or uncall of a method, on the current object, or on the object of the
/// variable of a name, with the variables of these names as arguments. The method is the one in the
/// slot that the variable's class has for its name, of the object's own class. It stops with fault
/// 5 if the variable is nil, and with fault 14 if there may be no further active call. It stops
/// with fault 15 if a variable is not 0 or nil when it is to come back. The only error is that
/// memory ran out.
pub fn call_code(
    alloc: Global,
    back: bool,
    receiver: Option<&Ident>,
    method: &Ident,
    args: &[Ident],
    scope: &Scope,
) -> Result<Piece, NoMemory>
    requires few { length args.now ≤ 32 }
    ensures law { IfOk result (λ p.
        CallLaw scope.now back (option_map (λ name. name.now) receiver.entry) method.now args.now
        p.cells) }
    ensures none { IfOk result (λ p. p.marks ≡ []) }
    ensures size { IfOk result (λ p. length p.cells ≤ 18 * length args.now + 77) }
{
    match receiver {
        None => own_code(alloc, back, method, args, scope),
        Some(name) => code_on(alloc, back, name, method, args, scope),
    }
}

/// The code of a method, over the fragment of its block, which is made in the method's scope: the
/// body of its routine. The only error is that memory ran out.
pub fn method_code(alloc: Global, body: Piece, _scope: &Scope) -> Result<Piece, NoMemory>
    ensures law { IfOk result (λ p. RoutineLaw _scope.now body.cells p.cells) }
    ensures held { IfOk result (λ p. HoldsCode body p) }
    ensures size { IfOk result (λ p. length p.cells ≡ length body.cells + 8) }
{
    refine_objects::method_code(alloc, body)
}
