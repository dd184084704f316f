// The bodies of the routines: the allocator of the heap, and the code of each method.
ghost use Rattle.std.specs.Prelude.{◌≡◌, ◌<◌, ◌≤◌, Some, map, length, slice_get, IfOk};
ghost use Rattle.std.specs.List.{AllZip};
ghost use Rattle.refine_program.specs.rpp_tree.Views.{procedure_of, source_of};
ghost use Rattle.refine_program.specs.class_rules.Members.{class_at};
ghost use Rattle.refine_program.specs.Methods.{entries_of, entries};
ghost use Rattle.program_codegen.specs.Routines.{IsRoutine, AreRoutines};

use refine_program::{Checked, MethodId, allocator, methods_at};
use statement_codegen::tree::Method;
use statement_codegen::{NoMemory, Piece, Scope, block_code, method_code};
use std::alloc::Global;

/// The bodies of all routines: the allocator, and the methods in the order of the text.
pub fn routines(alloc: Global, checked: &Checked) -> Result<Vec<Piece>, NoMemory>
    ensures { IfOk result (λ pieces. AreRoutines (source_of checked.now) pieces.items) }
{
    let mut pieces = Vec::new(alloc);
    pieces.push(allocator(alloc)?)?;
    let mut methods = method_routines(alloc, checked)?;
    pieces.append(&mut methods)?;
    Ok(pieces)
}

// Those of the methods.
fn method_routines(alloc: Global, checked: &Checked) -> Result<Vec<Piece>, NoMemory>
    ensures { IfOk result (λ pieces.
        AllZip (IsRoutine (source_of checked.now)) (entries (source_of checked.now)) pieces.items) }
{
    let mut pieces = Vec::new(alloc);
    for class in 0..checked.table().class_count() {
        let methods = methods_at(checked.program(), class);
        let mut more = class_routines(alloc, checked, class, methods)?;
        pieces.append(&mut more)?;
    }
    Ok(pieces)
}

// Those of the methods of a class.
fn class_routines(
    alloc: Global,
    checked: &Checked,
    class: u32,
    methods: &[Method],
) -> Result<Vec<Piece>, NoMemory>
    requires inside { class < length (source_of checked.now).classes }
    requires there { map procedure_of methods.now ≡ (class_at (source_of checked.now) class).methods }
    requires few { length methods.now ≤ 20000 }
    ensures { IfOk result (λ pieces.
        AllZip (IsRoutine (source_of checked.now))
        (entries_of class (map procedure_of methods.now)) pieces.items) }
{
    let mut pieces = Vec::new(alloc);
    for (number, method) in methods.iter().enumerate() {
        let id = MethodId {
            class,
            method: number as u32,
        };
        pieces.push(routine(alloc, checked, id, method)?)?;
    }
    Ok(pieces)
}

// That of a method.
fn routine(
    alloc: Global,
    checked: &Checked,
    id: MethodId,
    method: &Method,
) -> Result<Piece, NoMemory>
    requires inside { id.class < length (source_of checked.now).classes }
    requires there { slice_get (class_at (source_of checked.now) id.class).methods id.method
        ≡ Some (procedure_of method.now) }
    ensures { IfOk result (λ piece.
        IsRoutine (source_of checked.now)
        (record { class = id.class; method = procedure_of method.now }) piece) }
{
    let _program = checked.program(); // proof: says what the program is
    let mut scope = Scope::of_method(alloc, checked, id)?;
    let body = block_code(alloc, &method.body, &mut scope)?;
    Ok(method_code(alloc, body, &scope)?)
}
