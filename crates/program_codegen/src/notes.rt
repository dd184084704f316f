// The names of fields that are noted of a program's image.
ghost use Rattle.std.specs.Prelude.{◌≡◌, ◌≤◌, length, IfOk};
ghost use Rattle.refine_program.specs.roopl_semantics.Source.{is_int_type};
ghost use Rattle.program_codegen.specs.Notes.{field_names as names_of};

use statement_codegen::memory::FIRST_FIELD;
use statement_codegen::tree::{Var, VarType};
use statement_codegen::{FieldName, NoMemory, NoteText};
use std::alloc::Global;

/// The names of the int fields of the main object, with their data cells.
pub fn field_names(alloc: Global, vars: &[Var]) -> Result<Vec<FieldName>, NoMemory>
    requires { length vars.now ≤ 64 }
    ensures { IfOk result (λ names. names.items ≡ names_of FIRST_FIELD vars.now) }
{
    let mut names = Vec::new(alloc);
    for (number, var) in vars.iter().enumerate() {
        if is_int(&var.kind) {
            names.push(FieldName {
                cell: FIRST_FIELD + number as u32,
                text: NoteText::of(alloc, var.name.text.bytes())?,
            })?;
        }
    }
    Ok(names)
}

fn is_int(kind: &VarType) -> bool
    ensures { result ≡ is_int_type kind.now }
{
    matches!(kind, VarType::Int)
}
