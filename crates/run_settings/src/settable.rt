// The fields that an input may set.
ghost use Rattle.std.specs.Prelude.{◌≡◌, ◌≤◌, length, IfOk};
ghost use Rattle.roopl_judge.specs.rpp_tree.Views.{source_of};
ghost use Rattle.roopl_semantics.specs.Source.{is_int_type};
ghost use Rattle.run_settings.specs.Inputs.{fields_from, input_fields as fields_of};

use command_plan::InputField;
use roopl_judge::Checked;
use roopl_judge::tree::{Var, VarType};
use std::alloc::{AllocError, Global};

/// The int fields of a program's main class.
pub fn input_fields(alloc: Global, checked: &Checked) -> Result<Vec<InputField>, AllocError>
    ensures fields { IfOk result (λ fields. fields.items ≡ fields_of (source_of checked.now)) }
    ensures few { IfOk result (λ fields. length fields.items ≤ 64) }
{
    let table = checked.table();
    int_fields(alloc, table.fields(table.main().class))
}

// The int fields among these.
fn int_fields(alloc: Global, vars: &[Var]) -> Result<Vec<InputField>, AllocError>
    requires { length vars.now ≤ 64 }
    ensures fields { IfOk result (λ fields. fields.items ≡ fields_from 0 vars.now) }
    ensures few { IfOk result (λ fields. length fields.items ≤ length vars.now) }
{
    let mut fields = Vec::new(alloc);
    for (number, var) in vars.iter().enumerate() {
        if is_int(&var.kind) {
            fields.push(InputField {
                name: var.name.text.copy(alloc)?,
                field: number as u32,
            })?;
        }
    }
    Ok(fields)
}

fn is_int(kind: &VarType) -> bool
    ensures { result ≡ is_int_type kind.now }
{
    matches!(kind, VarType::Int)
}
