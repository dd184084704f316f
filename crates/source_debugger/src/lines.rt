// The lines of variables.
ghost use Rattle.std.specs.Prelude.{◌≡◌, ◌++◌, OnOk, string_bytes, map};
ghost use Rattle.source_courses.specs.source_execution.Variables.{binding_of};
ghost use Rattle.source_debugger.specs.Named.{variable_line, params_named, frame_named};

use source_courses::Variable;
use source_lines::{Lack, add_name_line};

// The line of a variable; one with no name has none.
fn add_variable(out: &mut String, variable: &Variable) -> Result<(), Lack>
    ensures { OnOk result (string_bytes out.new
        ≡ string_bytes out.old ++ variable_line (binding_of variable.now)) }
{
    let name = variable.name.bytes();
    if name.is_empty() {
        return Ok(());
    }
    add_name_line(out, name, variable.value)
}

// The lines of parameters.
fn add_params(out: &mut String, variables: &[Variable]) -> Result<(), Lack>
    ensures { OnOk result (string_bytes out.new
        ≡ string_bytes out.old ++ params_named (map binding_of variables.now)) }
{
    match variables {
        [] => Ok(()),
        [variable, rest @ ..] => {
            add_variable(out, variable)?;
            add_params(out, rest)
        }
    }
}

/// The lines of the variables of a method with so many parameters.
pub(crate) fn add_frame(out: &mut String, params: usize, variables: &[Variable]) -> Result<(), Lack>
    ensures { OnOk result (string_bytes out.new
        ≡ string_bytes out.old ++ frame_named params (map binding_of variables.now)) }
{
    match variables {
        [] => Ok(()),
        [variable, rest @ ..] => {
            if params < variables.len() {
                add_frame(out, params, rest)?;
                add_variable(out, variable)
            } else {
                add_params(out, variables)
            }
        }
    }
}
