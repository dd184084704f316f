// The variables of a method, copied with their names.
ghost use Rattle.std.specs.Prelude.{◌≡◌, ◌++◌, map, IfOk, OnOk};
ghost use Rattle.source_checks.specs.source_store.ValueView.{values_of};
ghost use Rattle.source_checks.specs.source_steps.StateView.{bindings};
ghost use Rattle.source_execution.specs.Variables.{binding_of};

use source_checks::{NoMemory, Value};
use source_statements::Text;
use source_statements::tree::Var;
use std::alloc::Global;

/// A variable of an open method, with its value. The one that holds the element of a call on it has
/// the empty name.
#[derive(Drop)]
pub struct Variable {
    pub name: Text,
    pub value: Value,
}

// Puts the parameters with their values after others.
fn add_params(
    alloc: Global,
    params: &[Var],
    values: &[Value],
    variables: &mut Vec<Variable>,
) -> Result<(), NoMemory>
    ensures { OnOk result (map binding_of variables.new.items ≡ map binding_of variables.old.items
        ++ bindings (map (λ var. var.name.text) params.now) (values_of values.now)) }
{
    match params {
        [] => Ok(()),
        [var, params @ ..] => match values {
            [] => Ok(()),
            [value, values @ ..] => {
                let name = var.name.text.copy(alloc)?;
                variables.push(Variable {
                    name,
                    value: *value,
                })?;
                add_params(alloc, params, values, variables)
            }
        },
    }
}

// Puts the variables with their values after others.
fn add_variables(
    alloc: Global,
    locals: &[&[u8]],
    params: &[Var],
    values: &[Value],
    variables: &mut Vec<Variable>,
) -> Result<(), NoMemory>
    ensures { OnOk result (map binding_of variables.new.items ≡ map binding_of variables.old.items
        ++ bindings (map (λ own. own.now) locals.now ++ map (λ var. var.name.text) params.now)
        (values_of values.now)) }
{
    match locals {
        [] => add_params(alloc, params, values, variables),
        [own, locals @ ..] => match values {
            [] => Ok(()),
            [value, values @ ..] => {
                let name = Text::of(alloc, own)?;
                variables.push(Variable {
                    name,
                    value: *value,
                })?;
                add_variables(alloc, locals, params, values, variables)
            }
        },
    }
}

/// The variables of these names with their values.
pub fn variables_in(
    alloc: Global,
    locals: &[&[u8]],
    params: &[Var],
    values: &[Value],
) -> Result<Vec<Variable>, NoMemory>
    ensures { IfOk result (λ variables. map binding_of variables.items
        ≡ bindings (map (λ own. own.now) locals.now ++ map (λ var. var.name.text) params.now)
        (values_of values.now)) }
{
    let mut variables = Vec::new(alloc);
    add_variables(alloc, locals, params, values, &mut variables)?;
    Ok(variables)
}
