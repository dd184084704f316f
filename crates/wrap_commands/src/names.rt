// The names of results.
ghost use Rattle.std.specs.Prelude.{◌≡◌, ◌++◌, ◌∷◌, [], IfOk, MatchOption, Some, None};
ghost use Rattle.command_plan.specs.pisa_loader.InputLines.{is_field};
ghost use Rattle.wrap_commands.specs.WrapNames.{field_of_name, with_result, results_of, NamesGive};

use crate::error::NamesError;
use program_runs::{InputField, pieces};
use std::alloc::{AllocError, Global};

/// The fields that names joined by commas name, in the order of the names. The first name that no
/// field has, or that an earlier one is, is refused.
pub(crate) fn read_names(
    alloc: Global,
    names: &[u8],
    fields: &[InputField],
) -> Result<Vec<InputField>, NamesError>
    ensures { NamesGive (λ results. results.items) result (results_of fields.now names.now) }
{
    let parts = pieces(alloc, b',', names)?;
    let mut results = Vec::new(alloc);
    for name in &parts {
        let field = next_result(alloc, fields, &results, name)?;
        results.push(field)?;
    }
    Ok(results)
}

// The field of the name after those of these results.
fn next_result(
    alloc: Global,
    fields: &[InputField],
    results: &[InputField],
    name: &[u8],
) -> Result<InputField, NamesError>
    ensures { NamesGive (λ field. results.now ++ field ∷ []) result
        (with_result results.now (field_of_name fields.now name.now)) }
{
    match field_of_name(fields, name) {
        Some(field) if !is_field(results, field.field) => Ok(copy(alloc, field)?),
        _ => Err(NamesError::UnknownResult {
            at: results.len() + 1,
        }),
    }
}

// The first field of this name.
fn field_of_name<'a>(fields: &'a [InputField], name: &[u8]) -> Option<&'a InputField>
    ensures { MatchOption result (field_of_name fields.now name.now ≡ None)
        (λ field. field_of_name fields.now name.now ≡ Some field.now) }
{
    for field in fields {
        if field.name.bytes() == name {
            return Some(field);
        }
    }
    None
}

// Whether one of the fields has this number.
fn is_field(fields: &[InputField], number: u32) -> bool
    ensures { result ≡ is_field fields.now number }
{
    fields.iter().any(|field| field.field == number)
}

fn copy(alloc: Global, field: &InputField) -> Result<InputField, AllocError>
    ensures { IfOk result (λ copied. copied ≡ field.now) }
{
    Ok(InputField {
        name: field.name.copy(alloc)?,
        field: field.field,
    })
}
