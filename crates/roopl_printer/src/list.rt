// Lists of names and of variables.
ghost use Rattle.std.specs.Prelude.{◌≡◌, ◌++◌, OnOk};
ghost use Rattle.std.specs.List.{flat_map};
ghost use Rattle.roopl_printer.specs.Printed.{with_gaps};
ghost use Rattle.roopl_printer.specs.Spelled.{after_comma, name_alone, spelled_names, spelled_var, spelled_vars};

use crate::token::{put, put_name};
use crate::value::put_var;
use roopl_parser::NoMemory;
use roopl_parser::tree::{Ident, Var};

/// Adds names, with a comma between two of them.
pub(crate) fn put_names(out: &mut Vec<u8>, names: &[Ident]) -> Result<(), NoMemory>
    ensures { OnOk result (out.new.items ≡ out.old.items ++ with_gaps (spelled_names names.now)) }
{
    match names {
        [] => Ok(()),
        [one, more @ ..] => {
            put_name(out, one)?;
            put_more_names(out, more)
        }
    }
}

/// Adds names, each after a comma.
fn put_more_names(out: &mut Vec<u8>, names: &[Ident]) -> Result<(), NoMemory>
    ensures { OnOk result (out.new.items ≡ out.old.items
        ++ with_gaps (flat_map (after_comma name_alone) names.now)) }
{
    for name in names {
        put(out, b" ,")?;
        put_name(out, name)?;
    }
    Ok(())
}

/// Adds variables with their types, with a comma between two of them.
pub(crate) fn put_vars(out: &mut Vec<u8>, vars: &[Var]) -> Result<(), NoMemory>
    ensures { OnOk result (out.new.items ≡ out.old.items ++ with_gaps (spelled_vars vars.now)) }
{
    match vars {
        [] => Ok(()),
        [one, more @ ..] => {
            put_var(out, one)?;
            put_more_vars(out, more)
        }
    }
}

/// Adds variables with their types, each after a comma.
fn put_more_vars(out: &mut Vec<u8>, vars: &[Var]) -> Result<(), NoMemory>
    ensures { OnOk result (out.new.items ≡ out.old.items
        ++ with_gaps (flat_map (after_comma spelled_var) vars.now)) }
{
    for var in vars {
        put(out, b" ,")?;
        put_var(out, var)?;
    }
    Ok(())
}

/// Adds variables with their types, one after the other.
pub(crate) fn put_fields(out: &mut Vec<u8>, fields: &[Var]) -> Result<(), NoMemory>
    ensures { OnOk result (out.new.items ≡ out.old.items ++ with_gaps (flat_map spelled_var fields.now)) }
{
    for field in fields {
        put_var(out, field)?;
    }
    Ok(())
}
