// The rules of methods, classes and programs.
ghost use Rattle.std.specs.Prelude.{◌≡◌, ◌<◌, length, [], map, IfOk, IfErr, OnOk, Err};
ghost use Rattle.class_table.specs.rpp_tree.Views.{procedure_of, class_text_of, source_of, block_of};
ghost use Rattle.class_table.specs.rpp_tree.Limits.{IsWithinLimits};
ghost use Rattle.reversible_types.specs.Verdicts.{verdict_of, refusal_of};
ghost use Rattle.reversible_types.specs.ScopeView.{typing_of, locals_of};
ghost use Rattle.class_table.specs.class_rules.Members.{has_field};
ghost use Rattle.class_table.specs.class_rules.Table.{table_of, HasClassTable};
ghost use Rattle.class_table.specs.class_rules.Statements.{each_passes_after, check_statements};
ghost use Rattle.class_table.specs.class_rules.Program.{parameter_new, with_parameters, check_method as of_method, check_class as of_class, check_classes as of_classes, check_program, IsAccepted};

use crate::error::TypeError;
use crate::scope::{Locals, Typing, kind_of_type};
use crate::statements::check_block;
use class_table::tree::{Block, Class, Method, Program, Var};
use class_table::{Checked, ClassTable, Text};

/// Whether a variable of this name is among these.
fn is_among(vars: &[Var], name: &Text) -> bool
    ensures { result ≡ has_field vars.now name.now }
{
    for var in vars {
        if *name == var.name.text {
            return true;
        }
    }
    false
}

fn check_parameter(before: &[Var], var: &Var) -> Result<(), TypeError>
    ensures { verdict_of result ≡ parameter_new before.now var.now }
{
    if is_among(before, &var.name.text) {
        return Err(TypeError::Redeclared { at: var.name.at });
    }
    Ok(())
}

fn check_parameters(params: &[Var]) -> Result<(), TypeError>
    ensures { verdict_of result ≡ each_passes_after parameter_new [] params.now }
{
    for (number, var) in params.iter().enumerate() {
        check_parameter(&params[..number], var)?;
    }
    Ok(())
}

fn check_body(
    setting: &Typing,
    locals: &Locals,
    params: &[Var],
    body: &Block,
) -> Result<(), TypeError>
    ensures { verdict_of result ≡ check_statements (typing_of setting.now)
        (with_parameters (typing_of setting.now) (locals_of locals.now) params.now)
        (block_of body.now) }
{
    match params {
        [] => check_block(setting, locals, body),
        [var, rest @ ..] => {
            let inner = Locals::Local {
                name: &var.name.text,
                kind: kind_of_type(setting.table, &var.kind),
                outer: &*locals,
            };
            check_body(&*setting, &inner, &*rest, &*body)
        }
    }
}

fn check_method(setting: &Typing, method: &Method) -> Result<(), TypeError>
    ensures { verdict_of result ≡ of_method (typing_of setting.now) (procedure_of method.now) }
{
    check_parameters(&method.params)?;
    check_body(setting, &Locals::Nothing, &method.params, &method.body)
}

fn check_class(setting: &Typing, class: &Class) -> Result<(), TypeError>
    ensures { verdict_of result ≡ of_class (source_of setting.now.program.now) setting.now.table.now
        setting.now.class (class_text_of class.now) }
{
    for method in &class.methods {
        check_method(setting, method)?;
    }
    Ok(())
}

/// The rules of all methods, in the order of the text.
pub fn check_all(program: &Program, table: &ClassTable) -> Result<(), TypeError>
    requires { length table.now.names ≡ length program.now.classes.items }
    ensures { verdict_of result ≡ of_classes (source_of program.now) table.now 0
        (map class_text_of program.now.classes.items) }
{
    let count = table.class_count();
    for (number, class) in program.classes.iter().enumerate() {
        prove!(number < count as usize);
        let setting = Typing {
            program,
            table,
            class: number as u32,
        };
        check_class(&setting, class)?;
    }
    Ok(())
}

/// The program with its table if every rule accepts it, and else the first refusal in the order
/// of the text.
/// The table must be the program's, as `ClassTable::build` gives it, and the tree must keep the
/// limits, as the parser's trees do.
/// No memory is taken.
pub fn check(program: Program, table: ClassTable) -> Result<Checked, TypeError>
    requires table { table ≡ table_of (source_of program) }
    requires classes { HasClassTable (source_of program) }
    requires limits { IsWithinLimits (source_of program) }
    ensures checked { IfOk result (λ checked. checked ≡ program) }
    ensures accepted { OnOk result (IsAccepted (source_of program)) }
    ensures refused { IfErr result (λ error. check_program (source_of program) ≡ Err (refusal_of error)) }
{
    check_all(&program, &table)?;
    Ok(Checked::seal(program, table))
}
