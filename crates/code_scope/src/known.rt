// The names that are visible in a method: its variables and the fields of its class.
ghost use Rattle.std.specs.Prelude.{◌≤◌, length};
ghost use Rattle.refine_form.specs.code_conventions.declared.memory.TheConstants.{MOST_VARIABLES};

use class_table::tree::Var;

/// The visible parameters and locals, the outermost first, and the fields of the class.
#[derive(Drop)]
pub struct Names<'a> {
    pub variables: &'a [Var],
    pub fields: &'a [Var],
    ghost few: { length variables.now ≤ MOST_VARIABLES },
    ghost few_fields: { length fields.now ≤ 64 },
}
