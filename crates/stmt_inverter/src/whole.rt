// The inverses of programs.
ghost use Rattle.std.specs.Prelude.{◌≡◌, IfOk, map};
ghost use Rattle.tree_walks.specs.rpp_tree.Views.{procedure_of, class_text_of, source_of};
ghost use Rattle.inverse_rules.specs.Inverse.{inverse_procedure, inverse_class, inverse_program};

use crate::code::undo_block;
use std::alloc::Global;
use tree_walks::tree::{Class, Method, Program};
use tree_walks::{NoMemory, copy_parent, copy_vars};

/// A method of the inverse program.
fn invert_method(alloc: Global, method: &Method) -> Result<Method, NoMemory>
    ensures { IfOk result (λ inverted. procedure_of inverted
        ≡ inverse_procedure (procedure_of method.now)) }
{
    let name = method.name.copy(alloc)?;
    let params = copy_vars(alloc, &method.params)?;
    let body = undo_block(alloc, &method.body, false)?;
    Ok(Method { name, params, body })
}

/// The methods of a class of the inverse program.
fn invert_methods(alloc: Global, methods: &[Method]) -> Result<Vec<Method>, NoMemory>
    ensures { IfOk result (λ inverted. map procedure_of inverted.items
        ≡ map inverse_procedure (map procedure_of methods.now)) }
{
    let mut inverted = Vec::new(alloc);
    for method in methods {
        inverted.push(invert_method(alloc, method)?)?;
    }
    Ok(inverted)
}

/// A class of the inverse program.
fn invert_class(alloc: Global, class: &Class) -> Result<Class, NoMemory>
    ensures { IfOk result (λ inverted. class_text_of inverted ≡ inverse_class (class_text_of class.now)) }
{
    let name = class.name.copy(alloc)?;
    let parent = copy_parent(alloc, &class.parent)?;
    let fields = copy_vars(alloc, &class.fields)?;
    let methods = invert_methods(alloc, &class.methods)?;
    Ok(Class {
        name,
        parent,
        fields,
        methods,
    })
}

/// The program whose methods undo those of a program.
pub fn invert_program(alloc: Global, p: &Program) -> Result<Program, NoMemory>
    ensures { IfOk result (λ inverted. source_of inverted ≡ inverse_program (source_of p.now)) }
{
    let mut classes = Vec::new(alloc);
    for class in &p.classes {
        classes.push(invert_class(alloc, class)?)?;
    }
    Ok(Program { classes })
}
