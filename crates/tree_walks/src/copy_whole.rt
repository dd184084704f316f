// Copies of methods, classes and programs.
ghost use Rattle.std.specs.Prelude.{◌≡◌, IfOk, map};
ghost use Rattle.rpp_tree.specs.Views.{procedure_of, class_text_of, source_of};

use crate::copy_code::copy_block;
use rpp_tree::tree::{Class, Method, Program};
use rpp_tree::{copy_parent, copy_vars};
use std::alloc::{AllocError, Global};

/// An equal method, with equal places. The only error is that memory ran out.
pub fn copy_method(alloc: Global, method: &Method) -> Result<Method, AllocError>
    ensures { IfOk result (λ copied. procedure_of copied ≡ procedure_of method.now) }
{
    Ok(Method {
        name: method.name.copy(alloc)?,
        params: copy_vars(alloc, &method.params)?,
        body: copy_block(alloc, &method.body)?,
    })
}

/// An equal class, with equal places. The only error is that memory ran out.
pub fn copy_class(alloc: Global, class: &Class) -> Result<Class, AllocError>
    ensures { IfOk result (λ copied. class_text_of copied ≡ class_text_of class.now) }
{
    let mut methods = Vec::new(alloc);
    for method in &class.methods {
        methods.push(copy_method(alloc, method)?)?;
    }
    Ok(Class {
        name: class.name.copy(alloc)?,
        parent: copy_parent(alloc, &class.parent)?,
        fields: copy_vars(alloc, &class.fields)?,
        methods,
    })
}

/// An equal program, with equal places. The only error is that memory ran out.
pub fn copy_program(alloc: Global, program: &Program) -> Result<Program, AllocError>
    ensures { IfOk result (λ copied. source_of copied ≡ source_of program.now) }
{
    let mut classes = Vec::new(alloc);
    for class in &program.classes {
        classes.push(copy_class(alloc, class)?)?;
    }
    Ok(Program { classes })
}
