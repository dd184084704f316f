// Methods, classes and programs.
ghost use Rattle.std.specs.Prelude.{◌≡◌, ◌++◌, ◌∷◌, [], All, IfOk, OnOk, map, string_bytes};
ghost use Rattle.std.specs.List.{flat_map};
ghost use Rattle.std.specs.Str.{IsAscii};
ghost use Rattle.roopl_parser.specs.rpp_tree.Parts.{source_names};
ghost use Rattle.roopl_parser.specs.rpp_tree.Views.{procedure_of, class_text_of, source_of};
ghost use Rattle.roopl_printer.specs.Printed.{with_gaps, printed_text};
ghost use Rattle.roopl_printer.specs.Spelled.{printed, spelled_class, spelled_method, spelled_parent};

use crate::code::put_block;
use crate::list::{put_fields, put_vars};
use crate::token::{put, put_name};
use roopl_parser::NoMemory;
use roopl_parser::tree::{Class, Ident, Method, Program};
use std::alloc::Global;

/// The text of a program: its tokens in the order of the grammar, with one space between two of
/// them. Before `class`, before `method` and before each statement there is a line feed instead of
/// the space. Only a binary operand of a binary expression is in parentheses. A line feed ends the
/// text; the text of no class is empty. Names are ASCII, as names by the rule are. The only error
/// is that memory ran out.
pub fn print(alloc: Global, program: &Program) -> Result<String, NoMemory>
    requires names { All (λ name. IsAscii name.text) (source_names (source_of program.now)) }
    ensures text { IfOk result (λ text. string_bytes text ≡ printed (source_of program.now)) }
{
    let bytes = print_bytes(alloc, &program.classes)?;
    match String::from_utf8(bytes) {
        Ok(text) => Ok(text),
        Err(_error) => unreachable!(),
    }
}

/// The bytes of the text of classes.
fn print_bytes(alloc: Global, classes: &[Class]) -> Result<Vec<u8>, NoMemory>
    ensures { IfOk result (λ bytes. bytes.items
        ≡ printed_text (flat_map spelled_class (map class_text_of classes.now))) }
{
    let mut out = Vec::new(alloc);
    for class in classes {
        put_class(&mut out, class)?;
    }
    Ok(out)
}

/// Adds the lines of a class.
fn put_class(out: &mut Vec<u8>, class: &Class) -> Result<(), NoMemory>
    ensures { OnOk result (out.new.items ≡ out.old.items
        ++ printed_text (spelled_class (class_text_of class.now))) }
{
    put(out, b"class")?;
    put_name(out, &class.name)?;
    put_parent(out, &class.parent)?;
    put_fields(out, &class.fields)?;
    put_methods(out, &class.methods)?;
    put(out, b"\n")
}

/// Adds the class that a class inherits from, if it does.
fn put_parent(out: &mut Vec<u8>, parent: &Option<Ident>) -> Result<(), NoMemory>
    ensures { OnOk result (out.new.items ≡ out.old.items ++ with_gaps (spelled_parent parent.now)) }
{
    match parent {
        None => Ok(()),
        Some(parent) => {
            put(out, b" inherits")?;
            put_name(out, parent)
        }
    }
}

/// Adds methods.
fn put_methods(out: &mut Vec<u8>, methods: &[Method]) -> Result<(), NoMemory>
    ensures { OnOk result (out.new.items ≡ out.old.items
        ++ with_gaps (flat_map spelled_method (map procedure_of methods.now))) }
{
    for method in methods {
        put_method(out, method)?;
    }
    Ok(())
}

/// Adds a method.
fn put_method(out: &mut Vec<u8>, method: &Method) -> Result<(), NoMemory>
    ensures { OnOk result (out.new.items ≡ out.old.items
        ++ with_gaps (spelled_method (procedure_of method.now))) }
{
    put(out, b"\nmethod")?;
    put_name(out, &method.name)?;
    put(out, b" (")?;
    put_vars(out, &method.params)?;
    put(out, b" )")?;
    put_block(out, &method.body)
}
