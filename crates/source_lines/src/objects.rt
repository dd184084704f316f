// The lines of objects and arrays.
ghost use Rattle.std.specs.Prelude.{◌≡◌, ◌++◌, IfOk, OnOk, string_bytes, codes};
ghost use Rattle.std.specs.Fmt.{decimal};
ghost use Rattle.source_steps.specs.rpp_tree.Views.{source_of};
ghost use Rattle.source_steps.specs.class_rules.Members.{class_at};
ghost use Rattle.source_steps.specs.roopl_semantics.Store.{object_named};
ghost use Rattle.source_steps.specs.roopl_semantics.Report.{head_shown, head_line};
ghost use Rattle.source_steps.specs.source_store.ValueView.{values_of, kept_head, object_of};
ghost use Rattle.source_lines.specs.Named.{cells_named, object_lines, objects_from};

use crate::values::{add_bytes, add_class_fields, add_elements};
use source_steps::tree::Program;
use source_steps::{Checked, Head, Heap, Lack, Object, Value};
use std::alloc::Global;

// The lines of the cells of an object or array.
fn add_cells(out: &mut String, checked: &Checked, head: Head, values: &[Value]) -> Result<(), Lack>
    ensures { OnOk result (string_bytes out.new
        ≡ string_bytes out.old ++ cells_named (source_of checked.now) (kept_head head)
        (values_of values.now)) }
{
    match head {
        Head::Class(class) => add_class_fields(out, "  ", checked, class, values),
        Head::Ints(_) => Ok(add_elements(out, values)?),
        Head::Objects { .. } => Ok(add_elements(out, values)?),
    }
}

// The name of a class.
fn class_name(program: &Program, class: u32) -> &[u8]
    ensures { result.now ≡ (class_at (source_of program.now) class).name.text }
{
    match program.classes.get(class as usize) {
        None => &[],
        Some(class) => class.name.text.bytes(),
    }
}

/// What an object is.
pub fn add_head(out: &mut String, program: &Program, head: Head) -> Result<(), Lack>
    ensures { OnOk result (string_bytes out.new
        ≡ string_bytes out.old ++ head_shown (source_of program.now) (kept_head head)) }
{
    match head {
        Head::Class(class) => add_bytes(out, class_name(program, class)),
        Head::Ints(length) => Ok(write!(out, "int[{length}]")?),
        Head::Objects { class, length } => {
            add_bytes(out, class_name(program, class))?;
            Ok(write!(out, "[{length}]")?)
        }
    }
}

// The line of an object or array.
fn add_first(
    out: &mut String,
    checked: &Checked,
    name: u32,
    head: Head,
    count: u64,
) -> Result<(), Lack>
    ensures { OnOk result (string_bytes out.new
        ≡ string_bytes out.old ++ head_line (codes "#" ++ decimal name)
        (head_shown (source_of checked.now) (kept_head head)) count) }
{
    let program = checked.program();
    write!(out, "#{name} ")?;
    add_head(out, program, head)?;
    Ok(write!(out, " count {count}\n")?)
}

fn add_object(out: &mut String, checked: &Checked, name: u32, object: &Object) -> Result<(), Lack>
    ensures { OnOk result (string_bytes out.new
        ≡ string_bytes out.old ++ object_lines (source_of checked.now) name
        (Some (object_of object.now))) }
{
    add_first(out, checked, name, object.head, object.count)?;
    add_cells(out, checked, object.head, &object.cells)
}

// The lines of what lives at a name, if it does.
fn add_named(out: &mut String, checked: &Checked, heap: &Heap, name: u64) -> Result<(), Lack>
    ensures { OnOk result (string_bytes out.new
        ≡ string_bytes out.old ++ object_lines (source_of checked.now) name
        (object_named heap.now.store name)) }
{
    if name >= heap.names() as u64 {
        return Ok(());
    }
    let name = name as u32;
    match heap.object(name) {
        None => Ok(()),
        Some(object) => add_object(out, checked, name, object),
    }
}

// The lines of what lives at so many names from one on.
fn add_objects(
    out: &mut String,
    checked: &Checked,
    heap: &Heap,
    from: u32,
    count: u32,
) -> Result<(), Lack>
    ensures { OnOk result (string_bytes out.new
        ≡ string_bytes out.old ++ objects_from (source_of checked.now) heap.now.store from count) }
{
    for at in 0..count {
        add_named(out, checked, heap, u64::from(from) + u64::from(at))?;
    }
    Ok(())
}

/// The lines of what lives at so many names from one on.
pub fn objects_text(
    alloc: Global,
    checked: &Checked,
    heap: &Heap,
    from: u32,
    count: u32,
) -> Result<String, Lack>
    ensures { IfOk result (λ text. string_bytes text
        ≡ objects_from (source_of checked.now) heap.now.store from count) }
{
    let mut text = String::new(alloc);
    add_objects(&mut text, checked, heap, from, count)?;
    Ok(text)
}
