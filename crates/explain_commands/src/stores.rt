// The report of a store.
ghost use Rattle.std.specs.Prelude.{◌≡◌, ◌++◌, ◌∷◌, [], All, IfOk, OnOk, string_bytes, codes, nat_eq, ◌+◌};
ghost use Rattle.std.specs.List.{position};
ghost use Rattle.std.specs.Option.{unwrap_or};
ghost use Rattle.std.specs.Str.{IsAscii};
ghost use Rattle.std.specs.Fmt.{decimal};
ghost use Rattle.store_report.specs.roopl_semantics.Source.{main_fields};
ghost use Rattle.run_settings.specs.rpp_words.Texts.{line_end};
ghost use Rattle.run_settings.specs.rpp_tree.Views.{source_of};
ghost use Rattle.run_settings.specs.class_rules.Members.{class_at};
ghost use Rattle.run_settings.specs.class_rules.Classes.{class_fields, main_of};
ghost use Rattle.run_settings.specs.class_rules.Program.{IsAccepted};
ghost use Rattle.store_report.specs.roopl_semantics.Store.{object_at, main_name};
ghost use Rattle.store_report.specs.roopl_semantics.Report.{report as report_in, value_shown, number_shown, field_lines, element_lines, head_shown, cell_lines, object_lines, live_line, head_line};
ghost use Rattle.source_meaning.specs.source_store.ValueView.{value_of, values_of, kept_head};
ghost use Rattle.store_report.specs.Ascii.{HasAsciiName};

use crate::meeting::{cells_at, name_at, numbered, place_of};
use indexmap::IndexSet;
use run_settings::NoMemory;
use source_meaning::{Head, Heap, Store, Value};
use std::alloc::{AllocError, Global};
use store_report::tree::{Program, Var};
use store_report::{Checked, add_bytes, add_live, add_name, add_word, class_name};

/// The report of a store of the program. It has a line for each field of the main object, the lines
/// of each object and array that is reachable from it, and the number of those that live.
pub fn report_store(alloc: Global, store: &Store, checked: &Checked) -> Result<String, NoMemory>
    ensures { IfOk result (λ text. string_bytes text ≡ report_in (source_of checked.now) store.now) }
{
    let mut out = String::new(alloc);
    let names = numbered(alloc, store.heap())?;
    add_main(&mut out, checked, &names, store.heap())?;
    add_objects(&mut out, checked, &names, store.heap())?;
    add_live(&mut out, u64::from(store.live()))?;
    Ok(out)
}

// The number of a name.
fn number_in(names: &IndexSet<u32>, name: u32) -> usize
    ensures { result ≡ unwrap_or (position (nat_eq name) names.now.keys) 0 + 1 }
{
    match place_of(names, name) {
        None => 1,
        Some(place) => place + 1,
    }
}

fn add_number(out: &mut String, names: &IndexSet<u32>, name: u32) -> Result<(), AllocError>
    ensures { OnOk result (string_bytes out.new
        ≡ string_bytes out.old ++ number_shown names.now.keys name) }
{
    let number = number_in(names, name);
    write!(out, "#{number}")
}

fn add_value(out: &mut String, names: &IndexSet<u32>, value: Value) -> Result<(), AllocError>
    ensures { OnOk result (string_bytes out.new
        ≡ string_bytes out.old ++ value_shown names.now.keys (value_of value)) }
{
    match value {
        Value::Word(word) => add_word(out, word),
        Value::Nil => out.push_str("nil"),
        Value::Name(name) => add_number(out, names, name),
    }
}

// The line of a field.
fn add_field(
    out: &mut String,
    indent: &str,
    names: &IndexSet<u32>,
    field: &Var,
    value: Value,
) -> Result<(), AllocError>
    requires { IsAscii field.now.name.text }
    ensures { OnOk result (string_bytes out.new
        ≡ string_bytes out.old ++ (indent.now ++ field.now.name.text ++ codes " = "
        ++ value_shown names.now.keys (value_of value) ++ line_end)) }
{
    out.push_str(indent)?;
    add_name(out, &field.name.text)?;
    out.push_str(" = ")?;
    add_value(out, names, value)?;
    out.push('\n')
}

// The lines of fields.
fn add_fields(
    out: &mut String,
    indent: &str,
    names: &IndexSet<u32>,
    fields: &[Var],
    values: &[Value],
) -> Result<(), AllocError>
    requires { All HasAsciiName fields.now }
    ensures { OnOk result (string_bytes out.new
        ≡ string_bytes out.old ++ field_lines indent.now names.now.keys fields.now
        (values_of values.now)) }
{
    match fields {
        [] => Ok(()),
        [field, fields @ ..] => match values {
            [] => Ok(()),
            [value, values @ ..] => {
                add_field(out, indent, names, field, *value)?;
                add_fields(out, indent, names, fields, values)
            }
        },
    }
}

// The line of an element.
fn add_element(
    out: &mut String,
    names: &IndexSet<u32>,
    index: usize,
    value: Value,
) -> Result<(), AllocError>
    ensures { OnOk result (string_bytes out.new
        ≡ string_bytes out.old ++ element_lines names.now.keys index (value_of value ∷ [])) }
{
    write!(out, "  [{index}] = ")?;
    add_value(out, names, value)?;
    out.push('\n')
}

// The lines of elements.
fn add_elements(out: &mut String, names: &IndexSet<u32>, values: &[Value]) -> Result<(), AllocError>
    ensures { OnOk result (string_bytes out.new
        ≡ string_bytes out.old ++ element_lines names.now.keys 0 (values_of values.now)) }
{
    for (index, value) in values.iter().enumerate() {
        add_element(out, names, index, *value)?;
    }
    Ok(())
}

// The name of a class.
fn add_class(out: &mut String, program: &Program, class: u32) -> Result<(), AllocError>
    requires { IsAccepted (source_of program.now) }
    ensures { OnOk result (string_bytes out.new
        ≡ string_bytes out.old ++ (class_at (source_of program.now) class).name.text) }
{
    add_bytes(out, class_name(program, class))
}

fn add_head(out: &mut String, program: &Program, head: Head) -> Result<(), AllocError>
    requires { IsAccepted (source_of program.now) }
    ensures { OnOk result (string_bytes out.new
        ≡ string_bytes out.old ++ head_shown (source_of program.now) (kept_head head)) }
{
    match head {
        Head::Class(class) => add_class(out, program, class),
        Head::Ints(length) => write!(out, "int[{length}]"),
        Head::Objects { class, length } => {
            add_class(out, program, class)?;
            write!(out, "[{length}]")
        }
    }
}

// The lines of the fields of an object of a class.
fn add_class_fields(
    out: &mut String,
    indent: &str,
    checked: &Checked,
    names: &IndexSet<u32>,
    class: u32,
    values: &[Value],
) -> Result<(), AllocError>
    ensures { OnOk result (string_bytes out.new
        ≡ string_bytes out.old ++ field_lines indent.now names.now.keys
        (class_fields (source_of checked.now) class) (values_of values.now)) }
{
    let table = checked.table();
    let fields = table.fields(class);
    add_fields(out, indent, names, fields, values)
}

// The lines of the cells of an object or array.
fn add_cells(
    out: &mut String,
    checked: &Checked,
    names: &IndexSet<u32>,
    head: Head,
    values: &[Value],
) -> Result<(), AllocError>
    ensures { OnOk result (string_bytes out.new
        ≡ string_bytes out.old ++ cell_lines (source_of checked.now) names.now.keys (kept_head head)
        (values_of values.now)) }
{
    match head {
        Head::Class(class) => add_class_fields(out, "  ", checked, names, class, values),
        Head::Ints(_) => add_elements(out, names, values),
        Head::Objects { .. } => add_elements(out, names, values),
    }
}

fn head_at(heap: &Heap, name: u32) -> Head
    ensures { kept_head result ≡ (object_at heap.now.store name).head }
{
    match heap.object(name) {
        None => Head::Ints(0),
        Some(object) => object.head,
    }
}

// The line of an object or array.
fn add_first(
    out: &mut String,
    checked: &Checked,
    names: &IndexSet<u32>,
    heap: &Heap,
    name: u32,
) -> Result<(), AllocError>
    ensures { OnOk result (string_bytes out.new
        ≡ string_bytes out.old ++ head_line (number_shown names.now.keys name)
        (head_shown (source_of checked.now) (object_at heap.now.store name).head)
        (object_at heap.now.store name).count) }
{
    let count = heap.count_of(name);
    let head = head_at(heap, name);
    let program = checked.program();
    add_number(out, names, name)?;
    out.push(' ')?;
    add_head(out, program, head)?;
    write!(out, " count {count}\n")
}

// The line of an object or array, and those of its cells.
fn add_object(
    out: &mut String,
    checked: &Checked,
    names: &IndexSet<u32>,
    heap: &Heap,
    name: u32,
) -> Result<(), AllocError>
    ensures { OnOk result (string_bytes out.new
        ≡ string_bytes out.old ++ object_lines (source_of checked.now) heap.now.store names.now.keys
        (name ∷ [])) }
{
    let head = head_at(heap, name);
    let cells = cells_at(heap, name);
    add_first(out, checked, names, heap, name)?;
    add_cells(out, checked, names, head, cells)
}

fn add_objects(
    out: &mut String,
    checked: &Checked,
    names: &IndexSet<u32>,
    heap: &Heap,
) -> Result<(), AllocError>
    ensures { OnOk result (string_bytes out.new
        ≡ string_bytes out.old ++ object_lines (source_of checked.now) heap.now.store names.now.keys
        names.now.keys) }
{
    let size = names.len();
    for at in 0..size {
        match name_at(names, at) {
            None => return Ok(()),
            Some(name) => add_object(out, checked, names, heap, name)?,
        }
    }
    Ok(())
}

fn main_class(checked: &Checked) -> u32
    ensures { result ≡ (main_of (source_of checked.now)).class }
{
    let table = checked.table();
    let main = table.main();
    main.class
}

// The lines of the main object's fields.
fn add_main(
    out: &mut String,
    checked: &Checked,
    names: &IndexSet<u32>,
    heap: &Heap,
) -> Result<(), AllocError>
    ensures { OnOk result (string_bytes out.new
        ≡ string_bytes out.old ++ field_lines [] names.now.keys
        (main_fields (source_of checked.now)) (object_at heap.now.store main_name).cells) }
{
    let class = main_class(checked);
    let cells = cells_at(heap, 1);
    add_class_fields(out, "", checked, names, class, cells)
}
