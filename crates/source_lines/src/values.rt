// The lines of values, fields and elements.
ghost use Rattle.std.specs.Prelude.{◌≡◌, ◌++◌, ◌∷◌, [], OnOk, string_bytes};
ghost use Rattle.source_steps.specs.rpp_tree.Views.{source_of};
ghost use Rattle.source_steps.specs.class_rules.Classes.{class_fields};
ghost use Rattle.source_steps.specs.roopl_semantics.Report.{signed_decimal};
ghost use Rattle.source_steps.specs.source_store.ValueView.{value_of, values_of};
ghost use Rattle.source_lines.specs.Named.{value_named, name_line, fields_named, elements_named};

use source_steps::tree::Var;
use source_steps::{Checked, Lack, Value};
use std::alloc::AllocError;

// A word in signed decimal.
fn add_word(out: &mut String, word: u32) -> Result<(), AllocError>
    ensures { OnOk result (string_bytes out.new ≡ string_bytes out.old ++ signed_decimal word) }
{
    if word < 1 << 31 {
        write!(out, "{word}")
    } else {
        let below = 0u32.wrapping_sub(word);
        write!(out, "-{below}")
    }
}

/// A word, nil or the name of a reference.
pub fn add_value(out: &mut String, value: Value) -> Result<(), AllocError>
    ensures { OnOk result (string_bytes out.new ≡ string_bytes out.old ++ value_named (value_of value)) }
{
    match value {
        Value::Word(word) => add_word(out, word),
        Value::Nil => out.push_str("nil"),
        Value::Name(name) => write!(out, "#{name}"),
    }
}

/// The bytes of a name. All names of a program are ASCII; another one would be refused as `Full`.
pub fn add_bytes(out: &mut String, bytes: &[u8]) -> Result<(), Lack>
    ensures { OnOk result (string_bytes out.new ≡ string_bytes out.old ++ bytes.now) }
{
    match str::from_utf8(bytes) {
        Err(_) => Err(Lack::Full),
        Ok(text) => Ok(out.push_str(text)?),
    }
}

/// The line of a name with a value.
pub fn add_name_line(out: &mut String, name: &[u8], value: Value) -> Result<(), Lack>
    ensures { OnOk result (string_bytes out.new
        ≡ string_bytes out.old ++ name_line name.now (value_of value)) }
{
    add_bytes(out, name)?;
    out.push_str(" = ")?;
    add_value(out, value)?;
    out.push('\n')?;
    Ok(())
}

// The lines of fields.
fn add_fields(out: &mut String, indent: &str, fields: &[Var], values: &[Value]) -> Result<(), Lack>
    ensures { OnOk result (string_bytes out.new
        ≡ string_bytes out.old ++ fields_named indent.now fields.now (values_of values.now)) }
{
    match fields {
        [] => Ok(()),
        [field, fields @ ..] => match values {
            [] => Ok(()),
            [value, values @ ..] => {
                out.push_str(indent)?;
                add_name_line(out, field.name.text.bytes(), *value)?;
                add_fields(out, indent, fields, values)
            }
        },
    }
}

/// The lines of the fields of an object of a class.
pub fn add_class_fields(
    out: &mut String,
    indent: &str,
    checked: &Checked,
    class: u32,
    values: &[Value],
) -> Result<(), Lack>
    ensures { OnOk result (string_bytes out.new
        ≡ string_bytes out.old ++ fields_named indent.now
        (class_fields (source_of checked.now) class) (values_of values.now)) }
{
    let table = checked.table();
    let fields = table.fields(class);
    add_fields(out, indent, fields, values)
}

// The line of an element.
fn add_element(out: &mut String, index: usize, value: Value) -> Result<(), AllocError>
    ensures { OnOk result (string_bytes out.new
        ≡ string_bytes out.old ++ elements_named index (value_of value ∷ [])) }
{
    write!(out, "  [{index}] = ")?;
    add_value(out, value)?;
    out.push('\n')
}

/// The lines of elements.
pub fn add_elements(out: &mut String, values: &[Value]) -> Result<(), AllocError>
    ensures { OnOk result (string_bytes out.new
        ≡ string_bytes out.old ++ elements_named 0 (values_of values.now)) }
{
    for (index, value) in values.iter().enumerate() {
        add_element(out, index, *value)?;
    }
    Ok(())
}
