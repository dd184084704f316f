// The addresses of the tables of the classes.
ghost use Rattle.std.specs.Prelude.{◌≡◌, ◌≤◌, ◌<◌, ◌+◌, ◌^◌, length, IfOk};
ghost use Rattle.roopl_semantics.specs.rpp_tree.Views.{source_of};
ghost use Rattle.roopl_semantics.specs.Layout.{table_at as address_of, table_addresses as addresses_of};

use class_table::Checked;
use class_table::limits::{MOST_CLASSES, MOST_FIELDS, MOST_METHODS};
use roopl_semantics::memory::{FIRST_FIELD, TABLE_HEADER};
use std::alloc::{AllocError, Global};

/// The address of a class's table.
pub fn table_at(checked: &Checked, class: u32) -> u32
    requires { class < length (source_of checked.now).classes }
    ensures { result ≡ address_of (source_of checked.now) class }
{
    let mut at = first_table(checked);
    for before in 0..class {
        at = next_table(checked, before, at);
    }
    at
}

/// The addresses of the tables, in the order of the classes.
pub fn table_addresses(alloc: Global, checked: &Checked) -> Result<Vec<u32>, AllocError>
    ensures { IfOk result (λ tables. tables.items ≡ addresses_of (source_of checked.now)) }
{
    let mut tables = Vec::new(alloc);
    let mut at = first_table(checked);
    for class in 0..checked.table().class_count() {
        tables.push(at)?;
        at = next_table(checked, class, at);
    }
    Ok(tables)
}

// The address of the first table: after the fields of the main object.
fn first_table(checked: &Checked) -> u32
    ensures first { result ≡ address_of (source_of checked.now) 0 }
    ensures low { result ≤ FIRST_FIELD + MOST_FIELDS }
    ensures few { length (source_of checked.now).classes ≤ MOST_CLASSES }
{
    let table = checked.table();
    FIRST_FIELD + table.fields(table.main().class).len() as u32
}

// The address of the next table, after a class's number and its method slots.
fn next_table(checked: &Checked, class: u32, at: u32) -> u32
    requires inside { class < length (source_of checked.now).classes }
    requires here { at ≡ address_of (source_of checked.now) class }
    requires low { at < 2 ^ 31 }
    ensures next { result ≡ address_of (source_of checked.now) (class + 1) }
    ensures near { result ≤ at + TABLE_HEADER + MOST_METHODS }
{
    at + TABLE_HEADER + checked.table().slot_count(class)
}
