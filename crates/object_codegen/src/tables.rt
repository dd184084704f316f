// What the code of objects needs to know of a class.
ghost use Rattle.std.specs.Prelude.{◌≡◌, ◌≤◌, ◌<◌, ◌+◌, length};
ghost use Rattle.std.specs.Option.{unwrap_or};
ghost use Rattle.refine_heap.specs.rpp_tree.Views.{source_of};
ghost use Rattle.refine_heap.specs.class_rules.Classes.{class_number as number_of, class_fields};
ghost use Rattle.refine_heap.specs.buddy_book.Book.{order_for as least_order};

use static_layout::memory::HEADER_WORDS;
use static_layout::{Checked, Text, order_for};

/// The number of the class of this name; 0 if there is none.
pub fn class_number(checked: &Checked, name: &Text) -> u32
    ensures number { result ≡ unwrap_or (number_of (source_of checked.now) name.now) 0 }
    ensures inside { result < length (source_of checked.now).classes }
{
    match checked.table().class_of(name) {
        None => 0,
        Some(number) => number,
    }
}

/// The number of a class's fields.
pub fn field_count(checked: &Checked, class: u32) -> u32
    requires inside { class < length (source_of checked.now).classes }
    ensures count { result ≡ length (class_fields (source_of checked.now) class) }
    ensures few { result ≤ 64 }
{
    checked.table().fields(class).len() as u32
}

/// The order of a block for so many fields.
pub fn order_of(fields: u32) -> u32
    requires { fields ≤ 64 }
    ensures { result ≡ least_order (HEADER_WORDS + fields) }
{
    order_for(fields as u64 + HEADER_WORDS as u64)
}
