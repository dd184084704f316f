// What cells lead to.
ghost use Rattle.std.specs.Prelude.{◌≡◌, ◌≤◌, ◌<◌, length, position, nat_eq, IfSome};
ghost use Rattle.meaning_reached.specs.rpp_tree.declared.limits.TheConstants.{MOST_CLASSES};
ghost use Rattle.store_report.specs.Leads.{lead_of as lead_told, is_reference, class_at_table};

use static_layout::ClassTable;
use static_layout::tree::VarType;

/// What a cell leads to: nothing if it holds an int, an object, an array of ints, or an array of
/// references to objects of a class.
#[derive(Clone, Copy)]
pub enum Lead {
    Int,
    Object,
    Ints,
    Objects(u32),
}

impl Lead {
    /// Whether the cell holds a reference.
    pub fn is_reference(self) -> bool
        ensures { result ≡ is_reference self }
    {
        match self {
            Lead::Int => false,
            Lead::Object => true,
            Lead::Ints => true,
            Lead::Objects(_) => true,
        }
    }
}

/// What a cell of this type leads to.
pub fn lead_of(table: &ClassTable, kind: &VarType) -> Lead
    ensures { result ≡ lead_told table.now kind.now }
{
    match kind {
        VarType::Int => Lead::Int,
        VarType::Class(_) => Lead::Object,
        VarType::IntArray => Lead::Ints,
        VarType::ClassArray(name) => match table.class_of(&name.text) {
            None => Lead::Objects(0),
            Some(class) => Lead::Objects(class),
        },
    }
}

/// The index of a word among these.
fn place_of(words: &[u32], word: u32) -> Option<usize>
    ensures place { result ≡ position (nat_eq word) words.now }
    ensures within { IfSome result (λ i. i < length words.now) }
{
    words.iter().position(|at| word == *at)
}

/// The class whose table is at an address, or the first one.
pub fn class_at_table(tables: &[u32], word: u32) -> u32
    requires { length tables.now ≤ MOST_CLASSES }
    ensures { result ≡ class_at_table tables.now word }
{
    match place_of(tables, word) {
        None => 0,
        Some(class) => class as u32,
    }
}
