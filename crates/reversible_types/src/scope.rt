// What names mean.
ghost use Rattle.std.specs.Prelude.{◌≡◌};
ghost use Rattle.std.specs.Option.{option_copied};
ghost use Rattle.class_table.specs.class_rules.Scope.{class_kind, kind_of, field_kind, local_kind, kind_in};
ghost use Rattle.class_table.specs.class_rules.Table.{class_of};
ghost use Rattle.reversible_types.specs.ScopeView.{typing_of, locals_of};

use class_table::tree::{Ident, Program, VarType};
use class_table::{ClassTable, Kind, Text};

/// The scope of a statement: the program and its table, and the class of the method.
#[derive(Clone, Copy)]
pub struct Typing<'a> {
    pub program: &'a Program,
    pub table: &'a ClassTable,
    pub class: u32,
}

/// The visible parameters and locals, the innermost first.
#[derive(Clone, Copy)]
pub enum Locals<'a> {
    Nothing,
    Local {
        name: &'a Text,
        kind: Kind,
        outer: &'a Locals<'a>,
    },
}

/// The type of an object of this class.
pub fn kind_of_class(table: &ClassTable, class: &Ident) -> Kind
    ensures { result ≡ class_kind (class_of table.now class.now.text) }
{
    match table.class_of(&class.text) {
        None => Kind::Nil,
        Some(class) => Kind::Class(class),
    }
}

/// The type with its class by number.
pub fn kind_of_type(table: &ClassTable, kind: &VarType) -> Kind
    ensures { result ≡ kind_of table.now kind.now }
{
    match kind {
        VarType::Int => Kind::Int,
        VarType::Class(name) => match table.class_of(&name.text) {
            None => Kind::Nil,
            Some(class) => Kind::Class(class),
        },
        VarType::IntArray => Kind::IntArray,
        VarType::ClassArray(name) => match table.class_of(&name.text) {
            None => Kind::Nil,
            Some(class) => Kind::ClassArray(class),
        },
    }
}

/// The type of the field of this name.
fn kind_of_field(table: &ClassTable, class: u32, name: &Text) -> Option<Kind>
    ensures { result ≡ field_kind table.now class name.now }
{
    match table.field_of(class, name) {
        None => None,
        Some(number) => Some(kind_of_type(table, &table.fields(class)[number as usize].kind)),
    }
}

/// The type of the innermost parameter or local of this name.
pub fn kind_of_local(locals: &Locals, name: &Text) -> Option<Kind>
    ensures { result ≡ local_kind (locals_of locals.now) name.now }
{
    match locals {
        Locals::Nothing => None,
        Locals::Local {
            name: own,
            kind,
            outer,
        } => {
            if **own == *name {
                return Some(*kind);
            }
            kind_of_local(outer, name)
        }
    }
}

/// The type of what a name means.
pub fn kind_of_name(setting: &Typing, locals: &Locals, name: &Text) -> Option<Kind>
    ensures { result ≡ kind_in (typing_of setting.now) (locals_of locals.now) name.now }
{
    match kind_of_local(locals, name) {
        Some(kind) => Some(kind),
        None => kind_of_field(setting.table, setting.class, name),
    }
}
