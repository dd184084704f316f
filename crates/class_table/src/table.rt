// The class table.
ghost use Rattle.std.specs.Prelude.{◌≡◌, ◌<◌, ◌≤◌, IfOk, IfErr, OnOk, IfSome, length};
ghost use Rattle.class_rules.specs.rpp_tree.Views.{source_of};
ghost use Rattle.class_rules.specs.Rules.{IsFirst};
ghost use Rattle.class_rules.specs.Table.{table_of, first_class_refusal, HasClassTable, class_of, fields_in, field_in, slots_in, slot_in, dispatch_in, inherits_in};

use crate::chains::{line_at, lines, number_of, parents};
use crate::fields::{ClassFields, check_fields, fields};
use crate::mains::the_main;
use crate::overrides::{check_methods, check_overrides};
use crate::phases::{know_classes, name_classes};
use crate::slots::{MethodSlots, slots};
use class_rules::limits::{MOST_CLASSES, MOST_METHODS};
use class_rules::tree::{Program, Var};
use class_rules::{ClassError, MethodId, Text};
use indexmap::IndexSet;
use std::alloc::Global;
use std::marker::Model;

/// The class table of a program, as in Cservenka's thesis on ROOPL++: a class has the fields and
/// method slots of its parent first. Classes, the fields of a class, its slots and the methods that
/// it declares are numbered from 0 in their order. Readers find names by maps. If a number is that
/// of no class or slot, they return that there is nothing.
#[derive(Drop)]
pub struct ClassTable {
    names: IndexSet<Text>,
    lines: Vec<Vec<u32>>,
    fields: Vec<ClassFields>,
    slots: Vec<MethodSlots>,
    main: MethodId,
}

impl Model for ClassTable {
    ghost use Rattle.class_rules.specs.Table.{Table};

    ghost Value = { Table };

    ghost use Rattle.std.specs.Prelude.{map, ◌≤◌, length};
    ghost use Rattle.class_rules.specs.rpp_tree.declared.limits.TheConstants.{MOST_CLASSES};

    ghost view = { λ t. record {
      names = t.names.keys;
      lines = map (λ line. line.items) t.lines.items;
      fields = t.fields.items;
      slots = t.slots.items;
      main = t.main;
    } };

    ghost invariant = { λ t. length t.names.keys ≤ MOST_CLASSES };
}

impl ClassTable {
    /// The table of a program, or the first refusal. `end` is the length of the text in bytes, the
    /// place of a missing `main`.
    pub fn build(alloc: Global, program: &Program, end: u32) -> Result<ClassTable, ClassError>
        requires { length program.now.classes.items ≤ MOST_CLASSES }
        ensures built { IfOk result (λ table. table ≡ table_of (source_of program.now)) }
        ensures accepted { OnOk result (HasClassTable (source_of program.now)) }
        ensures refused { IfErr result (IsFirst (first_class_refusal (source_of program.now) end)) }
    {
        let names = name_classes(alloc, program)?;
        if let Some(at) = know_classes(&names, program) {
            return Err(ClassError::UnknownClass { at });
        }
        let parents = parents(alloc, &names, program)?;
        let lines = lines(alloc, &parents, program)?;
        check_fields(alloc, program, &lines)?;
        check_methods(alloc, program)?;
        check_overrides(alloc, program, &lines)?;
        let fields = fields(alloc, program, &lines)?;
        let slots = slots(alloc, program, &lines)?;
        let main = the_main(alloc, program, end)?;
        Ok(ClassTable {
            names,
            lines,
            fields,
            slots,
            main,
        })
    }

    /// The number of classes.
    pub fn class_count(&self) -> u32
        ensures count { result ≡ length self.now.names }
        ensures few { result ≤ MOST_CLASSES }
    {
        self.names.len() as u32
    }

    /// The number of the class of this name.
    pub fn class_of(&self, name: &Text) -> Option<u32>
        ensures number { result ≡ class_of self.now name.now }
        ensures within { IfSome result (λ number. number < length self.now.names) }
    {
        number_of(&self.names, name)
    }

    /// The fields of a class, the inherited ones first.
    pub fn fields(&self, class: u32) -> &[Var]
        ensures fields { result.now ≡ fields_in self.now class }
        ensures few { length result.now ≤ 64 }
    {
        match self.fields.get(class as usize) {
            None => &[],
            Some(fields) => fields.vars(),
        }
    }

    /// The number of the field of this name.
    pub fn field_of(&self, class: u32, name: &Text) -> Option<u32>
        ensures number { result ≡ field_in self.now class name.now }
        ensures within { IfSome result (λ number. number < length (fields_in self.now class)) }
        ensures few { IfSome result (λ number. number < 64) }
    {
        match self.fields.get(class as usize) {
            None => None,
            Some(fields) => fields.number_of(name),
        }
    }

    /// The slot of the method of this name.
    pub fn method_slot(&self, class: u32, name: &Text) -> Option<u32>
        ensures slot { result ≡ slot_in self.now class name.now }
        ensures within { IfSome result (λ slot. slot < length (slots_in self.now class)) }
    {
        match self.slots.get(class as usize) {
            None => None,
            Some(slots) => slots.slot(name),
        }
    }

    /// The number of a class's method slots.
    pub fn slot_count(&self, class: u32) -> u32
        ensures count { result ≡ length (slots_in self.now class) }
        ensures few { result ≤ MOST_METHODS }
    {
        match self.slots.get(class as usize) {
            None => 0,
            Some(slots) => slots.count(),
        }
    }

    /// The method in a slot.
    pub fn dispatch(&self, class: u32, slot: u32) -> MethodId
        ensures { result ≡ dispatch_in self.now class slot }
    {
        match self.slots.get(class as usize) {
            None => MethodId {
                class: 0,
                method: 0,
            },
            Some(slots) => slots.runs(slot),
        }
    }

    /// Whether a class has another above itself. No class is above itself.
    pub fn inherits(&self, class: u32, from: u32) -> bool
        ensures { result ≡ inherits_in self.now class from }
    {
        let line = line_at(&self.lines, class as usize);
        line[..line.len().saturating_sub(1)]
            .iter()
            .any(|above| *above == from)
    }

    /// The one method `main` without parameters.
    pub fn main(&self) -> MethodId
        ensures { result ≡ self.now.main }
    {
        self.main
    }
}
