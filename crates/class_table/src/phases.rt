// The phases in which a class table is refused.
ghost use Rattle.std.specs.Prelude.{◌≡◌, MatchResult, None, map};
ghost use Rattle.std.specs.Option.{option_map};
ghost use Rattle.class_rules.specs.rpp_tree.Views.{source_of, class_text_of, procedure_of};
ghost use Rattle.class_rules.specs.Rules.{IsFirst, all_class_names, duplicate_class, unknown_class, unknown_in_class, unknown_params, unknown_var, unknown_type, unknown_name, unknown_parent};
ghost use Rattle.class_rules.specs.Refusal.{refused};
ghost use Rattle.class_rules.specs.First.{first_in};

use crate::names::add_name;
use class_rules::tree::{Class, Ident, Method, Program, Var, VarType};
use class_rules::{ClassError, Text};
use indexmap::IndexSet;
use std::alloc::Global;

/// The names of the classes, each of which has only one.
pub fn name_classes(alloc: Global, program: &Program) -> Result<IndexSet<Text>, ClassError>
    ensures { MatchResult result (λ names. (names.keys ≡ all_class_names (source_of program.now))
        × (duplicate_class (source_of program.now) ≡ None))
        (IsFirst (duplicate_class (source_of program.now))) }
{
    let mut names = IndexSet::new(alloc);
    for class in &program.classes {
        if !add_name(alloc, &mut names, &class.name.text)? {
            return Err(ClassError::DuplicateClass { at: class.name.at });
        }
    }
    Ok(names)
}

// The place of a name that is no class.
fn know_name(names: &IndexSet<Text>, name: &Ident) -> Option<u32>
    ensures { option_map (refused 6) result ≡ unknown_name names.now.keys name.now }
{
    if names.contains(&name.text) {
        None
    } else {
        Some(name.at)
    }
}

fn know_type(names: &IndexSet<Text>, kind: &VarType) -> Option<u32>
    ensures { option_map (refused 6) result ≡ unknown_type names.now.keys kind.now }
{
    match kind {
        VarType::Int => None,
        VarType::Class(name) => know_name(names, name),
        VarType::IntArray => None,
        VarType::ClassArray(name) => know_name(names, name),
    }
}

fn know_vars(names: &IndexSet<Text>, vars: &[Var]) -> Option<u32>
    ensures { option_map (refused 6) result
        ≡ first_in (unknown_var names.now.keys) vars.now }
{
    for var in vars {
        let refused = know_type(names, &var.kind);
        if refused.is_some() {
            return refused;
        }
    }
    None
}

fn know_methods(names: &IndexSet<Text>, methods: &[Method]) -> Option<u32>
    ensures { option_map (refused 6) result
        ≡ first_in (unknown_params names.now.keys) (map procedure_of methods.now) }
{
    for method in methods {
        let refused = know_vars(names, &method.params);
        if refused.is_some() {
            return refused;
        }
    }
    None
}

fn know_parent(names: &IndexSet<Text>, parent: &Option<Ident>) -> Option<u32>
    ensures { option_map (refused 6) result ≡ unknown_parent names.now.keys parent.now }
{
    match parent {
        None => None,
        Some(name) => know_name(names, name),
    }
}

fn know_class(names: &IndexSet<Text>, class: &Class) -> Option<u32>
    ensures { option_map (refused 6) result
        ≡ unknown_in_class names.now.keys (class_text_of class.now) }
{
    let refused = know_parent(names, &class.parent);
    if refused.is_some() {
        return refused;
    }
    let refused = know_vars(names, &class.fields);
    if refused.is_some() {
        return refused;
    }
    know_methods(names, &class.methods)
}

/// The place of the first name that is used as a class and is none.
pub fn know_classes(names: &IndexSet<Text>, program: &Program) -> Option<u32>
    requires { names.now.keys ≡ all_class_names (source_of program.now) }
    ensures { option_map (refused 6) result ≡ unknown_class (source_of program.now) }
{
    for class in &program.classes {
        let refused = know_class(names, class);
        if refused.is_some() {
            return refused;
        }
    }
    None
}
