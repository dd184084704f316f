// Methods that a class declares twice, or overrides with other parameters.
ghost use Rattle.std.specs.Prelude.{◌≡◌, ◌<◌, ◌≤◌, MatchResult, None, [], map, length, take};
ghost use Rattle.std.specs.Option.{option_map};
ghost use Rattle.class_rules.specs.rpp_tree.Views.{source_of, class_text_of, procedure_of};
ghost use Rattle.class_rules.specs.Rules.{IsFirst};
ghost use Rattle.class_rules.specs.Refusal.{refused};
ghost use Rattle.class_rules.specs.First.{first_in, first_after};
ghost use Rattle.class_rules.specs.Chains.{lines as lines_of};
ghost use Rattle.class_rules.specs.Overrides.{method_name, method_taken, duplicate_method_in, duplicate_method, same_type, same_types as equal_types, parameters_of, override_differs, inherited_slots, override_differs_at, differing_override};

use crate::chains::line_at;
use crate::names::add_name;
use crate::slots::{methods_at, runs_at, slots_along};
use class_rules::tree::{Class, Method, Program, Var, VarType};
use class_rules::{ClassError, MethodId, Text};
use indexmap::{IndexMap, IndexSet};
use std::alloc::Global;

/// Whether each method of a class has a name of its own.
fn check_own_methods(alloc: Global, methods: &[Method]) -> Result<(), ClassError>
    ensures { MatchResult result (λ _. first_after method_taken [] (map procedure_of methods.now)
        ≡ None) (IsFirst (first_after method_taken [] (map procedure_of methods.now))) }
{
    let mut names = IndexSet::new(alloc);
    for method in methods {
        if !add_name(alloc, &mut names, &method.name.text)? {
            return Err(ClassError::DuplicateMethod { at: method.name.at });
        }
    }
    Ok(())
}

/// Whether the methods of each class have names of their own.
pub fn check_methods(alloc: Global, program: &Program) -> Result<(), ClassError>
    ensures { MatchResult result (λ _. duplicate_method (source_of program.now) ≡ None)
        (IsFirst (duplicate_method (source_of program.now))) }
{
    for class in &program.classes {
        check_own_methods(alloc, &class.methods)?;
    }
    Ok(())
}

/// Whether two types are equal.
pub fn same_type(a: &VarType, b: &VarType) -> bool
    ensures { result ≡ same_type a.now b.now }
{
    match (a, b) {
        (VarType::Int, VarType::Int) => true,
        (VarType::Class(a), VarType::Class(b)) => a.text == b.text,
        (VarType::IntArray, VarType::IntArray) => true,
        (VarType::ClassArray(a), VarType::ClassArray(b)) => a.text == b.text,
        _ => false,
    }
}

fn same_types(a: &[Var], b: &[Var]) -> bool
    ensures { result ≡ equal_types a.now b.now }
{
    match a {
        [] => match b {
            [] => true,
            [_, ..] => false,
        },
        [x, xs @ ..] => match b {
            [] => false,
            [y, ys @ ..] => same_type(&x.kind, &y.kind) && same_types(xs, ys),
        },
    }
}

fn parameters(program: &Program, runs: MethodId) -> &[Var]
    ensures { result.now ≡ parameters_of (source_of program.now) runs }
{
    match methods_at(program, runs.class).get(runs.method as usize) {
        None => &[],
        Some(method) => &method.params,
    }
}

// The place of a method that overrides one with other parameter types.
fn overrides(program: &Program, slots: &IndexMap<Text, MethodId>, method: &Method) -> Option<u32>
    ensures { option_map (refused 10) result ≡ override_differs (source_of program.now) slots.now.entries
        (procedure_of method.now) }
{
    let Some(slot) = slots.get_index_of(&method.name.text) else {
        return None;
    };
    if same_types(parameters(program, runs_at(slots, slot)), &method.params) {
        None
    } else {
        Some(method.name.at)
    }
}

fn method_overrides(
    program: &Program,
    slots: &IndexMap<Text, MethodId>,
    methods: &[Method],
) -> Option<u32>
    ensures { option_map (refused 10) result ≡ first_in (override_differs (source_of program.now) slots.now.entries)
        (map procedure_of methods.now) }
{
    for method in methods {
        let refused = overrides(program, slots, method);
        if refused.is_some() {
            return refused;
        }
    }
    None
}

#[tactic(auto, using(class_rules::proofs::Numbers::by_number))]
fn slots_above(
    alloc: Global,
    program: &Program,
    lines: &[Vec<u32>],
    number: usize,
) -> Result<IndexMap<Text, MethodId>, ClassError>
    requires known { map (λ line. line.items) lines.now ≡ lines_of (source_of program.now) }
    requires within { number < length program.now.classes.items }
    ensures { MatchResult result (λ slots. slots.entries
        ≡ inherited_slots (source_of program.now) number) (λ error. error ≡ ClassError.NoMemory) }
{
    let line = line_at(lines, number);
    slots_along(alloc, program, &line[..line.len().saturating_sub(1)])
}

/// Whether each overriding method has the parameter types of the inherited one.
pub fn check_overrides(
    alloc: Global,
    program: &Program,
    lines: &[Vec<u32>],
) -> Result<(), ClassError>
    requires { map (λ line. line.items) lines.now ≡ lines_of (source_of program.now) }
    ensures { MatchResult result (λ _. differing_override (source_of program.now) ≡ None)
        (IsFirst (differing_override (source_of program.now))) }
{
    for (number, class) in program.classes.iter().enumerate() {
        let slots = slots_above(alloc, program, lines, number)?;
        if let Some(at) = method_overrides(program, &slots, &class.methods) {
            return Err(ClassError::OverrideDiffers { at });
        }
    }
    Ok(())
}
