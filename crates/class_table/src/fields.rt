// The fields of classes.
ghost use Rattle.std.specs.Prelude.{◌≡◌, ◌-◌, ◌<◌, ◌≤◌, ◌++◌, MatchResult, IfSome, None, [], map, length, take, position};
ghost use Rattle.std.specs.Str.{bytes_eq};
ghost use Rattle.class_rules.specs.rpp_tree.Views.{source_of, class_text_of};
ghost use Rattle.class_rules.specs.Rules.{IsFirst};
ghost use Rattle.class_rules.specs.Names.{with_names};
ghost use Rattle.class_rules.specs.Chains.{lines as lines_of};
ghost use Rattle.class_rules.specs.Members.{class_at, field_name, class_fields, taken_field, duplicate_field_at, too_many_fields_at, inherited, fields_along as all_fields, names_along as all_names, fields as fields_of_all, duplicate_field, too_many_fields};

use crate::chains::line_at;
use crate::names::add_name;
use class_rules::limits::{LimitKind, MOST_FIELDS};
use class_rules::tree::{Class, Program, Var};
use class_rules::{ClassError, Text};
use indexmap::IndexSet;
use std::alloc::Global;
use std::marker::Model;

/// The fields of a class, the inherited ones first, with their numbers by name.
#[derive(Drop)]
pub struct ClassFields {
    vars: Vec<Var>,
    names: IndexSet<Text>,
}

impl Model for ClassFields {
    ghost use Rattle.std.specs.Prelude.{◌≡◌, List, map, length, ◌≤◌};
    ghost use Rattle.class_rules.specs.rpp_tree.declared.tree.Var.{Var};
    ghost use Rattle.class_rules.specs.Members.{field_name};

    ghost Value = { List Var };

    ghost view = { λ f. f.vars.items };

    ghost invariant = { λ f. (f.names.keys ≡ map field_name f.vars.items) × (length f.vars.items ≤ 64) };
}

impl ClassFields {
    /// The fields in their order.
    pub fn vars(&self) -> &[Var]
        ensures vars { result.now ≡ self.now }
        ensures few { length result.now ≤ 64 }
    {
        &self.vars
    }

    /// The number of the field of this name.
    pub fn number_of(&self, name: &Text) -> Option<u32>
        ensures number { result ≡ position (bytes_eq name.now) (map field_name self.now) }
        ensures few { IfSome result (λ number. number < 64) }
    {
        match self.names.get_index_of(name) {
            None => None,
            Some(number) => Some(number as u32),
        }
    }
}

fn fields_at(program: &Program, number: u32) -> &[Var]
    ensures { result.now ≡ (class_at (source_of program.now) number).fields }
{
    match program.classes.get(number as usize) {
        None => &[],
        Some(class) => &class.fields,
    }
}

/// Adds the names of fields to a set.
fn add_field_names(
    alloc: Global,
    names: &mut IndexSet<Text>,
    vars: &[Var],
) -> Result<(), ClassError>
    ensures { MatchResult result (λ _. names.new.keys
        ≡ with_names names.old.keys (map field_name vars.now))
        (λ error. error ≡ ClassError.NoMemory) }
{
    for var in vars {
        let _added = add_name(alloc, names, &var.name.text)?;
    }
    Ok(())
}

/// The names of the fields of these classes, each once.
fn names_along(alloc: Global, program: &Program, line: &[u32]) -> Result<IndexSet<Text>, ClassError>
    ensures { MatchResult result (λ names. names.keys
        ≡ all_names (source_of program.now) [] line.now) (λ error. error ≡ ClassError.NoMemory) }
{
    let mut names = IndexSet::new(alloc);
    for number in line {
        add_field_names(alloc, &mut names, fields_at(program, *number))?;
    }
    Ok(names)
}

/// Whether each new field has a name that is neither among these nor that of an earlier one.
fn check_own_fields(alloc: Global, mut names: IndexSet<Text>, own: &[Var]) -> Result<(), ClassError>
    ensures { MatchResult result (λ _. taken_field names.keys own.now ≡ None)
        (IsFirst (taken_field names.keys own.now)) }
{
    for var in own {
        if !add_name(alloc, &mut names, &var.name.text)? {
            return Err(ClassError::DuplicateField { at: var.name.at });
        }
    }
    Ok(())
}

/// Whether each field of a class has a name of its own.
#[tactic(auto, using(class_rules::proofs::Numbers::by_number, class_rules::proofs::FieldNames::taken_field_inherited))]
fn check_fields_of(
    alloc: Global,
    program: &Program,
    lines: &[Vec<u32>],
    number: usize,
    class: &Class,
) -> Result<(), ClassError>
    requires known { map (λ line. line.items) lines.now ≡ lines_of (source_of program.now) }
    requires within { number < length program.now.classes.items }
    ensures { MatchResult result (λ _. duplicate_field_at (source_of program.now) number
        (class_text_of class.now) ≡ None)
        (IsFirst (duplicate_field_at (source_of program.now) number (class_text_of class.now))) }
{
    let line = line_at(lines, number);
    let names = names_along(alloc, program, &line[..line.len().saturating_sub(1)])?;
    check_own_fields(alloc, names, &class.fields)
}

/// Whether the fields of each class have names of their own.
pub fn check_fields(alloc: Global, program: &Program, lines: &[Vec<u32>]) -> Result<(), ClassError>
    requires { map (λ line. line.items) lines.now ≡ lines_of (source_of program.now) }
    ensures { MatchResult result (λ _. duplicate_field (source_of program.now) ≡ None)
        (IsFirst (duplicate_field (source_of program.now))) }
{
    for (number, class) in program.classes.iter().enumerate() {
        check_fields_of(alloc, program, lines, number, class)?;
    }
    Ok(())
}

/// Puts copies of variables last.
fn add_vars(alloc: Global, list: &mut Vec<Var>, vars: &[Var]) -> Result<(), ClassError>
    ensures { MatchResult result (λ _. list.new.items ≡ list.old.items ++ vars.now)
        (λ error. error ≡ ClassError.NoMemory) }
{
    for var in vars {
        let Ok(copy) = var.copy(alloc) else {
            return Err(ClassError::NoMemory);
        };
        if list.push(copy).is_err() {
            return Err(ClassError::NoMemory);
        }
    }
    Ok(())
}

/// The fields of these classes, one class after another.
fn fields_along(alloc: Global, program: &Program, line: &[u32]) -> Result<Vec<Var>, ClassError>
    ensures { MatchResult result (λ list. list.items ≡ all_fields (source_of program.now) line.now)
        (λ error. error ≡ ClassError.NoMemory) }
{
    let mut list = Vec::new(alloc);
    for number in line {
        add_vars(alloc, &mut list, fields_at(program, *number))?;
    }
    Ok(list)
}

/// The names of variables, no two of which have the same.
fn names_of(alloc: Global, vars: &[Var]) -> Result<IndexSet<Text>, ClassError>
    requires { taken_field [] vars.now ≡ None }
    ensures { MatchResult result (λ names. names.keys ≡ map field_name vars.now)
        (λ error. error ≡ ClassError.NoMemory) }
{
    let mut names = IndexSet::new(alloc);
    for var in vars {
        let _added = add_name(alloc, &mut names, &var.name.text)?;
    }
    Ok(names)
}

/// The fields of a class, if they are not too many.
#[tactic(auto, using(class_rules::proofs::Numbers::by_number))]
fn class_fields(
    alloc: Global,
    program: &Program,
    lines: &[Vec<u32>],
    number: usize,
    class: &Class,
) -> Result<ClassFields, ClassError>
    requires known { map (λ line. line.items) lines.now ≡ lines_of (source_of program.now) }
    requires within { number < length program.now.classes.items }
    requires fresh { taken_field [] (class_fields (source_of program.now) number) ≡ None }
    ensures { MatchResult result (λ list. (list ≡ class_fields (source_of program.now) number)
        × (too_many_fields_at (source_of program.now) number (class_text_of class.now) ≡ None))
        (IsFirst (too_many_fields_at (source_of program.now) number (class_text_of class.now))) }
{
    let vars = fields_along(alloc, program, line_at(lines, number))?;
    if vars.len() > MOST_FIELDS as usize {
        return Err(ClassError::Limit {
            which: LimitKind::Fields,
            at: class.name.at,
        });
    }
    let names = names_of(alloc, &vars)?;
    Ok(ClassFields { vars, names })
}

/// The fields of each class, if they are not too many.
#[tactic(auto, using(class_rules::proofs::FreshFields::fresh))]
pub fn fields(
    alloc: Global,
    program: &Program,
    lines: &[Vec<u32>],
) -> Result<Vec<ClassFields>, ClassError>
    requires known { map (λ line. line.items) lines.now ≡ lines_of (source_of program.now) }
    requires unique { duplicate_field (source_of program.now) ≡ None }
    ensures { MatchResult result (λ list. (list.items ≡ fields_of_all (source_of program.now))
        × (too_many_fields (source_of program.now) ≡ None))
        (IsFirst (too_many_fields (source_of program.now))) }
{
    let mut list = Vec::new(alloc);
    for (number, class) in program.classes.iter().enumerate() {
        let vars = class_fields(alloc, program, lines, number, class)?;
        if list.push(vars).is_err() {
            return Err(ClassError::NoMemory);
        }
    }
    Ok(list)
}
