// The storage slots of names, among variables and fields.
ghost use Rattle.std.specs.Prelude.{◌≡◌, ◌<◌, ◌≤◌, ◌^◌, length, reverse, IfSome};
ghost use Rattle.std.specs.Option.{option_map};
ghost use Rattle.refine_form.specs.class_rules.Members.{field_of};
ghost use Rattle.refine_form.specs.code_conventions.declared.memory.TheConstants.{MOST_VARIABLES};
ghost use Rattle.code_scope.specs.Visible.{offset_of, word_named, place_named, type_named, field_type, kind_named, spot_named, spot_of as spot_of_name, free_words_of, known_by};

use crate::known::Names;
use class_table::Text;
use class_table::tree::{Var, VarType};
use refine_form::Spot;
use refine_form::memory::FIRST_VARIABLE;

// The word of the frame of the innermost of these variables that has the name.
fn word(variables: &[Var], name: &Text) -> Option<u32>
    requires { length variables.now ≤ MOST_VARIABLES }
    ensures value { result ≡ word_named name.now (reverse variables.now) }
    ensures small { IfSome result (λ word. word < 64) }
{
    match variables {
        [] => None,
        [outer @ .., var] => {
            if var.name.text == *name {
                return Some(FIRST_VARIABLE + outer.len() as u32);
            }
            word(outer, name)
        }
    }
}

// Its type.
fn variable_kind<'a>(variables: &'a [Var], name: &Text) -> Option<&'a VarType>
    ensures { option_map (λ kind. kind.now) result ≡ type_named name.now (reverse variables.now) }
{
    match variables {
        [] => None,
        [outer @ .., var] => {
            if var.name.text == *name {
                return Some(&var.kind);
            }
            variable_kind(outer, name)
        }
    }
}

// The number of the first of these variables that has the name.
fn first_place(fields: &[Var], name: &Text) -> Option<usize>
    requires { length fields.now ≤ 64 }
    ensures place { result ≡ place_named name.now fields.now }
    ensures within { IfSome result (λ number. number < length fields.now) }
{
    match fields {
        [] => None,
        [var, rest @ ..] => {
            if *name == var.name.text {
                return Some(0);
            }
            match first_place(rest, name) {
                None => None,
                Some(number) => Some(1 + number),
            }
        }
    }
}

// The number of the field of the name.
fn field(fields: &[Var], name: &Text) -> Option<usize>
    requires { length fields.now ≤ 64 }
    ensures number { result ≡ field_of fields.now name.now }
    ensures within { IfSome result (λ number. number < length fields.now) }
{
    first_place(fields, name)
}

// Its type.
fn field_kind<'a>(fields: &'a [Var], name: &Text) -> Option<&'a VarType>
    requires { length fields.now ≤ 64 }
    ensures { option_map (λ kind. kind.now) result ≡ field_type fields.now name.now }
{
    match field(fields, name) {
        None => None,
        Some(number) => Some(&fields[number].kind),
    }
}

// Its spot.
fn field_spot(fields: &[Var], name: &Text) -> Option<Spot>
    requires { length fields.now ≤ 64 }
    ensures value { result ≡ option_map Spot.Field (field_of fields.now name.now) }
    ensures small { IfSome result (λ spot. offset_of spot < 2 ^ 32) }
{
    match field(fields, name) {
        None => None,
        Some(number) => Some(Spot::Field(number as u32)),
    }
}

/// The type of what a name means.
pub fn kind_by<'a>(names: &Names<'a>, name: &Text) -> Option<&'a VarType>
    ensures { option_map (λ kind. kind.now) result ≡ kind_named (known_by names.now) name.now }
{
    match variable_kind(names.variables, name) {
        Some(kind) => Some(kind),
        None => field_kind(names.fields, name),
    }
}

/// The storage slot of what a name denotes.
pub fn spot_by(names: &Names, name: &Text) -> Option<Spot>
    ensures value { result ≡ spot_named (known_by names.now) name.now }
    ensures small { IfSome result (λ spot. offset_of spot < 2 ^ 32) }
{
    match word(names.variables, name) {
        Some(word) => Some(Spot::Frame(word)),
        None => field_spot(names.fields, name),
    }
}

/// The spot of a name; the first field for a name that means nothing.
pub fn spot_of(names: &Names, name: &Text) -> Spot
    ensures value { result ≡ spot_of_name (known_by names.now) name.now }
    ensures small { offset_of result < 2 ^ 32 }
{
    match spot_by(names, name) {
        Some(spot) => spot,
        None => Spot::Field(0),
    }
}

/// The first word of the frame after the variables.
pub fn free_word(names: &Names) -> u32
    ensures value { result ≡ free_words_of (known_by names.now) }
    ensures small { result ≤ 64 }
{
    FIRST_VARIABLE + names.variables.len() as u32
}
