// The rules of calls.
ghost use Rattle.std.specs.Prelude.{◌≡◌, ◌++◌, map};
ghost use Rattle.std.specs.List.{list_any};
ghost use Rattle.std.specs.Option.{is_none};
ghost use Rattle.std.specs.Str.{bytes_eq};
ghost use Rattle.class_table.specs.rpp_tree.Views.{procedure_of, lvalue_of, optional_lvalue_of};
ghost use Rattle.class_table.specs.class_rules.Table.{dispatch_in};
ghost use Rattle.class_table.specs.class_rules.Overrides.{parameters_in as methods_params, parameters_of};
ghost use Rattle.class_table.specs.class_rules.Statements.{argument_known, argument_new, argument_fits, arguments_fit as all_fit, receiver_kind, receiver_class, plain_receiver, call_rules as of_call, each_passes, each_passes_after};
ghost use Rattle.reversible_types.specs.ScopeView.{typing_of, locals_of};
ghost use Rattle.reversible_types.specs.Verdicts.{verdict_of};

use crate::error::TypeError;
use crate::expressions::{occurs_inside, type_place};
use crate::scope::{Locals, Typing, kind_of_local, kind_of_name, kind_of_type};
use crate::statements::{equal_kinds, name_of_place};
use class_table::tree::{Ident, Method, Place, Var};
use class_table::{Kind, Text, methods_at};

fn know_argument(
    setting: &Typing,
    locals: &Locals,
    own: bool,
    at: u32,
    argument: &Ident,
) -> Result<(), TypeError>
    ensures { verdict_of result ≡ argument_known (typing_of setting.now) (locals_of locals.now) own
        at argument.now }
{
    if kind_of_name(setting, locals, &argument.text).is_none() {
        return Err(TypeError::UnknownName { at: argument.at });
    }
    if own && kind_of_local(locals, &argument.text).is_none() {
        return Err(TypeError::FieldArgument { at });
    }
    Ok(())
}

fn know_arguments(
    setting: &Typing,
    locals: &Locals,
    own: bool,
    at: u32,
    arguments: &[Ident],
) -> Result<(), TypeError>
    ensures { verdict_of result ≡ each_passes
        (argument_known (typing_of setting.now) (locals_of locals.now) own at) arguments.now }
{
    for argument in arguments {
        know_argument(setting, locals, own, at, argument)?;
    }
    Ok(())
}

fn is_among(names: &[Ident], name: &Text) -> bool
    ensures { result ≡ list_any (λ other. bytes_eq other.text name.now) names.now }
{
    names.iter().any(|other| other.text == *name)
}

/// Whether a plain receiver or an earlier argument is this one.
fn is_taken(receiver: &Option<Place>, before: &[Ident], name: &Text) -> bool
    ensures { result ≡ list_any (λ other. bytes_eq other.text name.now)
        (plain_receiver (optional_lvalue_of receiver.now) ++ before.now) }
{
    match receiver {
        None => is_among(before, name),
        Some(place) => match &place.index {
            None => place.name.text == *name || is_among(before, name),
            Some(_) => is_among(before, name),
        },
    }
}

fn check_distinct_argument(
    receiver: &Option<Place>,
    before: &[Ident],
    argument: &Ident,
) -> Result<(), TypeError>
    ensures { verdict_of result ≡ argument_new
        (plain_receiver (optional_lvalue_of receiver.now) ++ before.now) argument.now }
{
    if is_taken(receiver, before, &argument.text) {
        return Err(TypeError::SameArgument { at: argument.at });
    }
    Ok(())
}

fn check_distinct_arguments(receiver: &Option<Place>, arguments: &[Ident]) -> Result<(), TypeError>
    ensures { verdict_of result ≡ each_passes_after argument_new
        (plain_receiver (optional_lvalue_of receiver.now)) arguments.now }
{
    for (number, argument) in arguments.iter().enumerate() {
        check_distinct_argument(receiver, &arguments[..number], argument)?;
    }
    Ok(())
}

fn fit_argument(
    setting: &Typing,
    locals: &Locals,
    parameter: &Var,
    argument: &Ident,
) -> Result<(), TypeError>
    ensures { verdict_of result ≡ argument_fits (typing_of setting.now) (locals_of locals.now)
        parameter.now argument.now }
{
    let kind = kind_of_name(setting, locals, &argument.text).unwrap_or(Kind::Nil);
    if !equal_kinds(kind_of_type(setting.table, &parameter.kind), kind) {
        return Err(TypeError::TypeDiffers { at: argument.at });
    }
    Ok(())
}

fn fit_arguments(
    setting: &Typing,
    locals: &Locals,
    parameters: &[Var],
    arguments: &[Ident],
) -> Result<(), TypeError>
    ensures { verdict_of result ≡ all_fit (typing_of setting.now) (locals_of locals.now)
        parameters.now arguments.now }
{
    match parameters {
        [] => Ok(()),
        [parameter, parameters @ ..] => match arguments {
            [] => Ok(()),
            [argument, arguments @ ..] => {
                fit_argument(setting, locals, parameter, argument)?;
                fit_arguments(setting, locals, parameters, arguments)
            }
        },
    }
}

fn parameters_in(methods: &[Method], number: u32) -> &[Var]
    ensures { result.now ≡ methods_params (map procedure_of methods.now) number }
{
    match methods.get(number as usize) {
        None => &[],
        Some(method) => &method.params,
    }
}

fn parameters<'a>(setting: &Typing<'a>, class: u32, slot: u32) -> &'a [Var]
    ensures { result.now ≡ parameters_of (typing_of setting.now).program
        (dispatch_in (typing_of setting.now).table class slot) }
{
    let runs = setting.table.dispatch(class, slot);
    parameters_in(methods_at(setting.program, runs.class), runs.method)
}

fn class_of_kind(at: u32, kind: Kind) -> Result<u32, TypeError>
    ensures { verdict_of result ≡ receiver_kind at kind }
{
    match kind {
        Kind::Class(class) => Ok(class),
        _ => Err(TypeError::NotClassType { at }),
    }
}

fn class_of_receiver(
    setting: &Typing,
    locals: &Locals,
    receiver: &Option<Place>,
) -> Result<u32, TypeError>
    ensures { verdict_of result ≡ receiver_class (typing_of setting.now) (locals_of locals.now)
        (optional_lvalue_of receiver.now) }
{
    match receiver {
        None => Ok(setting.class),
        Some(place) => {
            let kind = type_place(setting, locals, place)?;
            let name = name_of_place(place);
            let class = class_of_kind(name.at, kind)?;
            if occurs_inside(&name.text, place) {
                return Err(TypeError::SelfUpdate { at: name.at });
            }
            Ok(class)
        }
    }
}

fn is_own(receiver: &Option<Place>) -> bool
    ensures { result ≡ is_none (optional_lvalue_of receiver.now) }
{
    match receiver {
        None => true,
        Some(_) => false,
    }
}

/// Checks a call: its receiver, its method and its arguments.
pub fn call_rules(
    setting: &Typing,
    locals: &Locals,
    at: u32,
    receiver: &Option<Place>,
    method: &Ident,
    arguments: &[Ident],
) -> Result<(), TypeError>
    ensures { verdict_of result ≡ of_call (typing_of setting.now) (locals_of locals.now) at
        (optional_lvalue_of receiver.now) method.now arguments.now }
{
    let class = class_of_receiver(setting, locals, receiver)?;
    let Some(slot) = setting.table.method_slot(class, &method.text) else {
        return Err(TypeError::UnknownName { at: method.at });
    };
    know_arguments(setting, locals, is_own(receiver), at, arguments)?;
    check_distinct_arguments(receiver, arguments)?;
    let parameters = parameters(setting, class, slot);
    if arguments.len() != parameters.len() {
        return Err(TypeError::WrongArity { at: method.at });
    }
    fit_arguments(setting, locals, parameters, arguments)
}
