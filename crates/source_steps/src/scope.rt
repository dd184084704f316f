// What names mean in a method.
ghost use Rattle.std.specs.Prelude.{◌≡◌, ◌<◌, map, position, length, IfSome};
ghost use Rattle.std.specs.Str.{bytes_eq};
ghost use Rattle.source_steps.specs.Marks.{AreMarked};
ghost use Rattle.source_steps.specs.StateView.{names_of};

use crate::marks::is_marked;
use class_table::Text;
use class_table::tree::Var;
use source_store::Value;

/// The variables of an open method by their names: its locals, the innermost first, and then its
/// parameters.
#[derive(Clone, Copy)]
pub struct Scope<'a> {
    /// The names of the locals.
    pub locals: &'a [&'a [u8]],
    /// The parameters.
    pub params: &'a [Var],
    /// The marks of their names.
    pub marks: u64,
}

/// Whether a local has this name.
#[inline(always)]
fn is_local(own: &[u8], name: &Text) -> bool
    ensures { result ≡ bytes_eq name.now own.now }
{
    name.bytes() == own
}

/// Whether a field or parameter has this name.
#[inline(always)]
fn is_var(var: &Var, name: &Text) -> bool
    ensures { result ≡ bytes_eq name.now var.now.name.text }
{
    *name == var.name.text
}

/// The place of the first local of this name.
#[inline(always)]
fn first_local(locals: &[&[u8]], name: &Text) -> Option<usize>
    ensures { result ≡ position (λ own. bytes_eq name.now own.now) locals.now }
{
    locals.iter().position(|own| is_local(own, name))
}

/// The place of the first field or parameter of this name.
#[inline(always)]
fn first_var(vars: &[Var], name: &Text) -> Option<usize>
    ensures { result ≡ position (λ var. bytes_eq name.now var.name.text) vars.now }
{
    vars.iter().position(|var| is_var(var, name))
}

/// The place of the local of this name.
#[inline(always)]
fn local_slot(locals: &[&[u8]], name: &Text) -> Option<usize>
    ensures place { result ≡ position (bytes_eq name.now) (map (λ own. own.now) locals.now) }
    ensures within { IfSome result (λ at. at < length locals.now) }
{
    first_local(locals, name)
}

/// The place of the field or parameter of this name.
#[inline(always)]
pub(crate) fn var_slot(vars: &[Var], name: &Text) -> Option<usize>
    ensures place { result ≡ position (bytes_eq name.now) (map (λ var. var.name.text) vars.now) }
    ensures within { IfSome result (λ at. at < length vars.now) }
{
    first_var(vars, name)
}

/// The place of the innermost variable of this name, which is searched.
#[tactic(auto, using(crate::proofs::Scopes::position_front, crate::proofs::Scopes::position_behind, crate::proofs::Scopes::position_nowhere))]
#[inline(never)]
fn searched_slot(scope: &Scope, values: &[Value], name: &Text) -> Option<usize>
    requires { length values.now ≡ length (names_of scope.now) }
    ensures place { result ≡ position (bytes_eq name.now) (names_of scope.now) }
    ensures within { IfSome result (λ at. at < length values.now) }
{
    match local_slot(scope.locals, name) {
        Some(at) => Some(at),
        None => match var_slot(scope.params, name) {
            None => None,
            Some(at) => Some(scope.locals.len() + at),
        },
    }
}

/// The place of the innermost variable of this name. No search is needed if it has no mark.
#[inline(always)]
pub fn slot(scope: &Scope, values: &[Value], name: &Text) -> Option<usize>
    requires each { length values.now ≡ length (names_of scope.now) }
    requires marked { AreMarked scope.now.marks (names_of scope.now) }
    ensures place { result ≡ position (bytes_eq name.now) (names_of scope.now) }
    ensures within { IfSome result (λ at. at < length values.now) }
{
    if is_marked(scope.marks, name.bytes()) {
        return searched_slot(scope, values, name);
    }
    None
}
