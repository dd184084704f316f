// Methods by their names, and what a call begins with.
ghost use Rattle.std.specs.Prelude.{◌≡◌, ◌+◌, ◌<◌, ◌≤◌, map, min, length, take, slice_get, not, nat_lt};
ghost use Rattle.std.specs.Option.{unwrap_or, option_map};
ghost use Rattle.source_blocks.specs.rpp_tree.Views.{source_of, procedure_of};
ghost use Rattle.source_blocks.specs.class_rules.Members.{class_at, no_procedure};
ghost use Rattle.source_blocks.specs.class_rules.Classes.{method_named};
ghost use Rattle.source_blocks.specs.source_steps.Ends.{slot_or_first};
ghost use Rattle.source_blocks.specs.source_steps.StateView.{setting_of};

use source_blocks::tree::{Ident, Method, Program, Var};
use source_blocks::{MethodId, Setting, Text, Value, methods_at};

/// The text of a method.
pub fn method_at(program: &Program, id: MethodId) -> Option<&Method>
    ensures { option_map (λ method. procedure_of method.now) result
        ≡ slice_get (class_at (source_of program.now) id.class).methods id.method }
{
    match methods_at(program, id.class).get(id.method as usize) {
        None => None,
        Some(method) => Some(method),
    }
}

/// The slot of a name, or 0.
fn slot_of(setting: &Setting, class: u32, name: &Text) -> u32
    ensures { result ≡ slot_or_first (source_of setting.now.checked.now) class name.now }
{
    match setting.checked.table().method_slot(class, name) {
        None => 0,
        Some(slot) => slot,
    }
}

/// The method of a name for an object of the class.
pub fn method_of<'a>(setting: &Setting<'a>, class: u32, name: &Text) -> Option<&'a Method>
    ensures { unwrap_or (option_map (λ method. procedure_of method.now) result) no_procedure
        ≡ method_named (source_of setting.now.checked.now) class name.now }
{
    let id = setting
        .checked
        .table()
        .dispatch(class, slot_of(setting, class, name));
    method_at(setting.checked.program(), id)
}

/// The smaller of two lengths.
fn shorter(a: usize, b: usize) -> usize
    ensures { result ≡ min a b }
{
    if a < b { a } else { b }
}

/// The variables of a method that begins with these values: as many as both have.
pub fn begin<'a>(inside: &mut Vec<Value>, method: &'a Method) -> &'a [Var]
    ensures params { result.now
        ≡ take (min (length (procedure_of method.now).params) (length inside.old.items))
        (procedure_of method.now).params }
    ensures values { inside.new.items
        ≡ take (min (length (procedure_of method.now).params) (length inside.old.items))
        inside.old.items }
{
    let count = shorter(method.params.len(), inside.len());
    inside.truncate(count);
    &method.params[..count]
}

/// One more active call.
fn deeper(depth: u32, deep: u32) -> u32
    requires { depth < deep }
    ensures { result ≡ 1 + depth }
{
    depth + 1
}

/// The setting of a called method.
pub fn called<'a>(setting: &Setting<'a>, object: u32) -> Setting<'a>
    requires { setting.now.depth < (setting_of setting.now).limits.deep }
    ensures { result ≡ record {
      alloc = setting.now.alloc;
      checked = setting.now.checked;
      limits = setting.now.limits;
      object = object;
      depth = 1 + setting.now.depth;
    } }
{
    Setting {
        alloc: setting.alloc,
        checked: setting.checked,
        limits: setting.limits,
        object,
        depth: deeper(setting.depth, setting.limits.deep),
    }
}

/// What a call's arguments cost.
pub fn cost_of(args: &[Ident]) -> u64
    ensures { result ≡ length args.now }
{
    args.len() as u64
}

/// Whether as many calls are active as there may be.
pub fn is_deep(setting: &Setting) -> bool
    ensures { result ≡ not (nat_lt setting.now.depth (setting_of setting.now).limits.deep) }
{
    !(setting.depth < setting.limits.deep)
}
