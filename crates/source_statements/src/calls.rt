// A call that begins.
ghost use Rattle.std.specs.Prelude.{◌≡◌, ◌+◌, ◌<◌, ◌≤◌, ◌^◌, [], ◌∷◌, OnOk, MatchResult, length, map, take, min, None, Some};
ghost use Rattle.std.specs.Option.{unwrap_or, option_map};
ghost use Rattle.source_blocks.specs.rpp_tree.Tree.{Whole, Procedure};
ghost use Rattle.source_blocks.specs.rpp_tree.Views.{procedure_of, optional_lvalue_of};
ghost use Rattle.source_blocks.specs.class_rules.Members.{no_procedure};
ghost use Rattle.source_blocks.specs.class_rules.Classes.{method_named};
ghost use Rattle.source_blocks.specs.roopl_semantics.Value.{read, cell_named};
ghost use Rattle.source_blocks.specs.roopl_semantics.Execution.{in_direction, cells_named, class_of, moved_out, bound};
ghost use Rattle.source_blocks.specs.meaning_machine.Machine.{called, entered, held_local};
ghost use Rattle.source_blocks.specs.source_store.ValueView.{value_of, values_of};
ghost use Rattle.source_blocks.specs.source_steps.CellView.{cell_view};
ghost use Rattle.source_blocks.specs.source_steps.Marks.{with_marks as marks_in};
ghost use Rattle.source_blocks.specs.source_steps.Metered.{MeteredGives, metered, OnFault};
ghost use Rattle.source_blocks.specs.source_steps.StateView.{setting_of};
ghost use Rattle.source_blocks.specs.Blocks.{statement_count};
ghost use Rattle.source_blocks.specs.Tasks.{task_of};
ghost use Rattle.source_blocks.specs.Opens.{cells_in, values_in, part_of, IsCaller};
ghost use Rattle.source_blocks.specs.Runs.{IsSound, config_of, state_in, here_in, rest_in, only_cell};

use crate::begins::open_local;
use crate::methods::{begin, called, cost_of, is_deep, method_of};
use source_blocks::faults::{NIL, TOO_DEEP};
use source_blocks::tree::{Ident, Method, Place, Var};
use source_blocks::{
    Caller, Calls, Cell, Closing, Lack, Local, Part, Receiver, Run, Stop, Task, Text, Value,
    cell_of_name, cells_of, move_out, open_block, read_cell, read_cells, refuse, scope_of, spend,
    with_marks,
};
use std::mem::replace;
use std::slice::from_ref;

/// What the body of a method is, in the direction of its call: nothing if there is no method.
fn task_for<'a>(method: Option<&'a Method>, back: bool) -> Task<'a>
    ensures { task_of result ≡ in_direction back
        (unwrap_or (option_map (λ method. procedure_of method.now) method.entry) no_procedure).body }
{
    match method {
        None => Task::Nothing,
        Some(method) => Task::Text {
            block: &method.body,
            back,
        },
    }
}

/// The variables of a method that begins with these values: as many as both have.
fn params_for<'a>(method: Option<&'a Method>, inside: &mut Vec<Value>) -> &'a [Var]
    ensures params { result.now
        ≡ take (min (length (unwrap_or (option_map (λ method. procedure_of method.now)
        method.entry) no_procedure).params) (length inside.old.items))
        (unwrap_or (option_map (λ method. procedure_of method.now) method.entry)
        no_procedure).params }
    ensures values { inside.new.items
        ≡ take (min (length (unwrap_or (option_map (λ method. procedure_of method.now)
        method.entry) no_procedure).params) (length inside.old.items)) inside.old.items }
{
    match method {
        None => {
            inside.truncate(0);
            &[]
        }
        Some(method) => begin(inside, method),
    }
}

/// The receiver of a call with its value, if it is a variable or a field.
fn receiver_of(run: &Run, cell: Option<Cell>) -> Option<Receiver>
    requires sound { IsSound run.now }
    ensures cells { cells_in result ≡ only_cell cell }
    ensures values { values_in result ≡ map (read (state_in run.now)) (only_cell cell) }
{
    match cell {
        None => None,
        Some(cell) => {
            let scope = scope_of(&run.locals, run.params, run.marks);
            let value = read_cell(&run.setting, &scope, &run.heap, &run.values, cell);
            Some(Receiver { cell, value })
        }
    }
}

/// The values of these cells move away.
fn empty(run: &mut Run, cells: &[Cell])
    requires sound { IsSound run.old }
    ensures moved { state_in run.new ≡ moved_out (map cell_view cells.now) (state_in run.old) }
    ensures sound { IsSound run.new }
    ensures same { run.new ≡ record run.old { heap = run.new.heap; values = run.new.values } }
{
    let scope = scope_of(&run.locals, run.params, run.marks);
    move_out(&run.setting, &scope, &mut run.heap, &mut run.values, cells);
}

/// Only a cell.
pub fn alone(cell: &Cell) -> &[Cell]
    ensures cell { map cell_view result.now ≡ cell_view cell.now ∷ [] }
    ensures one { length result.now ≡ 1 }
{
    from_ref(cell)
}

/// The values of a receiver and of arguments move away.
fn move_in(run: &mut Run, receiver: &Option<Receiver>, args: &Vec<Cell>)
    requires sound { IsSound run.old }
    ensures moved { state_in run.new ≡ moved_out (map cell_view args.now.items)
        (moved_out (cells_in receiver.now) (state_in run.old)) }
    ensures sound { IsSound run.new }
    ensures same { run.new ≡ record run.old { heap = run.new.heap; values = run.new.values } }
{
    match receiver {
        None => empty(run, args),
        Some(receiver) => {
            empty(run, alone(&receiver.cell));
            empty(run, args);
        }
    }
}

/// A method is open on an object, with its variables; what was open is its caller.
fn become_callee<'a>(
    run: &mut Run<'a>,
    object: u32,
    params: &'a [Var],
    inside: Vec<Value>,
    receiver: Option<Receiver>,
    args: Vec<Cell>,
) -> Caller<'a>
    requires sound { IsSound run.old }
    requires shallow { run.old.setting.depth < (setting_of run.old.setting).limits.deep }
    requires each { length inside.items ≡ length params.now }
    ensures caller { result ≡ record {
      params = run.old.params;
      locals = run.old.locals;
      marks = run.old.marks;
      values = run.old.values;
      object = run.old.setting.object;
      depth = run.old.setting.depth;
      receiver = receiver;
      args = args;
    } }
    ensures bare { run.new.locals.items ≡ [] }
    ensures params { run.new.params.now ≡ params.now }
    ensures marks { run.new.marks ≡ marks_in 0 params.now }
    ensures values { run.new.values.items ≡ inside.items }
    ensures callee { run.new ≡ record run.old {
      setting = record run.old.setting { object = object; depth = 1 + run.old.setting.depth };
      params = run.new.params;
      locals = run.new.locals;
      marks = run.new.marks;
      values = run.new.values;
    } }
{
    let setting = called(&run.setting, object);
    let locals = replace(&mut run.locals, Vec::new(setting.alloc));
    let values = replace(&mut run.values, inside);
    let caller = Caller {
        params: run.params,
        locals,
        marks: run.marks,
        values,
        object: run.setting.object,
        depth: run.setting.depth,
        receiver,
        args,
    };
    run.params = params;
    run.marks = with_marks(0, params);
    run.setting = setting;
    caller
}

/// A method begins on an object.
fn enter<'a>(
    run: &mut Run<'a>,
    object: u32,
    cell: Option<Cell>,
    calls: &Calls<'a>,
) -> Result<(), Stop>
    requires sound { IsSound run.old }
    requires within { run.old.at < statement_count (task_of run.old.task) }
    requires shallow { run.old.setting.depth < (setting_of run.old.setting).limits.deep }
    ensures entered { MatchResult result (λ u. config_of run.new
        ≡ entered (setting_of run.old.setting) (config_of run.old) (here_in run.old)
        (rest_in run.old) calls.now.back
        (method_named (setting_of run.old.setting).program
        (class_of (setting_of run.old.setting) (state_in run.old) object) calls.now.method.now.text)
        object (only_cell cell)
        (cells_named (setting_of run.old.setting) (state_in run.old) calls.now.args.now))
        (λ why. why ≡ Stop.Lacks Lack.NoMemory) }
    ensures sound { OnOk result (IsSound run.new) }
    ensures opens { OnOk result (length run.new.frames.items ≤ 1 + length run.old.frames.items) }
    ensures setting { setting_of run.new.setting ≡ setting_of run.old.setting }
{
    match cells_in_order(run, calls) {
        Err(why) => Err(why),
        Ok(args) => match values_in_order(run, &args) {
            Err(why) => Err(why),
            Ok(inside) => enter_with(run, object, cell, calls, args, inside),
        },
    }
}

/// A method begins on an object, with these values of its arguments' cells.
fn enter_with<'a>(
    run: &mut Run<'a>,
    object: u32,
    cell: Option<Cell>,
    calls: &Calls<'a>,
    args: Vec<Cell>,
    inside: Vec<Value>,
) -> Result<(), Stop>
    requires sound { IsSound run.old }
    requires within { run.old.at < statement_count (task_of run.old.task) }
    requires shallow { run.old.setting.depth < (setting_of run.old.setting).limits.deep }
    requires cells { map cell_view args.items
        ≡ cells_named (setting_of run.old.setting) (state_in run.old) calls.now.args.now }
    requires held { values_of inside.items
        ≡ map (read (state_in run.old)) (map cell_view args.items) }
    ensures entered { MatchResult result (λ u. config_of run.new
        ≡ entered (setting_of run.old.setting) (config_of run.old) (here_in run.old)
        (rest_in run.old) calls.now.back
        (method_named (setting_of run.old.setting).program
        (class_of (setting_of run.old.setting) (state_in run.old) object) calls.now.method.now.text)
        object (only_cell cell)
        (cells_named (setting_of run.old.setting) (state_in run.old) calls.now.args.now))
        (λ why. why ≡ Stop.Lacks Lack.NoMemory) }
    ensures sound { OnOk result (IsSound run.new) }
    ensures opens { OnOk result (length run.new.frames.items ≤ 1 + length run.old.frames.items) }
    ensures setting { setting_of run.new.setting ≡ setting_of run.old.setting }
{
    let class = run.heap.class_of(object);
    let method = method_of(&run.setting, class, &calls.method.text);
    let receiver = receiver_of(run, cell);
    move_in(run, &receiver, &args);
    let mut kept = inside;
    let params = params_for(method, &mut kept);
    let caller = become_callee(run, object, params, kept, receiver, args);
    let task = task_for(method, calls.back);
    open_block(run, Part::Calling(caller), task)
}

/// The cells of a call's arguments.
fn cells_in_order(run: &Run, calls: &Calls) -> Result<Vec<Cell>, Stop>
    requires sound { IsSound run.now }
    ensures { MatchResult result (λ cells. map cell_view cells.items
        ≡ cells_named (setting_of run.now.setting) (state_in run.now) calls.now.args.now)
        (λ why. why ≡ Stop.Lacks Lack.NoMemory) }
{
    let scope = scope_of(&run.locals, run.params, run.marks);
    cells_of(&run.setting, &scope, &run.heap, &run.values, calls.args)
}

/// What these cells hold.
fn values_in_order(run: &Run, cells: &Vec<Cell>) -> Result<Vec<Value>, Stop>
    requires sound { IsSound run.now }
    ensures { MatchResult result (λ values. values_of values.items
        ≡ map (read (state_in run.now)) (map cell_view cells.now.items)) (λ why. why ≡ Stop.Lacks Lack.NoMemory) }
{
    let scope = scope_of(&run.locals, run.params, run.marks);
    match read_cells(
        run.setting.alloc,
        &run.setting,
        &scope,
        &run.heap,
        &run.values,
        cells,
    ) {
        Ok(values) => Ok(values),
        Err(_full) => Err(Stop::Lacks(Lack::NoMemory)),
    }
}

/// A call of a method of the current object begins.
fn call_own<'a>(run: &mut Run<'a>, fuel: &mut u64, calls: &Calls<'a>) -> Result<(), Stop>
    requires sound { IsSound run.old }
    requires within { run.old.at < statement_count (task_of run.old.task) }
    ensures gives { MeteredGives (λ u. config_of run.new) result fuel.new
        (metered fuel.old (called (setting_of run.old.setting) (config_of run.old)
        (here_in run.old) (rest_in run.old) calls.now.at calls.now.back None calls.now.method.now
        calls.now.args.now)) }
    ensures sound { OnOk result (IsSound run.new) }
    ensures opens { OnOk result (length run.new.frames.items ≤ 1 + length run.old.frames.items) }
    ensures setting { setting_of run.new.setting ≡ setting_of run.old.setting }
    ensures stays { OnFault result (run.new ≡ run.old) }
    ensures less { fuel.new ≤ fuel.old }
{
    let deep = is_deep(&run.setting);
    match spend(fuel, cost_of(calls.args)) {
        Err(why) => Err(why),
        Ok(()) => match refuse(fuel, TOO_DEEP, deep) {
            Err(why) => Err(why),
            Ok(()) => enter(run, run.setting.object, None, calls),
        },
    }
}

/// A call of a method of what a variable or field refers to begins.
pub fn call_on<'a>(
    run: &mut Run<'a>,
    fuel: &mut u64,
    name: &Ident,
    calls: &Calls<'a>,
) -> Result<(), Stop>
    requires sound { IsSound run.old }
    requires within { run.old.at < statement_count (task_of run.old.task) }
    ensures gives { MeteredGives (λ u. config_of run.new) result fuel.new
        (metered fuel.old (called (setting_of run.old.setting) (config_of run.old)
        (here_in run.old) (rest_in run.old) calls.now.at calls.now.back (Some (Whole name.now))
        calls.now.method.now calls.now.args.now)) }
    ensures sound { OnOk result (IsSound run.new) }
    ensures opens { OnOk result (length run.new.frames.items ≤ 1 + length run.old.frames.items) }
    ensures setting { setting_of run.new.setting ≡ setting_of run.old.setting }
    ensures stays { OnFault result (run.new ≡ run.old) }
    ensures less { fuel.new ≤ fuel.old }
{
    let deep = is_deep(&run.setting);
    let (cell, value) = named(run, &name.text);
    match spend(fuel, cost_of(calls.args)) {
        Err(why) => Err(why),
        Ok(()) => match refuse(fuel, NIL, value.is_nil()) {
            Err(why) => Err(why),
            Ok(()) => match refuse(fuel, TOO_DEEP, deep) {
                Err(why) => Err(why),
                Ok(()) => enter(run, value.number(), Some(cell), calls),
            },
        },
    }
}

/// The cell of a name, and what it holds.
fn named(run: &Run, name: &Text) -> (Cell, Value)
    requires sound { IsSound run.now }
    ensures cell { cell_view result.0 ≡ cell_named (setting_of run.now.setting).program
        (state_in run.now) name.now }
    ensures value { value_of result.1 ≡ read (state_in run.now) (cell_named
        (setting_of run.now.setting).program (state_in run.now) name.now) }
{
    let scope = scope_of(&run.locals, run.params, run.marks);
    let cell = cell_of_name(&run.setting, &scope, &run.heap, &run.values, name);
    let value = read_cell(&run.setting, &scope, &run.heap, &run.values, cell);
    (cell, value)
}

/// A call begins: on an element, a local variable holds the element during the call.
pub fn call<'a>(
    run: &mut Run<'a>,
    fuel: &mut u64,
    receiver: &'a Option<Place>,
    calls: &Calls<'a>,
) -> Result<(), Stop>
    requires sound { IsSound run.old }
    requires within { run.old.at < statement_count (task_of run.old.task) }
    ensures gives { MeteredGives (λ u. config_of run.new) result fuel.new
        (metered fuel.old (called (setting_of run.old.setting) (config_of run.old)
        (here_in run.old) (rest_in run.old) calls.now.at calls.now.back
        (optional_lvalue_of receiver.now) calls.now.method.now calls.now.args.now)) }
    ensures sound { OnOk result (IsSound run.new) }
    ensures opens { OnOk result (length run.new.frames.items ≤ 1 + length run.old.frames.items) }
    ensures setting { setting_of run.new.setting ≡ setting_of run.old.setting }
    ensures stays { OnFault result (run.new ≡ run.old) }
    ensures less { fuel.new ≤ fuel.old }
{
    match receiver {
        None => call_own(run, fuel, calls),
        Some(place) => match &place.index {
            None => call_on(run, fuel, &place.name, calls),
            Some(_index) => open_local(
                run,
                fuel,
                &Local {
                    name: &[],
                    value: Closing::Nil(calls.at),
                    end_value: Closing::Nil(calls.at),
                },
                Task::Exchange {
                    element: place,
                    calls: *calls,
                },
            ),
        },
    }
}
