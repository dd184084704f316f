// Carries a plan out.
ghost use Rattle.std.specs.Prelude.{◌≡◌, ◌⊎◌, ◌≤◌, OnOk, IfOk, IfErr, IsErrOf, IsTrue, Ok, Result, string_bytes, option_map};
ghost use Rattle.std.specs.Io.KnownBytes.{Appends, Keeps};
ghost use Rattle.command_plan.specs.rpp_ports.Ports.{Rose, SetsText, AppendsPrefix};
ghost use Rattle.command_plan.specs.rpp_ports.declared.sink.SinkFault.{SinkFault};
ghost use Rattle.command_plan.specs.Plans.{planned, written_file};
ghost use Rattle.command_plan.specs.command_ends.Statuses.{code_of, broken_code};
ghost use Rattle.plan_serving.specs.Outside.{HasWritten, HasPut};
ghost use Rattle.plan_serving.specs.Finishes.{unwritten, FailsToWrite, CannotWrite, Finishes, put_answer, ended_status};
ghost use Rattle.plan_serving.specs.Left.{Leaves, Tries, LeavesUnwritten, AbortsServing, KeepsButTarget};

use command_plan::{Broken, Plan, Shelf, ShelfFault, Sink, SinkFault, Writing};
use std::alloc::{AllocError, Global};

/// Prints a text.
pub fn say<K: Sink>(out: &mut K, text: &str) -> Result<(), Broken>
    ensures said { OnOk result (Appends (K.written out.old) (K.written out.new) text.now) }
    ensures outside { IsErrOf result Broken.Outside → Rose (K.faults out.old) (K.faults out.new) }
    ensures prefix { AppendsPrefix (K.written out.old) (K.written out.new) text.now }
    ensures nothing { IsErrOf result Broken.NoMemory
        → Keeps (K.written out.old) (K.written out.new) }
    ensures wanting { IsErrOf result Broken.NoMemory → IsTrue (K.needs_memory out.old) }
    ensures put { HasPut text.now (put_answer result)
        (record { bytes = K.written out.old; puts = K.puts out.old })
        (record { bytes = K.written out.new; puts = K.puts out.new }) }
    ensures later { K.faults out.old ≤ K.faults out.new }
{
    match out.put(text.as_bytes()) {
        Ok(()) => Ok(()),
        Err(SinkFault::Failed) => Err(Broken::Outside),
        Err(SinkFault::NoMemory) => Err(Broken::NoMemory),
    }
}

// The line on a file that could not be written.
fn unwritten_line(alloc: Global, name: &str) -> Result<String, AllocError>
    ensures { IfOk result (λ line. string_bytes line ≡ unwritten name.now) }
{
    format!(in alloc; "cannot write {name}: failed\n")
}

// Prints a line, whatever becomes of it.
fn try_to_say<K: Sink>(out: &mut K, line: &str)
    ensures tries { Tries (Rose (K.faults out.old) (K.faults out.new))
        (IsTrue (K.needs_memory out.old)) (K.written out.old) (K.written out.new) line.now }
    ensures put { (answer : Result (Unit {0}) SinkFault) × HasPut line.now answer
        (record { bytes = K.written out.old; puts = K.puts out.old })
        (record { bytes = K.written out.new; puts = K.puts out.new }) }
    ensures later { K.faults out.old ≤ K.faults out.new }
{
    match say(out, line) {
        Ok(()) => {}
        Err(Broken::Outside) => {}
        Err(Broken::NoMemory) => {}
    }
}

// Writes a file, or prints that it could not.
fn write_file<S: Shelf, K: Sink>(
    alloc: Global,
    shelf: &mut S,
    out: &mut K,
    writing: &Writing,
) -> Result<(), Broken>
    ensures set { OnOk result (SetsText (S.texts shelf.old) (S.texts shelf.new)
        (string_bytes writing.now.name) writing.now.bytes.items) }
    ensures silent { OnOk result (out.new ≡ out.old) }
    ensures broken { IfErr result (LeavesUnwritten (S.texts shelf.old) (S.texts shelf.new)
        (Rose (S.faults shelf.old) (S.faults shelf.new))
        (Rose (K.faults out.old) (K.faults out.new)) (IsTrue (K.needs_memory out.old))
        (K.written out.old) (K.written out.new) (written_file writing.now)) }
    ensures wrote { OnOk result (HasWritten (written_file writing.now) (Ok tt)
        (record { texts = S.texts shelf.old; calls = S.events shelf.old })
        (record { texts = S.texts shelf.new; calls = S.events shelf.new })) }
    ensures fails { IfErr result (λ broken. FailsToWrite (written_file writing.now)
        (record { texts = S.texts shelf.old; calls = S.events shelf.old })
        (record { texts = S.texts shelf.new; calls = S.events shelf.new })
        (record { bytes = K.written out.old; puts = K.puts out.old })
        (record { bytes = K.written out.new; puts = K.puts out.new })
        (broken_code broken)
        ⊎ CannotWrite (written_file writing.now)
        (record { texts = S.texts shelf.old; calls = S.events shelf.old })
        (record { texts = S.texts shelf.new; calls = S.events shelf.new })
        (record { bytes = K.written out.old; puts = K.puts out.old })
        (record { bytes = K.written out.new; puts = K.puts out.new })
        (broken_code broken)) }
    ensures outside { IsErrOf result Broken.Outside
        → Rose (S.faults shelf.old) (S.faults shelf.new) }
    ensures later { S.faults shelf.old ≤ S.faults shelf.new }
    ensures later_sink { K.faults out.old ≤ K.faults out.new }
{
    // Memory for this line is taken before the file is touched.
    let line = match unwritten_line(alloc, writing.name.as_str()) {
        Ok(line) => line,
        Err(_error) => return Err(Broken::NoMemory),
    };
    match shelf.write(writing.name.as_str(), &writing.bytes) {
        Ok(()) => Ok(()),
        Err(ShelfFault::NoMemory) => Err(Broken::NoMemory),
        Err(ShelfFault::Failed) => {
            // The write has failed, whatever becomes of the line that says so.
            try_to_say(out, line.as_str());
            Err(Broken::Outside)
        }
        Err(ShelfFault::Missing) => unreachable!(),
        Err(ShelfFault::TooLong) => unreachable!(),
    }
}

/// Writes the file of a plan, if it has one, and then prints its text.
pub fn finish<S: Shelf, K: Sink>(
    alloc: Global,
    shelf: &mut S,
    out: &mut K,
    plan: &Plan,
) -> Result<(), Broken>
    ensures left { OnOk result (Leaves (S.texts shelf.old) (S.texts shelf.new)
        (planned plan.now).writing) }
    ensures said { OnOk result (Appends (K.written out.old) (K.written out.new)
        (planned plan.now).text) }
    ensures broken { IfErr result (AbortsServing (S.texts shelf.old) (S.texts shelf.new)
        (Rose (S.faults shelf.old) (S.faults shelf.new))
        (Rose (K.faults out.old) (K.faults out.new)) (IsTrue (K.needs_memory out.old))
        (K.written out.old) (K.written out.new) (planned plan.now)) }
    ensures kept { KeepsButTarget (S.texts shelf.old) (S.texts shelf.new)
        (option_map (λ w. w.name) (planned plan.now).writing) }
    ensures finishes { Finishes (planned plan.now).writing (planned plan.now).text
        (code_of (planned plan.now).verdict)
        (record { texts = S.texts shelf.old; calls = S.events shelf.old })
        (record { texts = S.texts shelf.new; calls = S.events shelf.new })
        (record { bytes = K.written out.old; puts = K.puts out.old })
        (record { bytes = K.written out.new; puts = K.puts out.new })
        (ended_status (code_of (planned plan.now).verdict) result) }
    ensures outside { IsErrOf result Broken.Outside
        → Rose (S.faults shelf.old) (S.faults shelf.new)
        ⊎ Rose (K.faults out.old) (K.faults out.new) }
    ensures later { S.faults shelf.old ≤ S.faults shelf.new }
    ensures later_sink { K.faults out.old ≤ K.faults out.new }
{
    match &plan.writing {
        None => say(out, plan.text.as_str()),
        Some(writing) => match write_file(alloc, shelf, out, writing) {
            Ok(()) => say(out, plan.text.as_str()),
            Err(broken) => Err(broken),
        },
    }
}
