// The numbers of the methods' routines, which are in the order of the source.
ghost use Rattle.std.specs.Prelude.{◌≡◌, ◌<◌, ◌≤◌, ◌+◌, ◌^◌, length, slice_index, IfOk};
ghost use Rattle.refine_program.specs.rpp_tree.declared.limits.TheConstants.{MOST_TOKENS};
ghost use Rattle.refine_program.specs.rpp_tree.Parts.{source_tokens};
ghost use Rattle.refine_program.specs.rpp_tree.Views.{source_of};
ghost use Rattle.program_codegen.specs.Routines.{first_numbers};
ghost use Rattle.program_codegen.specs.declared.numbers.TheConstants.{FIRST_METHOD};

use refine_program::MethodId;
use statement_codegen::NoMemory;
use statement_codegen::tree::Program;
use std::alloc::Global;

/// How many methods come before those of each class.
pub fn first_routines(alloc: Global, program: &Program) -> Result<Vec<u32>, NoMemory>
    requires { source_tokens (source_of program.now) ≤ MOST_TOKENS }
    ensures { IfOk result (λ firsts. firsts.items ≡ first_numbers (source_of program.now)) }
{
    let mut firsts = Vec::new(alloc);
    let mut next = 0;
    for class in &program.classes {
        firsts.push(next)?;
        next += class.methods.len() as u32;
    }
    Ok(firsts)
}

/// The number of the first method's routine: the allocator of the heap is routine 0.
pub const FIRST_METHOD: u32 = 1;

/// The number of a method's routine, after the allocator and those of the classes before its own.
pub fn routine_number(firsts: &[u32], id: MethodId) -> u32
    requires inside { id.class < length firsts.now }
    requires small { FIRST_METHOD + (slice_index firsts.now id.class + id.method) < 2 ^ 32 }
    ensures { result ≡ FIRST_METHOD + (slice_index firsts.now id.class + id.method) }
{
    FIRST_METHOD + (firsts[id.class as usize] + id.method)
}
