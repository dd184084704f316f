// The state of a cluster.
ghost use Rattle.std.specs.Prelude.{◌≡◌, ◌<◌, ◌≤◌, ◌+◌, ◌^◌, ◌++◌, length, OnOk, string_bytes};
ghost use Rattle.cluster_commands.specs.ClusterShown.{kept_step_line, processor_line, processor_lines, filled_line, filled_lines, schedule_end_shown};

use command_plan::{add_cell, direction};
use pisa_cluster::{Cluster, Core};
use std::alloc::AllocError;

// Adds the line on how many steps are kept.
fn add_kept(text: &mut String, count: usize) -> Result<(), AllocError>
    ensures { OnOk result (string_bytes text.new ≡ string_bytes text.old ++ kept_step_line count) }
{
    write!(text, "kept {count}\n")
}

// Adds the line on a processor.
fn add_processor(text: &mut String, number: u32, core: &Core) -> Result<(), AllocError>
    ensures { OnOk result (string_bytes text.new
        ≡ string_bytes text.old ++ processor_line number core.now) }
{
    let pc = core.pc;
    let br = core.br.cast_signed();
    let dir = direction(core.back);
    write!(text, "processor {number} pc {pc} br {br} dir {dir}\n")
}

// Adds the lines on the processors, which are so many.
fn add_processors(text: &mut String, cluster: &Cluster, count: u32) -> Result<(), AllocError>
    requires count { count ≡ length cluster.now.joint.processors }
    requires few { count < 2 ^ 31 }
    ensures { OnOk result (string_bytes text.new
        ≡ string_bytes text.old ++ processor_lines 1 cluster.now.joint.processors) }
{
    for before in 0..count {
        add_processor(text, before + 1, cluster.core(before + 1))?;
    }
    Ok(())
}

// Adds the line on a cell, unless it is 0.
fn add_filled(text: &mut String, at: u32, word: u32) -> Result<(), AllocError>
    ensures { OnOk result (string_bytes text.new ≡ string_bytes text.old ++ filled_line at word) }
{
    if word == 0 {
        return Ok(());
    }
    add_cell(text, at, word)
}

// Adds the lines on the cells that are not 0, of so many.
fn add_cells(text: &mut String, cluster: &Cluster, count: u32) -> Result<(), AllocError>
    requires { count ≡ length cluster.now.joint.cells }
    ensures { OnOk result (string_bytes text.new
        ≡ string_bytes text.old ++ filled_lines 0 cluster.now.joint.cells) }
{
    for at in 0..count {
        let Some(word) = cluster.cell(at) else {
            return Ok(());
        };
        add_filled(text, at, word)?;
    }
    Ok(())
}

/// Adds the state of a cluster of so many processors and cells.
pub(crate) fn add_end(
    text: &mut String,
    cluster: &Cluster,
    processors: u32,
    cells: u32,
) -> Result<(), AllocError>
    requires processors { processors ≡ length cluster.now.joint.processors }
    requires few { processors < 2 ^ 31 }
    requires cells { cells ≡ length cluster.now.joint.cells }
    ensures { OnOk result (string_bytes text.new ≡ string_bytes text.old ++ schedule_end_shown cluster.now) }
{
    add_kept(text, cluster.kept().len())?;
    add_processors(text, cluster, processors)?;
    add_cells(text, cluster, cells)
}
