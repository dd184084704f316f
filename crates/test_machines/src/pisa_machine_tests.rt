// What probes say of a run of a hand-written image.
ghost use Rattle.std.specs.Prelude.{◌≡◌};

use std::alloc::Global;
use std::marker::Brand;
use std::process::Abort;
use std::sync::ledger::{Blank, Ledger};
use std::test::Fail;
use two_way_debugger::{
    Cell, Coverage, Debugger, DeepestPlace, Image, MOST_CELLS, Machine, Op, Probe, Probes, RunEnd,
    StepTally, Steps, Stop,
};

fn cell(op: Op, a: u8, b: u8, imm: u32) -> Cell {
    Cell {
        op,
        a,
        b,
        c: 0,
        imm,
    }
}

/// An image of these cells.
fn image<R: Abort>(rt: &R, alloc: Global, code: &[Cell]) -> Result<Image, Fail> {
    let code = code.to_vec(alloc)?;
    assert!(rt; code.len() <= MOST_CELLS);
    assert!(rt; code.iter().all(|cell| cell.is_in_range()));
    Ok(Image::seal(code, Vec::new(alloc))?)
}

/// A subroutine that adds 5 to $1, run forward, backward and forward.
fn subroutine<R: Abort>(rt: &R, alloc: Global) -> Result<Image, Fail> {
    image(
        rt,
        alloc,
        &[
            cell(Op::Start, 0, 0, 0),
            cell(Op::Bra, 0, 0, 5),
            cell(Op::Rbra, 0, 0, 4),
            cell(Op::Bra, 0, 0, 3),
            cell(Op::Finish, 0, 0, 0),
            cell(Op::Bra, 0, 0, 4),
            cell(Op::Swapbr, 2, 0, 0),
            cell(Op::Neg, 2, 0, 0),
            cell(Op::Addi, 1, 0, 5),
            cell(Op::Bra, 0, 0, 4294967292),
        ],
    )
}

/// What probes say of a run of the subroutine: how many lines were added, and the lines, those that
/// were added first.
fn watch<L: Ledger, R: Abort, P: Probes>(
    rt: &R,
    alloc: Global,
    probes: &mut P,
    blank: Blank,
) -> Result<(usize, String), Fail>
    requires name { blank.name ≡ L.name }
    requires parts { blank.parts ≡ L.parts }
    requires one { blank.parts ≡ 1 }
{
    let mut steps = Steps::<L>::new(blank);
    let cells = vec![in alloc; 7, 8]?;
    let mut machine = Machine::start_with(alloc, subroutine(rt, alloc)?, [0; 32], cells)?;
    let mut lines = Vec::new(alloc);
    let end = machine.run_told(alloc, 1000, probes, &mut lines, &mut steps)?;
    assert_eq!(rt;
        end,
        RunEnd {
            stop: Stop::Finished,
            spent: 26
        }
    );
    assert_eq!(rt; machine.made(), 25);
    let mut text = String::new(alloc);
    for line in &lines {
        text.push_str(line.as_str())?;
        text.push('\n')?;
    }
    probes.show(&mut text)?;
    Ok((lines.len(), text))
}

/// One probe never ends, and one ends with the fourth step.
#[test]
fn probes_watch_a_run(rt: HostRuntime) -> Result<(), Fail> {
    let alloc = rt.alloc();
    for (limit, dropped, said) in [
        (1_000_000, 0, "forward 19 back 7\nplaces 10\ndeepest 9\n"),
        (4, 1, "places 4\nforward 19 back 7\ndeepest 9\n"),
    ] {
        let mut probes: Vec<Box<dyn Probe>> = Vec::new(alloc);
        probes.push(Box::new(alloc, StepTally::new())?)?;
        probes.push(Box::new(alloc, Coverage::new(alloc, limit)?)?)?;
        probes.push(Box::new(alloc, DeepestPlace::new())?)?;
        let (lines, text) = watch::<Brand, HostRuntime, Vec<Box<dyn Probe>>>(
            &rt,
            alloc,
            &mut probes,
            Blank::new(1),
        )?;
        assert_eq!(rt; lines, dropped);
        assert_eq!(rt; text.as_str(), said);
        assert_eq!(rt; probes.len() + dropped, 3);
    }
    Ok(())
}

#[test]
fn a_debugger_has_its_machine(rt: HostRuntime) -> Result<(), Fail> {
    let alloc = rt.alloc();
    let cells = vec![in alloc; 7, 8]?;
    let machine = Machine::start_with(alloc, subroutine(&rt, alloc)?, [0; 32], cells)?;
    let debugger = Debugger::new(machine);
    assert_eq!(rt; debugger.machine().made(), 0);
    assert_eq!(rt; debugger.machine().cell(1), Some(8));
    Ok(())
}
