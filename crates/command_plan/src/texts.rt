// What is printed: refusals of texts, images and inputs, faults and numbers of steps.
ghost use Rattle.std.specs.Prelude.{◌≡◌, IfOk, string_bytes, ◌<◌, ◌++◌, Ok};
ghost use Rattle.command_plan.specs.Plans.{planned, prints};
ghost use Rattle.class_table.specs.class_rules.Refusal.{refused as refusal};
ghost use Rattle.command_plan.specs.Refusals.{refused_line as line_of_refusal, refusal_name as name_of_refusal};
ghost use Rattle.command_plan.specs.Texts.{load_line as line_of_load, bad_command_line as line_of_bad_command, steps_line, bound_lines, asm_line as line_of_asm, image_line as line_of_image};
ghost use Rattle.pisa_scripts.specs.Stops.{fault_line as line_of_fault};

use crate::plan::Plan;
use command_ends::Verdict;
use pisa_asm::AsmError;
use pisa_loader::{ImageError, LoadError};
use pisa_scripts::{Stop, add_stop};
use std::alloc::{AllocError, Global};

/// The plan that prints a refusal of a source.
pub fn refuse_source(alloc: Global, number: u32, at: u32) -> Result<Plan, AllocError>
    ensures { IfOk result (λ plan. planned plan
        ≡ prints Verdict.SourceRefused (line_of_refusal (refusal number at))) }
{
    Ok(Plan::prints(Verdict::SourceRefused, refused_line(alloc, number, at)?))
}

fn refused_line(alloc: Global, number: u32, at: u32) -> Result<String, AllocError>
    ensures { IfOk result (λ line. string_bytes line ≡ line_of_refusal (refusal number at)) }
{
    let name = refusal_name(number);
    format!(in alloc; "refused {number} {name} at {at}\n")
}

fn refusal_name(number: u32) -> &'static str
    ensures { result.now ≡ name_of_refusal number }
{
    match number {
        1 => "BadByte",
        2 => "NumberTooLarge",
        3 => "Syntax",
        4 => "Limit",
        5 => "DuplicateClass",
        6 => "UnknownClass",
        7 => "InheritanceCycle",
        8 => "DuplicateField",
        9 => "DuplicateMethod",
        10 => "OverrideDiffers",
        11 => "NoMain",
        12 => "TwoMains",
        13 => "UnknownName",
        14 => "Redeclared",
        15 => "TypeDiffers",
        16 => "SelfUpdate",
        17 => "SameArgument",
        18 => "FieldArgument",
        19 => "WrongArity",
        20 => "NotAnArray",
        21 => "RefusedOperator",
        22 => "LocalInOwnExpression",
        23 => "NotClassType",
        _ => "",
    }
}

/// What is printed if the limits, the input or a state are refused.
pub fn load_line(alloc: Global, e: LoadError) -> Result<String, AllocError>
    ensures { IfOk result (λ line. string_bytes line ≡ line_of_load e) }
{
    match e {
        LoadError::HeapOrder => String::from_str(alloc, "refused 35 HeapOrder\n"),
        LoadError::DeepRange => String::from_str(alloc, "refused 36 DeepRange\n"),
        LoadError::UnknownField { line } => {
            format!(in alloc; "refused 37 UnknownField at {line}\n")
        }
        LoadError::BadState { at } => format!(in alloc; "refused 38 BadState at {at}\n"),
        LoadError::BadInputLine { line } => {
            format!(in alloc; "refused 40 BadInputLine at {line}\n")
        }
        LoadError::NoMemory => Ok(String::new(alloc)),
    }
}

/// What is printed if this line of a script is no command.
pub fn bad_command_line(alloc: Global, line: u32) -> Result<String, AllocError>
    ensures { IfOk result (λ text. string_bytes text ≡ line_of_bad_command line) }
{
    format!(in alloc; "refused 39 BadCommand at {line}\n")
}

/// A text followed by the line on the number of steps.
pub fn with_steps(text: String, spent: u64) -> Result<String, AllocError>
    ensures { IfOk result (λ longer. string_bytes longer ≡ string_bytes text ++ steps_line spent) }
{
    let mut text = text;
    write!(text, "steps {spent}\n")?;
    Ok(text)
}

/// The line on a fault, with its name.
pub fn fault_line(alloc: Global, code: u32) -> Result<String, AllocError>
    ensures { IfOk result (λ line. string_bytes line ≡ line_of_fault code) }
{
    let mut line = String::new(alloc);
    add_stop(&mut line, Stop::Trap(code))?;
    Ok(line)
}

/// The plan of a run that stopped with a fault.
pub fn report_fault(alloc: Global, code: u32, spent: u64) -> Result<Plan, AllocError>
    ensures { IfOk result (λ plan. planned plan
        ≡ prints Verdict.Trapped (line_of_fault code ++ steps_line spent)) }
{
    let text = with_steps(fault_line(alloc, code)?, spent)?;
    Ok(Plan::prints(Verdict::Trapped, text))
}

/// The plan of a run that the bound ended.
pub fn report_bound(alloc: Global, bound: u64) -> Result<Plan, AllocError>
    ensures { IfOk result (λ plan. planned plan ≡ prints Verdict.Bound (bound_lines bound)) }
{
    Ok(Plan::prints(Verdict::Bound, format!(in alloc; "bound\nsteps {bound}\n")?))
}

/// What is printed if an assembly text is refused.
pub fn asm_line(alloc: Global, e: AsmError) -> Result<String, AllocError>
    ensures { IfOk result (λ line. string_bytes line ≡ line_of_asm e) }
{
    match e {
        AsmError::BadLine { line } => format!(in alloc; "refused 24 BadLine at {line}\n"),
        AsmError::UnknownMnemonic { line } => {
            format!(in alloc; "refused 25 UnknownMnemonic at {line}\n")
        }
        AsmError::DuplicateLabel { line } => {
            format!(in alloc; "refused 26 DuplicateLabel at {line}\n")
        }
        AsmError::UnknownLabel { line } => {
            format!(in alloc; "refused 27 UnknownLabel at {line}\n")
        }
        AsmError::NotOneToOne { line } => {
            format!(in alloc; "refused 28 NotOneToOne at {line}\n")
        }
        AsmError::NoStart => String::from_str(alloc, "refused 29 NoStart\n"),
        AsmError::NoFinish => String::from_str(alloc, "refused 30 NoFinish\n"),
        AsmError::TooManyCells { line } => {
            format!(in alloc; "refused 41 TooManyCells at {line}\n")
        }
        AsmError::BadNote { line } => format!(in alloc; "refused 43 BadNote at {line}\n"),
        AsmError::NoMemory => Ok(String::new(alloc)),
    }
}

/// What is printed if the bytes of an image are refused.
pub fn image_line(alloc: Global, e: ImageError) -> Result<String, AllocError>
    ensures { IfOk result (λ line. string_bytes line ≡ line_of_image e) }
{
    match e {
        ImageError::NotOneToOne { at } => format!(in alloc; "refused 28 NotOneToOne at {at}\n"),
        ImageError::NoStart => String::from_str(alloc, "refused 29 NoStart\n"),
        ImageError::NoFinish => String::from_str(alloc, "refused 30 NoFinish\n"),
        ImageError::ImageTruncated { at } => {
            format!(in alloc; "refused 31 ImageTruncated at {at}\n")
        }
        ImageError::ImageMagic { at } => format!(in alloc; "refused 32 ImageMagic at {at}\n"),
        ImageError::ImageField { at } => format!(in alloc; "refused 33 ImageField at {at}\n"),
        ImageError::ImageTrailing { at } => {
            format!(in alloc; "refused 34 ImageTrailing at {at}\n")
        }
        ImageError::NoMemory => Ok(String::new(alloc)),
    }
}
