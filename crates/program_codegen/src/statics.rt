// The static cells of a program.
ghost use Rattle.std.specs.Prelude.{◌≡◌, ◌≤◌, ◌<◌, ◌++◌, ℕ, List, map, length, replicate, IfOk, OnOk};
ghost use Rattle.refine_program.specs.rpp_tree.Views.{source_of};
ghost use Rattle.refine_program.specs.roopl_semantics.Layout.{tables};
ghost use Rattle.refine_program.specs.roopl_semantics.Source.{main_fields};
ghost use Rattle.refine_program.specs.paired_code.declared.part.StaticWord.TheVariants.{Word};
ghost use Rattle.refine_program.specs.paired_code.Link.{static_word};
ghost use Rattle.refine_program.specs.Methods.{slot_places, table_places, statics_of};
ghost use Rattle.program_codegen.specs.Routines.{first_numbers};
ghost use Rattle.program_codegen.specs.declared.numbers.TheConstants.{FIRST_METHOD};

use crate::numbers::routine_number;
use refine_program::{Checked, table_at};
use statement_codegen::memory::header;
use statement_codegen::{NoMemory, StaticWord};
use std::alloc::{AllocError, Global};

/// The static cells of a program, for any addresses of its routines: the main object, and the table
/// of each class. So many methods come before those of each class.
pub fn statics(
    alloc: Global,
    checked: &Checked,
    firsts: &[u32],
) -> Result<Vec<StaticWord>, NoMemory>
    requires firsts { firsts.now ≡ first_numbers (source_of checked.now) }
    ensures { IfOk result (λ words. (places : List ℕ) →
        map (static_word places) words.items ≡ statics_of (source_of checked.now) FIRST_METHOD places) }
{
    let class = checked.table().main().class;
    let fields = checked.table().fields(class).len() as u32;
    let mut words = Vec::new(alloc);
    add_words(&mut words, &header(table_at(checked, class), 1))?;
    add_zeros(&mut words, fields)?;
    add_tables(&mut words, checked, firsts)?;
    Ok(words)
}

// Words that are known.
fn add_words(words: &mut Vec<StaticWord>, known: &[u32]) -> Result<(), AllocError>
    ensures { OnOk result (words.new.items ≡ words.old.items ++ map Word known.now) }
{
    for word in known {
        words.push(StaticWord::Word(*word))?;
    }
    Ok(())
}

// So many zeros.
fn add_zeros(words: &mut Vec<StaticWord>, count: u32) -> Result<(), AllocError>
    ensures { OnOk result (words.new.items ≡ words.old.items ++ replicate count (Word 0)) }
{
    for _ in 0..count {
        words.push(StaticWord::Word(0))?;
    }
    Ok(())
}

// The tables of all classes: the class's number from 1 on, and the routine of the method in each slot.
fn add_tables(
    words: &mut Vec<StaticWord>,
    checked: &Checked,
    firsts: &[u32],
) -> Result<(), AllocError>
    requires firsts { firsts.now ≡ first_numbers (source_of checked.now) }
    ensures { OnOk result ((places : List ℕ) → map (static_word places) words.new.items
        ≡ map (static_word places) words.old.items
        ++ tables 1 (table_places (source_of checked.now) FIRST_METHOD places)) }
{
    for class in 0..checked.table().class_count() {
        words.push(StaticWord::Word(class + 1))?;
        add_slots(words, checked, firsts, class)?;
    }
    Ok(())
}

// The routine of the method in each slot of a class.
fn add_slots(
    words: &mut Vec<StaticWord>,
    checked: &Checked,
    firsts: &[u32],
    class: u32,
) -> Result<(), AllocError>
    requires firsts { firsts.now ≡ first_numbers (source_of checked.now) }
    requires inside { class < length (source_of checked.now).classes }
    ensures { OnOk result ((places : List ℕ) → map (static_word places) words.new.items
        ≡ map (static_word places) words.old.items
        ++ slot_places (source_of checked.now) FIRST_METHOD places class) }
{
    let table = checked.table();
    for slot in 0..table.slot_count(class) {
        let number = routine_number(firsts, table.dispatch(class, slot));
        words.push(StaticWord::Routine(number))?;
    }
    Ok(())
}
