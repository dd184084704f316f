//! Programs of any size for tests and measurements. Each builds a list of items and a histogram of
//! their values by calls, reads off their sum and number, and undoes the rest. The layer above may
//! use `generate`.
#![tactic(auto)]

ghost use Rattle.std.specs.Prelude.{◌≡◌, ◌+◌, ◌++◌, string_bytes, IfOk, OnOk};
ghost use Rattle.rpp_generator.specs.Generated.{generated, opening_text, closing_text, items, item_lines, item_value, local_begin, put_in, taken_out, local_end};

use rpp_words::NoMemory;
use std::alloc::{AllocError, Global};

// The lines before the items.
const OPENING: &str = "class Main
Node head int[] hist int total int count int sum int kept
method main()
call build()
sum += total
kept += count
uncall build()
method build()
new int[100] hist
";

// The lines after the items.
const CLOSING: &str = "method add(int v)
local Node n = nil
new Node n
call n::fill(v, head)
head <=> n
delocal Node n = nil
hist[v] += 1
count += 1
total += v
class Node
int value Node next
method fill(int v, Node rest)
value += v
next <=> rest
";

/// The text of the program with this seed and so many items; up to 800 items it keeps the limits of
/// the language. The same seed and size give the same text. The only refusal is `NoMemory`.
pub fn generate(alloc: Global, seed: u64, size: u32) -> Result<String, NoMemory>
    ensures { IfOk result (λ text. string_bytes text ≡ generated seed size) }
{
    let mut out = String::new(alloc);
    add_opening(&mut out)?;
    add_items(&mut out, seed, size)?;
    add_closing(&mut out)?;
    Ok(out)
}

// The lines before the items.
#[tactic(auto, unfolding(crate::specs::Generated::opening_text))]
fn add_opening(out: &mut String) -> Result<(), AllocError>
    ensures { OnOk result (string_bytes out.new ≡ string_bytes out.old ++ opening_text) }
{
    out.push_str(OPENING)
}

// The lines after the items.
#[tactic(auto, unfolding(crate::specs::Generated::closing_text))]
fn add_closing(out: &mut String) -> Result<(), AllocError>
    ensures { OnOk result (string_bytes out.new ≡ string_bytes out.old ++ closing_text) }
{
    out.push_str(CLOSING)
}

// The lines of all items.
#[tactic(auto, using(crate::proofs::Items::next_item))]
fn add_items(out: &mut String, seed: u64, size: u32) -> Result<(), AllocError>
    ensures { OnOk result (string_bytes out.new ≡ string_bytes out.old ++ items seed 1 size) }
{
    for number in 0..size {
        add_item(out, value_of(seed, number))?;
    }
    Ok(())
}

// The value of the item after so many others.
fn value_of(seed: u64, before: u32) -> u64
    ensures { result ≡ item_value seed (1 + before) }
{
    (31 * (seed % 100) + 17 * (1 + u64::from(before))) % 100
}

// The lines of an item of this value.
fn add_item(out: &mut String, value: u64) -> Result<(), AllocError>
    ensures { OnOk result (string_bytes out.new ≡ string_bytes out.old ++ item_lines value) }
{
    add_local_begin(out, value)?;
    add_put_in(out)?;
    add_taken_out(out, value)?;
    add_local_end(out, value)
}

// The line before an item.
#[tactic(auto, unfolding(crate::specs::Generated::local_begin))]
fn add_local_begin(out: &mut String, value: u64) -> Result<(), AllocError>
    ensures { OnOk result (string_bytes out.new ≡ string_bytes out.old ++ local_begin value) }
{
    write!(out, "local int v = {value}\n")
}

// The line that puts an item in.
#[tactic(auto, unfolding(crate::specs::Generated::put_in))]
fn add_put_in(out: &mut String) -> Result<(), AllocError>
    ensures { OnOk result (string_bytes out.new ≡ string_bytes out.old ++ put_in) }
{
    out.push_str("call add(v)\n")
}

// The line after an item.
#[tactic(auto, unfolding(crate::specs::Generated::local_end))]
fn add_local_end(out: &mut String, value: u64) -> Result<(), AllocError>
    ensures { OnOk result (string_bytes out.new ≡ string_bytes out.old ++ local_end value) }
{
    write!(out, "delocal int v = {value}\n")
}

// The line that takes an item out again, for one in four values.
#[tactic(auto, unfolding(crate::specs::Generated::taken_out))]
fn add_taken_out(out: &mut String, value: u64) -> Result<(), AllocError>
    ensures { OnOk result (string_bytes out.new ≡ string_bytes out.old ++ taken_out value) }
{
    if value % 4 == 0 {
        out.push_str("uncall add(v)\n")
    } else {
        Ok(())
    }
}
