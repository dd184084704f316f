// The code of values.
ghost use Rattle.std.specs.Prelude.{◌≡◌, ◌≢◌, ◌<◌, ◌≤◌, ◌⊎◌, ◌+◌, ◌*◌, ◌++◌, length, IfOk};
ghost use Rattle.register_expressions.specs.rpp_tree.Views.{expression_of, lvalue_of};
ghost use Rattle.register_expressions.specs.paired_code.Code.{unmarked};
ghost use Rattle.register_expressions.specs.Code.{Target, words as words_of, copy_cells, nil_check as nil_cells, index_check as index_cells};
ghost use Rattle.expr_uncompute.specs.Code.{place_words as words_of_place, operand_cells, checked_cells as checked_of, open_cells, prepare_cells, parts_cells, prepared_value_cells, prepared_test_cells, value_cells, test_cells, result_of};
ghost use Rattle.register_expressions.specs.Number.{lvalue_read};
ghost use Rattle.expr_uncompute.specs.Promises.{ExpressionLaw, ConditionLaw};
ghost use Rattle.register_expressions.specs.Steps.{token_count};
ghost use Rattle.register_expressions.specs.code_scope.Visible.{spot_of as spot_of_name, free_words_of, known_by};

use register_expressions::cells::{enclosed, exch, xor, xori};
use register_expressions::held::{held_test, held_value, is_held};
use register_expressions::memory::EXPRESSION_WORDS;
use register_expressions::registers::{CONTENT, ITEM, LEFT, RIGHT, TRUTH};
use register_expressions::rows::{
    copy, index_check, nil_check, operator, operator_register, point, reached, store, truth,
};
use register_expressions::tree::Place;
use register_expressions::{
    Expr, Names, NoMemory, Piece, Spot, Text, empty, free_word, seq, spot_of,
};
use std::alloc::Global;

/// How many words of the frame an expression needs.
#[cycle(count_words)]
pub fn words(e: &Expr) -> u32
    requires { words_of (expression_of e.now) ≤ EXPRESSION_WORDS }
    ensures { result ≡ words_of (expression_of e.now) }
{
    match e {
        Expr::Number { .. } => 0,
        Expr::Nil { .. } => 0,
        Expr::Read(place) => read_words(place),
        Expr::Binary { left, right, .. } => 1 + (words(left) + words(right)),
    }
}

#[cycle(count_words)]
fn read_words(place: &Place) -> u32
    requires { words_of (lvalue_read (lvalue_of place.now)) ≤ EXPRESSION_WORDS }
    ensures { result ≡ words_of (lvalue_read (lvalue_of place.now)) }
{
    match &place.index {
        None => 0,
        Some(index) => 1 + words(index),
    }
}

/// The words that a place needs.
pub fn place_words(place: &Place) -> u32
    requires { words_of_place (lvalue_of place.now) ≤ EXPRESSION_WORDS }
    ensures { result ≡ words_of_place (lvalue_of place.now) }
{
    match &place.index {
        None => 0,
        Some(index) => words(index),
    }
}

// A word of the frame.
fn home(names: &Names, i: u32) -> Spot
    requires { i ≤ 2000 }
    ensures { result ≡ Spot.Frame (free_words_of (known_by names.now) + i) }
{
    Spot::Frame(free_word(names) + i)
}

fn operand_read(
    alloc: Global,
    names: &Names,
    place: &Place,
    i: u32,
    into: u8,
) -> Result<Piece, NoMemory>
    requires room { i ≤ 2000 }
    requires register { into < 32 }
    requires apart { into ≢ CONTENT }
    ensures { IfOk result (λ p.
        p ≡ unmarked (operand_cells (spot_of_name (known_by names.now))
        (free_words_of (known_by names.now)) (lvalue_read (lvalue_of place.now)) i into)) }
{
    match &place.index {
        None => copy(alloc, spot_of(names, &place.name.text), into),
        Some(_) => copy(alloc, home(names, i), into),
    }
}

/// The value of an operand xored into a register.
pub fn operand(alloc: Global, names: &Names, e: &Expr, i: u32, into: u8) -> Result<Piece, NoMemory>
    requires room { i ≤ 2000 }
    requires register { into < 32 }
    requires apart { into ≢ CONTENT }
    ensures { IfOk result (λ p.
        p ≡ unmarked (operand_cells (spot_of_name (known_by names.now))
        (free_words_of (known_by names.now)) (expression_of e.now) i into)) }
{
    match e {
        Expr::Number { word, .. } => xori(alloc, into, *word),
        Expr::Nil { .. } => Ok(empty(alloc)),
        Expr::Read(place) => operand_read(alloc, names, place, i, into),
        Expr::Binary { .. } => copy(alloc, home(names, i), into),
    }
}

fn both_checks(alloc: Global) -> Result<Piece, NoMemory>
    ensures { IfOk result (λ p. p ≡ unmarked (nil_cells ++ index_cells)) }
{
    let first = nil_check(alloc)?;
    let second = index_check(alloc)?;
    seq(first, second)
}

fn array_checked(alloc: Global, names: &Names, name: &Text) -> Result<Piece, NoMemory>
    ensures { IfOk result (λ p.
        p ≡ unmarked (copy_cells (spot_of_name (known_by names.now) name.now) RIGHT ++
        (nil_cells ++ index_cells))) }
{
    let array = copy(alloc, spot_of(names, name), RIGHT)?;
    let checks = both_checks(alloc)?;
    seq(array, checks)
}

/// An element's index and array, both checked.
pub fn checked(
    alloc: Global,
    names: &Names,
    name: &Text,
    index: &Expr,
    i: u32,
) -> Result<Piece, NoMemory>
    requires { i ≤ 2000 }
    ensures { IfOk result (λ p.
        p ≡ unmarked (checked_of (spot_of_name (known_by names.now)) (free_words_of (known_by names.now))
        name.now (expression_of index.now) i)) }
{
    let first = operand(alloc, names, index, i, LEFT)?;
    let rest = array_checked(alloc, names, name)?;
    seq(first, rest)
}

fn open_read(alloc: Global, names: &Names, place: &Place, i: u32) -> Result<Piece, NoMemory>
    requires { i ≤ EXPRESSION_WORDS }
    ensures { IfOk result (λ p.
        p ≡ unmarked (open_cells (spot_of_name (known_by names.now)) (free_words_of (known_by names.now))
        (lvalue_read (lvalue_of place.now)) i)) }
{
    match &place.index {
        None => reached(alloc, spot_of(names, &place.name.text)),
        Some(index) => {
            let front = checked(alloc, names, &place.name.text, index, i + 1)?;
            let address = point(alloc)?;
            let word = exch(alloc, ITEM, RIGHT)?;
            let rest = seq(address, word)?;
            seq(front, rest)
        }
    }
}

/// The value of an expression in its register, if its parts are prepared.
pub fn open(alloc: Global, names: &Names, e: &Expr, i: u32) -> Result<Piece, NoMemory>
    requires { i + words_of (expression_of e.now) ≤ EXPRESSION_WORDS }
    ensures { IfOk result (λ p.
        p ≡ unmarked (open_cells (spot_of_name (known_by names.now)) (free_words_of (known_by names.now))
        (expression_of e.now) i)) }
{
    match e {
        Expr::Number { word, .. } => xori(alloc, CONTENT, *word),
        Expr::Nil { .. } => Ok(empty(alloc)),
        Expr::Read(place) => open_read(alloc, names, place, i),
        Expr::Binary {
            op,
            left,
            right,
            ..
        } => {
            let first = operand(alloc, names, left, i + 1, LEFT)?;
            let second = operand(alloc, names, right, i + 1 + words(left), RIGHT)?;
            let row = operator(alloc, *op)?;
            let rest = seq(second, row)?;
            seq(first, rest)
        }
    }
}

/// Every element and operator computed once into its word of the frame.
#[cycle(prepared)]
pub fn prepare(alloc: Global, names: &Names, e: &Expr, i: u32) -> Result<Piece, NoMemory>
    requires { i + words_of (expression_of e.now) ≤ EXPRESSION_WORDS }
    ensures { IfOk result (λ p.
        p ≡ unmarked (prepare_cells (spot_of_name (known_by names.now))
        (free_words_of (known_by names.now)) (expression_of e.now) i)) }
{
    match e {
        Expr::Number { .. } => Ok(empty(alloc)),
        Expr::Nil { .. } => Ok(empty(alloc)),
        Expr::Read(place) => prepare_read(alloc, names, place, i),
        Expr::Binary {
            op,
            left,
            right,
            ..
        } => {
            let first = prepare(alloc, names, left, i + 1)?;
            let second = prepare(alloc, names, right, i + 1 + words(left))?;
            let parts = seq(first, second)?;
            let opened = open(alloc, names, e, i)?;
            let kept = store(alloc, home(names, i), operator_register(*op))?;
            let node = enclosed(alloc, opened, kept)?;
            seq(parts, node)
        }
    }
}

#[cycle(prepared)]
fn prepare_read(alloc: Global, names: &Names, place: &Place, i: u32) -> Result<Piece, NoMemory>
    requires { i + words_of (lvalue_read (lvalue_of place.now)) ≤ EXPRESSION_WORDS }
    ensures { IfOk result (λ p.
        p ≡ unmarked (prepare_cells (spot_of_name (known_by names.now))
        (free_words_of (known_by names.now)) (lvalue_read (lvalue_of place.now)) i)) }
{
    match &place.index {
        None => Ok(empty(alloc)),
        Some(index) => {
            let parts = prepare(alloc, names, index, i + 1)?;
            let opened = open_read(alloc, names, place, i)?;
            let kept = store(alloc, home(names, i), ITEM)?;
            let node = enclosed(alloc, opened, kept)?;
            seq(parts, node)
        }
    }
}

fn parts_read(alloc: Global, names: &Names, place: &Place, i: u32) -> Result<Piece, NoMemory>
    requires { i + words_of (lvalue_read (lvalue_of place.now)) ≤ EXPRESSION_WORDS }
    ensures { IfOk result (λ p.
        p ≡ unmarked (parts_cells (spot_of_name (known_by names.now)) (free_words_of (known_by names.now))
        (lvalue_read (lvalue_of place.now)) i)) }
{
    match &place.index {
        None => Ok(empty(alloc)),
        Some(index) => prepare(alloc, names, index, i + 1),
    }
}

/// The parts of an expression prepared.
pub fn parts(alloc: Global, names: &Names, e: &Expr, i: u32) -> Result<Piece, NoMemory>
    requires { i + words_of (expression_of e.now) ≤ EXPRESSION_WORDS }
    ensures { IfOk result (λ p.
        p ≡ unmarked (parts_cells (spot_of_name (known_by names.now)) (free_words_of (known_by names.now))
        (expression_of e.now) i)) }
{
    match e {
        Expr::Number { .. } => Ok(empty(alloc)),
        Expr::Nil { .. } => Ok(empty(alloc)),
        Expr::Read(place) => parts_read(alloc, names, place, i),
        Expr::Binary { left, right, .. } => {
            let first = prepare(alloc, names, left, i + 1)?;
            let second = prepare(alloc, names, right, i + 1 + words(left))?;
            seq(first, second)
        }
    }
}

fn read_register(place: &Place) -> u8
    ensures value { result ≡ result_of (lvalue_read (lvalue_of place.now)) }
    ensures known { (result ≡ CONTENT) ⊎ (result ≡ ITEM) }
{
    match &place.index {
        None => CONTENT,
        Some(_) => ITEM,
    }
}

/// The register that has the value of an opened expression.
pub fn result_register(e: &Expr) -> u8
    ensures value { result ≡ result_of (expression_of e.now) }
    ensures low { 5 < result }
    ensures high { result < 19 }
    ensures no_target { (result < 11) ⊎ (15 < result) }
{
    match e {
        Expr::Number { .. } => CONTENT,
        Expr::Nil { .. } => CONTENT,
        Expr::Read(place) => read_register(place),
        Expr::Binary { op, .. } => operator_register(*op),
    }
}

fn prepared_value(alloc: Global, e: &Expr, names: &Names, into: u8) -> Result<Piece, NoMemory>
    requires register { Target into }
    requires room { words_of (expression_of e.now) ≤ EXPRESSION_WORDS }
    ensures { IfOk result (λ p.
        p ≡ unmarked (prepared_value_cells (spot_of_name (known_by names.now))
        (free_words_of (known_by names.now)) (expression_of e.now) into)) }
{
    let outer = parts(alloc, names, e, 0)?;
    let opened = open(alloc, names, e, 0)?;
    let last = xor(alloc, into, result_register(e))?;
    let middle = enclosed(alloc, opened, last)?;
    enclosed(alloc, outer, middle)
}

fn prepared_test(alloc: Global, e: &Expr, names: &Names, into: u8) -> Result<Piece, NoMemory>
    requires register { Target into }
    requires room { words_of (expression_of e.now) ≤ EXPRESSION_WORDS }
    ensures { IfOk result (λ p.
        p ≡ unmarked (prepared_test_cells (spot_of_name (known_by names.now))
        (free_words_of (known_by names.now)) (expression_of e.now) into)) }
{
    let outer = parts(alloc, names, e, 0)?;
    let opened = open(alloc, names, e, 0)?;
    let told = truth(alloc, TRUTH, result_register(e))?;
    let opened = seq(opened, told)?;
    let last = xor(alloc, into, TRUTH)?;
    let middle = enclosed(alloc, opened, last)?;
    enclosed(alloc, outer, middle)
}

fn chosen_value(alloc: Global, e: &Expr, names: &Names, into: u8) -> Result<Piece, NoMemory>
    requires register { Target into }
    requires room { words_of (expression_of e.now) ≤ EXPRESSION_WORDS }
    ensures { IfOk result (λ p.
        p ≡ unmarked (value_cells (spot_of_name (known_by names.now)) (free_words_of (known_by names.now))
        (expression_of e.now) into)) }
{
    if is_held(e) {
        held_value(alloc, e, names, into)
    } else {
        prepared_value(alloc, e, names, into)
    }
}

/// The value of an expression xored into a register.
pub fn value_piece(alloc: Global, e: &Expr, names: &Names, into: u8) -> Result<Piece, NoMemory>
    requires register { Target into }
    requires room { words_of (expression_of e.now) ≤ EXPRESSION_WORDS }
    ensures code { IfOk result (λ p.
        p ≡ unmarked (value_cells (spot_of_name (known_by names.now)) (free_words_of (known_by names.now))
        (expression_of e.now) into)) }
    ensures law { IfOk result (λ p.
        ExpressionLaw (spot_of_name (known_by names.now)) (free_words_of (known_by names.now)) into
        (expression_of e.now) p.cells) }
    ensures size { IfOk result (λ p. length p.cells ≤ 58 * token_count (expression_of e.now)) }
{
    chosen_value(alloc, e, names, into)
}

fn chosen_test(alloc: Global, e: &Expr, names: &Names, into: u8) -> Result<Piece, NoMemory>
    requires register { Target into }
    requires room { words_of (expression_of e.now) ≤ EXPRESSION_WORDS }
    ensures { IfOk result (λ p.
        p ≡ unmarked (test_cells (spot_of_name (known_by names.now)) (free_words_of (known_by names.now))
        (expression_of e.now) into)) }
{
    if is_held(e) {
        held_test(alloc, e, names, into)
    } else {
        prepared_test(alloc, e, names, into)
    }
}

/// Whether it is true xored into a register.
pub fn test_piece(alloc: Global, e: &Expr, names: &Names, into: u8) -> Result<Piece, NoMemory>
    requires register { Target into }
    requires room { words_of (expression_of e.now) ≤ EXPRESSION_WORDS }
    ensures code { IfOk result (λ p.
        p ≡ unmarked (test_cells (spot_of_name (known_by names.now)) (free_words_of (known_by names.now))
        (expression_of e.now) into)) }
    ensures law { IfOk result (λ p.
        ConditionLaw (spot_of_name (known_by names.now)) (free_words_of (known_by names.now)) into
        (expression_of e.now) p.cells) }
    ensures size { IfOk result (λ p. length p.cells ≤ 58 * token_count (expression_of e.now)) }
{
    chosen_test(alloc, e, names, into)
}
