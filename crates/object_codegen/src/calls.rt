// The code of objects and arrays, by what it does.
ghost use Rattle.std.specs.Prelude.{◌≡◌, ◌≤◌, ◌+◌, ◌*◌, [], ◌++◌, length, IfOk};
ghost use Rattle.refine_heap.specs.buddy_book.Book.{order_for};
ghost use Rattle.static_layout.specs.roopl_semantics.Layout.{table_at as address_of};
ghost use Rattle.refine_heap.specs.rpp_tree.Tree.{index_nodes};
ghost use Rattle.refine_heap.specs.rpp_tree.Views.{expression_of, lvalue_of, creation_of, source_of};
ghost use Rattle.static_layout.specs.roopl_semantics.Elements.{index_elements, own_element, read_cost};
ghost use Rattle.expr_uncompute.specs.register_expressions.Code.{words as words_of};
ghost use Rattle.expr_uncompute.specs.Code.{place_words as words_of_place};
ghost use Rattle.expr_uncompute.specs.register_expressions.Steps.{token_count};
ghost use Rattle.expr_uncompute.specs.Steps.{place_tokens};
ghost use Rattle.refine_heap.specs.code_conventions.declared.memory.TheConstants.{HEADER_WORDS};
ghost use Rattle.expr_uncompute.specs.code_scope.Visible.{spot_of, free_words_of, known_in};
ghost use Rattle.object_codegen.specs.News.{ObjectLaw, ArrayLaw};
ghost use Rattle.object_codegen.specs.Creations.{NewLaw, creation_words, creation_size, created_class, created_fields};
ghost use Rattle.object_codegen.specs.Promises.{CopyLaw, copy_steps};

use crate::copies::copy_middle;
use crate::news::new_middle;
use crate::orders::{fixed_order, order_code};
use crate::shape::Shape;
use crate::tables::{class_number, field_count, order_of};
use expr_uncompute::{Piece, Scope, place_and_value_around, place_around, places_around};
use static_layout::memory::EXPRESSION_WORDS;
use static_layout::tree::{Ident, Made, Place};
use static_layout::{Expr, NoMemory, table_at};
use std::alloc::Global;

/// A copy of the reference in the place `source` into the place `target`, which is nil: the count
/// of what it refers to grows by 1. Run back it is the inverse, which empties the second place
/// if both refer to the same. Faults, in this order: first those of the two lvalues. Then 16 if
/// the second is an element of an array that an index reads, and 5 if the first is nil. Forward, 4
/// if the second is not nil. Backward, 10 if the references differ or the lvalues are one. The only
/// error is that memory ran out.
pub fn copy_code(
    alloc: Global,
    source: &Place,
    target: &Place,
    scope: &Scope,
) -> Result<Piece, NoMemory>
    requires room { words_of_place (lvalue_of source.now) + words_of_place (lvalue_of target.now) ≤
        EXPRESSION_WORDS }
    ensures law { IfOk result (λ p.
        CopyLaw (spot_of (known_in scope.now)) (free_words_of (known_in scope.now))
        (lvalue_of source.now) (lvalue_of target.now) p.cells) }
    ensures marks { IfOk result (λ p. p.marks ≡ []) }
    ensures steps { copy_steps (lvalue_of source.now) (lvalue_of target.now) ≤ 370 *
        (1 + index_nodes (lvalue_of source.now) + index_nodes (lvalue_of target.now) + read_cost
        (own_element (lvalue_of target.now))
        (index_elements (lvalue_of source.now) ++ index_elements (lvalue_of target.now))) }
    ensures size { IfOk result (λ p.
        length p.cells ≤ 47 + 80 * (place_tokens (lvalue_of source.now) + place_tokens
        (lvalue_of target.now))) }
{
    let middle = copy_middle(alloc)?;
    places_around(alloc, source, target, scope, middle)
}

/// A new object of the class whose table has this address, with so many fields, in a block of this
/// order, which the routine 0 of the image takes; its address goes into the place. Run back it is
/// the inverse, which gives the block back. Faults: first those of the lvalue, and 16 if it is an
/// element of an array that its index reads. Forward, 4 if the lvalue is not nil, and 8 if there is
/// no block. Backward, 5 if it is nil, 11 if the table is another, 6 if the reference count is not
/// 1, and 7 if a field is not 0. The only error is that memory ran out.
pub fn object_code(
    alloc: Global,
    table: u32,
    fields: u32,
    order: u32,
    place: &Place,
    scope: &Scope,
) -> Result<Piece, NoMemory>
    requires room { words_of_place (lvalue_of place.now) ≤ EXPRESSION_WORDS }
    ensures law { IfOk result (λ p.
        ObjectLaw (spot_of (known_in scope.now)) (free_words_of (known_in scope.now)) table fields order
        (lvalue_of place.now) p.cells) }
    ensures marks { IfOk result (λ p. p.marks ≡ []) }
    ensures size { IfOk result (λ p. length p.cells ≤ 86 + 80 * (1 + place_tokens
        (lvalue_of place.now))) }
{
    let orders = fixed_order(alloc, order)?;
    let middle = new_middle(alloc, Shape::Fixed(table, fields), orders)?;
    place_around(alloc, place, scope, middle)
}

/// A new array of zeros or of nil, with a length: as `object_code`, and the faults of the length
/// come after those of the lvalue. Forward, 13 after 4 if it is not above 0. Backward, 12 instead
/// of 11 if the array's length is another.
pub fn array_code(
    alloc: Global,
    size: &Expr,
    place: &Place,
    scope: &Scope,
) -> Result<Piece, NoMemory>
    requires room { words_of_place (lvalue_of place.now) + words_of (expression_of size.now) ≤
        EXPRESSION_WORDS }
    ensures law { IfOk result (λ p.
        ArrayLaw (spot_of (known_in scope.now)) (free_words_of (known_in scope.now))
        (lvalue_of place.now) (expression_of size.now) p.cells) }
    ensures marks { IfOk result (λ p. p.marks ≡ []) }
    ensures size { IfOk result (λ p. length p.cells ≤ 164 + 80 *
        (place_tokens (lvalue_of place.now) + token_count (expression_of size.now))) }
{
    let orders = order_code(alloc)?;
    let middle = new_middle(alloc, Shape::Lengthy, orders)?;
    place_and_value_around(alloc, place, size, scope, middle)
}

/// A new object of the class of this name: `object_code` with the address of the class's table, its
/// number of fields, and the order of a block for them.
pub fn class_code(
    alloc: Global,
    class: &Ident,
    place: &Place,
    scope: &Scope,
) -> Result<Piece, NoMemory>
    requires room { words_of_place (lvalue_of place.now) ≤ EXPRESSION_WORDS }
    ensures law { IfOk result (λ p.
        ObjectLaw (spot_of (known_in scope.now)) (free_words_of (known_in scope.now))
        (address_of (source_of scope.now.program) (created_class (source_of scope.now.program) class.now))
        (created_fields (source_of scope.now.program) class.now)
        (order_for (HEADER_WORDS + created_fields (source_of scope.now.program) class.now))
        (lvalue_of place.now) p.cells) }
    ensures marks { IfOk result (λ p. p.marks ≡ []) }
    ensures size { IfOk result (λ p. length p.cells ≤ 86 + 80 * (1 + place_tokens
        (lvalue_of place.now))) }
{
    let checked = scope.checked();
    let number = class_number(checked, &class.text);
    let fields = field_count(checked, number);
    let table = table_at(checked, number);
    object_code(alloc, table, fields, order_of(fields), place, scope)
}

/// The fragment of a `new`, whatever it makes: an object of a class, with the address of the
/// class's table and so many cells as it has fields, or an array. Its inverse is the fragment of
/// the `delete`. The only error is that memory ran out.
pub fn new_code(alloc: Global, made: &Made, place: &Place, scope: &Scope) -> Result<Piece, NoMemory>
    requires room { creation_words (creation_of made.now) (lvalue_of place.now) ≤ EXPRESSION_WORDS }
    ensures law { IfOk result (λ p.
        NewLaw (source_of scope.now.program) (spot_of (known_in scope.now)) (free_words_of
        (known_in scope.now)) (creation_of made.now) (lvalue_of place.now) p.cells) }
    ensures marks { IfOk result (λ p. p.marks ≡ []) }
    ensures size { IfOk result (λ p.
        length p.cells ≤ creation_size (creation_of made.now) (lvalue_of place.now)) }
{
    match made {
        Made::Object(class) => class_code(alloc, class, place, scope),
        Made::Ints(size) => array_code(alloc, size, place, scope),
        Made::Objects(_, size) => array_code(alloc, size, place, scope),
    }
}
