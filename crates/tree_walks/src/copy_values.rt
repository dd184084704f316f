// Copies of places and expressions, and of what is made.
ghost use Rattle.std.specs.Prelude.{◌≡◌, IfOk};
ghost use Rattle.rpp_tree.specs.Views.{expression_of, lvalue_of, creation_of, optional_lvalue_of};

use rpp_tree::tree::{Expr, Made, Place};
use std::alloc::{AllocError, Global};

/// An equal place, with equal places in the source. The only error is that memory ran out.
#[cycle(copy_values)]
pub fn copy_place(alloc: Global, place: &Place) -> Result<Place, AllocError>
    ensures { IfOk result (λ copied. lvalue_of copied ≡ lvalue_of place.now) }
{
    let name = place.name.copy(alloc)?;
    match &place.index {
        None => Ok(Place { name, index: None }),
        Some(index) => {
            let index = copy_expr(alloc, index)?;
            Ok(Place {
                name,
                index: Some(Box::new(alloc, index)?),
            })
        }
    }
}

/// An equal expression, with equal places. The only error is that memory ran out.
#[cycle(copy_values)]
pub fn copy_expr(alloc: Global, expr: &Expr) -> Result<Expr, AllocError>
    ensures { IfOk result (λ copied. expression_of copied ≡ expression_of expr.now) }
{
    match expr {
        Expr::Number { at, word } => Ok(Expr::Number {
            at: *at,
            word: *word,
        }),
        Expr::Nil { at } => Ok(Expr::Nil { at: *at }),
        Expr::Read(place) => Ok(Expr::Read(copy_place(alloc, place)?)),
        Expr::Binary {
            at,
            op,
            left,
            right,
        } => {
            let left = Box::new(alloc, copy_expr(alloc, left)?)?;
            let right = Box::new(alloc, copy_expr(alloc, right)?)?;
            Ok(Expr::Binary {
                at: *at,
                op: *op,
                left,
                right,
            })
        }
    }
}

/// An equal creation, with equal places. The only error is that memory ran out.
pub fn copy_made(alloc: Global, made: &Made) -> Result<Made, AllocError>
    ensures { IfOk result (λ copied. creation_of copied ≡ creation_of made.now) }
{
    match made {
        Made::Object(class) => Ok(Made::Object(class.copy(alloc)?)),
        Made::Ints(length) => Ok(Made::Ints(copy_expr(alloc, length)?)),
        Made::Objects(class, length) => Ok(Made::Objects(
            class.copy(alloc)?,
            copy_expr(alloc, length)?,
        )),
    }
}

/// An equal receiver, with equal places. The only error is that memory ran out.
pub fn copy_receiver(alloc: Global, receiver: &Option<Place>) -> Result<Option<Place>, AllocError>
    ensures { IfOk result (λ copied. optional_lvalue_of copied ≡ optional_lvalue_of receiver.now) }
{
    match receiver {
        None => Ok(None),
        Some(place) => Ok(Some(copy_place(alloc, place)?)),
    }
}

/// Equal expressions. The only error is that memory ran out.
pub(crate) fn copy_exprs(
    alloc: Global,
    first: &Expr,
    second: &Expr,
) -> Result<(Expr, Expr), AllocError>
    ensures { IfOk result (λ copied. (expression_of copied.0 ≡ expression_of first.now)
        × (expression_of copied.1 ≡ expression_of second.now)) }
{
    let first = copy_expr(alloc, first)?;
    Ok((first, copy_expr(alloc, second)?))
}

/// Equal places. The only error is that memory ran out.
pub(crate) fn copy_places(
    alloc: Global,
    first: &Place,
    second: &Place,
) -> Result<(Place, Place), AllocError>
    ensures { IfOk result (λ copied. (lvalue_of copied.0 ≡ lvalue_of first.now)
        × (lvalue_of copied.1 ≡ lvalue_of second.now)) }
{
    let first = copy_place(alloc, first)?;
    Ok((first, copy_place(alloc, second)?))
}

/// An equal place and an equal expression. The only error is that memory ran out.
pub(crate) fn copy_sides(
    alloc: Global,
    place: &Place,
    value: &Expr,
) -> Result<(Place, Expr), AllocError>
    ensures { IfOk result (λ copied. (lvalue_of copied.0 ≡ lvalue_of place.now)
        × (expression_of copied.1 ≡ expression_of value.now)) }
{
    let place = copy_place(alloc, place)?;
    Ok((place, copy_expr(alloc, value)?))
}

/// An equal creation and an equal place. The only error is that memory ran out.
pub(crate) fn copy_created(
    alloc: Global,
    made: &Made,
    place: &Place,
) -> Result<(Made, Place), AllocError>
    ensures { IfOk result (λ copied. (creation_of copied.0 ≡ creation_of made.now)
        × (lvalue_of copied.1 ≡ lvalue_of place.now)) }
{
    let made = copy_made(alloc, made)?;
    Ok((made, copy_place(alloc, place)?))
}
