// Names in their order.
ghost use Rattle.std.specs.Prelude.{◌≡◌, ◌≤◌, IfOk, IfSome, length, map};
ghost use Rattle.std.specs.List.Sorted.{IsPermutation};
ghost use Rattle.reh_census.specs.Striping.{range};
ghost use Rattle.reh_waves.specs.Orders as model;
ghost use Rattle.reh_waves.specs.Orders.{IsNameOrder};

use reh_census::Bookies;
use std::alloc::{AllocError, Global};

/// The bytes of the name of this number; none, where there is no such name.
fn name_at(names: &[String], number: u16) -> &[u8]
    ensures { result.now ≡ model.name_at names.now number }
{
    match names.get(number as usize) {
        Some(name) => name.as_bytes(),
        None => &[],
    }
}

/// The numbers of the names, from 0 on.
fn numbers_of(alloc: Global, count: u16) -> Result<Vec<u16>, AllocError>
    ensures { IfOk result (λ numbers. numbers.items ≡ range 0 count) }
{
    let mut numbers = Vec::new(alloc);
    for number in 0..count {
        numbers.push(number)?;
    }
    Ok(numbers)
}

/// The numbers of the names in the order of the names, byte by byte; equal names in the order of their numbers.
pub fn order_by_name(alloc: Global, names: &[String]) -> Result<Vec<u16>, AllocError>
    requires { length names.now ≤ 4096 }
    ensures { IfOk result (λ order. IsNameOrder names.now order.items) }
{
    let mut order = numbers_of(alloc, names.len() as u16)?;
    order.sort_by(|number, other| name_at(names, *number).cmp(name_at(names, *other)))?;
    Ok(order)
}

/// The order of these bookies by their names; none where there aren't as many names as bookies.
pub fn order_of(
    alloc: Global,
    names: &[String],
    bookies: &Bookies,
) -> Result<Option<Vec<u16>>, AllocError>
    ensures order { IfOk result (λ order. IfSome order (λ order. IsNameOrder names.now order.items)) }
    ensures all { IfOk result (λ order. IfSome order
        (λ order. IsPermutation (range 0 (length bookies.now)) order.items)) }
{
    if names.len() != bookies.count() as usize {
        return Ok(None);
    }
    let order = order_by_name(alloc, names)?;
    Ok(Some(order))
}
