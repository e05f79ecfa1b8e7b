//! The numbers of events that are inserted, and of messages that are sent.
ghost use Rattle.std.specs.Prelude.{◌≡◌, ◌+◌, ◌≤◌, ◌^◌, [], IfOk, OnOk};
ghost use Rattle.std.specs.List.{range_with_len};

use st_events::PlainList;
use std::alloc::{AllocError, Global};

/// Notes so many numbers in a list, from the first one on. Where there are none, it takes no memory.
pub(crate) fn note_numbers(
    alloc: Global,
    first: u64,
    count: usize,
    noted: &mut PlainList<u64>,
) -> Result<(), AllocError>
    requires within { first + count ≤ 2 ^ 63 }
    requires empty { noted.old ≡ [] }
    ensures { OnOk result (noted.new ≡ range_with_len first count) }
{
    if count > 0 {
        *noted = numbers_from(alloc, first, count)?;
    }
    Ok(())
}

/// So many numbers, from the first one on.
#[inline(never)]
fn numbers_from(alloc: Global, first: u64, count: usize) -> Result<PlainList<u64>, AllocError>
    requires { first + count ≤ 2 ^ 63 }
    ensures { IfOk result (λ numbers. numbers ≡ range_with_len first count) }
{
    let mut numbers = Vec::with_capacity(alloc, count)?;
    for place in 0..count {
        numbers.push_reserved(first + place as u64);
    }
    Ok(PlainList::from(numbers))
}
