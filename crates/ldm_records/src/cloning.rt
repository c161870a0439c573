//! Equal copies of records.
ghost use Rattle.std.specs.Prelude.{◌≡◌, IfOk};

use crate::pieces::{Head, TwoIds};
use ldm_bytes::{Bytes, NoMemory};
use std::alloc::Global;

// Equal values, several at a time.

pub fn both_clone(first: &Bytes, second: &Bytes, alloc: Global) -> Result<(Bytes, Bytes), NoMemory>
    ensures { IfOk result (λ x. (x.0 ≡ first.now) × (x.1 ≡ second.now)) }
{
    if let Ok(first) = first.clone_in(alloc)
        && let Ok(second) = second.clone_in(alloc)
    {
        Ok((first, second))
    } else {
        Err(NoMemory)
    }
}

pub fn ends_clone(head: &Head, tail: &Bytes, alloc: Global) -> Result<(Head, Bytes), NoMemory>
    ensures { IfOk result (λ x. (x.0 ≡ head.now) × (x.1 ≡ tail.now)) }
{
    if let Ok(tail) = tail.clone_in(alloc)
        && let Ok(head) = head.clone_in(alloc)
    {
        Ok((head, tail))
    } else {
        Err(NoMemory)
    }
}

pub fn text_clone(text: &Option<Bytes>, alloc: Global) -> Result<Option<Bytes>, NoMemory>
    ensures { IfOk result (λ t. t ≡ text.now) }
{
    match text {
        Some(text) => text.clone_in(alloc).map(Some),
        None => Ok(None),
    }
}

pub fn ids_clone(ids: &Option<TwoIds>, alloc: Global) -> Result<Option<TwoIds>, NoMemory>
    ensures { IfOk result (λ t. t ≡ ids.now) }
{
    match ids {
        Some(ids) => ids.clone_in(alloc).map(Some),
        None => Ok(None),
    }
}

pub fn texts_clone(
    first: &Option<Bytes>,
    second: &Option<Bytes>,
    third: &Option<Bytes>,
    alloc: Global,
) -> Result<(Option<Bytes>, Option<Bytes>, Option<Bytes>), NoMemory>
    ensures { IfOk result (λ x. (x.0 ≡ first.now) × (x.1 ≡ second.now) × (x.2 ≡ third.now)) }
{
    if let Ok(first) = text_clone(first, alloc)
        && let Ok(second) = text_clone(second, alloc)
        && let Ok(third) = text_clone(third, alloc)
    {
        Ok((first, second, third))
    } else {
        Err(NoMemory)
    }
}
