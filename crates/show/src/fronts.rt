// Fronts of lists: how many first entries are lent.
ghost use Rattle.show.specs.Fronts.{IsPrefixLen};

// So many entries, or all.
pub fn front_len<T>(n: usize, list: &[T]) -> usize
    ensures result { IsPrefixLen result list.now }
{
    n.min(list.len())
}

pub use crate::fronts::{front_len as bytes_of, front_len as numbers_of, front_len as values_of};
