// What is live: orders, or contracts.
ghost use Rattle.std.specs.Prelude.{◌≡◌, ℕ, ◌<◌, ◌≤◌, [], ◌∷◌, ◌++◌, filter, Some, IfOk, IfSome, vec_len, vec_capacity, nat_le, slice_get, slice_set};
ghost use Rattle.std.specs.List.{Contains};
ghost use Rattle.rules.specs.Checks.{most_live};
ghost use Rattle.rules.specs.Terms.{found};
ghost use Rattle.section.specs.Numbers.{IndexOf, Rising, other};

use rules::{Contract, LiveOrder, MAX_LIVE};
use std::alloc::{AllocError, Global};

/// What has a number of its own.
pub(crate) trait Numbered {
    ghost number: { Self → ℕ };

    fn number(&self) -> u64
        ensures { result ≡ number self.now };
}

impl Numbered for LiveOrder {
    ghost number = { λ o. o.order.number };

    fn number(&self) -> u64 {
        self.order.number
    }
}

impl Numbered for Contract {
    ghost number = { λ k. k.trade.contract };

    fn number(&self) -> u64 {
        self.trade.contract
    }
}

/// What is live, in the rising order of its numbers, and the last accepted number. It has room for all that can be live
/// from the start, so that no call can want memory; a map would take memory for each that comes.
// That the numbers rise is no ghost field but an invariant of Section, and asked of callers here: a struct that owns
// memory cannot speak of its parameter's trait.
#[derive(Drop)]
pub(crate) struct Live<T> {
    pub(crate) items: Vec<T>,
    pub(crate) last: u64,
    ghost few: { vec_len items ≤ 256 },
    ghost room: { 256 ≤ vec_capacity items },
}

impl<T: Numbered + Copy> Live<T> {
    /// Nothing is live, and no number is accepted. The memory is taken here.
    pub(crate) fn open(heap: Global) -> Result<Self, AllocError>
        ensures { IfOk result (λ v. (v.items.items ≡ []) × (v.last ≡ 0)) }
    {
        let items = Vec::with_capacity(heap, MAX_LIVE)?;
        Ok(Live { items, last: 0 })
    }

    /// The index of what is live of that number.
    pub(crate) fn index_of(&self, number: u64) -> Option<usize>
        requires { Rising T.number self.now.items.items self.now.last }
        ensures { IndexOf T.number number self.now.items.items result }
    {
        self.items
            .binary_search_by_key(&number, |item| item.number())
            .ok()
    }

    /// The same, where it is likely to be at an index.
    pub(crate) fn index_near(&self, at: usize, number: u64) -> Option<usize>
        requires { Rising T.number self.now.items.items self.now.last }
        ensures { IndexOf T.number number self.now.items.items result }
    {
        if at < self.items.len() && self.items[at].number() == number {
            return Some(at);
        }
        self.index_of(number)
    }

    /// What is live of that number.
    pub(crate) fn find(&self, number: u64) -> Option<T>
        requires { Rising T.number self.now.items.items self.now.last }
        ensures value { result ≡ found T.number number self.now.items.items }
        ensures listed { IfSome result
            (λ x. (T.number x ≡ number) × Contains self.now.items.items x) }
    {
        let at = self.index_of(number)?;
        Some(self.items[at])
    }

    /// Whether a number is not above the last accepted.
    pub(crate) fn is_spent(&self, number: u64) -> bool
        ensures { result ≡ nat_le number self.now.last }
    {
        number <= self.last
    }

    /// Whether no more can be live.
    pub(crate) fn is_full(&self) -> bool
        ensures { result ≡ nat_le most_live (vec_len self.now.items) }
    {
        self.items.len() >= MAX_LIVE
    }

    /// Takes one more, and its number as the last accepted.
    pub(crate) fn push(&mut self, item: T)
        requires { vec_len self.old.items < 256 }
        ensures items { self.new.items.items ≡ self.old.items.items ++ item ∷ [] }
        ensures last { self.new.last ≡ T.number item }
    {
        self.items.push_reserved(item);
        self.last = item.number();
    }

    /// Puts another of the same number in the place of what is live at an index.
    pub(crate) fn replace(&mut self, at: usize, item: T)
        requires { at < vec_len self.old.items }
        ensures items { self.new.items.items ≡ slice_set self.old.items.items at item }
        ensures last { self.new.last ≡ self.old.last }
    {
        self.items[at] = item;
    }

    /// Ends what is live at an index, and gives it.
    pub(crate) fn end(&mut self, at: usize) -> T
        requires rising { Rising T.number self.old.items.items self.old.last }
        requires inside { at < vec_len self.old.items }
        ensures value { slice_get self.old.items.items at ≡ Some result }
        ensures items { self.new.items.items
            ≡ filter (other T.number (T.number result)) self.old.items.items }
        ensures last { self.new.last ≡ self.old.last }
    {
        self.items.remove(at)
    }
}
