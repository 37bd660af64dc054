//! A `Vec` that contracts see as the list of its elements.

ghost use Rattle.std.specs.Prelude.{◌≡◌, List, [], ◌∷◌, ◌++◌, ◌<◌, length, map, reverse as reversed, take, replicate, slice_get, slice_set, ◌↔◌, IsTrue, MatchOption, Some, IfOk, OnOk, OnErr, OnSome};
ghost use Rattle.std.specs.Option.{option_copied};

use crate::Memory;
use std::alloc::Global;
use std::marker::Model;
use std::mem;

/// A `Vec` that contracts see as the list of its elements, so that two are equal where their elements are.
#[derive(Debug, Drop)]
pub struct Items<T> {
    items: Vec<T>,
}

impl<T> Model for Items<T> {
    ghost use Rattle.std.specs.Prelude.{List};
    ghost use Rattle.std.specs.Coded.{coded_list};

    ghost Value = { List T };

    ghost coded = { coded_list T.code };

    ghost view = { λ it. it.items.items };
}

impl<T> Items<T> {
    /// The empty list. It takes no memory.
    pub fn new(alloc: Global) -> Items<T>
        ensures { result ≡ [] }
    {
        Items {
            items: Vec::new(alloc),
        }
    }

    /// The elements of a `Vec`, without taking memory.
    pub fn from_vec(items: Vec<T>) -> Items<T>
        ensures { result ≡ items.items }
    {
        Items { items }
    }

    /// The elements as a `Vec`, without taking memory.
    pub fn into_vec(self) -> Vec<T>
        ensures { result.items ≡ self }
    {
        let Items { items } = self;
        items
    }

    pub fn as_slice(&self) -> &[T]
        ensures { result.now ≡ self.now }
    {
        self.items.as_slice()
    }

    pub fn len(&self) -> usize
        ensures { result ≡ length self.now }
    {
        self.items.len()
    }

    pub fn is_empty(&self) -> bool
        ensures { IsTrue result ↔ (self.now ≡ []) }
    {
        self.items.is_empty()
    }

    pub fn get(&self, at: usize) -> Option<&T>
        ensures value { option_copied result ≡ slice_get self.now at }
        ensures within { OnSome result (at < length self.now) }
    {
        self.items.get(at)
    }

    pub fn last(&self) -> Option<&T>
        ensures { MatchOption result (self.now ≡ []) (λ last. (front : List T) × (self.now ≡ front ++ last.now ∷ [])) }
    {
        self.items.last()
    }

    pub fn pop(&mut self) -> Option<T>
        ensures { MatchOption result ((self.old ≡ []) × (self.new ≡ [])) (λ last. self.old ≡ self.new ++ last ∷ []) }
    {
        self.items.pop()
    }

    pub fn reverse(&mut self)
        ensures { self.new ≡ reversed self.old }
    {
        self.items.reverse();
    }

    /// Puts an item in the place of another, which it gives back.
    pub fn replace(&mut self, at: usize, item: T) -> T
        requires { at < length self.old }
        ensures was { slice_get self.old at ≡ Some result }
        ensures is { self.new ≡ slice_set self.old at item }
    {
        mem::replace(&mut self.items[at], item)
    }

    /// Gives back the memory that holds no item.
    pub fn fit(&mut self)
        ensures { self.new ≡ self.old }
    {
        self.items.shrink_to_fit();
    }
}

impl<T: Copy> Items<T> {
    /// A list of these items.
    pub fn from_slice(alloc: Global, items: &[T]) -> Result<Items<T>, Memory>
        ensures { IfOk result (λ all. all ≡ items.now) }
    {
        Ok(Items {
            items: Vec::from_slice(alloc, items)?,
        })
    }

    /// A list of `count` times the same item.
    pub fn filled(alloc: Global, item: T, count: usize) -> Result<Items<T>, Memory>
        ensures { IfOk result (λ all. all ≡ replicate count item) }
    {
        let mut items = Vec::new(alloc);
        items.resize(count, item)?;
        Ok(Items { items })
    }

    pub fn copy(&self, alloc: Global) -> Result<Items<T>, Memory>
        ensures { IfOk result (λ all. all ≡ self.now) }
    {
        Items::from_slice(alloc, self.items.as_slice())
    }
}

impl<T: Drop> Items<T> {
    /// A list of one item, in the memory of that item alone.
    pub fn only(alloc: Global, item: T) -> Result<Items<T>, Memory>
        ensures { IfOk result (λ all. all ≡ item ∷ []) }
    {
        let mut items = Vec::with_capacity(alloc, 1)?;
        items.push(item)?;
        Ok(Items { items })
    }

    /// Adds an element at the end.
    pub fn push(&mut self, item: T) -> Result<(), Memory>
        ensures ok { OnOk result (self.new ≡ self.old ++ item ∷ []) }
        ensures err { OnErr result (self.new ≡ self.old) }
    {
        self.items.push(item)?;
        Ok(())
    }

    /// Moves the elements of `more` to the end.
    pub fn append(&mut self, more: Items<T>) -> Result<(), Memory>
        ensures { OnOk result (self.new ≡ self.old ++ more) }
    {
        let Items { mut items } = more;
        self.items.append(&mut items)?;
        Ok(())
    }

    pub fn set(&mut self, at: usize, item: T)
        requires { at < length self.old }
        ensures { self.new ≡ slice_set self.old at item }
    {
        self.items[at] = item;
    }

    /// Keeps the first `len` items.
    pub fn truncate(&mut self, len: usize)
        ensures { self.new ≡ take len self.old }
    {
        self.items.truncate(len);
    }

    pub fn clear(&mut self)
        ensures { self.new ≡ [] }
    {
        self.items.clear();
    }
}
