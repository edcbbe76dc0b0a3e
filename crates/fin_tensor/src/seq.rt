ghost use Rattle.std.specs.Prelude.{◌≡◌, [], ◌∷◌, ◌++◌, ◌<◌, length, slice_get, slice_set, OnOk, OnErr, IfOk, Some};
ghost use Rattle.std.specs.Cmp.Lexicographic.{pointwise, lists_per, lists_equiv};
ghost use Rattle.std.specs.Hash as fed;
ghost use Rattle.std.specs.Hash.{items_Alike};

use crate::duplicate::Duplicate;
use std::alloc::{AllocError, Global};
use std::hash::{Hash, Hasher};
use std::marker::Model;

/// A list. Contracts see its items alone, so that a copy is equal to its source.
#[derive(Debug, Drop)]
pub struct Seq<T> {
    items: Vec<T>,
}

/// Numbers: extents, positions, coordinates.
pub type Nums = Seq<u64>;

/// Words.
pub type Vals = Seq<i64>;

/// The bytes of a name.
pub type Name = Seq<u8>;

impl<T> Model for Seq<T> {
    ghost use Rattle.std.specs.Prelude.{List};
    ghost use Rattle.std.specs.Coded.{coded_list};

    ghost Value = { List T };

    ghost coded = { coded_list T.code };

    ghost view = { λ it. it.items.items };
}

impl<T> Seq<T> {
    /// The empty list, which takes no memory and keeps the allocator.
    pub fn new(alloc: Global) -> Seq<T>
        ensures { result ≡ [] }
    {
        Seq {
            items: Vec::new(alloc),
        }
    }

    /// The number of items.
    pub fn len(&self) -> usize
        ensures { result ≡ length self.now }
    {
        self.items.len()
    }

    /// The item k.
    pub fn get(&self, k: usize) -> &T
        requires { k < length self.now }
        ensures { slice_get self.now k ≡ Some result.now }
    {
        &self.items[k]
    }

    /// The items.
    pub fn as_slice(&self) -> &[T]
        ensures { result.now ≡ self.now }
    {
        self.items.as_slice()
    }
}

impl<T: Drop> Seq<T> {
    /// Puts an item last. After want of memory the list is as before.
    pub fn push(&mut self, item: T) -> Result<(), AllocError>
        ensures ok { OnOk result (self.new ≡ self.old ++ item ∷ []) }
        ensures err { OnErr result (self.new ≡ self.old) }
    {
        self.items.push(item)?;
        Ok(())
    }

    /// Replaces the item k.
    pub fn set(&mut self, k: usize, item: T)
        requires { k < length self.old }
        ensures { self.new ≡ slice_set self.old k item }
    {
        self.items[k] = item;
    }
}

impl<T: Duplicate + Drop> Seq<T> {
    /// An equal list.
    pub fn copy(&self, alloc: Global) -> Result<Seq<T>, AllocError>
        ensures { IfOk result (λ c. c ≡ self.now) }
    {
        let mut copies = Seq::new(alloc);
        for item in self.as_slice() {
            let item = item.copy(alloc)?;
            copies.push(item)?;
        }
        Ok(copies)
    }
}

/// Item by item, as the lists that contracts see.
impl<T: PartialEq> PartialEq for Seq<T> {
    ghost eq = { pointwise T.eq };

    ghost laws = { lists_per T.laws };

    fn eq(&self, other: &Self) -> bool {
        self.items == other.items
    }
}

impl<T: Eq> Eq for Seq<T> {
    ghost laws = { lists_equiv T.Eq.laws };
}

impl<T: Hash> Hash for Seq<T> {
    ghost hash_input = { fed.slice T.hash_input };

    ghost respects_eq = { (items_Alike (record { fed = T.respects_eq })).fed };

    fn hash<H: Hasher>(&self, state: &mut H) {
        self.items.hash(state);
    }
}
