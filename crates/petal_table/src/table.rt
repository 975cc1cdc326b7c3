//! A table over std's ordered map.

ghost use Rattle.std.specs.Prelude.{◌≡◌, [], length, IfErr, IsSome, OnOk, OnErr};
ghost use Rattle.std.specs.Option.{option_copied};
ghost use Rattle.std.specs.List.Sorted.{IsStrictlySortedBy};
ghost use Rattle.std.specs.Map.{keys_of};
ghost use Rattle.std.specs.Map.Calls.{CallableOnEachPair, CalledAtPair, RetainsPairs, TakesPair};
ghost use Rattle.petal_table.specs.Table.{at, put, without};

use petal_base::NoMemory;
use std::alloc::{AllocError, Global};
use std::collections::BTreeMap;
use std::collections::btree_map::Keys;
use std::marker::Model;

/// At most one value at each key. Contracts see the rows, each a key and its value, by rising key.
#[derive(Drop)]
pub struct Table<K: Ord, V> {
    rows: BTreeMap<K, V>,
}

impl<K: Ord, V> Model for Table<K, V> {
    ghost use Rattle.std.specs.Prelude.{List};

    ghost Value = { List (K × V) };

    ghost view = { λ t. t.rows.entries };
}

impl<K: Ord + Drop, V: Drop> Table<K, V> {
    /// No rows. It takes no memory.
    pub fn new(alloc: Global) -> Table<K, V>
        ensures { result ≡ [] }
    {
        Table {
            rows: BTreeMap::new(alloc),
        }
    }

    /// What stands at a key.
    #[tactic(auto, unfolding(crate::specs::Table::at))]
    pub fn get(&self, key: &K) -> Option<&V>
        ensures { option_copied result ≡ at K.cmp self.now key.now }
    {
        self.rows.get(key)
    }

    /// The value stands at the key from now on, in the place of what stood there.
    #[tactic(auto, unfolding(crate::specs::Table::put))]
    pub fn put(&mut self, key: K, value: V) -> Result<(), NoMemory>
        ensures ok { OnOk result (self.new ≡ put K.cmp self.old key value) }
        ensures err { OnErr result (self.new ≡ self.old) }
    {
        let _ = self.rows.insert(key, value)?;
        Ok(())
    }

    /// As `put`, and gives the value back where there is no memory.
    #[tactic(auto, unfolding(crate::specs::Table::put))]
    pub fn insert(&mut self, key: K, value: V) -> Result<(), V>
        ensures ok { OnOk result (self.new ≡ put K.cmp self.old key value) }
        ensures err { OnErr result (self.new ≡ self.old) }
        ensures back { IfErr result (λ other. other ≡ value) }
    {
        match self.rows.insert(key, value) {
            Ok(_) => Ok(()),
            Err(failed) => Err(failed.value.1),
        }
    }

    /// The value stands at a key at which another one stood. It takes no memory.
    #[tactic(auto, unfolding(crate::specs::Table::at, crate::specs::Table::put))]
    pub fn replace(&mut self, key: K, value: V)
        requires { IsSome (at K.cmp self.old key) }
        ensures { self.new ≡ put K.cmp self.old key value }
    {
        match self.rows.insert(key, value) {
            Ok(_) | Err(_) => {}
        }
    }

    /// Nothing stands at the key from now on. Gives what stood there.
    #[tactic(auto, unfolding(crate::specs::Table::at))]
    pub fn remove(&mut self, key: &K) -> Option<V>
        ensures value { result ≡ at K.cmp self.old key.now }
        ensures rest { self.new ≡ without K.cmp self.old key.now }
        ensures sorted { IsStrictlySortedBy K.cmp (keys_of self.old) }
    {
        // What `len` promises tells the proof that the rows rise by key.
        let _ = self.rows.len();
        self.rows.remove(key)
    }

    /// The keys in their order.
    pub fn keys(&self) -> Keys<'_, K, V>
        ensures rest { result ≡ keys_of self.now }
        ensures sorted { IsStrictlySortedBy K.cmp (keys_of self.now) }
    {
        self.rows.keys()
    }

    /// The rows stay that the test takes, which changes none. It takes no memory.
    pub fn retain<F: FnMut(&K, &mut V) -> bool>(&mut self, keep: F)
        requires { CallableOnEachPair (CalledAtPair F.FnMut) (TakesPair F.FnMut) keep self.old }
        ensures filtered { RetainsPairs (CalledAtPair F.FnMut) keep self.old self.new }
        ensures sorted { IsStrictlySortedBy K.cmp (keys_of self.old) }
    {
        self.rows.retain(keep);
    }

    /// How many rows there are.
    pub fn len(&self) -> usize
        ensures value { result ≡ length self.now }
        ensures sorted { IsStrictlySortedBy K.cmp (keys_of self.now) }
    {
        self.rows.len()
    }
}

impl<K: Ord + Drop + Clone, V: Drop + Clone> Clone for Table<K, V> {
    ghost use Rattle.std.specs.List.{AllZip};

    ghost is_clone = { AllZip (λ p q. K.is_clone p.0 q.0 × V.is_clone p.1 q.1) };

    fn clone(&self) -> Result<Self, AllocError> {
        Ok(Table {
            rows: self.rows.clone()?,
        })
    }
}
