//! Maps that have several values under a key.

ghost use Rattle.std.specs.Prelude.{◌≡◌, ◌++◌, ◌∷◌, [], IfOk, OnOk, cond};
ghost use Rattle.std.specs.Mem.{FitsInMemory};
ghost use Rattle.std.specs.Ordering.{is_eq};
ghost use Rattle.std.proofs.lemmas.Map.Lookups.{CmpEqualImpliesEq};
ghost use Rattle.bor_records.specs.Links.Values.{IsNoted, under, values_in};

use crate::links::node::Node;
use std::alloc::{AllocError, Global};
use std::collections::BTreeMap;
use std::slice;

/// The values under a key, in the order in which they came. Most keys have one, which stands in the
/// map itself: to read it takes no look at other memory.
#[derive(Drop)]
pub enum Values<T> {
    /// One value.
    One(T),
    /// All values, where there were more.
    More(Vec<T>),
}

impl<T: Drop> Values<T> {
    // All of them. A slice asks for a type whose values fit in memory, as all types here are.
    fn as_slice(&self) -> &[T]
        requires { FitsInMemory T.row }
        ensures { result.now ≡ values_in self.now }
    {
        match self {
            Values::One(value) => slice::from_ref(value),
            Values::More(values) => values.as_slice(),
        }
    }

    // These values and one behind them.
    fn with(self, alloc: Global, value: T) -> Result<Values<T>, AllocError>
        ensures { IfOk result (λ values. values_in values ≡ values_in self ++ value ∷ []) }
    {
        match self {
            Values::One(first) => {
                let mut values = Vec::with_capacity(alloc, 2)?;
                values.push(first)?;
                values.push(value)?;
                Ok(Values::More(values))
            }
            Values::More(mut values) => {
                values.push(value)?;
                Ok(Values::More(values))
            }
        }
    }

    /// Puts them at the end of a list.
    pub fn move_to(self, list: &mut Vec<T>) -> Result<(), AllocError>
        ensures { OnOk result (list.new.items ≡ list.old.items ++ values_in self) }
    {
        match self {
            Values::One(value) => Ok(list.push(value)?),
            Values::More(mut values) => list.append(&mut values),
        }
    }
}

/// Puts a value after those under a key.
pub fn put<K: Ord + Drop, V: Drop>(
    alloc: Global,
    map: &mut BTreeMap<K, Values<V>>,
    key: K,
    value: V,
) -> Result<(), AllocError>
    ensures at { OnOk result (under K.cmp map.new key ≡ under K.cmp map.old key ++ value ∷ []) }
    ensures each { OnOk result ((q : K) → under K.cmp map.new q
        ≡ cond (is_eq (K.cmp key q)) (under K.cmp map.old key ++ value ∷ [])
        (under K.cmp map.old q)) }
{
    let values = match map.remove(&key) {
        Some(values) => values.with(alloc, value)?,
        None => Values::One(value),
    };
    map.insert(key, values)?;
    Ok(())
}

/// Puts a record under each of these keys.
pub fn note<K: Ord + Drop>(
    alloc: Global,
    map: &mut BTreeMap<K, Values<Node>>,
    mut keys: Vec<K>,
    node: &Node,
) -> Result<(), AllocError>
    ensures { OnOk result (CmpEqualImpliesEq K.cmp
        → IsNoted keys.items node.now (under K.cmp map.old) (under K.cmp map.new)) }
{
    while let Some(key) = keys.pop() {
        put(alloc, map, key, node.copy(alloc)?)?;
    }
    Ok(())
}

/// The values under a key, in the order in which they came.
pub fn under<'a, K: Ord, V: Drop>(map: &'a BTreeMap<K, Values<V>>, key: &K) -> &'a [V]
    requires { FitsInMemory V.row }
    ensures { result.now ≡ under K.cmp map.now key.now }
{
    match map.get(key) {
        Some(values) => values.as_slice(),
        None => &[],
    }
}
