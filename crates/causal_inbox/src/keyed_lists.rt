//! Lists under keys, in an ordered map.

ghost use Rattle.std.specs.Prelude.{◌≡◌, ◌<◌, ◌++◌, ◌∷◌, [], false, length, true, IfSome, OnErr, OnOk};
ghost use Rattle.std.specs.BTreeMap.{get};
ghost use Rattle.std.specs.Ordering.{is_eq};
ghost use Rattle.std.specs.List.{remove};
ghost use Rattle.fugue_ids.specs.Keyed.{IsReplacedBy};
ghost use Rattle.causal_inbox.specs.Keyed.{HasNoEmpty, list_in};

use crate::Queue;
use fugue_ids::NoMemory;
use std::alloc::Global;
use std::collections::BTreeMap;

/// A list under each key. A key whose list is empty has no entry, where all was put in by these functions.
pub(crate) type KeyedLists<K, V> = BTreeMap<K, Queue<V>>;

/// The list under the key.
pub(crate) fn list_under<'a, K: Ord, V: Drop>(lists: &'a KeyedLists<K, V>, key: &K) -> &'a [V]
    ensures { result.now ≡ list_in K.cmp lists.now key.now }
{
    match lists.get(key) {
        Some(list) => list.as_slice(),
        None => &[],
    }
}

/// One value more under the key, after the others. After an allocation failure each list is as before.
pub(crate) fn push_under<K: Ord + Copy + Drop, V: Copy + Drop>(
    lists: &mut KeyedLists<K, V>,
    alloc: Global,
    key: K,
    value: V,
) -> Result<(), NoMemory>
    ensures ok { OnOk result (IsReplacedBy K.cmp (list_in K.cmp lists.old) (list_in K.cmp lists.new) key
        (list_in K.cmp lists.old key ++ value ∷ [])) }
    ensures err { OnErr result
        (IsReplacedBy K.cmp (list_in K.cmp lists.old) (list_in K.cmp lists.new) key (list_in K.cmp lists.old key)) }
    ensures no_empty { HasNoEmpty K.cmp lists.old → HasNoEmpty K.cmp lists.new }
{
    match lists.get_mut(&key) {
        Some(list) => list.push(value)?,
        None => {
            let mut list = Queue::new(alloc);
            list.push(value)?;
            lists.insert(key, list)?;
        }
    }
    Ok(())
}

/// One value less under the key. Returns whether none is left.
fn take_under<K: Ord + Copy + Drop, V: Copy + Drop>(
    lists: &mut KeyedLists<K, V>,
    key: &K,
    at: usize,
) -> bool
    requires { at < length (list_in K.cmp lists.old key.now) }
    ensures taken { IsReplacedBy K.cmp (list_in K.cmp lists.old) (list_in K.cmp lists.new) key.now
        (remove (list_in K.cmp lists.old key.now) at) }
    ensures empty { result ≡ true → list_in K.cmp lists.new key.now ≡ [] }
    ensures others { HasNoEmpty K.cmp lists.old → (k : K) → is_eq (K.cmp key.now k) ≡ false
        → IfSome (get K.cmp lists.new k) (λ list. 0 < length list) }
    ensures left { HasNoEmpty K.cmp lists.old → result ≡ false → HasNoEmpty K.cmp lists.new }
{
    match lists.get_mut(key) {
        Some(list) => {
            let value = list.as_slice()[at];
            list.remove(at, value);
            list.as_slice().is_empty()
        }
        None => false,
    }
}

/// One value less under the key. The last one takes the key's entry with it.
pub(crate) fn remove_under<K: Ord + Copy + Drop, V: Copy + Drop>(
    lists: &mut KeyedLists<K, V>,
    key: K,
    at: usize,
)
    requires { at < length (list_in K.cmp lists.old key) }
    ensures taken { IsReplacedBy K.cmp (list_in K.cmp lists.old) (list_in K.cmp lists.new) key
        (remove (list_in K.cmp lists.old key) at) }
    ensures no_empty { HasNoEmpty K.cmp lists.old → HasNoEmpty K.cmp lists.new }
{
    if take_under(lists, &key, at) {
        lists.remove(&key);
    }
}
