//! Lists of ages under keys.

ghost use Rattle.std.specs.Prelude.{◌≡◌, slice_get, AllPairs, ◌<◌, OnOk, OnErr};
ghost use Rattle.causal_inbox.specs.Index.{with_age, without_age};
ghost use Rattle.causal_inbox.specs.Key.{is_among, keys_of};
ghost use Rattle.causal_inbox.specs.Lists.{AllRise, Changed, FrontAdded, ages_under, key_cmp};
ghost use Rattle.causal_inbox.specs.Keyed.{HasNoEmpty};
ghost use Rattle.fugue_ids.specs.Keyed.{IsReplaced};

use crate::key::{Key, main_key, named_key};
use crate::keyed_lists::{KeyedLists, list_under, push_under, remove_under};
use fugue_ids::{NoMemory, Op};
use origin_model::names_of;
use std::alloc::Global;

/// The ages under each key, in order.
pub(crate) type Lists = KeyedLists<Key, u64>;

/// The age under the key that stands after k others.
pub(crate) fn nth_age(lists: &Lists, key: &Key, k: usize) -> Option<u64>
    ensures { result ≡ slice_get (ages_under lists.now key.now) k }
{
    list_under(lists, key).get(k).copied()
}

/// The age at the end of the list under the key, once.
fn add_under(lists: &mut Lists, alloc: Global, key: Key, age: u64) -> Result<(), NoMemory>
    ensures ok { OnOk result (IsReplaced (ages_under lists.old) (ages_under lists.new) key
        (with_age (ages_under lists.old key) age)) }
    ensures err { OnErr result
        (IsReplaced (ages_under lists.old) (ages_under lists.new) key (ages_under lists.old key)) }
    ensures no_empty { HasNoEmpty key_cmp lists.old → HasNoEmpty key_cmp lists.new }
{
    let ages = list_under(lists, &key);
    if ages.last().copied() == Some(age) {
        return Ok(());
    }
    push_under(lists, alloc, key, age)
}

/// The age under one key less.
fn drop_under(lists: &mut Lists, key: Key, age: u64)
    requires { AllPairs ◌<◌ (ages_under lists.old key) }
    ensures dropped { IsReplaced (ages_under lists.old) (ages_under lists.new) key
        (without_age (ages_under lists.old key) age) }
    ensures no_empty { HasNoEmpty key_cmp lists.old → HasNoEmpty key_cmp lists.new }
{
    if let Ok(at) = list_under(lists, &key).binary_search(&age) {
        remove_under(lists, key, at);
    }
}

/// The age under each key of the operation, once. After an allocation failure it stands under some of them.
pub(crate) fn add_age(lists: &mut Lists, alloc: Global, op: &Op, age: u64) -> Result<(), NoMemory>
    ensures ok { OnOk result (Changed (is_among (keys_of op.now)) (λ ages. with_age ages age) (ages_under lists.old)
        (ages_under lists.new)) }
    ensures err { OnErr result (FrontAdded (keys_of op.now) age (ages_under lists.old) (ages_under lists.new)) }
    ensures no_empty { HasNoEmpty key_cmp lists.old → HasNoEmpty key_cmp lists.new }
{
    add_under(lists, alloc, main_key(op), age)?;
    let names = names_of(op);
    'names: for named in names.as_slice() {
        add_under(lists, alloc, named_key(named.0), age)?;
    }
    Ok(())
}

/// The age under no key of the operation.
pub(crate) fn drop_age(lists: &mut Lists, op: &Op, age: u64)
    requires { AllRise (ages_under lists.old) }
    ensures dropped { Changed (is_among (keys_of op.now)) (λ ages. without_age ages age) (ages_under lists.old)
        (ages_under lists.new) }
    ensures no_empty { HasNoEmpty key_cmp lists.old → HasNoEmpty key_cmp lists.new }
{
    drop_under(lists, main_key(op), age);
    let names = names_of(op);
    'names: for named in names.as_slice() {
        drop_under(lists, named_key(named.0), age);
    }
}
