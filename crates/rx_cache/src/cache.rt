//! What a cache of answers does. A clause sees the cache as its entries, rows with what was
//! answered of them, the most recently used first, and its capacity.
ghost use Rattle.std.specs.Prelude.{◌≡◌, OnErr, OnOk};
ghost use Rattle.rx_cache.specs.Cache.{AfterRecall, IsKept, NoneHas};

use crate::cached_answer::CachedAnswer;
use lru::LruCache;
use rx_cert::Cert;
use rx_fm::FmEnd;
use rx_plain::NoMemory;
use rx_row::Constraint;
use std::alloc::Global;

/// The answer of the entry that has the rows, once more; that entry goes to the front. None where
/// no entry has them.
pub(crate) fn recall(
    alloc: Global,
    cache: &mut LruCache<Constraint, CachedAnswer>,
    rows: &Constraint,
) -> Option<Result<Option<Cert>, FmEnd>>
    ensures { AfterRecall rows.now cache.old cache.new result }
{
    if !cache.promote(rows) {
        return None;
    }
    let (_, cached) = cache.peek_mru()?;
    Some(cached.repeat(alloc))
}

/// Inserts the answer as that of the rows, which no entry has, in front; from a full cache the last
/// entry goes. Where there is no memory for that, and for the answer that memory ran out, the
/// entries stay as they were.
pub(crate) fn keep(
    alloc: Global,
    cache: &mut LruCache<Constraint, CachedAnswer>,
    rows: &Constraint,
    answer: &Result<Option<Cert>, FmEnd>,
) -> Result<(), NoMemory>
    requires { NoneHas rows.now cache.old.entries }
    ensures ok { OnOk result (IsKept rows.now cache.old answer.now cache.new) }
    ensures err { OnErr result (cache.new ≡ cache.old) }
{
    let copy = rows.try_clone(alloc)?;
    let cached = CachedAnswer::from_answer(alloc, answer)?;
    let put = cache.put(copy, cached)?;
    drop(put);
    Ok(())
}
