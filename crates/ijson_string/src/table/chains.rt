//! The chains of a table: each bucket links to its newest string, and each string to the next older
//! string.
ghost use Rattle.std.specs.Prelude.{◌≡◌, ◌*◌, ◌<◌, ◌≤◌, ◌^◌, length, get_or, IfSome, IfNone, OnOk, OnErr, true, false};
ghost use Rattle.ijson_string.specs.private.Chains.{bucket_of};
ghost use Rattle.ijson_string.specs.private.Filters.{filter_of, passes};
ghost use Rattle.ijson_string.specs.private.IsTable.{hashes_of, filters_of, heads_of, IsEntered, IsTable};
ghost use Rattle.ijson_string.specs.private.Table.{buckets_for};

use std::alloc::AllocError;
use std::mem::size_of;

/// The minimum number of buckets of a table that contains a string.
const MIN_BUCKETS: usize = 16;

/// The average number of strings per bucket at which the buckets double.
const TEXTS_PER_BUCKET: usize = 4;

/// The hash of a string, and a link to the next older string in its bucket.
#[derive(Clone, Copy, Drop)]
pub(crate) struct Link {
    pub(crate) hash: u32,
    /// The index of a link plus 1, or 0 at the end of the chain.
    pub(crate) next: u32,
}

const _: () = prove!(size_of::<Link>() == 8);

/// A bucket: the head of its chain, and a filter of the hashes in it.
///
/// Both are in one word, so that the lookup of an absent string waits for memory only once.
#[derive(Clone, Copy, Drop)]
pub(crate) struct Bucket {
    /// The index of a link plus 1, or 0 if the chain is empty.
    head: u32,
    /// A Bloom filter with up to three bits for each hash.
    filter: u32,
}

const _: () = prove!(size_of::<Bucket>() == 8);

/// A bucket without strings.
pub(crate) const EMPTY: Bucket = Bucket { head: 0, filter: 0 };

/// Doubles the buckets and rebuilds the chains if there are four strings per bucket. Does not hash
/// or read any string.
///
/// # Errors
///
/// Fails if an allocation fails. Links and buckets are then unchanged.
pub(crate) fn grow(links: &mut Vec<Link>, buckets: &mut Vec<Bucket>) -> Result<(), AllocError>
    requires table { IsTable links.old.items buckets.old.items }
    requires few { length links.old.items < 2 ^ 32 }
    ensures table { IsTable links.new.items buckets.new.items }
    ensures kept { hashes_of links.new.items ≡ hashes_of links.old.items }
    ensures capacity { links.new.cap ≡ links.old.cap }
    ensures room { OnOk result (length links.new.items < 4 * length buckets.new.items) }
    ensures buckets { OnOk result (length buckets.new.items
        ≡ buckets_for (length links.old.items) (length buckets.old.items)) }
    ensures refused { OnErr result ((links.new ≡ links.old) × (buckets.new.items ≡ buckets.old.items)) }
{
    if links.len() < TEXTS_PER_BUCKET * buckets.len() {
        return Ok(());
    }
    let count = (2 * buckets.len()).max(MIN_BUCKETS);
    buckets.resize(count, EMPTY)?;
    buckets.fill(EMPTY);
    for position in 0..links.len() {
        let link = &mut links[position];
        link.next = prepend(buckets, link.hash, position as u32 + 1);
    }
    Ok(())
}
/// Makes the string at index `head - 1` the head of its chain, and returns the old head.
///
/// Adds `hash` to the filter of the bucket.
pub(crate) fn prepend(buckets: &mut Vec<Bucket>, hash: u32, head: u32) -> u32
    requires some { 0 < length buckets.old.items }
    requires bounded { length buckets.old.items ≤ 2 ^ 32 }
    ensures entered { IsEntered buckets.old.items buckets.new.items hash head }
    ensures next { result ≡ get_or (heads_of buckets.old.items) (bucket_of (length buckets.old.items) hash) 0 }
{
    let at = bucket_index(hash, buckets.len());
    let before = buckets[at];
    buckets[at] = Bucket {
        head,
        filter: before.filter | filter_bits(hash),
    };
    before.head
}

/// Returns the head of the chain of `hash`, or `None` if the filter of its bucket rules `hash` out.
///
/// Only the filter is tested, because the branch predictor cannot predict whether a chain is empty.
/// Not inlined, because in `find` the compiler would test first whether the chain is empty.
#[inline(never)]
pub(crate) fn head_for(buckets: &[Bucket], hash: u32) -> Option<u32>
    requires some { 0 < length buckets.now }
    requires bounded { length buckets.now ≤ 2 ^ 32 }
    ensures inside { bucket_of (length buckets.now) hash < length buckets.now }
    ensures head { IfSome result (λ head. head
        ≡ get_or (heads_of buckets.now) (bucket_of (length buckets.now) hash) 0) }
    ensures passes { IfSome result (λ _. passes (filters_of buckets.now) hash ≡ true) }
    ensures nowhere { IfNone result (passes (filters_of buckets.now) hash ≡ false) }
{
    let Bucket { head, filter } = buckets[bucket_index(hash, buckets.len())];
    if filter | filter_bits(hash) != filter {
        return None;
    }
    Some(head)
}

/// Returns the bucket of `hash` among `count`, by a multiplication instead of a division.
///
/// When the buckets double, each bucket splits into two adjacent buckets.
#[tactic(auto, unfolding(crate::specs::private::Chains::bucket_of))]
fn bucket_index(hash: u32, count: usize) -> usize
    requires some { 0 < count }
    requires bounded { count ≤ 2 ^ 32 }
    ensures bucket { result ≡ bucket_of count hash }
    ensures within { result < count }
{
    ((u64::from(hash) * count as u64) >> 32) as usize
}

/// Returns the mask of up to three bits that `hash` sets in the filter of its bucket.
///
/// The lower 15 bits of the hash select these bits, and its upper bits select the bucket.
#[tactic(auto, unfolding(crate::specs::private::Filters::filter_of))]
fn filter_bits(hash: u32) -> u32
    ensures { result ≡ filter_of hash }
{
    1 << (hash % 32) | 1 << (hash / 32 % 32) | 1 << (hash / 1024 % 32)
}
