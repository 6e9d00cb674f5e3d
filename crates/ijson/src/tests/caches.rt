//! Functions that create caches and interned strings.

use crate::string::{IString, StringCache};
use std::alloc::{AllocError, Global};
use std::hash::{BuildHasher, BuildHasherDefault, FoldHasher};
use std::process::Abort;

pub type Cache = StringCache<BuildHasherDefault<FoldHasher>>;

pub fn empty_cache(alloc: Global) -> Cache {
    StringCache::new(alloc, BuildHasherDefault::<FoldHasher>::new())
}

/// Returns the string `letters`, interned in a new cache.
pub fn key(rt: &impl Abort, alloc: Global, letters: &str) -> IString {
    let mut cache = empty_cache(alloc);
    let text = granted!(rt; IString::intern(&mut cache, letters));
    drop(cache);
    text
}

/// Returns the string `text`, interned in `cache`.
pub fn interned<S: BuildHasher>(
    rt: &impl Abort,
    cache: &mut StringCache<S>,
    text: &str,
) -> IString {
    granted!(rt; IString::intern(cache, text))
}
