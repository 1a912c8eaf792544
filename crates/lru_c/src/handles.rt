//! The handles by which C holds caches and chains.
ghost use Rattle.std.specs.Borrow.{sem};
ghost use Rattle.std.specs.Prelude.{◌≡◌, ◌==◌, Option, Some, is_some, true};
ghost use Rattle.lru_c.specs.Pointers.{HeldCache, HeldChain, cache_coded, cache_owns, chain_coded, chain_owns};

use crate::any_cache::AnyCache;
use crate::at::At;
use crate::chain::AnyChain;
use crate::handle::Handle;
use std::alloc::Global;
use std::marker::{Model, Send};

/// A pointer of C. If `held` is some, it owns that cache as a box does; otherwise it owns nothing.
#[repr(C)]
#[derive(Drop)]
pub struct CacheAt {
    at: *mut u8,
    alloc: Global,
    pub ghost held: { Option HeldCache } by { cache_coded },
}

impl Model for CacheAt {
    ghost also_owns = { λ c. cache_owns c.alloc c.at c.held };
}

// C makes one call at a time on a handle, from any thread.
unsafe impl Send for CacheAt {}

impl CacheAt {
    ghost use Rattle.lru_c.specs.PointerLends.{lends_cache};

    fn of(parts: At<AnyCache, Global>) -> CacheAt
        ensures { result.held ≡ parts.held }
    {
        let At { ptr, alloc } = parts;
        CacheAt {
            at: ptr as *mut u8,
            alloc,
        }
    }

    fn into_parts(self) -> At<AnyCache, Global>
        ensures { result.held ≡ self.held }
    {
        let CacheAt { at, alloc } = self;
        At {
            ptr: at as *mut AnyCache,
            alloc,
        }
    }

    // Borrows the cache that the pointer leads to.
    fn lend(&mut self) -> &mut AnyCache
        requires { is_some self.old.held ≡ true }
        ensures* writes_back { sem 𝓛 (lends_cache self.entry result) }
        ensures value { self.old.held ≡ Some result.now }
    {
        unsafe { &mut *(self.at as *mut AnyCache) }
    }
}

/// A cache as C holds it: a pointer, and a word by which a call can tell whether it is open. A
/// handle of all zeros is not open.
#[repr(C)]
#[derive(Drop)]
pub struct LruCache {
    /// The pointer, with what it owns.
    pub cache: CacheAt,
    /// 1 if the pointer owns a cache, otherwise 0. It is a word because a `bool` would be followed
    /// by padding, which is copied with the struct.
    pub is_open: u64,
    pub ghost agrees: { is_some cache.held ≡ (is_open == 1) },
}

impl Handle for LruCache {
    type To = AnyCache;

    ghost held = { λ h. h.cache.held };

    fn of_parts(at: At<AnyCache, Global>, is_open: bool) -> LruCache
        requires { is_some at.held ≡ is_open }
        ensures { result.cache.held ≡ at.held }
    {
        LruCache {
            cache: CacheAt::of(at),
            is_open: if is_open { 1 } else { 0 },
        }
    }

    fn into_parts(self) -> (At<AnyCache, Global>, bool)
        ensures held { result.0.held ≡ self.cache.held }
        ensures is_open { is_some result.0.held ≡ result.1 }
    {
        let LruCache { cache, is_open } = self;
        (cache.into_parts(), is_open == 1)
    }

    fn get_mut(&mut self) -> Option<&mut AnyCache> {
        if self.is_open == 1 {
            Some(self.cache.lend())
        } else {
            None
        }
    }
}

/// A pointer of C. If `held` is some, it owns that chain as a box does; otherwise it owns nothing.
#[repr(C)]
#[derive(Drop)]
pub struct ChainAt {
    at: *mut u8,
    alloc: Global,
    pub ghost held: { Option HeldChain } by { chain_coded },
}

impl Model for ChainAt {
    ghost also_owns = { λ c. chain_owns c.alloc c.at c.held };
}

// C makes one call at a time on a handle, from any thread.
unsafe impl Send for ChainAt {}

impl ChainAt {
    ghost use Rattle.lru_c.specs.PointerLends.{lends_chain};

    fn of(parts: At<AnyChain, Global>) -> ChainAt
        ensures { result.held ≡ parts.held }
    {
        let At { ptr, alloc } = parts;
        ChainAt {
            at: ptr as *mut u8,
            alloc,
        }
    }

    fn into_parts(self) -> At<AnyChain, Global>
        ensures { result.held ≡ self.held }
    {
        let ChainAt { at, alloc } = self;
        At {
            ptr: at as *mut AnyChain,
            alloc,
        }
    }

    // Borrows the chain that the pointer leads to.
    fn lend(&mut self) -> &mut AnyChain
        requires { is_some self.old.held ≡ true }
        ensures* writes_back { sem 𝓛 (lends_chain self.entry result) }
        ensures value { self.old.held ≡ Some result.now }
    {
        unsafe { &mut *(self.at as *mut AnyChain) }
    }
}

/// A chain as C holds it: a pointer, and a word by which a call can tell whether it is open. A
/// handle of all zeros is not open.
#[repr(C)]
#[derive(Drop)]
pub struct LruChain {
    /// The pointer, with what it owns.
    pub chain: ChainAt,
    /// 1 if the pointer owns a chain, otherwise 0. It is a word because a `bool` would be followed
    /// by padding, which is copied with the struct.
    pub is_open: u64,
    pub ghost agrees: { is_some chain.held ≡ (is_open == 1) },
}

impl Handle for LruChain {
    type To = AnyChain;

    ghost held = { λ h. h.chain.held };

    fn of_parts(at: At<AnyChain, Global>, is_open: bool) -> LruChain
        requires { is_some at.held ≡ is_open }
        ensures { result.chain.held ≡ at.held }
    {
        LruChain {
            chain: ChainAt::of(at),
            is_open: if is_open { 1 } else { 0 },
        }
    }

    fn into_parts(self) -> (At<AnyChain, Global>, bool)
        ensures held { result.0.held ≡ self.chain.held }
        ensures is_open { is_some result.0.held ≡ result.1 }
    {
        let LruChain { chain, is_open } = self;
        (chain.into_parts(), is_open == 1)
    }

    fn get_mut(&mut self) -> Option<&mut AnyChain> {
        if self.is_open == 1 {
            Some(self.chain.lend())
        } else {
            None
        }
    }
}
