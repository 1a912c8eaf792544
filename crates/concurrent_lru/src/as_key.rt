//! What stands for a key in a lookup: a reference to a key, or a text for a `String`.
ghost use Rattle.std.specs.Prelude.{◌≡◌};
ghost use Rattle.std.specs.List.{fold};
ghost use Rattle.concurrent_lru.specs.Texts.{string_of, text_of};

use std::hash::{Hash, Hasher};

/// What stands for a key `K` in a lookup, so that none has to be made for it: `&K` itself, and
/// `&str` where the keys are `String`s.
pub trait AsKey<K: Hash + Eq>: Copy {
    // The key that it stands for.
    ghost owned: { Self → K };

    /// Returns whether a key equals the one that this stands for.
    fn is_key(&self, key: &K) -> bool
        ensures { result ≡ K.eq key.now (owned self.now) };

    /// Feeds a hasher what the key that this stands for does.
    fn feed<H: Hasher>(&self, state: &mut H)
        ensures { state.new ≡ fold H.write state.old (K.hash_input (owned self.now)) };
}

impl<K: Hash + Eq> AsKey<K> for &K {
    ghost owned = { λ q. q.now };

    #[inline(always)]
    fn is_key(&self, key: &K) -> bool {
        *key == **self
    }

    #[inline(always)]
    fn feed<H: Hasher>(&self, state: &mut H) {
        (**self).hash(state);
    }
}

// Returns the text. No text is as long as one that this would empty, but the checker knows that of
// a `String` only.
#[inline(always)]
fn within<'a>(text: &'a str) -> &'a str
    ensures { result.now ≡ text_of text.now }
{
    if text.as_bytes().len() > isize::MAX as usize {
        return "";
    }
    text
}

impl AsKey<String> for &str {
    ghost owned = { λ q. string_of q.now };

    #[inline(always)]
    fn is_key(&self, key: &String) -> bool {
        key.as_str() == within(*self)
    }

    #[inline(always)]
    fn feed<H: Hasher>(&self, state: &mut H) {
        within(*self).hash(state);
    }
}
