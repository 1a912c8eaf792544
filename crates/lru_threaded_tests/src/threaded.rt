//! Calls on the caches that threads share, as data, and the makings of one thread.

mod calls;
mod making;

pub use calls::{Then, ThreadedCall};
pub use making::{NoHandle, make_value, try_make_value};
