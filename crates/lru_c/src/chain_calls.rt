//! The chain that a call fills, and the code that says whether it can be filled.
ghost use Rattle.std.specs.Borrow.{sem};
ghost use Rattle.std.specs.Prelude.{◌≡◌, ◌≢◌, Some, MatchResult};
ghost use Rattle.lru_c.specs.Chains.{chain_code, IsEmpty};
ghost use Rattle.lru_c.specs.Codes as codes;
ghost use Rattle.lru_c.specs.Lends.{LendsChain};

use crate::chain::AnyChain;
use crate::code;
use crate::handle::Handle;
use crate::handles::LruChain;

// Returns the chain of a handle for a call to fill, if it is open and empty. Otherwise returns the
// code that says why not: `CLOSED` or `NOT_EMPTY`.
pub(crate) fn empty_chain<G: Handle<To = AnyChain>>(gone: &mut G) -> Result<&mut AnyChain, u32>
    ensures* writes_back { sem 𝓛 (LendsChain G.row G.held gone.entry result) }
    ensures chain { MatchResult result (λ chain. (G.held gone.old ≡ Some chain.now) ×
        IsEmpty chain.now)
        (λ code. (code ≡ chain_code (G.held gone.old)) × (code ≢ codes.done)) }
{
    match gone.get_mut() {
        Some(chain) => {
            let code = chain.emptiness_code();
            if code == code::DONE {
                Ok(chain)
            } else {
                Err(code)
            }
        }
        None => Err(code::CLOSED),
    }
}

// Returns `DONE` if a chain is open and empty, otherwise `CLOSED` or `NOT_EMPTY`.
pub(crate) fn emptiness_code(chain: &mut LruChain) -> u32
    ensures same { chain.new.chain.held ≡ chain.old.chain.held }
    ensures code { result ≡ chain_code chain.old.chain.held }
{
    match chain.get_mut() {
        Some(chain) => chain.emptiness_code(),
        None => code::CLOSED,
    }
}
