//! A text may have several faults, so they have an order, and the first is told. The fault of a word has its byte and a copy of
//! it, so that it can be told when the text is gone.
use std::alloc::{AllocError, AllocFailed};
use thiserror::Error;
use wi_base::NoMemory;

/// Why a weights text wasn't read: its first fault, in the order given here, or want of memory. Bytes count from 0.
#[derive(Debug, Drop, Error)]
pub enum WeightFault {
    #[error("out of memory")]
    Memory,
    /// The text isn't of the form. So many bytes of it begin one that is.
    #[error("byte {0}: syntax")]
    Syntax(usize),
    /// The word that starts at this byte is no quantity.
    #[error("byte {0}: unknown quantity {1}")]
    UnknownQuantity(usize, String),
    /// There are so many terms, or so many parts in a term: more than five.
    #[error("{0} terms or parts, limit 5")]
    TooManyTerms(usize),
    /// The number that starts at this byte is over 65,535.
    #[error("byte {0}: over the limit 65535")]
    Coefficient(usize),
}

impl From<NoMemory> for WeightFault {
    ghost use Rattle.std.specs.Prelude.{◌≡◌};
    ghost use Rattle.wi_quantity.specs.declared.fault.WeightFault.{WeightFault};

    ghost from_gives = { λ _ r. r ≡ WeightFault.Memory };

    fn from(_error: NoMemory) -> Self {
        WeightFault::Memory
    }
}
