//! A text may have several faults, so they have an order, and the first is told. The fault of a name has its byte and a copy of
//! it, so that it can be told when the text is gone; that of a link has its number, and its name has to be asked from the
//! network.
use std::alloc::{AllocError, AllocFailed};
use thiserror::Error;
use wi_base::NoMemory;
use wi_net::LinkId;

/// Why a text is no query of a network: its first fault, in the order given here, or want of memory. Bytes count from 0.
#[derive(Debug, Drop, Error)]
pub enum QueryFault {
    #[error("out of memory")]
    Memory,
    /// It has so many bytes, and that is over 4,096.
    #[error("{0} bytes, limit 4096")]
    TooLong(usize),
    /// It isn't of the form. So many bytes of it, and no more, begin a text that is.
    #[error("byte {0}: syntax")]
    Syntax(usize),
    /// The first name that the network hasn't is a label's. It starts at this byte.
    #[error("byte {0}: unknown label {1}")]
    UnknownLabel(usize, String),
    /// It is a router's.
    #[error("byte {0}: unknown router {1}")]
    UnknownRouter(usize, String),
    /// It is an interface's: no link leaves, or reaches, the router by it.
    #[error("byte {0}: unknown interface {1}")]
    UnknownInterface(usize, String),
    /// This expression, from 1, is the first with more than 512 positions. It has so many.
    #[error("expression {0} has {1} positions, limit 512")]
    TooManyPositions(u32, usize),
    /// The number that starts at this byte is over 65,535.
    #[error("byte {0}: over the limit 65535")]
    TooManyFailures(usize),
    /// The least link that the query knows both down and up.
    #[error("link number {number} both down and up", number = .0.0)]
    DownAndUp(LinkId),
}

impl From<NoMemory> for QueryFault {
    ghost use Rattle.std.specs.Prelude.{◌≡◌};
    ghost use Rattle.wi_query.specs.declared.fault.QueryFault.{QueryFault};

    ghost from_gives = { λ _ r. r ≡ QueryFault.Memory };

    fn from(_error: NoMemory) -> Self {
        QueryFault::Memory
    }
}

impl From<AllocError> for QueryFault {
    ghost use Rattle.std.specs.Prelude.{◌≡◌};
    ghost use Rattle.wi_query.specs.declared.fault.QueryFault.{QueryFault};

    ghost from_gives = { λ _ r. r ≡ QueryFault.Memory };

    fn from(_error: AllocError) -> Self {
        QueryFault::Memory
    }
}

impl<T: Drop> From<AllocFailed<T>> for QueryFault {
    ghost use Rattle.std.specs.Prelude.{◌≡◌};
    ghost use Rattle.wi_query.specs.declared.fault.QueryFault.{QueryFault};

    ghost from_gives = { λ _ r. r ≡ QueryFault.Memory };

    fn from(_error: AllocFailed<T>) -> Self {
        QueryFault::Memory
    }
}
