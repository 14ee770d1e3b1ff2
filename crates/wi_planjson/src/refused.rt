//! A refusal names one place, as numbers and words of the format, so that it is `Copy` and takes no memory; its text is made
//! only where it is shown.
use std::alloc::AllocFailed;
use thiserror::Error;

/// A place in a file with a plan. Numbers count from 0.
#[derive(Clone, Copy, Debug, Error)]
pub enum Place {
    #[error("tables")]
    Tables,
    #[error("paths")]
    Paths,
    #[error("paths[{0}]")]
    Path(usize),
    #[error("paths[{0}].ip")]
    PathIp(usize),
    #[error("paths[{0}].links")]
    PathLinks(usize),
    #[error("paths[{0}].links[{1}]")]
    PathLink(usize, usize),
    #[error("bypasses")]
    Bypasses,
    #[error("bypasses[{0}]")]
    Bypass(usize),
    #[error("bypasses[{0}].link")]
    BypassLink(usize),
    #[error("bypasses[{0}].via")]
    BypassVia(usize),
    #[error("bypasses[{0}].via[{1}]")]
    ViaLink(usize, usize),
}

/// Why a file has no plan over its network: its first fault in the order of reading, or want of memory.
#[derive(Clone, Copy, Debug, Error)]
pub enum PlanRefused {
    #[error("out of memory")]
    Memory,
    /// The network has tables already.
    #[error("{place}: not empty", place = Place::Tables)]
    NotEmpty,
    /// The part isn't there, or is a value of another kind.
    #[error("{0}: wrong shape")]
    WrongShape(Place),
    /// No `ip` label has this name, or no link leaves a router of this name by an interface of this name.
    #[error("{0}: unknown")]
    Unknown(Place),
    /// A path has three links at least, and a way around one.
    #[error("{0}: too short")]
    TooShort(Place),
    /// A link doesn't leave the router that the link before reaches, or a way around doesn't lead from the source of its link
    /// to the target.
    #[error("{0}: broken")]
    Broken(Place),
    /// The link stands earlier in its path, has a bypass already, or is to be a part of the way around itself.
    #[error("{0}: repeated")]
    Repeated(Place),
    /// An earlier path has the same first link and the same label.
    #[error("{0}: taken")]
    Taken(Place),
    /// The path's last link and its label are the first link and the label of some path.
    #[error("{0}: continues")]
    Continues(Place),
}

impl<T: Drop> From<AllocFailed<T>> for PlanRefused {
    ghost use Rattle.std.specs.Prelude.{◌≡◌};
    ghost use Rattle.wi_planjson.specs.declared.refused.PlanRefused.{PlanRefused};

    ghost from_gives = { λ _ e. e ≡ PlanRefused.Memory };

    fn from(_error: AllocFailed<T>) -> Self {
        PlanRefused::Memory
    }
}

impl From<wi_base::NoMemory> for PlanRefused {
    ghost use Rattle.std.specs.Prelude.{◌≡◌};
    ghost use Rattle.wi_planjson.specs.declared.refused.PlanRefused.{PlanRefused};

    ghost from_gives = { λ _ e. e ≡ PlanRefused.Memory };

    fn from(_error: wi_base::NoMemory) -> Self {
        PlanRefused::Memory
    }
}
