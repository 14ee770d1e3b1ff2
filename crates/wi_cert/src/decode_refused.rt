//! Why a text gives no certificate, or no tree certificate.
use wi_base::NoMemory;

/// Why a text gives none.
#[derive(Clone, Copy, Debug, PartialEq, Eq)]
pub enum DecodeRefused {
    /// The first line, from 1, that isn't of the form asked in its place. A line that is missing counts, and so does one that
    /// lacks its end.
    BadLine(u128),
    /// Memory ran out.
    Memory,
}

impl From<NoMemory> for DecodeRefused {
    ghost use Rattle.std.specs.Prelude.{◌≡◌};
    ghost use Rattle.wi_cert.specs.declared.decode_refused.DecodeRefused.{DecodeRefused};

    ghost from_gives = { λ _ r. r ≡ DecodeRefused.Memory };

    fn from(_error: NoMemory) -> Self {
        DecodeRefused::Memory
    }
}
