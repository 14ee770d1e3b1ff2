//! Why a certificate or a tree certificate isn't written.
use wi_base::NoMemory;

/// Why there is no text.
#[derive(Clone, Copy, Debug, PartialEq, Eq)]
pub enum EncodeRefused {
    /// The lines of a certificate from `heads` on have more bytes than the limit, or the text of a tree certificate has.
    TooLong,
    /// Memory ran out.
    Memory,
}

impl From<NoMemory> for EncodeRefused {
    ghost use Rattle.std.specs.Prelude.{◌≡◌};
    ghost use Rattle.wi_cert.specs.declared.encode_refused.EncodeRefused.{EncodeRefused};

    ghost from_gives = { λ _ r. r ≡ EncodeRefused.Memory };

    fn from(_error: NoMemory) -> Self {
        EncodeRefused::Memory
    }
}
