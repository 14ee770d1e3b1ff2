//! Failed calls of a shelf, and room to note one. The room is taken before a call is tried, so that a call that fails is noted
//! whatever memory is left.
ghost use Rattle.std.specs.Prelude.{◌≡◌, ◌<◌, IfOk, OnOk, vec_len, vec_capacity};
ghost use Rattle.wi_base.specs.FailedCalls.{call_of};

use crate::no_memory::NoMemory;
use crate::shelf::CallKind;

/// A call that failed: what it was to do, and on which file.
#[derive(Drop)]
pub struct FailedCall {
    pub kind: CallKind,
    pub name: String,
}

/// A call as it is noted if it fails. There is room for it in the list.
pub fn room_to_note(
    failed: &mut Vec<FailedCall>,
    kind: CallKind,
    name: &str,
) -> Result<FailedCall, NoMemory>
    ensures call { IfOk result (λ call. call_of call ≡ (kind, name.now)) }
    ensures room { OnOk result (vec_len failed.new < vec_capacity failed.new) }
    ensures list { failed.new.items ≡ failed.old.items }
{
    failed.reserve(1)?;
    let name = String::from_str(*failed.allocator(), name)?;
    Ok(FailedCall { kind, name })
}
