//! A series of tests may take long. So the lines of each are put as soon as it is made, and let go before the next one is.
ghost use Rattle.std.specs.Prelude.{◌≡◌, ◌<◌, ◌-◌, ◌^◌, ◌∷◌, [], OnOk, IfOk, IfErr};
ghost use Rattle.wi_outcome.specs.Edges.{PutAll};
ghost use Rattle.wi_audit.specs.Outcomes.{worst};
ghost use Rattle.wi_audit.specs.Series.{exit_status};
ghost use Rattle.wi_audit.specs.Texts.{plan_text};
ghost use Rattle.wi_audit.specs.private.Puts.{IsNotPut, IsPut, IsUnput};

use crate::outcome::Fulfilment;
use crate::text::plan_text;
use std::alloc::Global;
use wi_base::{NoMemory, PutRefused, Sink};
use wi_text::Text;

/// A test that was made: its lines, and whether what it tells is as expected.
#[derive(Drop)]
pub struct Test {
    pub text: Text,
    pub fulfilment: Fulfilment,
}

/// The exit status of tests, the worst of which is this.
pub(crate) fn exit_status(fulfilment: Fulfilment) -> u8
    ensures { result ≡ exit_status fulfilment }
{
    match fulfilment {
        Fulfilment::AsExpected => 0,
        Fulfilment::Unexpected => 1,
        Fulfilment::Undecided => 2,
    }
}

/// The worse of two.
pub(crate) fn worse(one: Fulfilment, other: Fulfilment) -> Fulfilment
    ensures { result ≡ worst (one ∷ other ∷ []) }
{
    match (one, other) {
        (Fulfilment::Unexpected, _) | (_, Fulfilment::Unexpected) => Fulfilment::Unexpected,
        (Fulfilment::Undecided, _) | (_, Fulfilment::Undecided) => Fulfilment::Undecided,
        (Fulfilment::AsExpected, Fulfilment::AsExpected) => Fulfilment::AsExpected,
    }
}

/// Puts how many tests there are.
pub(crate) fn put_plan<O: Sink>(alloc: Global, count: usize, out: &mut O) -> Result<(), PutRefused>
    requires { (O.seen out.old).faults < 2 ^ 64 - 1 }
    ensures told { (O.seen out.new).told ≡ (O.seen out.old).told }
    ensures put { OnOk result (PutAll (plan_text count) (O.seen out.old) (O.seen out.new)) }
    ensures unput { IfErr result (λ refused. IsUnput (plan_text count) refused (O.seen out.old) (O.seen out.new)) }
{
    match plan_text(alloc, count) {
        Ok(text) => {
            let put = put(&text, out);
            drop(text);
            put
        }
        Err(NoMemory::Memory) => Err(PutRefused::Memory),
    }
}

/// Puts the lines of a test, if it was made, and tells whether it is as expected.
pub(crate) fn put_test<O: Sink>(
    made: Result<Test, NoMemory>,
    out: &mut O,
) -> Result<Fulfilment, PutRefused>
    requires { (O.seen out.old).faults < 2 ^ 64 - 1 }
    ensures told { (O.seen out.new).told ≡ (O.seen out.old).told }
    ensures put { IfOk result (λ fulfilment. IsPut made fulfilment (O.seen out.old) (O.seen out.new)) }
    ensures unput { IfErr result (λ refused. IsNotPut made refused (O.seen out.old) (O.seen out.new)) }
{
    match made {
        Ok(test) => {
            let put = put(&test.text, out);
            let fulfilment = test.fulfilment;
            drop(test);
            match put {
                Ok(()) => Ok(fulfilment),
                Err(refused) => Err(refused),
            }
        }
        Err(NoMemory::Memory) => Err(PutRefused::Memory),
    }
}

// Puts a text.
fn put<O: Sink>(text: &Text, out: &mut O) -> Result<(), PutRefused>
    requires { (O.seen out.old).faults < 2 ^ 64 - 1 }
    ensures told { (O.seen out.new).told ≡ (O.seen out.old).told }
    ensures put { OnOk result (PutAll text.now (O.seen out.old) (O.seen out.new)) }
    ensures unput { IfErr result (λ refused. IsUnput text.now refused (O.seen out.old) (O.seen out.new)) }
{
    out.put(text.as_bytes())
}
