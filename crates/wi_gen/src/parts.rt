//! A call of the builder that breaks no rule fails only where memory runs out. Each function here is such a call, with the rules
//! as its condition: so whoever makes a ring has to show that it breaks none, and is left with one error. It costs what the
//! builder's call costs.
ghost use Rattle.std.specs.Prelude.{◌≡◌, true, None, Ok, IsOk, OnOk};
ghost use Rattle.std.specs.List.{list_all};
ghost use Rattle.wi_net.specs.Network.{is_no_later};
ghost use Rattle.wi_net.specs.Builder.{add_router, add_label, add_link, with_router, with_label, with_row};
ghost use Rattle.wi_gen.specs.private.Making.{IsAllowed};

use wi_base::NoMemory;
use wi_labels::{Class, Label};
use wi_net::{BuildRefused, Group, LinkId, NetworkBuilder};

// What is left of a refusal where no rule is broken.
fn only_memory(refused: BuildRefused) -> NoMemory
    requires { refused ≡ BuildRefused.Memory }
{
    match refused {
        BuildRefused::Memory => NoMemory::Memory,
        _ => unreachable!(),
    }
}

/// Adds a router.
pub fn put_router(builder: &mut NetworkBuilder, name: &str) -> Result<(), NoMemory>
    requires { add_router builder.old name.now ≡ Ok (with_router builder.old name.now) }
    ensures { OnOk result (builder.new ≡ with_router builder.old name.now) }
{
    match builder.router(name) {
        Ok(_) => Ok(()),
        Err(refused) => Err(only_memory(refused)),
    }
}

/// Adds a label.
pub fn put_label(builder: &mut NetworkBuilder, class: Class, name: &str) -> Result<(), NoMemory>
    requires order { list_all (λ c. is_no_later c class) builder.old.net.classes ≡ true }
    requires rules { add_label builder.old class name.now ≡ Ok (with_label builder.old class name.now) }
    ensures { OnOk result (builder.new ≡ with_label builder.old class name.now) }
{
    match builder.label(class, name) {
        Ok(_) => Ok(()),
        Err(refused) => Err(only_memory(refused)),
    }
}

/// Adds a link by interfaces of one name, which is in no risk group that has a name.
pub fn put_link(
    builder: &mut NetworkBuilder,
    from: &str,
    to: &str,
    interface: &str,
    distance: u32,
) -> Result<(), NoMemory>
    requires { IsOk (add_link builder.old from.now interface.now to.now interface.now distance None) }
    ensures { OnOk result (add_link builder.old from.now interface.now to.now interface.now distance None ≡ Ok builder.new) }
{
    match builder.link(from, interface, to, interface, distance, None) {
        Ok(_) => Ok(()),
        Err(refused) => Err(only_memory(refused)),
    }
}

/// Adds a row.
pub fn put_row(
    builder: &mut NetworkBuilder,
    link: LinkId,
    label: Label,
    groups: Vec<Group>,
) -> Result<(), NoMemory>
    requires { IsAllowed builder.old (record { link = link; label = label; groups = groups.items }) }
    ensures { OnOk result (builder.new ≡ with_row builder.old (record { link = link; label = label; groups = groups.items })) }
{
    match builder.table(link, label, groups) {
        Ok(()) => Ok(()),
        Err(refused) => Err(only_memory(refused)),
    }
}
