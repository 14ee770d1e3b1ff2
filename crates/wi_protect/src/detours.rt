//! Each hop of a path asks for the way around its link, so that is one look-up in a list by link, made once. Without it each
//! hop would go over all bypasses. It takes room for each link of the network.
ghost use Rattle.std.specs.Prelude.{◌≡◌, ◌+◌, ◌<◌, ◌^◌, true, None, length, IfOk};
ghost use Rattle.wi_net.specs.declared.parts.LinkId.{LinkId};
ghost use Rattle.wi_protect.specs.Labels.{bypasses_labels};
ghost use Rattle.wi_protect.specs.private.Detours.{are_within, no_detours, at_link, noted, detour_from, round_by, AreDetours};
ghost use Rattle.wi_protect.specs.private.Held.{round_now};

use crate::labels::bypass_labels;
use std::alloc::{AllocError, Global};
use wi_base::NoMemory;
use wi_net::LinkId;
use wi_plan::Bypass;

/// Which bypass leads around a link, and the number of the first label along it.
#[derive(Clone, Copy)]
pub struct Detour {
    pub bypass: usize,
    pub first: u32,
}

/// The bypass of each link, for so many links. The first bypass's labels begin at a number.
pub fn detours_of(
    alloc: Global,
    count: usize,
    bypasses: &[Bypass],
    first: u32,
) -> Result<Vec<Option<Detour>>, NoMemory>
    requires within { are_within count bypasses.now ≡ true }
    requires labels { first + bypasses_labels bypasses.now < 2 ^ 32 }
    ensures { IfOk result (λ detours. AreDetours bypasses.now first detours.items) }
{
    let mut detours = no_detours(alloc, count)?;
    note_all(&mut detours, bypasses, first);
    Ok(detours)
}

// Nothing for each of so many links.
fn no_detours(alloc: Global, count: usize) -> Result<Vec<Option<Detour>>, AllocError>
    ensures { IfOk result (λ detours. detours.items ≡ no_detours count) }
{
    (0..count).map(|_| None).collect(alloc)
}

// Notes the bypasses of links, for which nothing is noted yet.
fn note_all(detours: &mut Vec<Option<Detour>>, bypasses: &[Bypass], first: u32)
    requires none { (e : LinkId) → at_link detours.old.items e ≡ None }
    requires within { are_within (length detours.old.items) bypasses.now ≡ true }
    requires labels { first + bypasses_labels bypasses.now < 2 ^ 32 }
    ensures { (e : LinkId) → at_link detours.new.items e ≡ detour_from 0 first bypasses.now e }
{
    let mut number = first;
    for (i, bypass) in bypasses.iter().enumerate() {
        let detour = Detour {
            bypass: i,
            first: number,
        };
        note(detours, bypass.link, detour);
        number += bypass_labels(bypass) as u32;
    }
}

// Notes what is the first for a link.
fn note(detours: &mut Vec<Option<Detour>>, link: LinkId, detour: Detour)
    requires { link.0 < length detours.old.items }
    ensures { detours.new.items ≡ noted detours.old.items link detour }
{
    if detours[link.0 as usize].is_none() {
        detours[link.0 as usize] = Some(detour);
    }
}

// What is noted for a link.
fn at_link(detours: &[Option<Detour>], link: LinkId) -> Option<Detour>
    ensures { result ≡ at_link detours.now link }
{
    match detours.get(link.0 as usize) {
        Some(noted) => *noted,
        None => None,
    }
}

/// The way around a link, and the number of the first label along it.
pub fn round_of<'a>(
    bypasses: &'a [Bypass],
    detours: &[Option<Detour>],
    link: LinkId,
) -> Option<(&'a [LinkId], u32)>
    ensures { round_now result ≡ round_by bypasses.now detours.now link }
{
    let detour = at_link(detours, link)?;
    let bypass = bypasses.get(detour.bypass)?;
    Some((bypass.via.as_slice(), detour.first))
}
