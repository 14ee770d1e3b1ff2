//! Links and headers are written in one way wherever they are printed, so that a line can be found again in another output. A
//! name has quotation marks where a query would need them, so that it can be copied into one. Each name is one look-up by its
//! number.
ghost use Rattle.std.specs.Prelude.{◌≡◌, ◌<◌, ◌++◌, [], true, length, drop, codes, slice_index_or, OnOk};
ghost use Rattle.std.specs.List.{list_all};
ghost use Rattle.std.specs.Fmt.{decimal};
ghost use Rattle.wi_net.specs.Net.{is_link, labels_known};
ghost use Rattle.wi_text.specs.Names.{shown};
ghost use Rattle.wi_faults.specs.Shown.{is_class_word, label_name_shown, label_shown, link_shown, links_shown, more_links, header_shown, place_shown, end_shown, router_shown, source_shown, sources_shown};

use wi_base::NoMemory;
use wi_labels::{Header, Label};
use wi_net::{FailSet, LinkId, NameId, Network, RouterId};
use wi_text::Text;
use wi_trace::nth;

/// Adds a number in decimal between two pieces.
pub fn put_counted(
    before: &str,
    number: usize,
    after: &str,
    text: &mut Text,
) -> Result<(), NoMemory>
    ensures { OnOk result (text.new ≡ text.old ++ (before.now ++ decimal number ++ after.now)) }
{
    text.put(before)?;
    text.put_number(number as u128)?;
    text.put(after)
}

/// Adds the labels of a header, top first, each after a space.
pub fn put_header(net: &Network, header: &Header, text: &mut Text) -> Result<(), NoMemory>
    requires { labels_known net.now header.now ≡ true }
    ensures { OnOk result (text.new ≡ text.old ++ header_shown net.now header.now) }
{
    net.keeps();
    for i in 0..header.len() {
        let Some((label, _)) = header.at(i) else {
            return Ok(());
        };
        text.put(" ")?;
        put_label(net, label, text)?;
    }
    Ok(())
}

/// Adds a link and the header on it.
pub fn put_location(
    net: &Network,
    link: LinkId,
    header: &Header,
    text: &mut Text,
) -> Result<(), NoMemory>
    requires link { is_link net.now link ≡ true }
    requires header { labels_known net.now header.now ≡ true }
    ensures { OnOk result (text.new ≡ text.old ++ place_shown net.now (link, header.now)) }
{
    put_link(net, link, text)?;
    text.put(" |")?;
    put_header(net, header, text)
}

/// Adds links with spaces between, or `none` where there are none.
pub fn put_links(net: &Network, links: &FailSet, text: &mut Text) -> Result<(), NoMemory>
    requires { list_all (is_link net.now) links.now ≡ true }
    ensures { OnOk result (text.new ≡ text.old ++ links_shown net.now links.now) }
{
    let Some(first) = links.at(0) else {
        return text.put("none");
    };
    put_link(net, first, text)?;
    put_more(net, links, text)
}

// Adds the links behind the first, each after a space.
fn put_more(net: &Network, links: &FailSet, text: &mut Text) -> Result<(), NoMemory>
    requires { list_all (is_link net.now) links.now ≡ true }
    ensures { OnOk result (text.new ≡ text.old ++ more_links net.now (drop 1 links.now)) }
{
    for i in 1..links.len() {
        let Some(link) = links.at(i) else {
            return Ok(());
        };
        text.put(" ")?;
        put_link(net, link, text)?;
    }
    Ok(())
}

/// Adds a link as `A.i#B.j`, or nothing where the network hasn't it.
#[tactic(auto, using(crate::proofs::ShownLemmas::unknown_link))]
pub fn put_known(net: &Network, link: LinkId, text: &mut Text) -> Result<(), NoMemory>
    ensures { OnOk result (text.new ≡ text.old ++ link_shown net.now link) }
{
    if link.0 < net.counts().links {
        put_link(net, link, text)
    } else {
        Ok(())
    }
}

// Adds a link as `A.i#B.j`.
fn put_link(net: &Network, link: LinkId, text: &mut Text) -> Result<(), NoMemory>
    requires { is_link net.now link ≡ true }
    ensures { OnOk result (text.new ≡ text.old ++ link_shown net.now link) }
{
    let link = *net.link(link);
    put_end(net, link.from, link.out_if, text)?;
    text.put("#")?;
    put_end(net, link.to, link.in_if, text)
}

/// Adds for each link the interface that it leaves by, as `A.i`, and a space.
pub fn put_sources(net: &Network, links: &FailSet, text: &mut Text) -> Result<(), NoMemory>
    requires { list_all (is_link net.now) links.now ≡ true }
    ensures { OnOk result (text.new ≡ text.old ++ sources_shown net.now links.now) }
{
    for i in 0..links.len() {
        put_source(net, nth(links, i), text)?;
        text.put(" ")?;
    }
    Ok(())
}

// Adds the interface that a link leaves by.
fn put_source(net: &Network, link: LinkId, text: &mut Text) -> Result<(), NoMemory>
    requires { is_link net.now link ≡ true }
    ensures { OnOk result (text.new ≡ text.old ++ source_shown net.now link) }
{
    let link = *net.link(link);
    put_end(net, link.from, link.out_if, text)
}

// An interface of a router as `A.i`.
fn put_end(
    net: &Network,
    router: RouterId,
    interface: NameId,
    text: &mut Text,
) -> Result<(), NoMemory>
    requires router { router.0 < length net.now.routers }
    requires interface { interface.0 < length net.now.interfaces }
    ensures { OnOk result (text.new ≡ text.old ++ end_shown net.now router interface) }
{
    put_router(net, router, text)?;
    text.put(".")?;
    put_interface(net, interface, text)
}

/// Adds the name of a router.
#[tactic(auto, using(std::proofs::lemmas::Option::get_or_from_slice_get))]
pub fn put_router(net: &Network, router: RouterId, text: &mut Text) -> Result<(), NoMemory>
    requires { router.0 < length net.now.routers }
    ensures { OnOk result (text.new ≡ text.old ++ router_shown net.now router) }
{
    text.put_name(net.router_name(router))
}

#[tactic(auto, using(std::proofs::lemmas::Option::get_or_from_slice_get))]
fn put_interface(net: &Network, interface: NameId, text: &mut Text) -> Result<(), NoMemory>
    requires { interface.0 < length net.now.interfaces }
    ensures { OnOk result (text.new ≡ text.old ++ shown (slice_index_or net.now.interfaces interface.0 [])) }
{
    text.put_name(net.interface_name(interface))
}

/// Adds the name of a label of the network.
#[tactic(auto, using(std::proofs::lemmas::Option::get_or_from_slice_get))]
pub fn put_label(net: &Network, label: Label, text: &mut Text) -> Result<(), NoMemory>
    requires { label.0 < length net.now.labels }
    ensures { OnOk result (text.new ≡ text.old ++ label_shown net.now label) }
{
    put_label_name(net.label_name(label), text)
}

/// Adds a label's name: between quotation marks where it isn't plain, or is the word of a class.
pub(crate) fn put_label_name(name: &str, text: &mut Text) -> Result<(), NoMemory>
    ensures { OnOk result (text.new ≡ text.old ++ label_name_shown name.now) }
{
    if is_class_word(name) {
        text.put_quoted(name)
    } else {
        text.put_name(name)
    }
}

fn is_class_word(name: &str) -> bool
    ensures { result ≡ is_class_word name.now }
{
    name == "ip" || name == "mpls" || name == "smpls"
}
