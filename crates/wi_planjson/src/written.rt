//! A plan stands in the file of its network, so it is written with its network. Links that are without protection stand there too,
//! under a name that no reader asks for.
ghost use Rattle.std.specs.Prelude.{◌≡◌, ◌≤◌, ◌∷◌, [], true, Ok, IfOk, OnOk, codes, length};
ghost use Rattle.std.specs.List.{list_all};
ghost use Rattle.serde_json.specs.Data.{object, string, member, no_members};
ghost use Rattle.serde_json.specs.View.{view, members_view};
ghost use Rattle.wi_net.specs.Net.{is_link};
ghost use Rattle.wi_netjson.specs.declared.file.TheConstants.{NETWORK_LIMIT};
ghost use Rattle.wi_netjson.specs.File.{network_of};
ghost use Rattle.wi_netjson.specs.Written.{list_of, network_data};
ghost use Rattle.wi_plan.specs.Plans.{is_path_of, is_bypass_of, IsPlan};
ghost use Rattle.wi_planjson.specs.Plan.{plan_in};
ghost use Rattle.wi_planjson.specs.Written.{link_names, bypass_data, path_data, plan_data, plan_text_of};

use serde_json::{Map, Value, json, put};
use std::alloc::{AllocError, Global};
use wi_base::NoMemory;
use wi_net::{LinkId, Network};
use wi_netjson::network_members;
use wi_plan::{Bypass, Path, Plan};

/// The text of a network with a plan over it, and with links that are told to be without protection. It reads as the plan, and
/// within the file limit as the network.
pub fn write_plan(
    alloc: Global,
    net: &Network,
    plan: &Plan,
    unprotected: &[LinkId],
) -> Result<Vec<u8>, NoMemory>
    requires plan { IsPlan net.now plan.now }
    requires known { list_all (is_link net.now) unprotected.now ≡ true }
    ensures text { IfOk result (λ bytes. bytes.items ≡ plan_text_of net.now plan.now unprotected.now) }
    ensures network { IfOk result (λ bytes. length bytes.items ≤ NETWORK_LIMIT → network_of bytes.items ≡ Ok net.now) }
    ensures plan { IfOk result (λ bytes. plan_in net.now bytes.items ≡ Ok plan.now) }
{
    net.keeps();
    let value = Value::Object(plan_members(alloc, net, plan, unprotected)?);
    Ok(value.to_vec(alloc)?)
}

fn plan_members(
    alloc: Global,
    net: &Network,
    plan: &Plan,
    unprotected: &[LinkId],
) -> Result<Map<String, Value>, NoMemory>
    requires plan { IsPlan net.now plan.now }
    requires known { list_all (is_link net.now) unprotected.now ≡ true }
    ensures { IfOk result (λ members. object (members_view members.entries) ≡ plan_data net.now plan.now unprotected.now) }
{
    let mut members = network_members(alloc, net)?;
    match put_plan(alloc, net, plan, unprotected, &mut members) {
        Ok(()) => Ok(members),
        Err(error) => {
            drop(members);
            Err(error)
        }
    }
}

// Puts the members of a plan among those of its network.
fn put_plan(
    alloc: Global,
    net: &Network,
    plan: &Plan,
    unprotected: &[LinkId],
    members: &mut Map<String, Value>,
) -> Result<(), NoMemory>
    requires plan { IsPlan net.now plan.now }
    requires known { list_all (is_link net.now) unprotected.now ≡ true }
    requires network { object (members_view members.old.entries) ≡ network_data net.now }
    ensures { OnOk result (object (members_view members.new.entries) ≡ plan_data net.now plan.now unprotected.now) }
{
    let bypasses = bypasses_value(alloc, net, plan.bypasses.as_slice())?;
    put(members, alloc, "bypasses", bypasses)?;
    let paths = paths_value(alloc, net, plan.paths.as_slice())?;
    put(members, alloc, "paths", paths)?;
    let unprotected = links_value(alloc, net, unprotected)?;
    put(members, alloc, "unprotected", unprotected)?;
    Ok(())
}

fn bypasses_value(alloc: Global, net: &Network, bypasses: &[Bypass]) -> Result<Value, NoMemory>
    requires { list_all (is_bypass_of net.now) bypasses.now ≡ true }
    ensures { IfOk result (λ v. view v ≡ list_of (bypass_data net.now) bypasses.now) }
{
    let mut values = Vec::new(alloc);
    for bypass in bypasses {
        values.push(bypass_value(alloc, net, bypass)?)?;
    }
    Ok(Value::Array(values))
}

fn bypass_value(alloc: Global, net: &Network, bypass: &Bypass) -> Result<Value, NoMemory>
    requires { is_bypass_of net.now bypass.now ≡ true }
    ensures { IfOk result (λ v. view v ≡ bypass_data net.now bypass.now) }
{
    let link = link_value(alloc, net, bypass.link)?;
    let via = links_value(alloc, net, bypass.via.as_slice())?;
    Ok(bypass_object(alloc, link, via)?)
}

fn bypass_object(alloc: Global, link: Value, via: Value) -> Result<Value, AllocError>
    ensures { IfOk result (λ v. view v ≡ object (member (codes "link") (view link) (member (codes "via") (view via) no_members))) }
{
    json!(in alloc; {"link": link, "via": via})
}

fn paths_value(alloc: Global, net: &Network, paths: &[Path]) -> Result<Value, NoMemory>
    requires { list_all (is_path_of net.now) paths.now ≡ true }
    ensures { IfOk result (λ v. view v ≡ list_of (path_data net.now) paths.now) }
{
    let mut values = Vec::new(alloc);
    for path in paths {
        values.push(path_value(alloc, net, path)?)?;
    }
    Ok(Value::Array(values))
}

fn path_value(alloc: Global, net: &Network, path: &Path) -> Result<Value, NoMemory>
    requires { is_path_of net.now path.now ≡ true }
    ensures { IfOk result (λ v. view v ≡ path_data net.now path.now) }
{
    net.keeps();
    let ip = net.label_name(path.ip);
    let links = links_value(alloc, net, path.links.as_slice())?;
    Ok(path_object(alloc, ip, links)?)
}

fn path_object(alloc: Global, ip: &str, links: Value) -> Result<Value, AllocError>
    ensures { IfOk result (λ v. view v ≡ object (member (codes "ip") (string ip.now) (member (codes "links") (view links) no_members))) }
{
    json!(in alloc; {"ip": ip, "links": links})
}

fn links_value(alloc: Global, net: &Network, links: &[LinkId]) -> Result<Value, NoMemory>
    requires { list_all (is_link net.now) links.now ≡ true }
    ensures { IfOk result (λ v. view v ≡ list_of (link_names net.now) links.now) }
{
    let mut values = Vec::new(alloc);
    for link in links {
        values.push(link_value(alloc, net, *link)?)?;
    }
    Ok(Value::Array(values))
}

fn link_value(alloc: Global, net: &Network, link: LinkId) -> Result<Value, NoMemory>
    requires { is_link net.now link ≡ true }
    ensures { IfOk result (λ v. view v ≡ link_names net.now link) }
{
    let found = net.link(link);
    let router = net.router_name(found.from);
    let out_if = net.interface_name(found.out_if);
    Ok(two_names(alloc, router, out_if)?)
}

fn two_names(alloc: Global, router: &str, out_if: &str) -> Result<Value, AllocError>
    ensures { IfOk result (λ v. view v ≡ list_of string (router.now ∷ out_if.now ∷ [])) }
{
    json!(in alloc; [router, out_if])
}
