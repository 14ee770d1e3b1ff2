//! A state begins as a link of a report's run does, so that a script that is played can be held against an answer. All states
//! are one text, so that they can be printed in one call: it has each header and each set of failed links in full.
ghost use Rattle.std.specs.Prelude.{◌≡◌, ◌++◌, true, codes, IfOk, OnOk};
ghost use Rattle.std.specs.List.{list_all};
ghost use Rattle.wi_script.specs.Plays.{is_state_of};
ghost use Rattle.wi_report.specs.States.{state_shown, states_shown};

use std::alloc::Global;
use wi_base::NoMemory;
use wi_faults::{put_links, put_location};
use wi_net::Network;
use wi_text::Text;
use wi_world::State;

/// A line for each state: the link and the header of the packet, and the failed links.
pub fn states(alloc: Global, net: &Network, states: &[State]) -> Result<Text, NoMemory>
    requires { list_all (is_state_of net.now) states.now ≡ true }
    ensures { IfOk result (λ text. text ≡ states_shown net.now states.now) }
{
    let mut text = Text::new(alloc);
    for state in states {
        put_state(net, state, &mut text)?;
    }
    Ok(text)
}

fn put_state(net: &Network, state: &State, text: &mut Text) -> Result<(), NoMemory>
    requires { is_state_of net.now state.now ≡ true }
    ensures { OnOk result (text.new ≡ text.old ++ state_shown net.now state.now) }
{
    put_location(net, state.link, &state.header, text)?;
    text.put(" | failed ")?;
    put_links(net, &state.fails, text)?;
    text.put("\n")
}
