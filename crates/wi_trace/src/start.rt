//! The labels of a first header have to be the network's, with their classes: a valid shape alone would let runs begin with
//! labels that no table knows. It costs a look at each label, and no memory.
ghost use Rattle.std.specs.Prelude.{◌≡◌};
ghost use Rattle.wi_labels.specs.Header.{same_class};
ghost use Rattle.wi_net.specs.Net.{label_known, labels_known};
ghost use Rattle.wi_world.specs.Moves.{is_start};

use wi_labels::{Class, Header, Label};
use wi_net::{FailSet, LinkId, Network};
use wi_world::Run;

/// Whether a packet may set out: on a link outside the set, with a valid header of the network's labels. It takes no memory.
pub fn is_start(net: &Network, fails: &FailSet, run: &Run) -> bool
    ensures { result ≡ is_start net.now fails.now run.now.first run.now.header }
{
    run.first.0 < net.counts().links
        && !fails.contains(run.first)
        && run.header.is_valid()
        && labels_known(net, &run.header)
}

// Whether each label of a header is the network's, with its class.
#[tactic(auto, using(wi_labels::proofs::HeaderLemmas::drop_at))]
fn labels_known(net: &Network, header: &Header) -> bool
    ensures { result ≡ labels_known net.now header.now }
{
    for i in 0..header.len() {
        match header.at(i) {
            Some((label, class)) => {
                if !label_known(net, label, class) {
                    return false;
                }
            }
            None => return true,
        }
    }
    true
}

// Whether a label is the network's, with this class.
fn label_known(net: &Network, label: Label, class: Class) -> bool
    ensures { result ≡ label_known net.now.classes (label, class) }
{
    net.keeps();
    label.0 < net.counts().labels && same_class(net.class(label), class)
}

// Whether two classes are one.
fn same_class(one: Class, other: Class) -> bool
    ensures { result ≡ same_class one other }
{
    one == other
}
