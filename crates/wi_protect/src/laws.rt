//! Where the packets of a plan's network go, and which names its labels have, are laws beside the call that makes the network:
//! they speak of the network that is asked for, hold for every network and every plan over it, and run no code.
ghost use Rattle.wi_net.specs.Net.{Net};
ghost use Rattle.wi_net.specs.Network.{IsNetwork};
ghost use Rattle.wi_plan.specs.declared.plan.Plan.{Plan};
ghost use Rattle.wi_plan.specs.Plans.{IsPlan};
ghost use Rattle.wi_protect.specs.Naming.{AreNamed};
ghost use Rattle.wi_protect.specs.Protection.{AreProtected};

/// In the network of a plan a packet that sets out on a path's first link, with the path's label alone, has one trace that
/// can't be continued, and it ends with that header again. Where no link of the path failed, it goes along the path. Where
/// one failed that has a bypass, and is neither the first nor the last, and none of the bypass did, it goes along the path
/// with that link replaced by its bypass (facility backup, RFC 4090, 3.2). And where several failed, each of which has a
/// bypass of which none did, each of them is replaced by its bypass. Any links may fail, not only whole risk groups.
pub fn protected_paths()
    ensures { (net : Net) (plan : Plan) → IsNetwork net → IsPlan net plan → AreProtected net plan }
{}

/// In the network of a plan each `ip` label of the file keeps its name, and the labels that the tables give along the P-th path
/// are named `pP.1`, `pP.2` and so on, those along the X-th bypass `bX.1`, `bX.2`. So the tables, and what is said of where
/// packets go, mean the labels that the text of the network names.
pub fn labels_are_named()
    ensures { (net : Net) (plan : Plan) → IsNetwork net → AreNamed net plan }
{}
