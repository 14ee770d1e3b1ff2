//! What is said by a limit's name holds with any number, so the law has the numbers. It runs no code.
ghost use Rattle.std.specs.Prelude.{◌≡◌};
ghost use Rattle.wi_net.specs.declared.limits.TheConstants.{LABEL_LIMIT, LINK_LIMIT, MEMBER_LIMIT, OPERATION_LIMIT, ROUTER_LIMIT, ROW_LIMIT};

/// A network has so many parts at most.
pub fn limits_have_these_numbers()
    ensures routers { ROUTER_LIMIT ≡ 10000 }
    ensures labels { LABEL_LIMIT ≡ 20000 }
    ensures links { LINK_LIMIT ≡ 20000 }
    ensures rows { ROW_LIMIT ≡ 200000 }
    ensures members { MEMBER_LIMIT ≡ 400000 }
    ensures operations { OPERATION_LIMIT ≡ 8 }
{}
