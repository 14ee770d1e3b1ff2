//! The operator's ring of the examples, asked as their page does: a path, a bypass that shares the duct of the cable that it
//! stands in for, and labels that come to a customer.
use crate::called::{Case, cases_are};
use std::process::Abort;
use std::test::Fail;

// The network of the ring, without white space. It is given by a function, so that no proof but this one sees its bytes.
fn ring() -> &'static str {
    r#"{"format":"mpls-whatif-2","routers":["ce1","bru","par","zrh","fra","ham","ams","ce2"],"labels":{"mpls":["401","402","403","404","501","502","503","504","601","602","603","604"],"smpls":["s101","s102","s103","s201","s202","s203"],"ip":["net1","net2"]},"links":[{"from":"ce1","out":"bru","to":"bru","in":"ce1","distance":5},{"from":"bru","out":"ce1","to":"ce1","in":"bru","distance":5},{"from":"ce2","out":"fra","to":"fra","in":"ce2","distance":5},{"from":"fra","out":"ce2","to":"ce2","in":"fra","distance":5},{"from":"bru","out":"par","to":"par","in":"bru","distance":265,"group":"bru_par"},{"from":"par","out":"bru","to":"bru","in":"par","distance":265,"group":"bru_par"},{"from":"par","out":"zrh","to":"zrh","in":"par","distance":490,"group":"par_zrh"},{"from":"zrh","out":"par","to":"par","in":"zrh","distance":490,"group":"par_zrh"},{"from":"zrh","out":"fra","to":"fra","in":"zrh","distance":305,"group":"fra_duct"},{"from":"fra","out":"zrh","to":"zrh","in":"fra","distance":305,"group":"fra_duct"},{"from":"fra","out":"ham","to":"ham","in":"fra","distance":395,"group":"fra_duct"},{"from":"ham","out":"fra","to":"fra","in":"ham","distance":395,"group":"fra_duct"},{"from":"ham","out":"ams","to":"ams","in":"ham","distance":365,"group":"ham_ams"},{"from":"ams","out":"ham","to":"ham","in":"ams","distance":365,"group":"ham_ams"},{"from":"ams","out":"bru","to":"bru","in":"ams","distance":175,"group":"ams_bru"},{"from":"bru","out":"ams","to":"ams","in":"bru","distance":175,"group":"ams_bru"}],"tables":[{"at":"bru","in":"ce1","label":"net2","groups":[[{"out":"par","ops":[["push","s101"]]}],[{"out":"ams","ops":[["push","s101"],["push","401"]]}]]},{"at":"par","in":"bru","label":"s101","groups":[[{"out":"zrh","ops":[["swap","s102"]]}],[{"out":"bru","ops":[["swap","s102"],["push","501"]]}]]},{"at":"par","in":"zrh","label":"s101","groups":[[{"out":"zrh","ops":[["swap","s102"]]}],[{"out":"bru","ops":[["swap","s102"],["push","501"]]}]]},{"at":"zrh","in":"par","label":"s102","groups":[[{"out":"fra","ops":[["swap","s103"]]}],[{"out":"par","ops":[["swap","s103"],["push","601"]]}]]},{"at":"zrh","in":"fra","label":"s102","groups":[[{"out":"fra","ops":[["swap","s103"]]}],[{"out":"par","ops":[["swap","s103"],["push","601"]]}]]},{"at":"fra","in":"zrh","label":"s103","groups":[[{"out":"ce2","ops":[["pop"]]}]]},{"at":"fra","in":"ham","label":"s103","groups":[[{"out":"ce2","ops":[["pop"]]}]]},{"at":"ams","in":"bru","label":"401","groups":[[{"out":"ham","ops":[["swap","402"]]}]]},{"at":"ham","in":"ams","label":"402","groups":[[{"out":"fra","ops":[["swap","403"]]}]]},{"at":"fra","in":"ham","label":"403","groups":[[{"out":"ce2","ops":[["swap","404"]]}]]},{"at":"zrh","in":"fra","label":"404","groups":[[{"out":"par","ops":[["pop"]]}]]},{"at":"bru","in":"par","label":"501","groups":[[{"out":"ams","ops":[["swap","502"]]}]]},{"at":"ams","in":"bru","label":"502","groups":[[{"out":"ham","ops":[["swap","503"]]}]]},{"at":"ham","in":"ams","label":"503","groups":[[{"out":"fra","ops":[["swap","504"]]}]]},{"at":"fra","in":"ham","label":"504","groups":[[{"out":"zrh","ops":[["pop"]]}]]},{"at":"par","in":"zrh","label":"601","groups":[[{"out":"bru","ops":[["swap","602"]]}]]},{"at":"bru","in":"par","label":"602","groups":[[{"out":"ams","ops":[["swap","603"]]}]]},{"at":"ams","in":"bru","label":"603","groups":[[{"out":"ham","ops":[["swap","604"]]}]]},{"at":"ham","in":"ams","label":"604","groups":[[{"out":"fra","ops":[["pop"]]}]]},{"at":"fra","in":"ce2","label":"net1","groups":[[{"out":"ham","ops":[["push","s201"]]}]]},{"at":"ham","in":"fra","label":"s201","groups":[[{"out":"ams","ops":[["swap","s202"]]}]]},{"at":"ams","in":"ham","label":"s202","groups":[[{"out":"bru","ops":[["swap","s203"]]}]]},{"at":"bru","in":"ams","label":"s203","groups":[[{"out":"ce1","ops":[["pop"]]}]]}]}"#
}

const ANSWERS_ON_THE_RING: &[Case] = &[
    (
        "<net2> [ce1#bru] .* [fra#ce2] <net2> 0",
        None,
        "0<answer: yes\nweight: none\neffort: 10\nfailed: none\nmoving: yes\nlinks: 5\nce1.bru#bru.ce1 | net2\nbru.par#par.bru | s101 net2 | group 1 member 1\npar.zrh#zrh.par | s102 net2 | group 1 member 1\nzrh.fra#fra.zrh | s103 net2 | group 1 member 1\nfra.ce2#ce2.fra | net2 | group 1 member 1\n><>",
    ),
    (
        "<net2> [ce1#bru] .* [zrh#par] .* [fra#ce2] <net2> 1",
        None,
        "2<answer: inconclusive\nweight: none\neffort: 15\nneeds: zrh.fra#fra.zrh fra.zrh#zrh.fra fra.ham#ham.fra ham.fra#fra.ham\ncause: uses ham.fra#fra.ham\nmoving: yes\nlinks: 9\nce1.bru#bru.ce1 | net2\nbru.par#par.bru | s101 net2 | group 1 member 1\npar.zrh#zrh.par | s102 net2 | group 1 member 1\nzrh.par#par.zrh | 601 s103 net2 | group 2 member 1\npar.bru#bru.par | 602 s103 net2 | group 1 member 1\nbru.ams#ams.bru | 603 s103 net2 | group 1 member 1\nams.ham#ham.ams | 604 s103 net2 | group 1 member 1\nham.fra#fra.ham | s103 net2 | group 1 member 1\nfra.ce2#ce2.fra | net2 | group 1 member 1\n><>",
    ),
    (
        "<ip> [ce1#., ce2#.] .* [.#ce1, .#ce2] <mpls* smpls ip> 1",
        None,
        "0<answer: yes\nweight: none\neffort: 13\nfailed: bru.par#par.bru par.bru#bru.par\nmoving: yes\nlinks: 5\nce1.bru#bru.ce1 | net2\nbru.ams#ams.bru | 401 s101 net2 | group 2 member 1\nams.ham#ham.ams | 402 s101 net2 | group 1 member 1\nham.fra#fra.ham | 403 s101 net2 | group 1 member 1\nfra.ce2#ce2.fra | 404 s101 net2 | group 1 member 1\n><>",
    ),
];

#[test]
fn answers_on_the_ring(rt: HostRuntime) -> Result<(), Fail> {
    cases_are(&rt, rt.alloc(), ring(), ANSWERS_ON_THE_RING)
}
