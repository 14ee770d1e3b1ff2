//! Networks on which a packet goes round more and more often: one router with one link from itself to itself. Label `d0` is
//! popped; each other label `d` becomes two of the one before it.
use crate::called::{begins, weighed};
use std::alloc::{AllocError, Global};
use std::test::Fail;

/// The file of the network with the labels `d0` to `dn`.
pub fn doubles(alloc: Global, n: usize) -> Result<String, AllocError> {
    doubles_beside(alloc, n, "")
}

/// The same, where these links stand behind the one that is used, each after a comma.
pub fn doubles_beside(alloc: Global, n: usize, links: &str) -> Result<String, AllocError> {
    let mut text = String::from_str(
        alloc,
        r#"{"format":"mpls-whatif-1","routers":["r"],"labels":{"smpls":["s1"],"ip":["ip1"],"mpls":["d0""#,
    )?;
    for below in 0..n {
        let i = below + 1;
        text.push_str(&format!(in alloc; ",\"d{i}\"")?)?;
    }
    text.push_str(r#"]},"links":[{"from":"r","out":"o","to":"r","in":"i","distance":1}"#)?;
    text.push_str(links)?;
    text.push_str(
        r#"],"tables":[{"at":"r","in":"i","label":"d0","groups":[[{"out":"o","ops":[["pop"]]}]]}"#,
    )?;
    for below in 0..n {
        let i = below + 1;
        text.push_str(&format!(in alloc;
            ",{{\"at\":\"r\",\"in\":\"i\",\"label\":\"d{i}\",\"groups\":[[{{\"out\":\"o\",\"ops\":[[\"swap\",\"d{below}\"],[\"push\",\"d{below}\"]]}}]]}}"
        )?)?;
    }
    text.push_str("]}")?;
    Ok(text)
}

// What `verify` ends with on such a network.
fn doubled(alloc: Global, n: usize, query: &str, weights: Option<&str>) -> Result<String, Fail> {
    let text = doubles(alloc, n)?;
    weighed(alloc, text.as_bytes(), query, weights)
}

// The number of the network, a query, weights, and how what `verify` prints and says is to begin.
const RUNS: &[(usize, &str, Option<&str>, &str)] = &[
    (
        10,
        "<d10 s1 ip1> .* <s1 ip1> 0",
        Some("Hops"),
        "0<answer: yes\nweight: 0\neffort: 3079\nfailed: none\nmoving: yes\nlinks: 2048\nr.o#r.i | d10 s1 ip1\n",
    ),
    (
        10,
        "<d10 d8 d6 d4 d1 d1 d0 s1 ip1> .* <s1 ip1> 0",
        None,
        "0<answer: yes\nweight: none\neffort: 4096\nfailed: none\nmoving: yes\nlinks: 2724\n",
    ),
    (
        10,
        "<d10 d8 d6 d4 d2 d0 s1 ip1> .* <s1 ip1> 0",
        None,
        "7<><too long: effort 4097, limit 4096\n>",
    ),
    (
        11,
        "<d11 s1 ip1> .* <s1 ip1> 0",
        None,
        "7<><too long: effort 6151, limit 4096\n>",
    ),
    (
        62,
        "<d62 s1 ip1> .* <s1 ip1> 0",
        None,
        "7<><too long: effort 13835058055282163719, limit 4096\n>",
    ),
    (
        63,
        "<d63 s1 ip1> .* <s1 ip1> 0",
        None,
        "6<><overflow: component 1 is 27670116110564327421\n>",
    ),
];

#[test]
fn labels_that_double(rt: HostRuntime) -> Result<(), Fail> {
    for (n, query, weights, wanted) in RUNS {
        let said = doubled(rt.alloc(), *n, query, *weights);
        begins(&rt, said, wanted)?;
    }
    Ok(())
}
