//! Networks on which a packet may come back at each of some places. At place i it goes from `ai` on to the next by link `e`; where that
//! has failed, by link `f`, or to `ci`, which sends it back to `ai`, and from there it goes on by `e` alone. So what comes back takes a
//! link that must have failed, and this is so of each place by itself.
use std::alloc::{AllocError, Global};

/// The file of the network with so many places, between `x`, which has two links to the first, and `y`.
pub fn returns(alloc: Global, places: usize) -> Result<String, AllocError> {
    let mut text = String::from_str(
        alloc,
        r#"{"format":"mpls-whatif-1","labels":{"mpls":[],"smpls":[],"ip":["ip1"]},"routers":["x","y","a0""#,
    )?;
    for i in 0..places {
        let next = i + 1;
        text.push_str(&format!(in alloc; ",\"a{next}\",\"c{i}\"")?)?;
    }
    text.push_str(
        r#"],"links":[{"from":"x","out":"e","to":"a0","in":"e","distance":1},{"from":"x","out":"f","to":"a0","in":"f","distance":1}"#,
    )?;
    for i in 0..places {
        let next = i + 1;
        text.push_str(&format!(in alloc;
            ",{{\"from\":\"a{i}\",\"out\":\"e\",\"to\":\"a{next}\",\"in\":\"e\",\"distance\":1}},{{\"from\":\"a{i}\",\"out\":\"f\",\"to\":\"a{next}\",\"in\":\"f\",\"distance\":1}}"
        )?)?;
        text.push_str(&format!(in alloc;
            ",{{\"from\":\"a{i}\",\"out\":\"c\",\"to\":\"c{i}\",\"in\":\"a\",\"distance\":1}},{{\"from\":\"c{i}\",\"out\":\"a\",\"to\":\"a{i}\",\"in\":\"c\",\"distance\":1}}"
        )?)?;
    }
    text.push_str(&format!(in alloc;
        ",{{\"from\":\"a{places}\",\"out\":\"e\",\"to\":\"y\",\"in\":\"a\",\"distance\":1}}],\"tables\":["
    )?)?;
    for i in 0..places {
        for into in ["e", "f"] {
            text.push_str(&format!(in alloc;
                "{{\"at\":\"a{i}\",\"in\":\"{into}\",\"label\":\"ip1\",\"groups\":[[{{\"out\":\"e\",\"ops\":[]}}],[{{\"out\":\"c\",\"ops\":[]}},{{\"out\":\"f\",\"ops\":[]}}]]}},"
            )?)?;
        }
        text.push_str(&format!(in alloc;
            "{{\"at\":\"a{i}\",\"in\":\"c\",\"label\":\"ip1\",\"groups\":[[{{\"out\":\"e\",\"ops\":[]}}]]}},{{\"at\":\"c{i}\",\"in\":\"a\",\"label\":\"ip1\",\"groups\":[[{{\"out\":\"a\",\"ops\":[]}}]]}},"
        )?)?;
    }
    text.push_str(&format!(in alloc;
        "{{\"at\":\"a{places}\",\"in\":\"e\",\"label\":\"ip1\",\"groups\":[[{{\"out\":\"e\",\"ops\":[]}}]]}},{{\"at\":\"a{places}\",\"in\":\"f\",\"label\":\"ip1\",\"groups\":[[{{\"out\":\"e\",\"ops\":[]}}]]}}]}}"
    )?)?;
    Ok(text)
}
