//! Tests of JSON Merge Patch: the order of entries, and the table of RFC 7396, appendix A.

use crate::merge_patch::merge_patch;
use crate::tests::texts::{is_written, parsed};
use std::alloc::{AllocError, Global};
use std::process::Abort;

/// Targets, patches and results. The first four rows show the order of entries; the second patch
/// has many entries. The other rows are the table of RFC 7396.
#[rattlefmt::skip]
static MERGED: [(&str, &str, &str); 19] = [
    (r#"{"a":1,"b":2,"c":3,"d":4}"#, r#"{"e":5,"b":null,"d":{"x":null,"y":6},"f":null,"a":null}"#, r#"{"c":3,"d":{"y":6},"e":5}"#),
    (r#"{"z":0,"b":{"c":1,"d":2},"a":1,"7":{},"y":3}"#, r#"{"n":{"p":null,"q":1},"b":{"e":7,"c":null},"a":null,"z":5,
    "0":null,"1":null,"2":null,"3":null,"4":null,"5":null,"6":null,"7":null,"8":null,"9":null,"10":null,
    "11":null,"12":null,"13":null,"14":null,"15":null,"16":null,"17":null,"18":null,"19":null,"20":null,
    "21":null,"22":null,"23":null,"24":null,"25":null,"26":null,"27":null,"28":null,"29":null,"m":[null]}"#,
    r#"{"z":5,"b":{"d":2,"e":7},"y":3,"n":{"q":1},"m":[null]}"#),
    (r#"{"a":1,"b":2,"c":3}"#, r#"{"a":null}"#, r#"{"b":2,"c":3}"#),
    (r#"{"a":1,"b":2}"#, r#"{"a":3}"#, r#"{"a":3,"b":2}"#), (r#"{"a":"b"}"#, r#"{"a":"c"}"#, r#"{"a":"c"}"#),
    (r#"{"a":"b"}"#, r#"{"b":"c"}"#, r#"{"a":"b","b":"c"}"#), (r#"{"a":"b"}"#, r#"{"a":null}"#, "{}"),
    (r#"{"a":"b","b":"c"}"#, r#"{"a":null}"#, r#"{"b":"c"}"#),
    (r#"{"a":["b"]}"#, r#"{"a":"c"}"#, r#"{"a":"c"}"#), (r#"{"a":"c"}"#, r#"{"a":["b"]}"#, r#"{"a":["b"]}"#),
    (r#"{"a":{"b":"c"}}"#, r#"{"a":{"b":"d","c":null}}"#, r#"{"a":{"b":"d"}}"#),
    (r#"{"a":[{"b":"c"}]}"#, r#"{"a":[1]}"#, r#"{"a":[1]}"#), (r#"["a","b"]"#, r#"["c","d"]"#, r#"["c","d"]"#),
    (r#"{"a":"b"}"#, r#"["c"]"#, r#"["c"]"#), (r#"{"a":"foo"}"#, "null", "null"),
    (r#"{"a":"foo"}"#, r#""bar""#, r#""bar""#), (r#"{"e":null}"#, r#"{"a":1}"#, r#"{"e":null,"a":1}"#),
    ("[1,2]", r#"{"a":"b","c":null}"#, r#"{"a":"b"}"#),
    ("{}", r#"{"a":{"bb":{"ccc":null}}}"#, r#"{"a":{"bb":{}}}"#),
];

fn is_patched(rt: &impl Abort, alloc: Global, target: &str, patch: &str, want: &str) {
    let change = parsed(rt, alloc, patch);
    let value = granted!(rt; merge_patch(alloc, parsed(rt, alloc, target), &change));
    drop(change);
    is_written(rt, alloc, &value, want);
    drop(value);
}

#[test]
fn patches(rt: HostRuntime) {
    for &(target, patch, want) in &MERGED {
        is_patched(&rt, rt.alloc(), target, patch, want);
    }
}
