//! Inputs with a fault in a part of a declaration: what is told, and where, worked out by hand.

/// Faults of methods, receivers, paths and lifetimes.
pub const FAULTY_METHODS: [&str; 27] = [
    // Methods.
    r#"missing key at "/root/items/0/methods/0": {"root":{"items":[{"kind":"opaque","name":"O","methods":[{}]}]}}"#,
    r#"missing key at "/root/items/0/methods/0": {"root":{"items":[{"kind":"opaque","name":"O","methods":[{"name":"m"}]}]}}"#,
    r#"missing key at "/root/items/0/methods/0": {"root":{"items":[{"kind":"opaque","name":"O","methods":[{"name":"m","self":7}]}]}}"#,
    r#"wrong form at "/root/items/0/methods/0/abi_name": {"root":{"items":[{"kind":"opaque","name":"O","methods":[{"name":"m","abi_name":7}]}]}}"#,
    r#"unknown key at "/root/items/0/methods/0/kind": {"root":{"items":[{"kind":"opaque","name":"O","methods":[{"name":"m","kind":"method"}]}]}}"#,
    r#"wrong form at "/root/items/0/methods/0/self_type": {"root":{"items":[{"kind":"opaque","name":"O","methods":[{"name":"m","self_type":"O"}]}]}}"#,
    r#"wrong form at "/root/items/0/methods/0/lifetimes": {"root":{"items":[{"kind":"opaque","name":"O","methods":[{"name":"m","self_type":{"segments":["O"]},"ret":7,"params":7,"lifetimes":7}]}]}}"#,
    r#"wrong form at "/root/items/0/methods/0/docs": {"root":{"items":[{"kind":"opaque","name":"O","methods":[{"name":"m","self_type":{"segments":["O"]},"attrs":7,"docs":[]}]}]}}"#,
    // Receivers.
    r#"wrong form at "/root/items/0/methods/0/self": {"root":{"items":[{"kind":"opaque","name":"O","methods":[{"name":"m","self_type":{"segments":["O"]},"self":"O"}]}]}}"#,
    r#"missing key at "/root/items/0/methods/0/self": {"root":{"items":[{"kind":"opaque","name":"O","methods":[{"name":"m","self_type":{"segments":["O"]},"self":{}}]}]}}"#,
    r#"missing key at "/root/items/0/methods/0/self/reference": {"root":{"items":[{"kind":"opaque","name":"O","methods":[{"name":"m","self_type":{"segments":["O"]},"self":{"reference":{},"path":7}}]}]}}"#,
    r#"wrong form at "/root/items/0/methods/0/self/reference/mutable": {"root":{"items":[{"kind":"opaque","name":"O","methods":[{"name":"m","self_type":{"segments":["O"]},"self":{"reference":{"lifetime":"a","mutable":"yes"}}}]}]}}"#,
    r#"unknown key at "/root/items/0/methods/0/self/reference/to": {"root":{"items":[{"kind":"opaque","name":"O","methods":[{"name":"m","self_type":{"segments":["O"]},"self":{"reference":{"lifetime":["a"],"to":"O"}}}]}]}}"#,
    // Paths.
    r#"missing key at "/root/items/0/methods/0/self_type": {"root":{"items":[{"kind":"opaque","name":"O","methods":[{"name":"m","self_type":{}}]}]}}"#,
    r#"wrong form at "/root/items/0/methods/0/self_type/segments": {"root":{"items":[{"kind":"opaque","name":"O","methods":[{"name":"m","self_type":{"segments":[]}}]}]}}"#,
    r#"wrong form at "/root/items/0/methods/0/self_type/segments/1": {"root":{"items":[{"kind":"opaque","name":"O","methods":[{"name":"m","self_type":{"segments":["a",7]}}]}]}}"#,
    r#"wrong form at "/root/items/0/methods/0/self_type/lifetimes/1": {"root":{"items":[{"kind":"opaque","name":"O","methods":[{"name":"m","self_type":{"segments":["O"],"lifetimes":["a",null]}}]}]}}"#,
    // Lifetimes.
    r#"wrong form at "/root/items/0/lifetimes/0": {"root":{"items":[{"kind":"function","name":"f","lifetimes":[7]}]}}"#,
    r#"missing key at "/root/items/0/lifetimes/0": {"root":{"items":[{"kind":"function","name":"f","lifetimes":[{"longer":[]}]}]}}"#,
    r#"unknown key at "/root/items/0/lifetimes/0/outlives": {"root":{"items":[{"kind":"function","name":"f","lifetimes":[{"name":"a","outlives":[]}]}]}}"#,
    r#"wrong form at "/root/items/0/lifetimes/0/longer": {"root":{"items":[{"kind":"function","name":"f","lifetimes":[{"name":"a","longer":0}]}]}}"#,
    r#"wrong form at "/root/items/0/lifetimes/0/longer/0": {"root":{"items":[{"kind":"function","name":"f","lifetimes":[{"name":"a","shorter":["0"],"longer":[null]}]}]}}"#,
    r#"wrong form at "/root/items/0/lifetimes/0/longer/1": {"root":{"items":[{"kind":"function","name":"f","lifetimes":[{"name":"a","longer":[0,-1]}]}]}}"#,
    r#"wrong form at "/root/items/0/lifetimes/0/longer/0": {"root":{"items":[{"kind":"function","name":"f","lifetimes":[{"name":"a","longer":[0.0]}]}]}}"#,
    r#"wrong form at "/root/items/0/lifetimes/0/shorter/0": {"root":{"items":[{"kind":"function","name":"f","lifetimes":[{"name":"a","shorter":[-0]}]}]}}"#,
    r#"wrong form at "/root/items/0/lifetimes/0/shorter/0": {"root":{"items":[{"kind":"function","name":"f","lifetimes":[{"name":"a","shorter":[0e0]}]}]}}"#,
    r#"wrong form at "/root/items/0/lifetimes/0/shorter/0": {"root":{"items":[{"kind":"function","name":"f","lifetimes":[{"name":"a","shorter":[18446744073709551616]}]}]}}"#,
];

/// Faults of types that are words, and of objects with another count of live keys than one.
pub const FAULTY_WORDS: [&str; 12] = [
    // Words and other values.
    r#"wrong form at "/root/items/0/ret": {"root":{"items":[{"kind":"function","name":"f","ret":"u9"}]}}"#,
    r#"wrong form at "/root/items/0/ret": {"root":{"items":[{"kind":"function","name":"f","ret":"U8"}]}}"#,
    r#"wrong form at "/root/items/0/ret": {"root":{"items":[{"kind":"function","name":"f","ret":"str"}]}}"#,
    r#"wrong form at "/root/items/0/ret": {"root":{"items":[{"kind":"function","name":"f","ret":7}]}}"#,
    r#"wrong form at "/root/items/0/ret": {"root":{"items":[{"kind":"function","name":"f","ret":["u8"]}]}}"#,
    // Objects with no live key, with several, and with unknown ones.
    r#"wrong form at "/root/items/0/ret": {"root":{"items":[{"kind":"function","name":"f","ret":{}}]}}"#,
    r#"wrong form at "/root/items/0/ret": {"root":{"items":[{"kind":"function","name":"f","ret":{"named":null}}]}}"#,
    r#"wrong form at "/root/items/0/ret": {"root":{"items":[{"kind":"function","name":"f","ret":{"box":"unit","option":"u8"}}]}}"#,
    r#"wrong form at "/root/items/0/ret": {"root":{"items":[{"kind":"function","name":"f","ret":{"box":7,"option":7,"ref":null}}]}}"#,
    r#"unknown key at "/root/items/0/ret/pointer": {"root":{"items":[{"kind":"function","name":"f","ret":{"box":7,"pointer":7}}]}}"#,
    r#"unknown key at "/root/items/0/ret/colour": {"root":{"items":[{"kind":"function","name":"f","ret":{"box":"unit","option":"unit","colour":null}}]}}"#,
    r#"unknown key at "/root/items/0/ret/pointer": {"root":{"items":[{"kind":"function","name":"f","ret":{"pointer":null}}]}}"#,
];

/// Faults of types of each key.
pub const FAULTY_TYPES: [&str; 39] = [
    // Types of each key.
    r#"wrong form at "/root/items/0/ret/named": {"root":{"items":[{"kind":"function","name":"f","ret":{"named":"A"}}]}}"#,
    r#"missing key at "/root/items/0/ret/named": {"root":{"items":[{"kind":"function","name":"f","ret":{"named":{}}}]}}"#,
    r#"wrong form at "/root/items/0/ret/self/segments": {"root":{"items":[{"kind":"function","name":"f","ret":{"self":{"segments":"S"}}}]}}"#,
    r#"unknown key at "/root/items/0/ret/impl/std": {"root":{"items":[{"kind":"function","name":"f","ret":{"impl":{"segments":["T"],"std":true}}}]}}"#,
    r#"missing key at "/root/items/0/ret/ref": {"root":{"items":[{"kind":"function","name":"f","ret":{"ref":{"to":7}}}]}}"#,
    r#"missing key at "/root/items/0/ret/ref": {"root":{"items":[{"kind":"function","name":"f","ret":{"ref":{"lifetime":"a"}}}]}}"#,
    r#"missing key at "/root/items/0/ret/ref": {"root":{"items":[{"kind":"function","name":"f","ret":{"ref":{"lifetime":null,"to":"u8"}}}]}}"#,
    r#"wrong form at "/root/items/0/ret/ref/mutable": {"root":{"items":[{"kind":"function","name":"f","ret":{"ref":{"lifetime":"a","to":"v8","mutable":1}}}]}}"#,
    r#"wrong form at "/root/items/0/ret/ref/to": {"root":{"items":[{"kind":"function","name":"f","ret":{"ref":{"lifetime":"a","mutable":null,"to":"v8"}}}]}}"#,
    r#"wrong form at "/root/items/0/ret/option/box/diplomat_option": {"root":{"items":[{"kind":"function","name":"f","ret":{"option":{"box":{"diplomat_option":"str"}}}}]}}"#,
    r#"wrong form at "/root/items/0/ret/box/box": {"root":{"items":[{"kind":"function","name":"f","ret":{"box":{"box":{}}}}]}}"#,
    r#"missing key at "/root/items/0/ret/result": {"root":{"items":[{"kind":"function","name":"f","ret":{"result":{"ok":"unit"}}}]}}"#,
    r#"missing key at "/root/items/0/ret/result": {"root":{"items":[{"kind":"function","name":"f","ret":{"result":{"err":7}}}]}}"#,
    r#"wrong form at "/root/items/0/ret/result": {"root":{"items":[{"kind":"function","name":"f","ret":{"result":["unit","unit"]}}]}}"#,
    r#"wrong form at "/root/items/0/ret/diplomat_result/ok": {"root":{"items":[{"kind":"function","name":"f","ret":{"diplomat_result":{"err":{},"ok":{"box":null}}}}]}}"#,
    r#"wrong form at "/root/items/0/ret/write": {"root":{"items":[{"kind":"function","name":"f","ret":{"write":"byte"}}]}}"#,
    r#"wrong form at "/root/items/0/ret/write": {"root":{"items":[{"kind":"function","name":"f","ret":{"write":"bool"}}]}}"#,
    r#"wrong form at "/root/items/0/ret/write": {"root":{"items":[{"kind":"function","name":"f","ret":{"write":"char"}}]}}"#,
    r#"wrong form at "/root/items/0/ret/write": {"root":{"items":[{"kind":"function","name":"f","ret":{"write":"utf8"}}]}}"#,
    r#"missing key at "/root/items/0/ret/str": {"root":{"items":[{"kind":"function","name":"f","ret":{"str":{}}}]}}"#,
    r#"wrong form at "/root/items/0/ret/str/lifetime": {"root":{"items":[{"kind":"function","name":"f","ret":{"str":{"encoding":"utf16","lifetime":7}}}]}}"#,
    r#"wrong form at "/root/items/0/ret/str/encoding": {"root":{"items":[{"kind":"function","name":"f","ret":{"str":{"encoding":"utf16"}}}]}}"#,
    r#"unknown key at "/root/items/0/ret/str/mutable": {"root":{"items":[{"kind":"function","name":"f","ret":{"str":{"encoding":"utf8","mutable":false}}}]}}"#,
    r#"unknown key at "/root/items/0/ret/strs/lifetime": {"root":{"items":[{"kind":"function","name":"f","ret":{"strs":{"encoding":"utf8","lifetime":null}}}]}}"#,
    r#"wrong form at "/root/items/0/ret/strs/std": {"root":{"items":[{"kind":"function","name":"f","ret":{"strs":{"encoding":"utf8","std":"yes"}}}]}}"#,
    // An owned slice isn't mutable, which is told where `mutable` is read.
    r#"wrong form at "/root/items/0/ret/slice/mutable": {"root":{"items":[{"kind":"function","name":"f","ret":{"slice":{"mutable":true,"of":"u8"}}}]}}"#,
    r#"wrong form at "/root/items/0/ret/slice/mutable": {"root":{"items":[{"kind":"function","name":"f","ret":{"slice":{"lifetime":null,"mutable":true,"of":"u9"}}}]}}"#,
    r#"wrong form at "/root/items/0/ret/custom_slice/mutable": {"root":{"items":[{"kind":"function","name":"f","ret":{"custom_slice":{"mutable":true}}}]}}"#,
    r#"missing key at "/root/items/0/ret/custom_slice": {"root":{"items":[{"kind":"function","name":"f","ret":{"custom_slice":{"lifetime":"a","mutable":true}}}]}}"#,
    r#"wrong form at "/root/items/0/ret/slice/lifetime": {"root":{"items":[{"kind":"function","name":"f","ret":{"slice":{"lifetime":7,"mutable":true}}}]}}"#,
    r#"wrong form at "/root/items/0/ret/slice/of": {"root":{"items":[{"kind":"function","name":"f","ret":{"slice":{"of":"ordering"}}}]}}"#,
    r#"wrong form at "/root/items/0/ret/slice/of": {"root":{"items":[{"kind":"function","name":"f","ret":{"slice":{"of":{"box":"u8"}}}}]}}"#,
    r#"wrong form at "/root/items/0/ret/slice/std": {"root":{"items":[{"kind":"function","name":"f","ret":{"slice":{"std":1,"of":"u8"}}}]}}"#,
    r#"wrong form at "/root/items/0/ret/custom_slice/of/slice/of": {"root":{"items":[{"kind":"function","name":"f","ret":{"custom_slice":{"of":{"slice":{"of":"unit"}}}}}]}}"#,
    r#"wrong form at "/root/items/0/ret/fn": {"root":{"items":[{"kind":"function","name":"f","ret":{"fn":[]}}]}}"#,
    r#"wrong form at "/root/items/0/ret/fn/params/1": {"root":{"items":[{"kind":"function","name":"f","ret":{"fn":{"params":["u8",null]}}}]}}"#,
    r#"wrong form at "/root/items/0/ret/fn/params": {"root":{"items":[{"kind":"function","name":"f","ret":{"fn":{"ret":{},"params":{}}}}]}}"#,
    r#"wrong form at "/root/items/0/ret/fn/ret": {"root":{"items":[{"kind":"function","name":"f","ret":{"fn":{"ret":{},"mutable":1}}}]}}"#,
    r#"unknown key at "/root/items/0/ret/fn/name": {"root":{"items":[{"kind":"function","name":"f","ret":{"fn":{"name":"f"}}}]}}"#,
];
