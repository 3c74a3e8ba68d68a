//! Inputs with a fault of the form, each after its fault and the JSON pointer of its place, which are worked out by hand.

/// Faults of the input's own keys, of what order they are read in, and of what their pointers escape.
pub const FAULTY_INPUTS: [&str; 25] = [
    // The input.
    r#"wrong form at "": null"#,
    r#"wrong form at "": []"#,
    r#"wrong form at "": "root""#,
    r#"wrong form at "": 7"#,
    r#"missing key at "": {}"#,
    r#"missing key at "": {"root":null}"#,
    r#"wrong form at "/root": {"root":[]}"#,
    r#"unknown key at "/colour": {"root":{},"colour":1}"#,
    // Null under an unknown key is a fault too.
    r#"unknown key at "/colour": {"root":{},"colour":null}"#,
    // Unknown keys come before missing ones and before all values.
    r#"unknown key at "/colour": {"colour":1}"#,
    r#"unknown key at "/colour": {"root":7,"colour":1}"#,
    // The first unknown key in the order of bytes, wherever it is written.
    r#"unknown key at "/Zebra": {"root":7,"zebra":1,"Zebra":2}"#,
    r#"unknown key at "/z": {"root":7,"é":1,"z":2}"#,
    r#"unknown key at "/colour": {"root":7,"colours":1,"colour":2}"#,
    // Pointers are escaped; all else is printed as it stands.
    r#"unknown key at "/": {"root":{},"":1}"#,
    r#"unknown key at "/a~1b~0c": {"root":{},"a/b~c":1}"#,
    r#"unknown key at "/~01": {"root":{},"~1":1}"#,
    r#"unknown key at "/A~1": {"root":{},"\u0041\/":1}"#,
    r#"unknown key at "/"ä"": {"root":{},"\"ä\"":1}"#,
    // Keys are read in the order of the form.
    r#"wrong form at "/root": {"docs":7,"config":7,"backend":7,"root":7}"#,
    r#"wrong form at "/config": {"docs":7,"config":7,"root":{}}"#,
    r#"wrong form at "/docs": {"docs":7,"config":null,"root":{}}"#,
    // Of a key that stands twice the last value counts.
    r#"wrong form at "/root": {"root":{},"root":[]}"#,
    r#"wrong form at "/docs": {"root":{},"docs":{},"docs":7}"#,
    r#"missing key at "": {"root":{},"root":null}"#,
];

/// Faults of the backend, of the configuration and of the input's documents.
pub const FAULTY_SETTINGS: [&str; 19] = [
    // The backend.
    r#"wrong form at "/backend": {"root":{},"backend":[]}"#,
    r#"unknown key at "/backend/flags": {"root":{},"backend":{"flags":[]}}"#,
    r#"wrong form at "/backend/name": {"root":{},"backend":{"name":7,"other_names":7}}"#,
    r#"wrong form at "/backend/other_names/1": {"root":{},"backend":{"other_names":["a",null]}}"#,
    // A flag has its own name here, which isn't that of a condition.
    r#"wrong form at "/backend/supports/1": {"root":{},"backend":{"supports":["option","default"]}}"#,
    r#"wrong form at "/backend/supports/0": {"root":{},"backend":{"supports":[7]}}"#,
    r#"wrong form at "/backend/pairs/0": {"root":{},"backend":{"pairs":[["a","b"]]}}"#,
    r#"missing key at "/backend/pairs/0": {"root":{},"backend":{"pairs":[{"name":"a"}]}}"#,
    r#"wrong form at "/backend/pairs/0/value": {"root":{},"backend":{"pairs":[{"name":"a","value":true}]}}"#,
    r#"wrong form at "/backend/features": {"root":{},"backend":{"features":"a"}}"#,
    r#"wrong form at "/backend/features/0": {"root":{},"backend":{"unstable":[[]],"features":[7]}}"#,
    r#"wrong form at "/backend/unstable/0": {"root":{},"backend":{"unstable":[[]]}}"#,
    // The configuration.
    r#"unknown key at "/config/unsafe_references": {"root":{},"config":{"unsafe_references":true}}"#,
    r#"wrong form at "/config/unsafe_references_in_callbacks": {"root":{},"config":{"unsafe_references_in_callbacks":"yes"}}"#,
    // The documents of the input.
    r#"unknown key at "/docs/links": {"root":{},"docs":{"links":[]}}"#,
    r#"wrong form at "/docs/default": {"root":{},"docs":{"default":{}}}"#,
    r#"wrong form at "/docs/bases": {"root":{},"docs":{"bases":[]}}"#,
    r#"wrong form at "/docs/bases/a~1b": {"root":{},"docs":{"bases":{"b":7,"a/b":8}}}"#,
    r#"wrong form at "/docs/bases/b": {"root":{},"docs":{"bases":{"a":null,"b":{}}}}"#,
];

/// Faults of modules and aliases.
pub const FAULTY_MODULES: [&str; 20] = [
    // The root has no name.
    r#"unknown key at "/root/name": {"root":{"name":"r"}}"#,
    r#"unknown key at "/root/name": {"root":{"name":null}}"#,
    // Modules.
    r#"wrong form at "/root/attrs": {"root":{"items":7,"attrs":7}}"#,
    r#"wrong form at "/root/items": {"root":{"modules":7,"aliases":7,"items":7}}"#,
    r#"wrong form at "/root/aliases": {"root":{"modules":7,"aliases":{}}}"#,
    r#"wrong form at "/root/modules": {"root":{"modules":{}}}"#,
    r#"wrong form at "/root/modules/0": {"root":{"modules":[null]}}"#,
    r#"missing key at "/root/modules/0": {"root":{"modules":[{}]}}"#,
    r#"missing key at "/root/modules/1": {"root":{"modules":[{"name":"m"},{"name":null,"items":7}]}}"#,
    r#"unknown key at "/root/modules/0/kind": {"root":{"modules":[{"name":7,"kind":"m"}]}}"#,
    r#"wrong form at "/root/modules/0/name": {"root":{"modules":[{"name":["m"],"attrs":7}]}}"#,
    r#"unknown key at "/root/modules/0/modules/0/root": {"root":{"modules":[{"name":"m","modules":[{"name":"n","root":{}}]}]}}"#,
    // A module whole before the next.
    r#"missing key at "/root/modules/0/modules/1": {"root":{"modules":[{"name":"m","modules":[{"name":"n"},{}]},7]}}"#,
    // Aliases.
    r#"wrong form at "/root/aliases/0": {"root":{"aliases":[[]]}}"#,
    r#"missing key at "/root/aliases/0": {"root":{"aliases":[{"name":"a"}]}}"#,
    r#"missing key at "/root/aliases/0": {"root":{"aliases":[{"target":"a"}]}}"#,
    r#"wrong form at "/root/aliases/0/name": {"root":{"aliases":[{"target":"a","name":7}]}}"#,
    r#"wrong form at "/root/aliases/0/target": {"root":{"aliases":[{"name":"a","target":"b"}]}}"#,
    r#"wrong form at "/root/aliases/0/target/1": {"root":{"aliases":[{"name":"a","target":["b",7]}]}}"#,
    r#"unknown key at "/root/aliases/0/path": {"root":{"aliases":[{"name":"a","target":[],"path":[]}]}}"#,
];

/// Faults of structs, out-structs and opaques.
pub const FAULTY_ITEMS: [&str; 21] = [
    // The kind of an item comes before everything else of it.
    r#"wrong form at "/root/items/0": {"root":{"items":[7]}}"#,
    r#"missing key at "/root/items/0": {"root":{"items":[{"colour":1}]}}"#,
    r#"missing key at "/root/items/0": {"root":{"items":[{"kind":null,"colour":1}]}}"#,
    r#"wrong form at "/root/items/0/kind": {"root":{"items":[{"kind":"union","colour":1}]}}"#,
    r#"wrong form at "/root/items/0/kind": {"root":{"items":[{"kind":7}]}}"#,
    r#"wrong form at "/root/items/0/kind": {"root":{"items":[{"kind":"Struct"}]}}"#,
    r#"wrong form at "/root/items/0/kind": {"root":{"items":[{"kind":["struct"],"name":7}]}}"#,
    // Structs and out-structs.
    r#"unknown key at "/root/items/0/variants": {"root":{"items":[{"kind":"struct","variants":[]}]}}"#,
    r#"missing key at "/root/items/0": {"root":{"items":[{"kind":"struct","fields":7}]}}"#,
    r#"wrong form at "/root/items/0/name": {"root":{"items":[{"kind":"struct","name":7,"lifetimes":7}]}}"#,
    r#"wrong form at "/root/items/0/fields": {"root":{"items":[{"kind":"struct","name":"S","attrs":7,"docs":7,"methods":7,"fields":7}]}}"#,
    r#"unknown key at "/root/items/0/mutable": {"root":{"items":[{"kind":"out_struct","name":"S","mutable":true}]}}"#,
    r#"wrong form at "/root/items/0/lifetimes": {"root":{"items":[{"kind":"out_struct","name":"S","lifetimes":{}}]}}"#,
    r#"missing key at "/root/items/0/fields/0": {"root":{"items":[{"kind":"struct","name":"S","fields":[{"ty":"u8"}]}]}}"#,
    r#"missing key at "/root/items/0/fields/0": {"root":{"items":[{"kind":"struct","name":"S","fields":[{"name":"x","ty":null}]}]}}"#,
    r#"wrong form at "/root/items/0/fields/0/docs": {"root":{"items":[{"kind":"struct","name":"S","fields":[{"name":"x","ty":"u8","attrs":7,"docs":7}]}]}}"#,
    r#"unknown key at "/root/items/0/fields/0/kind": {"root":{"items":[{"kind":"struct","name":"S","fields":[{"name":"x","ty":"u8","kind":"u8"}]}]}}"#,
    // Opaques.
    r#"unknown key at "/root/items/0/fields": {"root":{"items":[{"kind":"opaque","name":"O","fields":[]}]}}"#,
    r#"wrong form at "/root/items/0/mutable": {"root":{"items":[{"kind":"opaque","name":"O","mutable":1}]}}"#,
    r#"wrong form at "/root/items/0/dtor_abi_name": {"root":{"items":[{"kind":"opaque","name":"O","dtor_abi_name":["x"],"methods":[]}]}}"#,
    r#"wrong form at "/root/items/0/methods": {"root":{"items":[{"kind":"opaque","name":"O","dtor_abi_name":7,"methods":7}]}}"#,
];

/// Faults of enums, traits and functions.
pub const FAULTY_OTHER_ITEMS: [&str; 20] = [
    // Enums.
    r#"unknown key at "/root/items/0/lifetimes": {"root":{"items":[{"kind":"enum","name":"E","lifetimes":[]}]}}"#,
    r#"missing key at "/root/items/0/variants/0": {"root":{"items":[{"kind":"enum","name":"E","variants":[{"name":"A"}]}]}}"#,
    r#"wrong form at "/root/items/0/variants/0/discriminant": {"root":{"items":[{"kind":"enum","name":"E","variants":[{"name":"A","discriminant":"0"}]}]}}"#,
    // A whole number is one that is written with digits alone and has 64 bits.
    r#"wrong form at "/root/items/0/variants/0/discriminant": {"root":{"items":[{"kind":"enum","name":"E","variants":[{"name":"A","discriminant":1.0}]}]}}"#,
    r#"wrong form at "/root/items/0/variants/0/discriminant": {"root":{"items":[{"kind":"enum","name":"E","variants":[{"name":"A","discriminant":1e2}]}]}}"#,
    r#"wrong form at "/root/items/0/variants/0/discriminant": {"root":{"items":[{"kind":"enum","name":"E","variants":[{"name":"A","discriminant":-0}]}]}}"#,
    r#"wrong form at "/root/items/0/variants/0/discriminant": {"root":{"items":[{"kind":"enum","name":"E","variants":[{"name":"A","discriminant":9223372036854775808}]}]}}"#,
    r#"wrong form at "/root/items/0/variants/0/discriminant": {"root":{"items":[{"kind":"enum","name":"E","variants":[{"name":"A","discriminant":-9223372036854775809}]}]}}"#,
    // Traits.
    r#"unknown key at "/root/items/0/fields": {"root":{"items":[{"kind":"trait","name":"T","fields":[]}]}}"#,
    r#"wrong form at "/root/items/0/is_send": {"root":{"items":[{"kind":"trait","name":"T","is_sync":"no","is_send":"no"}]}}"#,
    r#"wrong form at "/root/items/0/is_sync": {"root":{"items":[{"kind":"trait","name":"T","is_sync":0}]}}"#,
    r#"unknown key at "/root/items/0/methods/0/abi_name": {"root":{"items":[{"kind":"trait","name":"T","methods":[{"name":"m","abi_name":"n"}]}]}}"#,
    r#"wrong form at "/root/items/0/methods/0/lifetimes": {"root":{"items":[{"kind":"trait","name":"T","methods":[{"name":"m","self":7,"lifetimes":7}]}]}}"#,
    r#"unknown key at "/root/items/0/methods/0/self/attrs": {"root":{"items":[{"kind":"trait","name":"T","methods":[{"name":"m","self":{"path":{"segments":["T"]},"attrs":{}}}]}]}}"#,
    // Functions.
    r#"unknown key at "/root/items/0/methods": {"root":{"items":[{"kind":"function","name":"f","methods":[]}]}}"#,
    r#"unknown key at "/root/items/0/self": {"root":{"items":[{"kind":"function","name":"f","self":null}]}}"#,
    r#"wrong form at "/root/items/0/abi_name": {"root":{"items":[{"kind":"function","name":"f","abi_name":7,"ret":7}]}}"#,
    r#"missing key at "/root/items/0/params/0": {"root":{"items":[{"kind":"function","name":"f","params":[{"name":"x"}]}]}}"#,
    r#"unknown key at "/root/items/0/params/0/docs": {"root":{"items":[{"kind":"function","name":"f","params":[{"name":"x","ty":"u8","docs":{}}]}]}}"#,
    r#"wrong form at "/root/items/0/params/0/attrs": {"root":{"items":[{"kind":"function","name":"f","ret":7,"params":[{"name":"x","ty":"u8","attrs":[]}]}]}}"#,
];
