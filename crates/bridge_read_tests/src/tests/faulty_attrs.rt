//! Inputs with a fault in attributes or documentation, each after what is told and where, worked out by hand.

/// Faults of attributes and marks.
pub const FAULTY_MARKS: [&str; 20] = [
    // Attributes.
    r#"wrong form at "/root/attrs": {"root":{"attrs":[]}}"#,
    r#"unknown key at "/root/attrs/disable": {"root":{"attrs":{"disable":true}}}"#,
    r#"wrong form at "/root/attrs/features/1": {"root":{"attrs":{"features":["a",7],"marks":7}}}"#,
    r#"wrong form at "/root/attrs/marks": {"root":{"attrs":{"marks":{}}}}"#,
    r#"wrong form at "/root/attrs/abi_rename": {"root":{"attrs":{"abi_rename":7,"deprecated":7}}}"#,
    r#"wrong form at "/root/attrs/abi_rename": {"root":{"attrs":{"abi_rename":"{0}_{0}"}}}"#,
    r#"wrong form at "/root/attrs/deprecated": {"root":{"attrs":{"deprecated":true}}}"#,
    // Marks.
    r#"wrong form at "/root/attrs/marks/0": {"root":{"attrs":{"marks":["disable"]}}}"#,
    r#"missing key at "/root/attrs/marks/0": {"root":{"attrs":{"marks":[{"mark":["m"]}]}}}"#,
    r#"missing key at "/root/attrs/marks/0": {"root":{"attrs":{"marks":[{"if":"*"}]}}}"#,
    r#"wrong form at "/root/attrs/marks/0/mark": {"root":{"attrs":{"marks":[{"if":"*","mark":[]}]}}}"#,
    r#"wrong form at "/root/attrs/marks/0/mark": {"root":{"attrs":{"marks":[{"if":"*","mark":"m"}]}}}"#,
    r#"wrong form at "/root/attrs/marks/0/if": {"root":{"attrs":{"marks":[{"value":7,"mark":7,"if":7}]}}}"#,
    r#"unknown key at "/root/attrs/marks/0/name": {"root":{"attrs":{"marks":[{"if":"*","mark":["m"],"name":"m"}]}}}"#,
    // A value and a list, after the faults of both.
    r#"wrong form at "/root/attrs/marks/0": {"root":{"attrs":{"marks":[{"if":"*","mark":["m"],"value":"other","list":[]}]}}}"#,
    r#"wrong form at "/root/attrs/marks/0/value": {"root":{"attrs":{"marks":[{"if":"*","mark":["m"],"value":{},"list":[]}]}}}"#,
    r#"wrong form at "/root/attrs/marks/0/list/0": {"root":{"attrs":{"marks":[{"if":"*","mark":["m"],"value":"other","list":[7]}]}}}"#,
    r#"missing key at "/root/attrs/marks/0/list/0": {"root":{"attrs":{"marks":[{"if":"*","mark":["m"],"list":[{"name":"a"}]}]}}}"#,
    r#"wrong form at "/root/attrs/marks/0/list/0/value": {"root":{"attrs":{"marks":[{"if":"*","mark":["m"],"list":[{"name":"a","value":"b"}]}]}}}"#,
    r#"missing key at "/root/attrs/marks/0/list/0": {"root":{"attrs":{"marks":[{"if":"*","mark":["m"],"list":[{"name":"a","value":null}]}]}}}"#,
];

/// Faults of conditions.
pub const FAULTY_CONDITIONS: [&str; 17] = [
    // Conditions.
    r#"wrong form at "/root/attrs/marks/0/if": {"root":{"attrs":{"marks":[{"if":"star","mark":["m"]}]}}}"#,
    r#"wrong form at "/root/attrs/marks/0/if": {"root":{"attrs":{"marks":[{"if":7,"mark":["m"]}]}}}"#,
    r#"wrong form at "/root/attrs/marks/0/if": {"root":{"attrs":{"marks":[{"if":[],"mark":["m"]}]}}}"#,
    r#"missing key at "/root/attrs/marks/0": {"root":{"attrs":{"marks":[{"if":null,"mark":["m"]}]}}}"#,
    r#"wrong form at "/root/attrs/marks/0/if": {"root":{"attrs":{"marks":[{"if":{},"mark":["m"]}]}}}"#,
    r#"wrong form at "/root/attrs/marks/0/if": {"root":{"attrs":{"marks":[{"if":{"not":null},"mark":["m"]}]}}}"#,
    r#"wrong form at "/root/attrs/marks/0/if": {"root":{"attrs":{"marks":[{"if":{"any":[],"all":[]},"mark":["m"]}]}}}"#,
    r#"unknown key at "/root/attrs/marks/0/if/auto": {"root":{"attrs":{"marks":[{"if":{"not":7,"auto":null},"mark":["m"]}]}}}"#,
    r#"wrong form at "/root/attrs/marks/0/if/backend": {"root":{"attrs":{"marks":[{"if":{"backend":["a"]},"mark":["m"]}]}}}"#,
    r#"wrong form at "/root/attrs/marks/0/if/any": {"root":{"attrs":{"marks":[{"if":{"any":"auto"},"mark":["m"]}]}}}"#,
    r#"wrong form at "/root/attrs/marks/0/if/all/1/not": {"root":{"attrs":{"marks":[{"if":{"all":["*",{"not":{}}]},"mark":["m"]}]}}}"#,
    r#"wrong form at "/root/attrs/marks/0/if/not/any/0": {"root":{"attrs":{"marks":[{"if":{"not":{"any":[null]}},"mark":["m"]}]}}}"#,
    // A pair of another length than two, before the faults of its entries.
    r#"wrong form at "/root/attrs/marks/0/if/pair": {"root":{"attrs":{"marks":[{"if":{"pair":["a"]},"mark":["m"]}]}}}"#,
    r#"wrong form at "/root/attrs/marks/0/if/pair": {"root":{"attrs":{"marks":[{"if":{"pair":[1,2,3]},"mark":["m"]}]}}}"#,
    r#"wrong form at "/root/attrs/marks/0/if/pair": {"root":{"attrs":{"marks":[{"if":{"pair":[]},"mark":["m"]}]}}}"#,
    r#"wrong form at "/root/attrs/marks/0/if/pair/1": {"root":{"attrs":{"marks":[{"if":{"pair":["a",2]},"mark":["m"]}]}}}"#,
    r#"wrong form at "/root/attrs/marks/0/if/pair": {"root":{"attrs":{"marks":[{"if":{"pair":{}},"mark":["m"]}]}}}"#,
];

/// Faults of literals.
pub const FAULTY_LITERALS: [&str; 19] = [
    // Literals.
    r#"wrong form at "/root/attrs/marks/0/value": {"root":{"attrs":{"marks":[{"if":"*","mark":["m"],"value":"others"}]}}}"#,
    r#"wrong form at "/root/attrs/marks/0/value": {"root":{"attrs":{"marks":[{"if":"*","mark":["m"],"value":true}]}}}"#,
    r#"wrong form at "/root/attrs/marks/0/value": {"root":{"attrs":{"marks":[{"if":"*","mark":["m"],"value":[]}]}}}"#,
    r#"wrong form at "/root/attrs/marks/0/value": {"root":{"attrs":{"marks":[{"if":"*","mark":["m"],"value":{}}]}}}"#,
    r#"wrong form at "/root/attrs/marks/0/value": {"root":{"attrs":{"marks":[{"if":"*","mark":["m"],"value":{"str":null}}]}}}"#,
    r#"wrong form at "/root/attrs/marks/0/value": {"root":{"attrs":{"marks":[{"if":"*","mark":["m"],"value":{"str":"a","int":null,"bool":true}}]}}}"#,
    r#"unknown key at "/root/attrs/marks/0/value/string": {"root":{"attrs":{"marks":[{"if":"*","mark":["m"],"value":{"string":"a"}}]}}}"#,
    r#"wrong form at "/root/attrs/marks/0/value/bool": {"root":{"attrs":{"marks":[{"if":"*","mark":["m"],"value":{"bool":1}}]}}}"#,
    r#"wrong form at "/root/attrs/marks/0/value/char": {"root":{"attrs":{"marks":[{"if":"*","mark":["m"],"value":{"char":"ab"}}]}}}"#,
    r#"wrong form at "/root/attrs/marks/0/value/char": {"root":{"attrs":{"marks":[{"if":"*","mark":["m"],"value":{"char":""}}]}}}"#,
    r#"wrong form at "/root/attrs/marks/0/value/byte": {"root":{"attrs":{"marks":[{"if":"*","mark":["m"],"value":{"byte":256}}]}}}"#,
    r#"wrong form at "/root/attrs/marks/0/value/byte": {"root":{"attrs":{"marks":[{"if":"*","mark":["m"],"value":{"byte":-1}}]}}}"#,
    r#"wrong form at "/root/attrs/marks/0/value/byte": {"root":{"attrs":{"marks":[{"if":"*","mark":["m"],"value":{"byte":1e1}}]}}}"#,
    r#"wrong form at "/root/attrs/marks/0/value/int": {"root":{"attrs":{"marks":[{"if":"*","mark":["m"],"value":{"int":""}}]}}}"#,
    r#"wrong form at "/root/attrs/marks/0/value/int": {"root":{"attrs":{"marks":[{"if":"*","mark":["m"],"value":{"int":"-1"}}]}}}"#,
    r#"wrong form at "/root/attrs/marks/0/value/int": {"root":{"attrs":{"marks":[{"if":"*","mark":["m"],"value":{"int":7}}]}}}"#,
    r#"wrong form at "/root/attrs/marks/0/value/int": {"root":{"attrs":{"marks":[{"if":"*","mark":["m"],"value":{"int":"٣"}}]}}}"#,
    r#"wrong form at "/root/attrs/marks/0/value/float": {"root":{"attrs":{"marks":[{"if":"*","mark":["m"],"value":{"float":1.5}}]}}}"#,
    r#"wrong form at "/root/attrs/marks/0/value/str": {"root":{"attrs":{"marks":[{"if":"*","mark":["m"],"value":{"str":["a"]}}]}}}"#,
];

/// Faults of documentation.
pub const FAULTY_DOCS: [&str; 13] = [
    // Documentation.
    r#"wrong form at "/root/items/0/docs": {"root":{"items":[{"kind":"enum","name":"E","docs":"Text."}]}}"#,
    r#"unknown key at "/root/items/0/docs/lines": {"root":{"items":[{"kind":"enum","name":"E","docs":{"lines":"a"}}]}}"#,
    r#"wrong form at "/root/items/0/docs/blocks": {"root":{"items":[{"kind":"enum","name":"E","docs":{"links":7,"blocks":7}}]}}"#,
    r#"missing key at "/root/items/0/docs/blocks/0": {"root":{"items":[{"kind":"enum","name":"E","docs":{"blocks":[{"lines":7}]}}]}}"#,
    r#"missing key at "/root/items/0/docs/blocks/0": {"root":{"items":[{"kind":"enum","name":"E","docs":{"blocks":[{"if":"*"}]}}]}}"#,
    r#"wrong form at "/root/items/0/docs/blocks/0/lines": {"root":{"items":[{"kind":"enum","name":"E","docs":{"blocks":[{"if":"*","lines":["a"]}]}}]}}"#,
    r#"missing key at "/root/items/0/docs/links/0": {"root":{"items":[{"kind":"enum","name":"E","docs":{"links":[{"path":["a"]}]}}]}}"#,
    r#"wrong form at "/root/items/0/docs/links/0/path": {"root":{"items":[{"kind":"enum","name":"E","docs":{"links":[{"path":"a","kind":7}]}}]}}"#,
    r#"wrong form at "/root/items/0/docs/links/0/path/1": {"root":{"items":[{"kind":"enum","name":"E","docs":{"links":[{"path":["a",null]}]}}]}}"#,
    r#"wrong form at "/root/items/0/docs/links/0/kind": {"root":{"items":[{"kind":"enum","name":"E","docs":{"links":[{"path":[],"kind":"struct","display":"normal"}]}}]}}"#,
    r#"missing key at "/root/items/0/docs/links/0": {"root":{"items":[{"kind":"enum","name":"E","docs":{"links":[{"path":[],"kind":"Struct"}]}}]}}"#,
    r#"wrong form at "/root/items/0/docs/links/0/display": {"root":{"items":[{"kind":"enum","name":"E","docs":{"links":[{"path":[],"kind":"Struct","display":"Normal"}]}}]}}"#,
    r#"unknown key at "/root/items/0/docs/links/0/text": {"root":{"items":[{"kind":"enum","name":"E","docs":{"links":[{"path":[],"text":""}]}}]}}"#,
];
