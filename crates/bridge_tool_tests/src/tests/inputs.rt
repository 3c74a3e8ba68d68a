//! Inputs with their answers, worked out by hand.

pub const PICK: &str =
    r#"{"root":{"items":[{"kind":"opaque","name":"O","methods":[{"name":"pick","self_type":{"segments":["O"]},"self":{"reference":{"lifetime":"a"},"path":{"segments":["O"]}},"lifetimes":[{"name":"a","longer":[1]},{"name":"b","shorter":[0]}],"params":[{"name":"y","ty":{"ref":{"lifetime":"b","to":{"named":{"segments":["O"]}}}}}],"ret":{"ref":{"lifetime":"a","to":{"named":{"segments":["O"]}}}}}]}]}}"#;

pub const PICK_PAGE: &str =
    "callable O::pick\n  lifetime 0 a: this, y\n  edges: opaque this, opaque y\nok 1\n";

pub const NOT_JSON: &str = "input: not JSON\n";

// Inputs with the status and the text that belong to them.
pub const INPUTS: [(&str, u8, &str); 40] = [
    (r#"{"root":{}}"#, 0, "ok 0\n"),
    (PICK, 0, PICK_PAGE),
    // No bound from x: y doesn't outlive what is returned. The box names no lifetime.
    (
        r#"{"root":{"items":[{"kind":"opaque","name":"O","methods":[{"name":"f","self_type":{"segments":["O"]},"lifetimes":[{"name":"a"},{"name":"b"}],"params":[{"name":"x","ty":{"ref":{"lifetime":"a","to":{"named":{"segments":["O"]}}}}},{"name":"y","ty":{"ref":{"lifetime":"b","to":{"named":{"segments":["O"]}}}}}],"ret":{"ref":{"lifetime":"b","to":{"named":{"segments":["O"]}}}}},{"name":"g","self_type":{"segments":["O"]},"ret":{"box":{"named":{"segments":["O"]}}}}]}]}}"#,
        0,
        "callable O::f\n  lifetime 1 b: y\n  edges: opaque y\ncallable O::g\nok 2\n",
    ),
    // Nothing carries what is returned.
    (
        r#"{"root":{"items":[{"kind":"opaque","name":"O","methods":[{"name":"f","self_type":{"segments":["O"]},"lifetimes":[{"name":"a"}],"ret":{"ref":{"lifetime":"a","to":{"named":{"segments":["O"]}}}}}]}]}}"#,
        0,
        "callable O::f\n  lifetime 0 a:\n  edges:\nok 1\n",
    ),
    ("", 2, NOT_JSON),
    (r#"{"root":{"#, 2, NOT_JSON),
    (
        r#"{"root":{},"colour":1}"#,
        2,
        "input: unknown key at \"/colour\"\n",
    ),
    // A name that isn't an identifier, an unknown path and an unknown lifetime.
    (
        r#"{"root":{"items":[{"kind":"opaque","name":"match"}]}}"#,
        1,
        "Lowering error in match\n  BadIdent: match is not a Rust identifier\nLowering error in match\n  BadIdent: match is not a Rust identifier\nrefused 2\n",
    ),
    // An item of no name is left out of the place. The destructor of an opaque has its name.
    (
        r#"{"root":{"items":[{"kind":"opaque","name":""}]}}"#,
        1,
        "Lowering error in root module\n  BadIdent:  is not a Rust identifier\nLowering error in root module\n  BadIdent:  is not a Rust identifier\nrefused 2\n",
    ),
    // The same fault in two methods is reported twice.
    (
        r#"{"root":{"items":[{"kind":"opaque","name":"O","methods":[{"name":"m1","self_type":{"segments":["O"]},"self":{"reference":{"lifetime":"a"},"path":{"segments":["O"]}},"lifetimes":[{"name":"a"}],"params":[{"name":"x","ty":{"ref":{"lifetime":"a","to":{"named":{"segments":["Q"]}}}}}]},{"name":"m2","self_type":{"segments":["O"]},"self":{"reference":{"lifetime":"a"},"path":{"segments":["O"]}},"lifetimes":[{"name":"a"}],"params":[{"name":"x","ty":{"ref":{"lifetime":"a","to":{"named":{"segments":["Q"]}}}}}]}]}]}}"#,
        1,
        "Lowering error in O::m1\n  UnresolvedPath: Q names nothing\nLowering error in O::m2\n  UnresolvedPath: Q names nothing\nrefused 2\n",
    ),
    (
        r#"{"root":{"items":[{"kind":"opaque","name":"O","methods":[{"name":"f","self_type":{"segments":["O"]},"ret":{"box":{"named":{"segments":["Q"]}}}}]}]}}"#,
        1,
        "Lowering error in O::f\n  UnresolvedPath: Q names nothing\nrefused 1\n",
    ),
    (
        r#"{"root":{"items":[{"kind":"opaque","name":"O","methods":[{"name":"f","self_type":{"segments":["O"]},"ret":{"ref":{"lifetime":"c","to":{"named":{"segments":["O"]}}}}}]}]}}"#,
        1,
        "Lowering error in O::f\n  LifetimeUnknown: lifetime 'c is not declared\nrefused 1\n",
    ),
    // The first example with another type of y, with another lifetime of y, and with one that isn't named.
    (
        r#"{"root":{"items":[{"kind":"opaque","name":"O","methods":[{"name":"pick","self_type":{"segments":["O"]},"self":{"reference":{"lifetime":"a"},"path":{"segments":["O"]}},"lifetimes":[{"name":"a","longer":[1]},{"name":"b","shorter":[0]}],"params":[{"name":"y","ty":{"ref":{"lifetime":"b","to":{"named":{"segments":["Q"]}}}}}],"ret":{"ref":{"lifetime":"a","to":{"named":{"segments":["O"]}}}}}]}]}}"#,
        1,
        "Lowering error in O::pick\n  UnresolvedPath: Q names nothing\nrefused 1\n",
    ),
    (
        r#"{"root":{"items":[{"kind":"opaque","name":"O","methods":[{"name":"pick","self_type":{"segments":["O"]},"self":{"reference":{"lifetime":"a"},"path":{"segments":["O"]}},"lifetimes":[{"name":"a","longer":[1]},{"name":"b","shorter":[0]}],"params":[{"name":"y","ty":{"ref":{"lifetime":"c","to":{"named":{"segments":["O"]}}}}}],"ret":{"ref":{"lifetime":"a","to":{"named":{"segments":["O"]}}}}}]}]}}"#,
        1,
        "Lowering error in O::pick\n  LifetimeUnknown: lifetime 'c is not declared\nrefused 1\n",
    ),
    (
        r#"{"root":{"items":[{"kind":"opaque","name":"O","methods":[{"name":"pick","self_type":{"segments":["O"]},"self":{"reference":{"lifetime":"a"},"path":{"segments":["O"]}},"lifetimes":[{"name":"a","longer":[1]},{"name":"b","shorter":[0]}],"params":[{"name":"y","ty":{"ref":{"lifetime":"_","to":{"named":{"segments":["O"]}}}}}],"ret":{"ref":{"lifetime":"a","to":{"named":{"segments":["O"]}}}}}]}]}}"#,
        0,
        "callable O::pick\n  lifetime 0 a: this\n  edges: opaque this\nok 1\n",
    ),
    // Several faults of one method: its name, which is its symbol's too, and its lifetimes'; then its parameter and its return, each from the outside in.
    (
        r#"{"root":{"items":[{"kind":"opaque","name":"O","methods":[{"name":"match","self_type":{"segments":["O"]},"lifetimes":[{"name":"a"},{"name":"fn"}],"params":[{"name":"_","ty":{"ref":{"lifetime":"c","to":{"named":{"segments":["Q"]}}}}}],"ret":{"ref":{"lifetime":"d","to":{"named":{"segments":["R"]}}}}}]}]}}"#,
        1,
        "Lowering error in O::match\n  BadIdent: match is not a Rust identifier\nLowering error in O::match\n  BadIdent: match is not a Rust identifier\nLowering error in O::match\n  BadIdent: fn is not a Rust identifier\nLowering error in O::match\n  BadIdent: _ is not a Rust identifier\nLowering error in O::match\n  LifetimeUnknown: lifetime 'c is not declared\nLowering error in O::match\n  UnresolvedPath: Q names nothing\nLowering error in O::match\n  LifetimeUnknown: lifetime 'd is not declared\nLowering error in O::match\n  UnresolvedPath: R names nothing\nrefused 8\n",
    ),
    // The same fault twice in one method.
    (
        r#"{"root":{"items":[{"kind":"opaque","name":"O","methods":[{"name":"f","self_type":{"segments":["O"]},"lifetimes":[{"name":"a"}],"params":[{"name":"x","ty":{"ref":{"lifetime":"a","to":{"named":{"segments":["Q"]}}}}},{"name":"y","ty":{"ref":{"lifetime":"a","to":{"named":{"segments":["Q"]}}}}}]}]}]}}"#,
        1,
        "Lowering error in O::f\n  UnresolvedPath: Q names nothing\nLowering error in O::f\n  UnresolvedPath: Q names nothing\nrefused 2\n",
    ),
    // A bad name of an item, and an unknown lifetime in a method of it: both places are reported.
    (
        r#"{"root":{"items":[{"kind":"opaque","name":"enum","methods":[{"name":"f","self_type":{"segments":["enum"]},"params":[{"name":"x","ty":{"ref":{"lifetime":"c","to":{"named":{"segments":["enum"]}}}}}]}]}]}}"#,
        1,
        "Lowering error in enum\n  BadIdent: enum is not a Rust identifier\nLowering error in enum\n  BadIdent: enum is not a Rust identifier\nLowering error in enum::f\n  LifetimeUnknown: lifetime 'c is not declared\nrefused 3\n",
    ),
    // Two methods of one name share their place.
    (
        r#"{"root":{"items":[{"kind":"opaque","name":"O","methods":[{"name":"f","self_type":{"segments":["O"]},"ret":{"box":{"named":{"segments":["Q"]}}}},{"name":"f","self_type":{"segments":["O"]},"ret":{"box":{"named":{"segments":["R"]}}}}]}]}}"#,
        1,
        "Lowering error in O::f\n  UnresolvedPath: Q names nothing\nLowering error in O::f\n  UnresolvedPath: R names nothing\nrefused 2\n",
    ),
    // A method of an item of no name, and a method of no name.
    (
        r#"{"root":{"items":[{"kind":"opaque","name":"","methods":[{"name":"f","self_type":{"segments":[""]},"ret":{"box":{"named":{"segments":["Q"]}}}}]}]}}"#,
        1,
        "Lowering error in root module\n  BadIdent:  is not a Rust identifier\nLowering error in root module\n  BadIdent:  is not a Rust identifier\nLowering error in f\n  UnresolvedPath: Q names nothing\nrefused 3\n",
    ),
    (
        r#"{"root":{"items":[{"kind":"opaque","name":"O","methods":[{"name":"","self_type":{"segments":["O"]}}]}]}}"#,
        1,
        "Lowering error in O::\n  BadIdent:  is not a Rust identifier\nLowering error in O::\n  BadIdent:  is not a Rust identifier\nrefused 2\n",
    ),
    // Words of the language are identifiers where they are raw, but for four of them.
    (
        r##"{"root":{"items":[{"kind":"opaque","name":"r#fn"},{"kind":"opaque","name":"yield"},{"kind":"opaque","name":"union"},{"kind":"opaque","name":"r#self"},{"kind":"opaque","name":"_x"}]}}"##,
        1,
        "Lowering error in yield\n  BadIdent: yield is not a Rust identifier\nLowering error in yield\n  BadIdent: yield is not a Rust identifier\nLowering error in r#self\n  BadIdent: r#self is not a Rust identifier\nLowering error in r#self\n  BadIdent: r#self is not a Rust identifier\nrefused 4\n",
    ),
    // Items are reported in their order.
    (
        r#"{"root":{"items":[{"kind":"opaque","name":"O","methods":[{"name":"f","self_type":{"segments":["O"]},"ret":{"box":{"named":{"segments":["Q"]}}}}]},{"kind":"opaque","name":"1"},{"kind":"opaque","name":"P","methods":[{"name":"g","self_type":{"segments":["P"]},"ret":{"box":{"named":{"segments":["O"]}}}},{"name":"h","self_type":{"segments":["P"]},"lifetimes":[{"name":"a"}],"ret":{"ref":{"lifetime":"b","to":{"named":{"segments":["O"]}}}}}]}]}}"#,
        1,
        "Lowering error in O::f\n  UnresolvedPath: Q names nothing\nLowering error in 1\n  BadIdent: 1 is not a Rust identifier\nLowering error in 1\n  BadIdent: 1 is not a Rust identifier\nLowering error in P::h\n  LifetimeUnknown: lifetime 'b is not declared\nrefused 4\n",
    ),
    // Faults between declarations: two items of one name, bounds that stand at one of their ends, two modules of one name.
    (
        r#"{"root":{"items":[{"kind":"opaque","name":"P"},{"kind":"opaque","name":"P"}]}}"#,
        2,
        "input: duplicate item at \"/root/items/1\"\n",
    ),
    (
        r#"{"root":{"items":[{"kind":"opaque","name":"O","methods":[{"name":"f","self_type":{"segments":["O"]},"lifetimes":[{"name":"a","longer":[1]},{"name":"b"}]}]}]}}"#,
        2,
        "input: bound one-sided at \"/root/items/0/methods/0/lifetimes/0\"\n",
    ),
    (
        r#"{"root":{"items":[{"kind":"opaque","name":"O","lifetimes":[{"name":"a","longer":[0]}]}]}}"#,
        2,
        "input: bound one-sided at \"/root/items/0/lifetimes/0\"\n",
    ),
    (
        r#"{"root":{"modules":[{"name":"m"},{"name":"m"}]}}"#,
        2,
        "input: duplicate module at \"/root/modules/1\"\n",
    ),
    // Faults of the form, and how a key is written in a pointer.
    ("[]", 2, "input: wrong form at \"\"\n"),
    ("{}", 2, "input: missing key at \"\"\n"),
    (
        r#"{"root":{"a/b~c":null}}"#,
        2,
        "input: unknown key at \"/root/a~1b~0c\"\n",
    ),
    // A struct without fields and methods, and a note on the root.
    (
        r#"{"root":{"items":[{"kind":"struct","name":"S"}]}}"#,
        0,
        "ok 0\n",
    ),
    (r#"{"root":{"attrs":{"deprecated":""}}}"#, 0, "ok 0\n"),
    (
        r#"{"root":{"items":[{"kind":"struct","name":"P"},{"kind":"opaque","name":"P"}]}}"#,
        2,
        "input: duplicate item at \"/root/items/1\"\n",
    ),
    (
        r#"{"root":{"items":[{"kind":"opaque","name":"O","methods":[{"name":"f","self_type":{"segments":["O"]},"self":{"path":{"segments":["O"]}}}]}]}}"#,
        1,
        "Lowering error in O::f\n  OpaqueByValue: Opaque passed by value\nrefused 1\n",
    ),
    (
        r#"{"root":{},"backend":{"name":"js","supports":["option"]},"config":{"unsafe_references_in_callbacks":true},"docs":{"default":"https://docs.example/"}}"#,
        0,
        "ok 0\n",
    ),
    // Two aliases that name each other.
    (
        r#"{"root":{"aliases":[{"name":"a","target":["b"]},{"name":"b","target":["a"]}],"items":[{"kind":"opaque","name":"O","methods":[{"name":"f","self_type":{"segments":["O"]},"lifetimes":[{"name":"x"}],"params":[{"name":"p","ty":{"ref":{"lifetime":"x","to":{"named":{"segments":["a"]}}}}}]}]}]}}"#,
        1,
        "Lowering error in O::f\n  UnresolvedPath: a names nothing\nrefused 1\n",
    ),
    // A path is read in the module in which it is written.
    (
        r#"{"root":{"modules":[{"name":"m","items":[{"kind":"opaque","name":"P"}],"modules":[{"name":"n","items":[{"kind":"opaque","name":"Q","methods":[{"name":"f","self_type":{"segments":["Q"]},"ret":{"box":{"named":{"segments":["super","P"]}}}},{"name":"g","self_type":{"segments":["Q"]},"ret":{"box":{"named":{"segments":["P"]}}}}]}]}]}]}}"#,
        1,
        "Lowering error in m::n::Q::g\n  UnresolvedPath: P names nothing\nrefused 1\n",
    ),
    (
        r#"{"root":{"modules":[{"name":"m","items":[{"kind":"opaque","name":"P"}],"modules":[{"name":"n","items":[{"kind":"opaque","name":"Q","methods":[{"name":"f","self_type":{"segments":["Q"]},"lifetimes":[{"name":"a"}],"params":[{"name":"p","ty":{"ref":{"lifetime":"a","to":{"named":{"segments":["super","P"]}}}}}],"ret":{"ref":{"lifetime":"a","to":{"named":{"segments":["crate","m","P"]}}}}}]}]}]}]}}"#,
        0,
        "callable m::n::Q::f\n  lifetime 0 a: p\n  edges: opaque p\nok 1\n",
    ),
    // Each path names something in another module, and nothing in its own. Names of modules and aliases aren't tested.
    (
        r#"{"root":{"aliases":[{"name":"enum","target":["R"]}],"items":[{"kind":"opaque","name":"R","methods":[{"name":"f","self_type":{"segments":["R"]},"lifetimes":[{"name":"a"}],"params":[{"name":"x","ty":{"ref":{"lifetime":"a","to":{"named":{"segments":["X"]}}}}}]}]}],"modules":[{"name":"fn","items":[{"kind":"opaque","name":"X","methods":[{"name":"g","self_type":{"segments":["X"]},"lifetimes":[{"name":"a"}],"params":[{"name":"x","ty":{"ref":{"lifetime":"a","to":{"named":{"segments":["R"]}}}}},{"name":"match","ty":{"ref":{"lifetime":"a","to":{"named":{"segments":["super","super","R"]}}}}}]}]},{"kind":"opaque","name":""}],"modules":[{"name":"k","items":[{"kind":"opaque","name":"X","methods":[{"name":"h","self_type":{"segments":["X"]},"ret":{"ref":{"lifetime":"c","to":{"named":{"segments":["self","Y"]}}}}}]}]}]}]}}"#,
        1,
        "Lowering error in R::f\n  UnresolvedPath: X names nothing\nLowering error in fn::X::g\n  BadIdent: match is not a Rust identifier\nLowering error in fn::X::g\n  UnresolvedPath: R names nothing\nLowering error in fn::X::g\n  UnresolvedPath: super::super::R names nothing\nLowering error in fn\n  BadIdent:  is not a Rust identifier\nLowering error in fn\n  BadIdent:  is not a Rust identifier\nLowering error in fn::k::X::h\n  LifetimeUnknown: lifetime 'c is not declared\nLowering error in fn::k::X::h\n  UnresolvedPath: self::Y names nothing\nrefused 8\n",
    ),
    (
        r#"{"root":{"items":[{"kind":"opaque","name":"O","mutable":true}]}}"#,
        0,
        "ok 0\n",
    ),
];
