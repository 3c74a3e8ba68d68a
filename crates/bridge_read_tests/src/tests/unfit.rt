//! Inputs whose declarations don't fit together, each after its fault and the JSON pointer of its place, worked out by hand.

/// Modules, items and aliases of one name, and what is told before them.
pub const UNFIT_NAMES: [&str; 17] = [
    // Items, aliases and submodules of one name.
    r#"duplicate item at "/root/items/1": {"root":{"items":[{"kind":"opaque","name":"P"},{"kind":"opaque","name":"P"}]}}"#,
    r#"duplicate item at "/root/items/2": {"root":{"items":[{"kind":"struct","name":"S"},{"kind":"opaque","name":"P"},{"kind":"enum","name":"S"}]}}"#,
    r#"duplicate item at "/root/aliases/0": {"root":{"items":[{"kind":"opaque","name":"P"}],"aliases":[{"name":"P","target":["Q"]}]}}"#,
    r#"duplicate item at "/root/aliases/1": {"root":{"aliases":[{"name":"a","target":[]},{"name":"a","target":[]}]}}"#,
    // A submodule is told at itself.
    r#"duplicate item at "/root/modules/1": {"root":{"items":[{"kind":"opaque","name":"P"}],"modules":[{"name":"m"},{"name":"P"}]}}"#,
    r#"duplicate item at "/root/modules/0": {"root":{"aliases":[{"name":"a","target":[]}],"modules":[{"name":"a"}]}}"#,
    r#"duplicate module at "/root/modules/1": {"root":{"modules":[{"name":"m"},{"name":"m"}]}}"#,
    r#"duplicate module at "/root/modules/2": {"root":{"modules":[{"name":"m"},{"name":"n"},{"name":"m"}]}}"#,
    r#"duplicate item at "/root/modules/0": {"root":{"items":[{"kind":"opaque","name":"P"}],"modules":[{"name":"P"},{"name":"P"}]}}"#,
    r#"duplicate module at "/root/modules/0/modules/1": {"root":{"modules":[{"name":"m","modules":[{"name":"m"},{"name":"m"}]}]}}"#,
    // Parents come first, and each child with all its own before the next.
    r#"duplicate item at "/root/modules/0/items/1": {"root":{"modules":[{"name":"m","items":[{"kind":"opaque","name":"P"},{"kind":"opaque","name":"P"}]},{"name":"m"}]}}"#,
    r#"duplicate item at "/root/items/1": {"root":{"modules":[{"name":"m"},{"name":"m"}],"items":[{"kind":"opaque","name":"P"},{"kind":"opaque","name":"P"}]}}"#,
    r#"duplicate item at "/root/modules/0/modules/0/items/1": {"root":{"modules":[{"name":"a","modules":[{"name":"b","items":[{"kind":"opaque","name":"P"},{"kind":"opaque","name":"P"}]}]},{"name":"c","items":[{"kind":"opaque","name":"P"},{"kind":"opaque","name":"P"}]}]}}"#,
    r#"duplicate item at "/root/modules/0/items/1": {"root":{"modules":[{"name":"a","modules":[{"name":"b"},{"name":"b"}],"items":[{"kind":"opaque","name":"P"},{"kind":"opaque","name":"P"}]}]}}"#,
    r#"duplicate item at "/root/modules/0/items/1": {"root":{"items":[{"kind":"opaque","name":"P"}],"modules":[{"name":"a","items":[{"kind":"opaque","name":"Q"},{"kind":"opaque","name":"Q"}]},{"name":"P"}]}}"#,
    // A module's own name before what stands in it, and items before aliases.
    r#"duplicate item at "/root/modules/0": {"root":{"items":[{"kind":"opaque","name":"P"}],"modules":[{"name":"P","items":[{"kind":"opaque","name":"Q"},{"kind":"opaque","name":"Q"}]}]}}"#,
    r#"duplicate item at "/root/items/1": {"root":{"aliases":[{"name":"P","target":[]}],"items":[{"kind":"opaque","name":"P"},{"kind":"opaque","name":"P"}]}}"#,
];

/// Lifetimes that don't fit together, and what is told before them.
pub const UNFIT_LIFETIMES: [&str; 27] = [
    // Lifetimes of one name, of each object that has lifetimes.
    r#"duplicate lifetime at "/root/items/0/lifetimes/1": {"root":{"items":[{"kind":"struct","name":"X","lifetimes":[{"name":"a"},{"name":"a"}]}]}}"#,
    r#"duplicate lifetime at "/root/items/0/lifetimes/1": {"root":{"items":[{"kind":"out_struct","name":"X","lifetimes":[{"name":"a"},{"name":"a"}]}]}}"#,
    r#"duplicate lifetime at "/root/items/0/lifetimes/1": {"root":{"items":[{"kind":"opaque","name":"X","lifetimes":[{"name":"a"},{"name":"a"}]}]}}"#,
    r#"duplicate lifetime at "/root/items/0/lifetimes/1": {"root":{"items":[{"kind":"trait","name":"X","lifetimes":[{"name":"a"},{"name":"a"}]}]}}"#,
    r#"duplicate lifetime at "/root/items/0/lifetimes/1": {"root":{"items":[{"kind":"function","name":"X","lifetimes":[{"name":"a"},{"name":"a"}]}]}}"#,
    r#"duplicate lifetime at "/root/items/0/methods/0/lifetimes/1": {"root":{"items":[{"kind":"enum","name":"O","methods":[{"name":"m","self_type":{"segments":["O"]},"lifetimes":[{"name":"a"},{"name":"a"}]}]}]}}"#,
    r#"duplicate lifetime at "/root/items/0/methods/1/lifetimes/1": {"root":{"items":[{"kind":"trait","name":"O","methods":[{"name":"l"},{"name":"m","lifetimes":[{"name":"a"},{"name":"a"}]}]}]}}"#,
    // Bounds that are out of range.
    r#"bound out of range at "/root/items/0/lifetimes/0": {"root":{"items":[{"kind":"function","name":"f","lifetimes":[{"name":"a","longer":[1]}]}]}}"#,
    r#"bound out of range at "/root/items/0/lifetimes/0": {"root":{"items":[{"kind":"function","name":"f","lifetimes":[{"name":"a","shorter":[18446744073709551615]}]}]}}"#,
    r#"bound out of range at "/root/items/0/lifetimes/2": {"root":{"items":[{"kind":"function","name":"f","lifetimes":[{"name":"a"},{"name":"b"},{"name":"c","shorter":[3]}]}]}}"#,
    // Bounds at one end only.
    r#"bound one-sided at "/root/items/0/lifetimes/0": {"root":{"items":[{"kind":"function","name":"f","lifetimes":[{"name":"a","longer":[0]}]}]}}"#,
    r#"bound one-sided at "/root/items/0/lifetimes/0": {"root":{"items":[{"kind":"function","name":"f","lifetimes":[{"name":"a","longer":[1]},{"name":"b"}]}]}}"#,
    r#"bound one-sided at "/root/items/0/lifetimes/1": {"root":{"items":[{"kind":"function","name":"f","lifetimes":[{"name":"a"},{"name":"b","shorter":[0]}]}]}}"#,
    r#"bound one-sided at "/root/items/0/lifetimes/0": {"root":{"items":[{"kind":"function","name":"f","lifetimes":[{"name":"a","longer":[1]},{"name":"b","longer":[0]}]}]}}"#,
    r#"bound one-sided at "/root/items/0/lifetimes/1": {"root":{"items":[{"kind":"function","name":"f","lifetimes":[{"name":"a","longer":[1]},{"name":"b","shorter":[0,2]},{"name":"c"}]}]}}"#,
    // At one lifetime the name first, then what is out of range, then one end; but each lifetime before the next.
    r#"duplicate lifetime at "/root/items/0/lifetimes/1": {"root":{"items":[{"kind":"function","name":"f","lifetimes":[{"name":"a"},{"name":"a","longer":[0,7]}]}]}}"#,
    r#"bound out of range at "/root/items/0/lifetimes/0": {"root":{"items":[{"kind":"function","name":"f","lifetimes":[{"name":"a","longer":[1,2]},{"name":"b"}]}]}}"#,
    r#"bound one-sided at "/root/items/0/lifetimes/0": {"root":{"items":[{"kind":"function","name":"f","lifetimes":[{"name":"a","longer":[1]},{"name":"a","longer":[5]}]}]}}"#,
    r#"bound out of range at "/root/items/0/lifetimes/1": {"root":{"items":[{"kind":"function","name":"f","lifetimes":[{"name":"a"},{"name":"b","longer":[5]},{"name":"a"}]}]}}"#,
    // An item's name, its lifetimes, those of its methods, and then the next item.
    r#"duplicate item at "/root/items/1": {"root":{"items":[{"kind":"opaque","name":"P"},{"kind":"opaque","name":"P","lifetimes":[{"name":"a"},{"name":"a"}]}]}}"#,
    r#"bound out of range at "/root/items/0/lifetimes/0": {"root":{"items":[{"kind":"opaque","name":"O","methods":[{"name":"m","self_type":{"segments":["O"]},"lifetimes":[{"name":"a"},{"name":"a"}]}],"lifetimes":[{"name":"a","longer":[9]}]}]}}"#,
    r#"bound one-sided at "/root/items/0/methods/0/lifetimes/0": {"root":{"items":[{"kind":"opaque","name":"O","methods":[{"name":"m","self_type":{"segments":["O"]},"lifetimes":[{"name":"a","longer":[0]}]}]},{"kind":"opaque","name":"O"}]}}"#,
    r#"duplicate lifetime at "/root/items/1/lifetimes/1": {"root":{"aliases":[{"name":"P","target":[]}],"items":[{"kind":"opaque","name":"P"},{"kind":"opaque","name":"X","lifetimes":[{"name":"a"},{"name":"a"}]}]}}"#,
    // All other faults come before those between declarations.
    r#"missing key at "/root/modules/0": {"root":{"items":[{"kind":"opaque","name":"P"},{"kind":"opaque","name":"P"}],"modules":[{}]}}"#,
    r#"wrong form at "/config": {"root":{"items":[{"kind":"opaque","name":"P"},{"kind":"opaque","name":"P"}]},"config":7}"#,
    r#"wrong form at "/docs/bases/a": {"root":{"modules":[{"name":"m"},{"name":"m"}]},"docs":{"bases":{"a":1}}}"#,
    r#"wrong form at "/root/items/1/ret": {"root":{"items":[{"kind":"opaque","name":"X","lifetimes":[{"name":"a"},{"name":"a"}]},{"kind":"function","name":"f","ret":"v8"}]}}"#,
];
