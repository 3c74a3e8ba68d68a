//! Inputs of the form, in which every object and every form of a value stands.

/// Inputs, modules, items and methods that are read.
pub const ACCEPTED: [&str; 25] = [
    // The input, with keys that are absent, null and empty.
    r#"{"root":{}}"#,
    r#"{"docs":null,"root":{},"config":null,"backend":null}"#,
    " {\"root\" :\t{ } ,\r\n\"config\":{} } ",
    r#"{"root":7,"root":{}}"#,
    r#"{"\u0072oot":{}}"#,
    r#"{"root":{"attrs":null,"items":null,"aliases":null,"modules":null}}"#,
    r#"{"root":{"attrs":{},"items":[],"aliases":[],"modules":[]}}"#,
    r#"{"root":{},"backend":{},"docs":{"default":null,"bases":null}}"#,
    r#"{"root":{},"config":{"unsafe_references_in_callbacks":true}}"#,
    r#"{"root":{},"config":{"unsafe_references_in_callbacks":null}}"#,
    r#"{"root":{},"docs":{"default":"https://docs.example/","bases":{"":"","std":"http://std.example/","none":null}}}"#,
    r#"{"root":{},"backend":{"name":"tests","other_names":["js",""],"supports":["option","defaults","option","opaque_slices"],"pairs":[{"name":"a","value":""},{"name":"a","value":""}],"features":["f"],"unstable":null}}"#,
    // All flags.
    r#"{"root":{},"backend":{"supports":["namespacing","memory_sharing","non_exhaustive_structs","method_overloading","utf8_strings","utf16_strings","static_slices","defaults","constructors","named_constructors","fallible_constructors","accessors","static_accessors","stringifiers","comparators","partial_comparators","iterators","iterables","indexing","arithmetic","option","callbacks","traits","custom_errors","traits_are_send","traits_are_sync","generate_mocking_interface","manually_disposable","abi_compatibles","struct_refs","mut_struct_refs","free_functions","custom_bindings","owned_slices","default_args","mutable_slices","tuples","opaque_slices","owned_byte_slice_returns","callback_returns_must_be_fallible","generic_writeables","utf16_writeables"]}}"#,
    // Modules and aliases. Names may be any texts, and those of different modules may be equal.
    r#"{"root":{"modules":[{"name":"m","items":[{"kind":"opaque","name":"P"}],"modules":[{"name":"m","items":[{"kind":"opaque","name":"P"}]},{"name":"n"}]},{"name":"n","modules":[{"name":"m"}]}]}}"#,
    r#"{"root":{"modules":[{"name":"","attrs":null,"items":null,"aliases":null,"modules":null}]}}"#,
    r#"{"root":{"aliases":[{"name":"a","target":["crate","b"]},{"name":"b","target":["a"]},{"name":"c","target":[]}]}}"#,
    // Items of every kind.
    r#"{"root":{"items":[{"kind":"struct","name":"A"},{"kind":"out_struct","name":"B"},{"kind":"opaque","name":"C"},{"kind":"enum","name":"D"},{"kind":"trait","name":"E"},{"kind":"function","name":"F"}]}}"#,
    r#"{"root":{"items":[{"kind":"struct","name":"S","lifetimes":[{"name":"a"}],"fields":[{"name":"x","ty":"u8"},{"name":"x","ty":"f64","docs":null,"attrs":null}],"methods":null,"docs":{},"attrs":{}}]}}"#,
    r#"{"root":{"items":[{"kind":"opaque","name":"O","lifetimes":null,"mutable":true,"methods":[],"dtor_abi_name":"O_destroy","docs":null,"attrs":null}]}}"#,
    r#"{"root":{"items":[{"kind":"enum","name":"E","variants":[{"name":"A","discriminant":-9223372036854775808},{"name":"B","discriminant":9223372036854775807},{"name":"C","discriminant":0,"docs":null,"attrs":null}]}]}}"#,
    r#"{"root":{"items":[{"kind":"trait","name":"T","is_send":true,"is_sync":null,"methods":[{"name":"m","lifetimes":[{"name":"a"}],"self":{"reference":{"lifetime":"a"},"path":{"segments":["T"]}},"params":[{"name":"x","ty":"u32"}],"ret":"bool"},{"name":"n","self":{"reference":null,"path":{"segments":["T"],"lifetimes":null}}}]}]}}"#,
    r#"{"root":{"items":[{"kind":"function","name":"f","abi_name":"g","lifetimes":[],"params":[{"name":"x","ty":"char","attrs":null}],"ret":null}]}}"#,
    // Methods and receivers.
    r#"{"root":{"items":[{"kind":"opaque","name":"O","methods":[{"name":"m","self_type":{"segments":["O"]}},{"name":"m","abi_name":"n","self_type":{"segments":["O"]},"self":{"reference":{"lifetime":"_","mutable":true},"path":{"segments":["Self"],"lifetimes":["static","_","a"]},"attrs":{}},"lifetimes":null,"params":null,"ret":"unit","docs":null,"attrs":null}]}]}}"#,
    // Lifetimes: cycles, bounds of a lifetime to itself, bounds that stand twice; a method's and its type's have one name.
    r#"{"root":{"items":[{"kind":"opaque","name":"O","lifetimes":[{"name":"a","longer":[1],"shorter":[1]},{"name":"b","longer":[0],"shorter":[0]}],"methods":[{"name":"m","self_type":{"segments":["O"]},"lifetimes":[{"name":"a","longer":[0,0],"shorter":[0]}]}]}]}}"#,
    r#"{"root":{"items":[{"kind":"function","name":"f","lifetimes":[{"name":"","longer":[1,2,1]},{"name":"static","shorter":[0],"longer":null},{"name":"_","shorter":[0]}]}]}}"#,
];

/// Types, attributes and documentation that are read.
pub const ACCEPTED_PARTS: [&str; 14] = [
    // Types of every form.
    r#"{"root":{"items":[{"kind":"struct","name":"S","fields":[{"name":"a","ty":"i8"},{"name":"b","ty":"i16"},{"name":"c","ty":"u16"},{"name":"d","ty":"i32"},{"name":"e","ty":"i64"},{"name":"f","ty":"u64"},{"name":"g","ty":"isize"},{"name":"h","ty":"usize"},{"name":"i","ty":"i128"},{"name":"j","ty":"u128"},{"name":"k","ty":"f32"},{"name":"l","ty":"byte"},{"name":"m","ty":"ordering"},{"name":"n","ty":"unit"}]}]}}"#,
    r#"{"root":{"items":[{"kind":"struct","name":"S","fields":[{"name":"a","ty":{"named":{"segments":["A"]}}},{"name":"b","ty":{"self":{"segments":["A"],"lifetimes":["a"]},"box":null}},{"name":"c","ty":{"impl":{"segments":["a","T"]}}},{"name":"d","ty":{"ref":{"lifetime":"static","mutable":null,"to":"u8"}}},{"name":"e","ty":{"box":{"option":{"diplomat_option":"u8"}}}},{"name":"f","ty":{"result":{"ok":"unit","err":{"diplomat_result":{"ok":"u8","err":"unit"}}}}}]}]}}"#,
    r#"{"root":{"items":[{"kind":"struct","name":"S","fields":[{"name":"a","ty":{"write":"str"}},{"name":"b","ty":{"write":"str16"}},{"name":"c","ty":{"write":"f64"}},{"name":"d","ty":{"str":{"encoding":"utf8"}}},{"name":"e","ty":{"str":{"lifetime":"_","encoding":"unvalidated_utf8","std":true}}},{"name":"f","ty":{"strs":{"encoding":"unvalidated_utf16","std":null}}}]}]}}"#,
    r#"{"root":{"items":[{"kind":"struct","name":"S","fields":[{"name":"a","ty":{"slice":{"of":"u8","mutable":false}}},{"name":"b","ty":{"slice":{"lifetime":"a","mutable":true,"of":"bool","std":true}}},{"name":"c","ty":{"custom_slice":{"lifetime":null,"mutable":null,"of":{"named":{"segments":["A"]}}}}},{"name":"d","ty":{"custom_slice":{"lifetime":"a","mutable":true,"of":"u8","std":false}}},{"name":"e","ty":{"fn":{}}},{"name":"f","ty":{"fn":{"params":["u8",{"fn":{"ret":null}}],"ret":"u8","mutable":true}}}]}]}}"#,
    // Attributes: conditions of every form, literals of every form, lists.
    r#"{"root":{"attrs":{"features":["f"],"marks":null,"abi_rename":"{0}_{1}_{0","deprecated":""}}}"#,
    r#"{"root":{"attrs":{"abi_rename":""}}}"#,
    r#"{"root":{"attrs":{"features":null,"marks":[],"abi_rename":null,"deprecated":null}}}"#,
    r#"{"root":{"attrs":{"marks":[{"if":"*","mark":["disable"]},{"if":"auto","mark":["a","b"],"value":null,"list":null},{"if":{"backend":"js"},"mark":["m"]},{"if":{"pair":["supports","option"]},"mark":["m"]},{"if":{"not":{"any":[]}},"mark":["m"]},{"if":{"all":["*",{"any":["auto"]}],"not":null},"mark":["m"]}]}}}"#,
    r#"{"root":{"attrs":{"marks":[{"if":"*","mark":["m"],"value":{"bool":true}},{"if":"*","mark":["m"],"value":{"char":"é"}},{"if":"*","mark":["m"],"value":{"char":"🦀"}},{"if":"*","mark":["m"],"value":{"byte":255}},{"if":"*","mark":["m"],"value":{"int":"007"}},{"if":"*","mark":["m"],"value":{"float":"x"}},{"if":"*","mark":["m"],"value":{"str":"","int":null}},{"if":"*","mark":["m"],"value":"other"}]}}}"#,
    r#"{"root":{"attrs":{"marks":[{"if":"*","mark":["m"],"list":[]},{"if":"*","mark":["m"],"list":[{"name":"a","value":{"char":"\ud83e\udd80"}},{"name":"a","value":{"byte":0}}],"value":null}]}}}"#,
    // Documentation, with links of every kind.
    r#"{"root":{"items":[{"kind":"enum","name":"E","docs":{"blocks":[{"if":"auto","lines":"a\nb"},{"if":{"not":"*"},"lines":""}],"links":null}}]}}"#,
    r#"{"root":{"items":[{"kind":"enum","name":"E","docs":{"links":[{"path":["a"],"kind":"Struct","display":"normal"},{"path":["a"],"kind":"StructField","display":"compact"},{"path":["a"],"kind":"Enum","display":"hidden"},{"path":["a"],"kind":"EnumVariant","display":"normal"},{"path":["a"],"kind":"EnumVariantField","display":"compact"},{"path":["a"],"kind":"Trait","display":"hidden"},{"path":["a"],"kind":"FnInStruct","display":"normal"},{"path":["a"],"kind":"FnInTypedef","display":"compact"},{"path":["a"],"kind":"FnInEnum","display":"hidden"},{"path":["a"],"kind":"FnInTrait","display":"normal"},{"path":["a"],"kind":"DefaultFnInTrait","display":"compact"},{"path":["a"],"kind":"Fn","display":"hidden"},{"path":["a"],"kind":"Mod","display":"normal"},{"path":["a"],"kind":"Constant","display":"compact"},{"path":["a"],"kind":"AssociatedConstantInEnum","display":"hidden"},{"path":["a"],"kind":"AssociatedConstantInTrait","display":"normal"},{"path":["a"],"kind":"AssociatedConstantInStruct","display":"compact"},{"path":["a"],"kind":"Macro","display":"hidden"},{"path":["a"],"kind":"AssociatedTypeInEnum","display":"normal"},{"path":["a"],"kind":"AssociatedTypeInTrait","display":"compact"},{"path":["a"],"kind":"AssociatedTypeInStruct","display":"hidden"},{"path":["a"],"kind":"Typedef","display":"normal"}]}}]}}"#,
    r#"{"root":{"items":[{"kind":"enum","name":"E","docs":{"blocks":null,"links":[{"path":[],"kind":"Mod","display":"hidden"}]}}]}}"#,
    // 127 levels.
    r#"{"root":{"attrs":{"marks":[{"if":{"not":{"not":{"not":{"not":{"not":{"not":{"not":{"not":{"not":{"not":{"not":{"not":{"not":{"not":{"not":{"not":{"not":{"not":{"not":{"not":{"not":{"not":{"not":{"not":{"not":{"not":{"not":{"not":{"not":{"not":{"not":{"not":{"not":{"not":{"not":{"not":{"not":{"not":{"not":{"not":{"not":{"not":{"not":{"not":{"not":{"not":{"not":{"not":{"not":{"not":{"not":{"not":{"not":{"not":{"not":{"not":{"not":{"not":{"not":{"not":{"not":{"not":{"not":{"not":{"not":{"not":{"not":{"not":{"not":{"not":{"not":{"not":{"not":{"not":{"not":{"not":{"not":{"not":{"not":{"not":{"not":{"not":{"not":{"not":{"not":{"not":{"not":{"not":{"not":{"not":{"not":{"not":{"not":{"not":{"not":{"not":{"not":{"not":{"not":{"not":{"not":{"not":{"not":{"not":{"not":{"not":{"not":{"not":{"not":{"not":{"not":{"not":{"not":{"not":{"not":{"not":{"not":{"not":{"not":{"not":{"not":{"not":"*"}}}}}}}}}}}}}}}}}}}}}}}}}}}}}}}}}}}}}}}}}}}}}}}}}}}}}}}}}}}}}}}}}}}}}}}}}}}}}}}}}}}}}}}}}}}}}}}}}}}}}}}}}}}}}}}}}}}}}}}}}},"mark":["m"]}]}}}"#,
];
