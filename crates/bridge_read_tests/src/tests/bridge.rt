//! A realistic bridge, as it stands in `examples/`.

use bridge_ast::Module;
use bridge_read::read_input;
use std::test::*;

/// Modules with opaques, structs, enums, a trait, callbacks, documentation and marks: examples/bridge.json.
const BRIDGE: &str = r#"{
  "root": {
    "attrs": {"abi_rename": "bridge_{0}"},
    "modules": [
      {"name": "locale",
       "items": [
         {"kind": "enum", "name": "Direction",
          "variants": [
            {"name": "Ltr", "discriminant": 0,
             "docs": {"blocks": [{"if": "*", "lines": "From left to right."}],
                      "links": [{"path": ["icu", "Direction", "LeftToRight"], "kind": "EnumVariant", "display": "compact"}]}},
            {"name": "Rtl", "discriminant": 1}],
          "docs": {"links": [{"path": ["icu", "Direction"], "kind": "Enum", "display": "normal"}]},
          "attrs": {"marks": [{"if": "auto", "mark": ["abi_compatible"]}]}},
         {"kind": "opaque", "name": "Locale",
          "methods": [
            {"name": "new", "self_type": {"segments": ["Locale"]},
             "params": [{"name": "name", "ty": {"str": {"lifetime": "_", "encoding": "unvalidated_utf8"}}}],
             "ret": {"option": {"box": {"named": {"segments": ["Locale"]}}}},
             "docs": {"blocks": [{"if": "*", "lines": "Reads a name.\n"},
                                 {"if": {"backend": "js"}, "lines": "Throws where it is none."}],
                      "links": [{"path": ["icu", "Locale", "parse"], "kind": "FnInStruct", "display": "hidden"}]},
             "attrs": {"marks": [{"if": "auto", "mark": ["constructor"]}]}},
            {"name": "name", "self_type": {"segments": ["Locale"]},
             "self": {"reference": {"lifetime": "a"}, "path": {"segments": ["Locale"]}},
             "lifetimes": [{"name": "a"}],
             "ret": {"str": {"lifetime": "a", "encoding": "unvalidated_utf8"}}},
            {"name": "direction", "self_type": {"segments": ["Locale"]},
             "self": {"reference": {"lifetime": "_"}, "path": {"segments": ["Locale"]}},
             "ret": {"named": {"segments": ["Direction"]}}},
            {"name": "compare", "self_type": {"segments": ["Locale"]},
             "self": {"reference": {"lifetime": "_"}, "path": {"segments": ["Locale"]}},
             "params": [{"name": "other", "ty": {"ref": {"lifetime": "_", "to": {"named": {"segments": ["Locale"]}}}}}],
             "ret": "ordering",
             "attrs": {"marks": [{"if": "auto", "mark": ["comparison"]}]}},
            {"name": "write", "self_type": {"segments": ["Locale"]},
             "self": {"reference": {"lifetime": "_"}, "path": {"segments": ["Locale"]}},
             "params": [{"name": "w", "ty": {"ref": {"lifetime": "_", "mutable": true, "to": {"write": "str"}}}}],
             "attrs": {"marks": [{"if": "auto", "mark": ["stringifier"]}]}}
          ],
          "dtor_abi_name": "Locale_destroy",
          "docs": {"blocks": [{"if": "*", "lines": "A language, and where it is spoken."}],
                   "links": [{"path": ["icu", "Locale"], "kind": "Struct", "display": "normal"}]},
          "attrs": {"marks": [
            {"if": {"backend": "cpp"}, "mark": ["namespace"], "value": {"str": "bridge"}},
            {"if": {"backend": "js"}, "mark": ["custom_extra_code"], "list": [
              {"name": "location", "value": {"str": "def_block"}},
              {"name": "file", "value": {"str": "locale.mjs"}}]}]}}
       ]},
      {"name": "data",
       "items": [
         {"kind": "enum", "name": "Width", "variants": [
           {"name": "Short", "discriminant": 0},
           {"name": "Long", "discriminant": 1, "attrs": {"marks": [{"if": "*", "mark": ["default"]}]}}]},
         {"kind": "enum", "name": "LoadError", "variants": [{"name": "Missing", "discriminant": -1}]},
         {"kind": "opaque", "name": "Provider", "lifetimes": [{"name": "d"}],
          "methods": [
            {"name": "load", "self_type": {"segments": ["Provider"], "lifetimes": ["d"]},
             "lifetimes": [{"name": "d"}],
             "params": [{"name": "blob", "ty": {"slice": {"lifetime": "d", "of": "u8", "std": true}}}],
             "ret": {"box": {"named": {"segments": ["Provider"], "lifetimes": ["d"]}}},
             "attrs": {"marks": [{"if": "auto", "mark": ["named_constructor"]}]}}
          ]},
         {"kind": "opaque", "name": "Formatter", "lifetimes": [{"name": "f"}],
          "methods": [
            {"name": "try_new", "abi_name": "Formatter_try_new",
             "self_type": {"segments": ["Formatter"], "lifetimes": ["f"]},
             "lifetimes": [{"name": "f"}],
             "params": [
               {"name": "provider", "ty": {"ref": {
                 "lifetime": "f", "to": {"named": {"segments": ["Provider"], "lifetimes": ["f"]}}}}},
               {"name": "options", "ty": {"named": {"segments": ["Options"], "lifetimes": ["f"]}}}],
             "ret": {"result": {
               "ok": {"box": {"named": {"segments": ["Formatter"], "lifetimes": ["f"]}}},
               "err": {"named": {"segments": ["LoadError"]}}}}},
            {"name": "format", "self_type": {"segments": ["Formatter"], "lifetimes": ["f"]},
             "self": {"reference": {"lifetime": "_"}, "path": {"segments": ["Formatter"], "lifetimes": ["f"]}},
             "lifetimes": [{"name": "f"}],
             "params": [
               {"name": "value", "ty": "i64"},
               {"name": "w", "ty": {"ref": {"lifetime": "_", "mutable": true, "to": {"write": "str"}}}}],
             "ret": {"result": {"ok": "unit", "err": {"named": {"segments": ["LoadError"]}}}}},
            {"name": "parts", "self_type": {"segments": ["Formatter"], "lifetimes": ["f"]},
             "self": {"reference": {"lifetime": "a"}, "path": {"segments": ["Formatter"], "lifetimes": ["f"]}},
             "lifetimes": [{"name": "f", "shorter": [1]}, {"name": "a", "longer": [0]}],
             "ret": {"box": {"named": {"segments": ["Parts"], "lifetimes": ["a"]}}},
             "attrs": {"marks": [{"if": "auto", "mark": ["iterable"]}]}},
            {"name": "each", "self_type": {"segments": ["Formatter"], "lifetimes": ["f"]},
             "self": {"reference": {"lifetime": "_"}, "path": {"segments": ["Formatter"], "lifetimes": ["f"]}},
             "lifetimes": [{"name": "f"}],
             "params": [{"name": "cb", "ty": {"fn": {
               "params": [{"str": {"lifetime": "_", "encoding": "unvalidated_utf8"}}], "mutable": true}}}],
             "attrs": {"deprecated": "use parts"}}
          ]},
         {"kind": "opaque", "name": "Parts", "lifetimes": [{"name": "p"}], "mutable": true,
          "methods": [
            {"name": "next", "self_type": {"segments": ["Parts"], "lifetimes": ["p"]},
             "self": {"reference": {"lifetime": "_", "mutable": true}, "path": {"segments": ["Parts"], "lifetimes": ["p"]}},
             "lifetimes": [{"name": "p"}],
             "ret": {"option": {"named": {"segments": ["Part"], "lifetimes": ["p"]}}},
             "attrs": {"marks": [{"if": "auto", "mark": ["iterator"]}]}}
          ]},
         {"kind": "struct", "name": "Options", "lifetimes": [{"name": "o"}],
          "fields": [
            {"name": "locale", "ty": {"ref": {
              "lifetime": "o", "to": {"named": {"segments": ["crate", "locale", "Locale"]}}}}},
            {"name": "pattern", "ty": {"str": {"lifetime": "o", "encoding": "unvalidated_utf8"}}},
            {"name": "fallback", "ty": {"diplomat_option": {"named": {"segments": ["Width"]}}}}]},
         {"kind": "out_struct", "name": "Part", "lifetimes": [{"name": "p"}],
          "fields": [
            {"name": "text", "ty": {"str": {"lifetime": "p", "encoding": "unvalidated_utf8"}}},
            {"name": "kind", "ty": "u8", "docs": {"blocks": [{"if": "*", "lines": "What the part is of."}]}}]},
         {"kind": "trait", "name": "Sink", "methods": [
           {"name": "accept",
            "self": {"reference": {"lifetime": "_"}, "path": {"segments": ["Sink"]}},
            "params": [{"name": "n", "ty": "u32"}],
            "ret": "bool"}]},
         {"kind": "function", "name": "parse", "lifetimes": [{"name": "x"}],
          "params": [
            {"name": "text", "ty": {"str": {"lifetime": "x", "encoding": "unvalidated_utf8"}}},
            {"name": "sink", "ty": {"impl": {"segments": ["Sink"]}}}],
          "ret": {"named": {"segments": ["Part"], "lifetimes": ["x"]}},
          "docs": {"links": [{"path": ["icu_parts", "parse"], "kind": "Fn", "display": "normal"}]}}
       ]}
    ]
  },
  "backend": {
    "name": "tests",
    "other_names": ["demo"],
    "supports": [
      "static_slices", "free_functions", "struct_refs", "option", "callbacks", "opaque_slices", "default_args",
      "constructors", "named_constructors", "stringifiers", "comparators", "iterators", "iterables",
      "abi_compatibles", "traits", "utf8_strings", "defaults"],
    "pairs": [{"name": "style", "value": "plain"}]
  },
  "config": {"unsafe_references_in_callbacks": false},
  "docs": {"default": "https://docs.rs/", "bases": {"icu_parts": "https://parts.example/docs"}}
}"#;

/// Whether the modules' own names are these.
fn have_names(modules: &[Module], names: &[&str]) -> bool {
    for (module, name) in modules.iter().zip(names.iter()) {
        let last = module.path.as_slice().last();
        if last.map_or("", |segment| segment.as_str()) != *name {
            return false;
        }
    }
    modules.len() == names.len()
}

#[test]
fn a_whole_bridge_is_read(rt: HostRuntime) -> Result<(), Fail> {
    let input = read_input(rt.alloc(), BRIDGE.as_bytes())
        .ok()
        .ok_or("an input")?;
    let has_modules = have_names(input.env.modules(), &["", "locale", "data"]);
    let has_flags = input.validator.support.iterators && !input.validator.support.accessors;
    drop(input);
    assert!(rt; has_modules);
    assert!(rt; has_flags);
    Ok(())
}
