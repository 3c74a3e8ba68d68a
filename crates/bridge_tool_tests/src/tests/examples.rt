//! The larger examples that are checked whole, as they stand in `examples/`.

use super::program::runs_to;
use std::alloc::AllocError;

/// Nested modules with aliases: examples/nested.json.
const NESTED: &str = r#"{"root": {
  "items": [
    {"kind": "opaque", "name": "Owner", "methods": [
      {"name": "look", "self_type": {"segments": ["Owner"]},
       "self": {"reference": {"lifetime": "a"}, "path": {"segments": ["Owner"]}},
       "lifetimes": [{"name": "a", "longer": [1]}, {"name": "b", "shorter": [0]}],
       "params": [{"name": "rack", "ty": {"ref": {"lifetime": "b", "to": {"named": {"segments": ["Rack"]}}}}}],
       "ret": {"ref": {"lifetime": "a", "to": {"named": {"segments": ["shelves", "Item"]}}}}}
    ]}
  ],
  "aliases": [
    {"name": "shelves", "target": ["shop", "stock"]},
    {"name": "Rack", "target": ["shelves", "Shelf"]}
  ],
  "modules": [
    {"name": "shop",
     "items": [
       {"kind": "opaque", "name": "Till", "methods": [
         {"name": "scan", "self_type": {"segments": ["Till"]},
          "self": {"reference": {"lifetime": "a"}, "path": {"segments": ["Till"]}},
          "lifetimes": [{"name": "a"}, {"name": "b"}],
          "params": [{"name": "goods", "ty": {"ref": {"lifetime": "b", "to": {"named": {"segments": ["Goods"]}}}}}],
          "ret": {"ref": {"lifetime": "b", "to": {"named": {"segments": ["self", "stock", "Item"]}}}}},
         {"name": "new", "self_type": {"segments": ["Till"]},
          "ret": {"box": {"named": {"segments": ["Till"]}}}}
       ]}
     ],
     "aliases": [{"name": "Goods", "target": ["stock", "Item"]}],
     "modules": [
       {"name": "stock",
        "items": [
          {"kind": "opaque", "name": "Shelf", "methods": [
            {"name": "first", "self_type": {"segments": ["Shelf"]},
             "self": {"reference": {"lifetime": "a"}, "path": {"segments": ["Shelf"]}},
             "lifetimes": [{"name": "a"}],
             "ret": {"ref": {"lifetime": "a", "to": {"named": {"segments": ["Item"]}}}}},
            {"name": "swap", "self_type": {"segments": ["Shelf"]},
             "self": {"reference": {"lifetime": "a"}, "path": {"segments": ["Shelf"]}},
             "lifetimes": [{"name": "a", "longer": [1]}, {"name": "b", "shorter": [0]}],
             "params": [
               {"name": "other", "ty": {"ref": {"lifetime": "b", "to": {"named": {"segments": ["self", "Shelf"]}}}}},
               {"name": "owner", "ty": {"ref": {
                 "lifetime": "b", "to": {"named": {"segments": ["super", "super", "Owner"]}}}}}],
             "ret": {"ref": {"lifetime": "a", "to": {"named": {"segments": ["crate", "shop", "stock", "Item"]}}}}},
            {"name": "ledger", "self_type": {"segments": ["Shelf"]},
             "self": {"reference": {"lifetime": "a"}, "path": {"segments": ["Shelf"]}},
             "lifetimes": [{"name": "a"}, {"name": "b"}],
             "params": [{"name": "till", "ty": {"ref": {"lifetime": "b", "to": {"named": {"segments": ["super", "Till"]}}}}}],
             "ret": {"ref": {"lifetime": "b", "to": {"named": {"segments": ["Book"]}}}}}
          ]},
          {"kind": "opaque", "name": "Item"}
        ],
        "aliases": [{"name": "Book", "target": ["crate", "office", "Ledger"]}]}
     ]},
    {"name": "office",
     "items": [
       {"kind": "opaque", "name": "Ledger", "methods": [
         {"name": "entry", "self_type": {"segments": ["Ledger"]},
          "self": {"reference": {"lifetime": "a"}, "path": {"segments": ["Ledger"]}},
          "lifetimes": [{"name": "a"}, {"name": "b"}],
          "params": [
            {"name": "sold", "ty": {"ref": {
              "lifetime": "b", "to": {"named": {"segments": ["super", "shelves", "Item"]}}}}}],
          "ret": {"ref": {"lifetime": "a", "to": {"named": {"segments": ["Item"]}}}}}
       ]},
       {"kind": "opaque", "name": "Item"}
     ]}
  ]
}}"#;

/// Its page, worked out by hand.
const NESTED_PAGE: &str =
    "callable Owner::look\n  lifetime 0 a: this, rack\n  edges: opaque this, opaque rack\ncallable shop::Till::scan\n  lifetime 1 b: goods\n  edges: opaque goods\ncallable shop::Till::new\ncallable office::Ledger::entry\n  lifetime 0 a: this\n  edges: opaque this\ncallable shop::stock::Shelf::first\n  lifetime 0 a: this\n  edges: opaque this\ncallable shop::stock::Shelf::swap\n  lifetime 0 a: this, other, owner\n  edges: opaque this, opaque other, opaque owner\ncallable shop::stock::Shelf::ledger\n  lifetime 1 b: till\n  edges: opaque till\nok 7\n";

/// Structs in structs, an option of a struct, texts, and a lifetime that is left out: examples/search.json.
const SEARCH: &str = r#"{"root": {"modules": [
  {"name": "search",
   "items": [
     {"kind": "opaque", "name": "Index"},
     {"kind": "opaque", "name": "Hits", "lifetimes": [{"name": "h"}],
      "methods": [
        {"name": "find", "self_type": {"segments": ["Hits"], "lifetimes": ["h"]},
         "lifetimes": [{"name": "h", "longer": [1]}, {"name": "q", "shorter": [0]}],
         "params": [
           {"name": "query", "ty": {"named": {"segments": ["Query"], "lifetimes": ["h", "q"]}}},
           {"name": "hint", "ty": {"diplomat_option": {"named": {"segments": ["Span"], "lifetimes": ["q"]}}}},
           {"name": "locale", "ty": {"str": {"lifetime": "_", "encoding": "unvalidated_utf8"}}}],
         "ret": {"box": {"named": {"segments": ["Hits"], "lifetimes": ["h"]}}}},
        {"name": "narrow", "self_type": {"segments": ["Hits"], "lifetimes": ["h"]},
         "self": {"reference": {"lifetime": "a"}, "path": {"segments": ["Hits"], "lifetimes": ["h"]}},
         "lifetimes": [{"name": "h", "shorter": [1]}, {"name": "a", "longer": [0]}],
         "params": [{"name": "words", "ty": {"str": {"lifetime": "a", "encoding": "unvalidated_utf8"}}}],
         "ret": {"ref": {"lifetime": "a", "to": {"named": {"segments": ["Hits"], "lifetimes": ["h"]}}}}}
      ]},
     {"kind": "struct", "name": "Span", "lifetimes": [{"name": "s"}],
      "fields": [
        {"name": "index", "ty": {"ref": {"lifetime": "s", "to": {"named": {"segments": ["Index"]}}}}},
        {"name": "first", "ty": "u32"}]},
     {"kind": "struct", "name": "Query", "lifetimes": [{"name": "i"}, {"name": "t"}],
      "fields": [
        {"name": "span", "ty": {"named": {"segments": ["Span"], "lifetimes": ["i"]}}},
        {"name": "words", "ty": {"str": {"lifetime": "t", "encoding": "unvalidated_utf8"}}}]},
     {"kind": "function", "name": "trim",
      "params": [{"name": "text", "ty": {"str": {"lifetime": "_", "encoding": "unvalidated_utf8"}}}],
      "ret": {"str": {"lifetime": "_", "encoding": "unvalidated_utf8"}}}
   ]}
]},
"backend": {"name": "demo", "supports": ["option", "free_functions"]}}"#;

/// Its page, worked out by hand.
const SEARCH_PAGE: &str =
    "callable search::Hits::find\n  lifetime 0 h: query.span.index, query.words, hint.index\n  edges: struct query 0, struct query 1, struct hint 0 optional\ncallable search::Hits::narrow\n  lifetime 0 h: this\n  edges: opaque this\n  lifetime 1 a: this, words\n  edges: opaque this, slice words\ncallable search::trim\n  lifetime 0 anon_0: text\n  edges: slice text\nok 3\n";

/// A path that names nothing: examples/broken.json.
const BROKEN: &str = r#"{"root": {"items": [
  {"kind": "opaque", "name": "Library", "methods": [
    {"name": "shelve", "self_type": {"segments": ["Library"]},
     "self": {"reference": {"lifetime": "a"}, "path": {"segments": ["Library"]}},
     "lifetimes": [{"name": "a"}],
     "params": [{"name": "book", "ty": {"ref": {"lifetime": "a", "to": {"named": {"segments": ["Book"]}}}}}],
     "ret": {"ref": {"lifetime": "a", "to": {"named": {"segments": ["Library"]}}}}}
  ]}
]}}"#;

/// Its lines, worked out by hand.
const BROKEN_LINES: &str =
    "Lowering error in Library::shelve\n  UnresolvedPath: Book names nothing\nrefused 1\n";

/// Types where they can't stand, in several items: examples/broken_types.json.
const BROKEN_TYPES: &str = r#"{"backend": {"name": "tests", "supports": ["free_functions"]},
 "root": {"items": [
  {"kind": "opaque", "name": "Pool", "methods": [
    {"name": "adopt", "self_type": {"segments": ["Pool"]},
     "self": {"reference": {"lifetime": "_"}, "path": {"segments": ["Pool"]}},
     "params": [{"name": "other", "ty": {"named": {"segments": ["Pool"]}}}]},
    {"name": "merge", "self_type": {"segments": ["Pool"]},
     "self": {"reference": {"lifetime": "_"}, "path": {"segments": ["Pool"]}},
     "params": [{"name": "stats", "ty": {"named": {"segments": ["Stats"]}}}]},
    {"name": "wait", "self_type": {"segments": ["Pool"]},
     "self": {"reference": {"lifetime": "_", "mutable": true}, "path": {"segments": ["Pool"]}}},
    {"name": "stats", "self_type": {"segments": ["Pool"]},
     "self": {"reference": {"lifetime": "_"}, "path": {"segments": ["Pool"]}},
     "ret": {"named": {"segments": ["Stats"]}}}
  ]},
  {"kind": "function", "name": "rank", "params": [{"name": "by", "ty": "ordering"}]},
  {"kind": "out_struct", "name": "Stats", "fields": [{"name": "jobs", "ty": "u32"}]}
]}}"#;

/// Its lines, worked out by hand.
const BROKEN_TYPES_LINES: &str =
    "Lowering error in Pool::adopt\n  OpaqueByValue: Opaque passed by value\nLowering error in Pool::merge\n  OutStructInput: found out-struct in input\nLowering error in Pool::wait\n  MutOpaqueUnmarked: opaque passed as &mut without opaque_mut\nLowering error in rank\n  OrderingMisplaced: cmp::Ordering is only allowed in return types\nrefused 4\n";

/// Structs that contain each other: examples/broken_nesting.json.
const BROKEN_NESTING: &str = r#"{"backend": {"name": "tests", "supports": ["option"]},
 "root": {"items": [
  {"kind": "struct", "name": "Drive", "fields": [{"name": "root", "ty": {"named": {"segments": ["Folder"]}}}]},
  {"kind": "struct", "name": "Folder", "fields": [
    {"name": "first", "ty": {"diplomat_option": {"named": {"segments": ["Entry"]}}}}]},
  {"kind": "struct", "name": "Entry", "fields": [
    {"name": "size", "ty": "u64"},
    {"name": "folder", "ty": {"diplomat_option": {"named": {"segments": ["Folder"]}}}}]}
]}}"#;

/// Its lines, worked out by hand.
const BROKEN_NESTING_LINES: &str =
    "Lowering error in Folder\n  StructContainsItself: struct contains itself\nLowering error in Entry\n  StructContainsItself: struct contains itself\nrefused 2\n";

/// Those that break a rule, with their lines.
const REFUSED: [(&str, &str); 3] = [
    (BROKEN, BROKEN_LINES),
    (BROKEN_TYPES, BROKEN_TYPES_LINES),
    (BROKEN_NESTING, BROKEN_NESTING_LINES),
];

#[test]
fn nested_modules_have_their_page(rt: HostRuntime) -> Result<(), AllocError> {
    assert!(rt; runs_to(rt.alloc(), &[], NESTED, 0, NESTED_PAGE)?);
    Ok(())
}

#[test]
fn structs_and_texts_have_their_page(rt: HostRuntime) -> Result<(), AllocError> {
    assert!(rt; runs_to(rt.alloc(), &[], SEARCH, 0, SEARCH_PAGE)?);
    Ok(())
}

#[test]
fn broken_bridges_have_their_reports(rt: HostRuntime) -> Result<(), AllocError> {
    for (input, lines) in &REFUSED {
        assert!(rt; runs_to(rt.alloc(), &[], input, 1, lines)?, "{lines}");
    }
    Ok(())
}
