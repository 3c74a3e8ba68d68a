//! Declarations with their answers, worked out by hand. Each is told in Rust's notation.
//! `DiplomatStr` and `DiplomatStrSlice` are texts that may be no UTF-8. `O`, `Foo` and `Bar` are opaques.

use super::program::runs_to;
use std::alloc::{AllocError, Global};

/// Root modules that break no rule, with their pages.
const ACCEPTED: [(&str, &str); 19] = [
    // fn f<'a, 'b: 'a>(x: &'a O, y: &'b O) -> &'a O
    (
        r#"{"items":[{"kind":"opaque","name":"O"},{"kind":"function","name":"f","lifetimes":[{"name":"a","longer":[1]},{"name":"b","shorter":[0]}],"params":[{"name":"x","ty":{"ref":{"lifetime":"a","to":{"named":{"segments":["O"]}}}}},{"name":"y","ty":{"ref":{"lifetime":"b","to":{"named":{"segments":["O"]}}}}}],"ret":{"ref":{"lifetime":"a","to":{"named":{"segments":["O"]}}}}}]}"#,
        "callable f\n  lifetime 0 a: x, y\n  edges: opaque x, opaque y\nok 1\n",
    ),
    // The same, but it returns &'b O: x doesn't live that long.
    (
        r#"{"items":[{"kind":"opaque","name":"O"},{"kind":"function","name":"f","lifetimes":[{"name":"a","longer":[1]},{"name":"b","shorter":[0]}],"params":[{"name":"x","ty":{"ref":{"lifetime":"a","to":{"named":{"segments":["O"]}}}}},{"name":"y","ty":{"ref":{"lifetime":"b","to":{"named":{"segments":["O"]}}}}}],"ret":{"ref":{"lifetime":"b","to":{"named":{"segments":["O"]}}}}}]}"#,
        "callable f\n  lifetime 1 b: y\n  edges: opaque y\nok 1\n",
    ),
    // struct Input<'p, 'q> { p_data: &'p O, q_data: &'q O, name: DiplomatStrSlice<'static>, inner: Inner<'q> }, struct Inner<'a> { more_data: DiplomatStrSlice<'a> },
    // struct Output<'p, 'q> { p_data: &'p O, q_data: &'q O }, impl<'a, 'b> Input<'a, 'b> { fn as_output(self, _s: &'static DiplomatStr) -> Output<'b, 'a> }
    (
        r#"{"items":[{"kind":"opaque","name":"O"},{"kind":"struct","name":"Input","lifetimes":[{"name":"p"},{"name":"q"}],"fields":[{"name":"p_data","ty":{"ref":{"lifetime":"p","to":{"named":{"segments":["O"]}}}}},{"name":"q_data","ty":{"ref":{"lifetime":"q","to":{"named":{"segments":["O"]}}}}},{"name":"name","ty":{"str":{"lifetime":"static","encoding":"unvalidated_utf8"}}},{"name":"inner","ty":{"named":{"segments":["Inner"],"lifetimes":["q"]}}}],"methods":[{"name":"as_output","self_type":{"segments":["Input"],"lifetimes":["a","b"]},"self":{"path":{"segments":["Input"],"lifetimes":["a","b"]}},"lifetimes":[{"name":"a"},{"name":"b"}],"params":[{"name":"_s","ty":{"str":{"lifetime":"static","encoding":"unvalidated_utf8"}}}],"ret":{"named":{"segments":["Output"],"lifetimes":["b","a"]}}}]},{"kind":"struct","name":"Inner","lifetimes":[{"name":"a"}],"fields":[{"name":"more_data","ty":{"str":{"lifetime":"a","encoding":"unvalidated_utf8"}}}]},{"kind":"struct","name":"Output","lifetimes":[{"name":"p"},{"name":"q"}],"fields":[{"name":"p_data","ty":{"ref":{"lifetime":"p","to":{"named":{"segments":["O"]}}}}},{"name":"q_data","ty":{"ref":{"lifetime":"q","to":{"named":{"segments":["O"]}}}}}]}]}"#,
        "callable Input::as_output\n  lifetime 0 a: this.p_data\n  edges: struct this 0\n  lifetime 1 b: this.q_data, this.inner.more_data\n  edges: struct this 1\nok 1\n",
    ),
    // fn first(s: &DiplomatStr) -> &DiplomatStr
    (
        r#"{"items":[{"kind":"function","name":"first","params":[{"name":"s","ty":{"str":{"lifetime":"_","encoding":"unvalidated_utf8"}}}],"ret":{"str":{"lifetime":"_","encoding":"unvalidated_utf8"}}}]}"#,
        "callable first\n  lifetime 0 anon_0: s\n  edges: slice s\nok 1\n",
    ),
    // struct S<'a> { o: DiplomatOption<T<'a>> }, struct T<'a> { s: DiplomatStrSlice<'a> }, fn f<'x>(p: S<'x>) -> &'x DiplomatStr
    (
        r#"{"items":[{"kind":"struct","name":"S","lifetimes":[{"name":"a"}],"fields":[{"name":"o","ty":{"diplomat_option":{"named":{"segments":["T"],"lifetimes":["a"]}}}}]},{"kind":"struct","name":"T","lifetimes":[{"name":"a"}],"fields":[{"name":"s","ty":{"str":{"lifetime":"a","encoding":"unvalidated_utf8"}}}]},{"kind":"function","name":"f","lifetimes":[{"name":"x"}],"params":[{"name":"p","ty":{"named":{"segments":["S"],"lifetimes":["x"]}}}],"ret":{"str":{"lifetime":"x","encoding":"unvalidated_utf8"}}}]}"#,
        "callable f\n  lifetime 0 x: p.o.s\n  edges: struct p 0\nok 1\n",
    ),
    // opaque Foo<'a>, fn f<'a>(x: &'a Foo<'a>) -> &'a O: x is listed once.
    (
        r#"{"items":[{"kind":"opaque","name":"O"},{"kind":"opaque","name":"Foo","lifetimes":[{"name":"a"}]},{"kind":"function","name":"f","lifetimes":[{"name":"a"}],"params":[{"name":"x","ty":{"ref":{"lifetime":"a","to":{"named":{"segments":["Foo"],"lifetimes":["a"]}}}}}],"ret":{"ref":{"lifetime":"a","to":{"named":{"segments":["O"]}}}}}]}"#,
        "callable f\n  lifetime 0 a: x\n  edges: opaque x\nok 1\n",
    ),
    // opaque Foo<'a>, fn f<'a: 'b, 'b: 'a>(hold: &'b Bar) -> Box<Foo<'a>>: each outlives the other.
    (
        r#"{"items":[{"kind":"opaque","name":"Bar"},{"kind":"opaque","name":"Foo","lifetimes":[{"name":"a"}]},{"kind":"function","name":"f","lifetimes":[{"name":"a","shorter":[1],"longer":[1]},{"name":"b","longer":[0],"shorter":[0]}],"params":[{"name":"hold","ty":{"ref":{"lifetime":"b","to":{"named":{"segments":["Bar"]}}}}}],"ret":{"box":{"named":{"segments":["Foo"],"lifetimes":["a"]}}}}]}"#,
        "callable f\n  lifetime 0 a: hold\n  edges: opaque hold\nok 1\n",
    ),
    // opaque Opaque2<'a>, O::elided(&self, x: &Opaque2): three lifetimes without a name, and none is returned.
    (
        r#"{"items":[{"kind":"opaque","name":"O","methods":[{"name":"elided","self_type":{"segments":["O"]},"self":{"reference":{"lifetime":"_"},"path":{"segments":["O"]}},"params":[{"name":"x","ty":{"ref":{"lifetime":"_","to":{"named":{"segments":["Opaque2"]}}}}}]}]},{"kind":"opaque","name":"Opaque2","lifetimes":[{"name":"a"}]}]}"#,
        "callable O::elided\nok 1\n",
    ),
    // Foo::borrows_opaque_slice<'a>(&'a self, op: &'a [&'a Foo])
    (
        r#"{"items":[{"kind":"opaque","name":"Foo","methods":[{"name":"borrows_opaque_slice","self_type":{"segments":["Foo"]},"self":{"reference":{"lifetime":"a"},"path":{"segments":["Foo"]}},"lifetimes":[{"name":"a"}],"params":[{"name":"op","ty":{"custom_slice":{"lifetime":"a","of":{"ref":{"lifetime":"a","to":{"named":{"segments":["Foo"]}}}},"std":true}}}]}]}]}"#,
        "callable Foo::borrows_opaque_slice\nok 1\n",
    ),
    // Modules m and n, each with P<'a> { q: Q<'a> } and fn f<'a>(p: P<'a>) -> &'a DiplomatStr; m::Q<'a> { s: DiplomatStrSlice<'a> }, n::Q<'a> { t: DiplomatStrSlice<'a> }
    (
        r#"{"modules":[{"name":"m","items":[{"kind":"struct","name":"P","lifetimes":[{"name":"a"}],"fields":[{"name":"q","ty":{"named":{"segments":["Q"],"lifetimes":["a"]}}}]},{"kind":"struct","name":"Q","lifetimes":[{"name":"a"}],"fields":[{"name":"s","ty":{"str":{"lifetime":"a","encoding":"unvalidated_utf8"}}}]},{"kind":"function","name":"f","lifetimes":[{"name":"a"}],"params":[{"name":"p","ty":{"named":{"segments":["P"],"lifetimes":["a"]}}}],"ret":{"str":{"lifetime":"a","encoding":"unvalidated_utf8"}}}]},{"name":"n","items":[{"kind":"struct","name":"P","lifetimes":[{"name":"a"}],"fields":[{"name":"q","ty":{"named":{"segments":["Q"],"lifetimes":["a"]}}}]},{"kind":"struct","name":"Q","lifetimes":[{"name":"a"}],"fields":[{"name":"t","ty":{"str":{"lifetime":"a","encoding":"unvalidated_utf8"}}}]},{"kind":"function","name":"f","lifetimes":[{"name":"a"}],"params":[{"name":"p","ty":{"named":{"segments":["P"],"lifetimes":["a"]}}}],"ret":{"str":{"lifetime":"a","encoding":"unvalidated_utf8"}}}]}]}"#,
        "callable m::f\n  lifetime 0 a: p.q.s\n  edges: struct p 0\ncallable n::f\n  lifetime 0 a: p.q.t\n  edges: struct p 0\nok 2\n",
    ),
    // struct S { x: u8 }, O::f<'a, 'b: 'a>(s: &'b S, o: &'a O) -> &'a O: a reference to a struct isn't borrowed from.
    (
        r#"{"items":[{"kind":"struct","name":"S","fields":[{"name":"x","ty":"u8"}]},{"kind":"opaque","name":"O","methods":[{"name":"f","self_type":{"segments":["O"]},"lifetimes":[{"name":"a","longer":[1]},{"name":"b","shorter":[0]}],"params":[{"name":"s","ty":{"ref":{"lifetime":"b","to":{"named":{"segments":["S"]}}}}},{"name":"o","ty":{"ref":{"lifetime":"a","to":{"named":{"segments":["O"]}}}}}],"ret":{"ref":{"lifetime":"a","to":{"named":{"segments":["O"]}}}}}]}]}"#,
        "callable O::f\n  lifetime 0 a: o\n  edges: opaque o\nok 1\n",
    ),
    // struct T<'a> { s: DiplomatStrSlice<'a> }, fn f<'a, 'b: 'a>(x: &'a O, y: Option<&'b O>, z: DiplomatOption<T<'a>>) -> &'a O: the edge to a struct in an option is marked.
    (
        r#"{"items":[{"kind":"opaque","name":"O"},{"kind":"struct","name":"T","lifetimes":[{"name":"a"}],"fields":[{"name":"s","ty":{"str":{"lifetime":"a","encoding":"unvalidated_utf8"}}}]},{"kind":"function","name":"f","lifetimes":[{"name":"a","longer":[1]},{"name":"b","shorter":[0]}],"params":[{"name":"x","ty":{"ref":{"lifetime":"a","to":{"named":{"segments":["O"]}}}}},{"name":"y","ty":{"option":{"ref":{"lifetime":"b","to":{"named":{"segments":["O"]}}}}}},{"name":"z","ty":{"diplomat_option":{"named":{"segments":["T"],"lifetimes":["a"]}}}}],"ret":{"ref":{"lifetime":"a","to":{"named":{"segments":["O"]}}}}}]}"#,
        "callable f\n  lifetime 0 a: x, y, z.s\n  edges: opaque x, opaque y, struct z 0 optional\nok 1\n",
    ),
    // fn g(), then opaque O with m and n, of which n is disabled: the methods of all types come before the functions.
    (
        r#"{"items":[{"kind":"function","name":"g"},{"kind":"opaque","name":"O","methods":[{"name":"m","self_type":{"segments":["O"]},"self":{"reference":{"lifetime":"_"},"path":{"segments":["O"]}}},{"name":"n","self_type":{"segments":["O"]},"self":{"reference":{"lifetime":"_"},"path":{"segments":["O"]}},"attrs":{"marks":[{"if":"*","mark":["disable"]}]}}]},{"kind":"function","name":"h","attrs":{"marks":[{"if":"*","mark":["disable"]}]}}]}"#,
        "callable O::m\ncallable g\nok 2\n",
    ),
    // The same struct, disabled.
    (
        r#"{"items":[{"kind":"struct","name":"A","fields":[{"name":"b","ty":{"diplomat_option":{"named":{"segments":["A"]}}}}],"attrs":{"marks":[{"if":"*","mark":["disable"]}]}}]}"#,
        "ok 0\n",
    ),
    // O::m() -> &'static O: 'static is no lifetime that is left out.
    (
        r#"{"items":[{"kind":"opaque","name":"O","methods":[{"name":"m","self_type":{"segments":["O"]},"ret":{"ref":{"lifetime":"static","to":{"named":{"segments":["O"]}}}}}]}]}"#,
        "callable O::m\nok 1\n",
    ),
    // #[attr(*, disable)] O::m(x: &O) -> &O
    (
        r#"{"items":[{"kind":"opaque","name":"O","methods":[{"name":"m","self_type":{"segments":["O"]},"params":[{"name":"x","ty":{"ref":{"lifetime":"_","to":{"named":{"segments":["O"]}}}}}],"ret":{"ref":{"lifetime":"_","to":{"named":{"segments":["O"]}}}},"attrs":{"marks":[{"if":"*","mark":["disable"]}]}}]}]}"#,
        "ok 0\n",
    ),
    // opaque Foo<'a, 'b: 'a, 'c: 'b>, O::use_foo<'x, 'y: 'x, 'z: 'y>(&self, foo: &Foo<'x, 'y, 'z>): the bounds that `Foo` implies are declared.
    (
        r#"{"items":[{"kind":"opaque","name":"Foo","lifetimes":[{"name":"a","longer":[1]},{"name":"b","longer":[2],"shorter":[0]},{"name":"c","shorter":[1]}]},{"kind":"opaque","name":"O","methods":[{"name":"use_foo","self_type":{"segments":["O"]},"self":{"reference":{"lifetime":"_"},"path":{"segments":["O"]}},"lifetimes":[{"name":"x","longer":[1]},{"name":"y","longer":[2],"shorter":[0]},{"name":"z","shorter":[1]}],"params":[{"name":"foo","ty":{"ref":{"lifetime":"_","to":{"named":{"segments":["Foo"],"lifetimes":["x","y","z"]}}}}}]}]}]}"#,
        "callable O::use_foo\nok 1\n",
    ),
    // Foo::borrows_opaque_slice<'a>(&'a self, op: &'a [&'a Foo]) returns nothing.
    (
        r#"{"items":[{"kind":"opaque","name":"Foo","methods":[{"name":"borrows_opaque_slice","self_type":{"segments":["Foo"]},"self":{"reference":{"lifetime":"a"},"path":{"segments":["Foo"]}},"lifetimes":[{"name":"a"}],"params":[{"name":"op","ty":{"custom_slice":{"lifetime":"a","of":{"ref":{"lifetime":"a","to":{"named":{"segments":["Foo"]}}}}}}}]}]}]}"#,
        "callable Foo::borrows_opaque_slice\nok 1\n",
    ),
    // struct S { x: u8 }, fn g<'a>(s: &'a S) -> &'a O: functions may return such a lifetime.
    (
        r#"{"items":[{"kind":"opaque","name":"O"},{"kind":"struct","name":"S","fields":[{"name":"x","ty":"u8"}]},{"kind":"function","name":"g","lifetimes":[{"name":"a"}],"params":[{"name":"s","ty":{"ref":{"lifetime":"a","to":{"named":{"segments":["S"]}}}}}],"ret":{"ref":{"lifetime":"a","to":{"named":{"segments":["O"]}}}}}]}"#,
        "callable g\n  lifetime 0 a:\n  edges:\nok 1\n",
    ),
];

/// Root modules that break one, with the flags of the backend and the reports.
const REFUSED: [(&str, &str, &str); 30] = [
    // fn f<'a>(x: &'a O, y: &'a O) -> &O
    (
        r#"{"items":[{"kind":"opaque","name":"O"},{"kind":"function","name":"f","lifetimes":[{"name":"a"}],"params":[{"name":"x","ty":{"ref":{"lifetime":"a","to":{"named":{"segments":["O"]}}}}},{"name":"y","ty":{"ref":{"lifetime":"a","to":{"named":{"segments":["O"]}}}}}],"ret":{"ref":{"lifetime":"_","to":{"named":{"segments":["O"]}}}}}]}"#,
        USUAL,
        "Lowering error in f\n  ElisionAmbiguous: source of elision is ambiguous\nrefused 1\n",
    ),
    // fn f(cb: impl Fn(&O), x: &O) -> &O
    (
        r#"{"items":[{"kind":"opaque","name":"O"},{"kind":"function","name":"f","params":[{"name":"cb","ty":{"fn":{"params":[{"ref":{"lifetime":"_","to":{"named":{"segments":["O"]}}}}]}}},{"name":"x","ty":{"ref":{"lifetime":"_","to":{"named":{"segments":["O"]}}}}}],"ret":{"ref":{"lifetime":"_","to":{"named":{"segments":["O"]}}}}}]}"#,
        UNSAFE,
        "Lowering error in f\n  ElisionAmbiguous: source of elision is ambiguous\nrefused 1\n",
    ),
    // struct S<'a> { s: DiplomatStrSlice<'a> }, impl<'a> S<'a> { fn get(self) -> &DiplomatStr }
    (
        r#"{"items":[{"kind":"struct","name":"S","lifetimes":[{"name":"a"}],"fields":[{"name":"s","ty":{"str":{"lifetime":"a","encoding":"unvalidated_utf8"}}}],"methods":[{"name":"get","self_type":{"segments":["S"],"lifetimes":["a"]},"self":{"path":{"segments":["S"],"lifetimes":["a"]}},"lifetimes":[{"name":"a"}],"ret":{"str":{"lifetime":"_","encoding":"unvalidated_utf8"}}}]}]}"#,
        USUAL,
        "Lowering error in S::get\n  ElisionNoSource: nothing to borrow from\nrefused 1\n",
    ),
    // struct A { b: DiplomatOption<A> }
    (
        r#"{"items":[{"kind":"struct","name":"A","fields":[{"name":"b","ty":{"diplomat_option":{"named":{"segments":["A"]}}}}]}]}"#,
        USUAL,
        "Lowering error in A\n  StructContainsItself: struct contains itself\nrefused 1\n",
    ),
    // Foo::apply_callback(&self, cb: impl FnMut(&Foo) -> DiplomatOption<&Foo>)
    (
        r#"{"items":[{"kind":"opaque","name":"Foo","methods":[{"name":"apply_callback","self_type":{"segments":["Foo"]},"self":{"reference":{"lifetime":"_"},"path":{"segments":["Foo"]}},"params":[{"name":"cb","ty":{"fn":{"params":[{"ref":{"lifetime":"_","to":{"named":{"segments":["Foo"]}}}}],"ret":{"diplomat_option":{"ref":{"lifetime":"_","to":{"named":{"segments":["Foo"]}}}}},"mutable":true}}}]}]}]}"#,
        UNSAFE,
        "Lowering error in Foo::apply_callback\n  DiplomatOptionOpaque: found DiplomatOption<T>, where T is opaque. Please use Option<&T> (DiplomatOption is for primitives, structs, and enums)\nrefused 1\n",
    ),
    // O::t(#[attr(*, default_value = 1.5)] a: u8)
    (
        r#"{"items":[{"kind":"opaque","name":"O","methods":[{"name":"t","self_type":{"segments":["O"]},"params":[{"name":"a","ty":"u8","attrs":{"marks":[{"if":"*","mark":["default_value"],"value":{"float":"1.5"}}]}}]}]}]}"#,
        USUAL,
        "Lowering error in O::t\n  BadDefaultValue: unsupported default value\nrefused 1\n",
    ),
    // mod m and its opaque P are both disabled.
    (
        r#"{"modules":[{"name":"m","attrs":{"marks":[{"if":"*","mark":["disable"]}]},"items":[{"kind":"opaque","name":"P","attrs":{"marks":[{"if":"*","mark":["disable"]}]}}]}]}"#,
        USUAL,
        "Lowering error in m::P\n  MarkRepeated: Duplicate `disable` attribute\nrefused 1\n",
    ),
    // fn f(x: Box<O>)
    (
        r#"{"items":[{"kind":"opaque","name":"O"},{"kind":"function","name":"f","params":[{"name":"x","ty":{"box":{"named":{"segments":["O"]}}}}]}]}"#,
        USUAL,
        "Lowering error in f\n  BoxMisplaced: found Box<T> where it is not allowed\nrefused 1\n",
    ),
    // struct S { x: u8 }, fn f(x: &S), and the backend has no references to structs.
    (
        r#"{"items":[{"kind":"struct","name":"S","fields":[{"name":"x","ty":"u8"}]},{"kind":"function","name":"f","params":[{"name":"x","ty":{"ref":{"lifetime":"_","to":{"named":{"segments":["S"]}}}}}]}]}"#,
        NO_REFS,
        "Lowering error in f\n  SupportDenied: backend must support struct_refs\nrefused 1\n",
    ),
    // use b as a; use a as b; fn f(x: &a)
    (
        r#"{"aliases":[{"name":"a","target":["b"]},{"name":"b","target":["a"]}],"items":[{"kind":"function","name":"f","params":[{"name":"x","ty":{"ref":{"lifetime":"_","to":{"named":{"segments":["a"]}}}}}]}]}"#,
        USUAL,
        "Lowering error in f\n  UnresolvedPath: a names nothing\nrefused 1\n",
    ),
    // opaque Foo<'a>, fn f(x: &Foo<'static, 'static>)
    (
        r#"{"items":[{"kind":"opaque","name":"Foo","lifetimes":[{"name":"a"}]},{"kind":"function","name":"f","params":[{"name":"x","ty":{"ref":{"lifetime":"_","to":{"named":{"segments":["Foo"],"lifetimes":["static","static"]}}}}}]}]}"#,
        USUAL,
        "Lowering error in f\n  LifetimeArity: Foo has too many lifetimes\nrefused 1\n",
    ),
    // all(auto) as a condition
    (
        r#"{"items":[{"kind":"opaque","name":"O","attrs":{"marks":[{"if":{"all":["auto"]},"mark":["disable"]}]}},{"kind":"function","name":"f"}]}"#,
        USUAL,
        "Lowering error in O\n  AutoMisplaced: auto is only allowed at the top level and within any\nrefused 1\n",
    ),
    // supports = nothing as a condition
    (
        r#"{"items":[{"kind":"opaque","name":"O","attrs":{"marks":[{"if":{"pair":["supports","nothing"]},"mark":["disable"]}]}},{"kind":"function","name":"f"}]}"#,
        USUAL,
        "Lowering error in O\n  UnknownPair: unknown name and value in a condition\nrefused 1\n",
    ),
    // #[attr(*, default)] on the opaque O
    (
        r#"{"items":[{"kind":"opaque","name":"O","attrs":{"marks":[{"if":"*","mark":["default"]}]}}]}"#,
        DEFAULTS,
        "Lowering error in O\n  MarkMisplaced: default is not allowed here\nrefused 1\n",
    ),
    // custom_extra_code on the opaque O, and the backend has no custom bindings.
    (
        r#"{"items":[{"kind":"opaque","name":"O","attrs":{"marks":[{"if":"*","mark":["custom_extra_code"],"list":[{"name":"location","value":{"str":"def_block"}},{"name":"source","value":{"str":"x"}}]}]}}]}"#,
        USUAL,
        "Lowering error in O\n  IncludeUnsupported: Custom bindings not supported by this language.\nrefused 1\n",
    ),
    // O::t(#[attr(*, default_value = 1)] a: u8, b: u8)
    (
        r#"{"items":[{"kind":"opaque","name":"O","methods":[{"name":"t","self_type":{"segments":["O"]},"params":[{"name":"a","ty":"u8","attrs":{"marks":[{"if":"*","mark":["default_value"],"value":{"int":"1"}}]}},{"name":"b","ty":"u8"}]}]}]}"#,
        USUAL,
        "Lowering error in O::t\n  RequiredAfterDefault: Found required arg b after default arguments.\nrefused 1\n",
    ),
    // O::new() -> Box<O> and O::make() -> Box<O>, both marked as constructors, without method_overloading
    (
        r#"{"items":[{"kind":"opaque","name":"O","methods":[{"name":"new","self_type":{"segments":["O"]},"ret":{"box":{"named":{"segments":["O"]}}},"attrs":{"marks":[{"if":"*","mark":["constructor"]}]}},{"name":"make","self_type":{"segments":["O"]},"ret":{"box":{"named":{"segments":["O"]}}},"attrs":{"marks":[{"if":"*","mark":["constructor"]}]}}]}]}"#,
        USUAL,
        "Lowering error in O::make\n  SpecialRepeated: constructor stands twice on one type\nrefused 1\n",
    ),
    // struct S { x: u8 }, #[attr(*, iterator)] S::next(self) -> Option<u8>
    (
        r#"{"items":[{"kind":"struct","name":"S","fields":[{"name":"x","ty":"u8"}],"methods":[{"name":"next","self_type":{"segments":["S"]},"self":{"path":{"segments":["S"]}},"ret":{"option":"u8"},"attrs":{"marks":[{"if":"*","mark":["iterator"]}]}}]}]}"#,
        USUAL,
        "Lowering error in S::next\n  SpecialReceiver: iterator has a wrong receiver\nrefused 1\n",
    ),
    // #[attr(*, comparison)] O::cmp(&self, other: &O) -> Option<Ordering>, without partial_comparators
    (
        r#"{"items":[{"kind":"opaque","name":"O","methods":[{"name":"cmp","self_type":{"segments":["O"]},"self":{"reference":{"lifetime":"_"},"path":{"segments":["O"]}},"params":[{"name":"other","ty":{"ref":{"lifetime":"_","to":{"named":{"segments":["O"]}}}}}],"ret":{"option":"ordering"},"attrs":{"marks":[{"if":"*","mark":["comparison"]}]}}]}]}"#,
        USUAL,
        "Lowering error in O::cmp\n  SpecialSupport: comparison needs partial_comparators\nrefused 1\n",
    ),
    // O::first(s: &DiplomatStr) -> &DiplomatStr
    (
        r#"{"items":[{"kind":"opaque","name":"O","methods":[{"name":"first","self_type":{"segments":["O"]},"params":[{"name":"s","ty":{"str":{"lifetime":"_","encoding":"unvalidated_utf8"}}}],"ret":{"str":{"lifetime":"_","encoding":"unvalidated_utf8"}}}]}]}"#,
        USUAL,
        "Lowering error in O::first\n  ElidedReturn: Found elided lifetime in return type, please explicitly specify\nrefused 1\n",
    ),
    // opaque Foo<'a>, Foo<'a>::get(x: &Self) -> &O
    (
        r#"{"items":[{"kind":"opaque","name":"O"},{"kind":"opaque","name":"Foo","lifetimes":[{"name":"a"}],"methods":[{"name":"get","self_type":{"segments":["Foo"],"lifetimes":["a"]},"lifetimes":[{"name":"a"}],"params":[{"name":"x","ty":{"ref":{"lifetime":"_","to":{"self":{"segments":["Foo"],"lifetimes":["a"]}}}}}],"ret":{"ref":{"lifetime":"_","to":{"named":{"segments":["O"]}}}}}]}]}"#,
        USUAL,
        "Lowering error in Foo::get\n  ElidedReturn: Found elided lifetime in return type, please explicitly specify\nrefused 1\n",
    ),
    // O::m(&self) -> Result<(), &O>
    (
        r#"{"items":[{"kind":"opaque","name":"O","methods":[{"name":"m","self_type":{"segments":["O"]},"self":{"reference":{"lifetime":"_"},"path":{"segments":["O"]}},"ret":{"result":{"ok":"unit","err":{"ref":{"lifetime":"_","to":{"named":{"segments":["O"]}}}}}}}]}]}"#,
        USUAL,
        "Lowering error in O::m\n  ElidedReturn: Found elided lifetime in return type, please explicitly specify\nrefused 1\n",
    ),
    // O::m(&self) -> &O, struct S { x: u8 }, S::n(x: &O) -> &O: structs come before opaques.
    (
        r#"{"items":[{"kind":"opaque","name":"O","methods":[{"name":"m","self_type":{"segments":["O"]},"self":{"reference":{"lifetime":"_"},"path":{"segments":["O"]}},"ret":{"ref":{"lifetime":"_","to":{"named":{"segments":["O"]}}}}}]},{"kind":"struct","name":"S","fields":[{"name":"x","ty":"u8"}],"methods":[{"name":"n","self_type":{"segments":["S"]},"params":[{"name":"x","ty":{"ref":{"lifetime":"_","to":{"named":{"segments":["O"]}}}}}],"ret":{"ref":{"lifetime":"_","to":{"named":{"segments":["O"]}}}}}]}]}"#,
        USUAL,
        "Lowering error in S::n\n  ElidedReturn: Found elided lifetime in return type, please explicitly specify\nLowering error in O::m\n  ElidedReturn: Found elided lifetime in return type, please explicitly specify\nrefused 2\n",
    ),
    // opaque Foo<'a, 'b: 'a, 'c: 'b>, O::use_foo<'x, 'y, 'z>(&self, foo: &Foo<'x, 'y, 'z>)
    (
        r#"{"items":[{"kind":"opaque","name":"Foo","lifetimes":[{"name":"a","longer":[1]},{"name":"b","longer":[2],"shorter":[0]},{"name":"c","shorter":[1]}]},{"kind":"opaque","name":"O","methods":[{"name":"use_foo","self_type":{"segments":["O"]},"self":{"reference":{"lifetime":"_"},"path":{"segments":["O"]}},"lifetimes":[{"name":"x"},{"name":"y"},{"name":"z"}],"params":[{"name":"foo","ty":{"ref":{"lifetime":"_","to":{"named":{"segments":["Foo"],"lifetimes":["x","y","z"]}}}}}]}]}]}"#,
        USUAL,
        "Lowering error in O::use_foo\n  ImpliedBound: Method should explicitly include this lifetime bound from param foo: 'y: 'x (comes from source type's 'b: 'a)\nLowering error in O::use_foo\n  ImpliedBound: Method should explicitly include this lifetime bound from param foo: 'z: 'y (comes from source type's 'c: 'b)\nrefused 2\n",
    ),
    // opaque Foo<'a, 'b: 'a>, O::m<'x>(&self, foo: &Foo<'x, '_>): the third anonymous lifetime has to outlive 'x.
    (
        r#"{"items":[{"kind":"opaque","name":"Foo","lifetimes":[{"name":"a","longer":[1]},{"name":"b","shorter":[0]}]},{"kind":"opaque","name":"O","methods":[{"name":"m","self_type":{"segments":["O"]},"self":{"reference":{"lifetime":"_"},"path":{"segments":["O"]}},"lifetimes":[{"name":"x"}],"params":[{"name":"foo","ty":{"ref":{"lifetime":"_","to":{"named":{"segments":["Foo"],"lifetimes":["x","_"]}}}}}]}]}]}"#,
        USUAL,
        "Lowering error in O::m\n  ImpliedBound: Method should explicitly include this lifetime bound from param foo: 'anon_2: 'x (comes from source type's 'b: 'a)\nrefused 1\n",
    ),
    // opaque Page<'p>, O::open<'a, 'p>(of: &'a Page<'p>)
    (
        r#"{"items":[{"kind":"opaque","name":"Page","lifetimes":[{"name":"p"}]},{"kind":"opaque","name":"O","methods":[{"name":"open","self_type":{"segments":["O"]},"lifetimes":[{"name":"a"},{"name":"p"}],"params":[{"name":"of","ty":{"ref":{"lifetime":"a","to":{"named":{"segments":["Page"],"lifetimes":["p"]}}}}}]}]}]}"#,
        USUAL,
        "Lowering error in O::open\n  ImpliedBound: Method should explicitly include this lifetime bound from param of: 'p: 'a (comes from &-ref's lifetime in parameter)\nrefused 1\n",
    ),
    // opaque Page<'p>, O::open<'a, 'p>(&'a self) -> &'a Page<'p>
    (
        r#"{"items":[{"kind":"opaque","name":"Page","lifetimes":[{"name":"p"}]},{"kind":"opaque","name":"O","methods":[{"name":"open","self_type":{"segments":["O"]},"self":{"reference":{"lifetime":"a"},"path":{"segments":["O"]}},"lifetimes":[{"name":"a"},{"name":"p"}],"ret":{"ref":{"lifetime":"a","to":{"named":{"segments":["Page"],"lifetimes":["p"]}}}}}]}]}"#,
        USUAL,
        "Lowering error in O::open\n  ImpliedBound: Method should explicitly include this lifetime bound from return type: 'p: 'a (comes from &-ref's lifetime in parameter)\nrefused 1\n",
    ),
    // struct S { x: u8 }, O::g<'a>(s: &'a S) -> &'a O
    (
        r#"{"items":[{"kind":"opaque","name":"O","methods":[{"name":"g","self_type":{"segments":["O"]},"lifetimes":[{"name":"a"}],"params":[{"name":"s","ty":{"ref":{"lifetime":"a","to":{"named":{"segments":["S"]}}}}}],"ret":{"ref":{"lifetime":"a","to":{"named":{"segments":["O"]}}}}}]},{"kind":"struct","name":"S","fields":[{"name":"x","ty":"u8"}]}]}"#,
        USUAL,
        "Lowering error in O::g\n  StructRefReturned: Found lifetimes used in struct references also used in the return type: 'a\nrefused 1\n",
    ),
    // struct S { x: u8 }, S::own<'a>(&'a self) -> &'a O
    (
        r#"{"items":[{"kind":"opaque","name":"O"},{"kind":"struct","name":"S","fields":[{"name":"x","ty":"u8"}],"methods":[{"name":"own","self_type":{"segments":["S"]},"self":{"reference":{"lifetime":"a"},"path":{"segments":["S"]}},"lifetimes":[{"name":"a"}],"ret":{"ref":{"lifetime":"a","to":{"named":{"segments":["O"]}}}}}]}]}"#,
        USUAL,
        "Lowering error in S::own\n  StructRefReturned: Found lifetimes used in struct references also used in the return type: 'a\nrefused 1\n",
    ),
    // Foo::borrows_opaque_slice<'a>(&'a self, op: &'a [&'a Foo]) -> &'a Self: the lifetime is told once.
    (
        r#"{"items":[{"kind":"opaque","name":"Foo","methods":[{"name":"borrows_opaque_slice","self_type":{"segments":["Foo"]},"self":{"reference":{"lifetime":"a"},"path":{"segments":["Foo"]}},"lifetimes":[{"name":"a"}],"params":[{"name":"op","ty":{"custom_slice":{"lifetime":"a","of":{"ref":{"lifetime":"a","to":{"named":{"segments":["Foo"]}}}}}}}],"ret":{"ref":{"lifetime":"a","to":{"self":{"segments":["Foo"]}}}}}]}]}"#,
        USUAL,
        "Lowering error in Foo::borrows_opaque_slice\n  OpaqueSliceBorrowed: Opaque slices (param op) cannot be borrowed from: 'a\nrefused 1\n",
    ),
];

/// The flags that most of these declarations are tried with.
const USUAL: &str =
    r#","backend":{"name":"tests","supports":["static_slices","free_functions","struct_refs","option","callbacks","opaque_slices","default_args"]}}"#;

/// The same, where callbacks may take references.
const UNSAFE: &str =
    r#","backend":{"name":"tests","supports":["static_slices","free_functions","struct_refs","option","callbacks","opaque_slices","default_args"]},"config":{"unsafe_references_in_callbacks":true}}"#;

/// A backend whose types may have default values.
const DEFAULTS: &str = r#","backend":{"name":"tests","supports":["defaults"]}}"#;

/// A backend without references to structs.
const NO_REFS: &str =
    r#","backend":{"name":"tests","supports":["static_slices","free_functions","option","callbacks","opaque_slices","default_args"]}}"#;

/// Whether the run on the root module with these settings ends with the status and prints the text.
pub fn answers(
    alloc: Global,
    root: &str,
    settings: &str,
    status: u8,
    text: &str,
) -> Result<bool, AllocError> {
    let mut input = String::from_str(alloc, "{\"root\":")?;
    input.push_str(root)?;
    input.push_str(settings)?;
    runs_to(alloc, &[], input.as_str(), status, text)
}

#[test]
fn declarations_that_break_no_rule_have_their_page(rt: HostRuntime) -> Result<(), AllocError> {
    for (root, page) in &ACCEPTED {
        assert!(rt; answers(rt.alloc(), root, USUAL, 0, page)?, "{root}");
    }
    Ok(())
}

/// The first of these roots that isn't answered as its row says: with the settings, and with reports in these lines.
fn first_wrong(
    alloc: Global,
    rows: &'static [(&'static str, &'static str, &'static str)],
) -> Result<Option<&'static str>, AllocError> {
    for (root, settings, lines) in rows {
        if !answers(alloc, root, settings, 1, lines)? {
            return Ok(Some(root));
        }
    }
    Ok(None)
}

#[test]
fn declarations_that_break_one_have_their_reports(rt: HostRuntime) -> Result<(), AllocError> {
    let wrong = first_wrong(rt.alloc(), &REFUSED)?;
    assert_eq!(rt; wrong, None);
    Ok(())
}

/// Adds the name of the struct of a number.
fn push_name(alloc: Global, text: &mut String, level: usize) -> Result<(), AllocError> {
    text.push_str("\"D")?;
    text.push_str(level.to_string(alloc)?.as_str())?;
    text.push_str("\"")
}

/// A struct by its number, over the lifetime `'l`; before the first stands a reference to the opaque.
fn held(alloc: Global, level: usize) -> Result<String, AllocError> {
    if level == 0 {
        return String::from_str(
            alloc,
            r#"{"ref":{"lifetime":"l","to":{"named":{"segments":["O"]}}}}"#,
        );
    }
    let mut ty = String::from_str(alloc, r#"{"named":{"segments":["#)?;
    push_name(alloc, &mut ty, level)?;
    ty.push_str(r#"],"lifetimes":["l"]}}"#)?;
    Ok(ty)
}

/// Adds fields `a` and `b` of that type.
fn push_fields(root: &mut String, ty: &str) -> Result<(), AllocError> {
    root.push_str(r#"[{"name":"a","ty":"#)?;
    root.push_str(ty)?;
    root.push_str(r#"},{"name":"b","ty":"#)?;
    root.push_str(ty)?;
    root.push_str("}]")
}

/// Adds the struct of a number, which holds a type twice.
fn push_struct(alloc: Global, root: &mut String, level: usize, ty: &str) -> Result<(), AllocError> {
    root.push_str(r#",{"kind":"struct","name":"#)?;
    push_name(alloc, root, level)?;
    root.push_str(r#","lifetimes":[{"name":"l"}],"fields":"#)?;
    push_fields(root, ty)?;
    root.push_str("}")
}

/// Adds the function that takes a type and returns a reference to the opaque.
fn push_function(root: &mut String, ty: &str) -> Result<(), AllocError> {
    root.push_str(
        r#",{"kind":"function","name":"f","lifetimes":[{"name":"l"}],"params":[{"name":"p","ty":"#,
    )?;
    root.push_str(ty)?;
    root.push_str(r#"}],"ret":{"ref":{"lifetime":"l","to":{"named":{"segments":["O"]}}}}}]}"#)
}

/// An opaque `O`, `D1<'l> { a: &'l O, b: &'l O }`, each next `D<'l>` with the one before as `a` and as `b`, and a function that takes the last.
fn doubled(alloc: Global, depth: usize) -> Result<String, AllocError> {
    let mut root = String::from_str(alloc, r#"{"items":[{"kind":"opaque","name":"O"}"#)?;
    for before in 0..depth {
        let ty = held(alloc, before)?;
        push_struct(alloc, &mut root, before + 1, ty.as_str())?;
    }
    let ty = held(alloc, depth)?;
    push_function(&mut root, ty.as_str())?;
    Ok(root)
}

/// Adds the path of a number, as ten binary digits: 0 is `a` and 1 is `b`.
fn push_path(page: &mut String, number: u32) -> Result<(), AllocError> {
    page.push_str("p")?;
    for place in 0u32..10 {
        let is_a = (number >> (9 - place)) & 1 == 0;
        page.push_str(if is_a { ".a" } else { ".b" })?;
    }
    Ok(())
}

/// The page of the function over the tenth: its paths are the numbers to 1,023.
fn page_of_ten(alloc: Global) -> Result<String, AllocError> {
    let mut page = String::from_str(alloc, "callable f\n  lifetime 0 l: ")?;
    for number in 0u32..1024 {
        page.push_str(if number > 0 { ", " } else { "" })?;
        push_path(&mut page, number)?;
    }
    page.push_str("\n  edges: struct p 0\nok 1\n")?;
    Ok(page)
}

/// Whether the function over the struct of that depth is answered so.
fn doubled_answers(
    alloc: Global,
    depth: usize,
    status: u8,
    text: &str,
) -> Result<bool, AllocError> {
    let root = doubled(alloc, depth)?;
    answers(alloc, root.as_str(), USUAL, status, text)
}

#[test]
fn leaves_are_told(rt: HostRuntime) -> Result<(), AllocError> {
    let page = page_of_ten(rt.alloc())?;
    assert!(rt; doubled_answers(rt.alloc(), 10, 0, page.as_str())?);
    Ok(())
}

#[test]
fn leaves_beyond_their_limit_are_reported(rt: HostRuntime) -> Result<(), AllocError> {
    let lines =
        "Lowering error in f\n  TooManyLeaves: more than 1048576 borrowed leaves\nrefused 1\n";
    assert!(rt; doubled_answers(rt.alloc(), 21, 1, lines)?);
    Ok(())
}
