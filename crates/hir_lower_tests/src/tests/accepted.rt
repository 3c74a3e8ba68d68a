//! Accepted declarations, and the contexts that they make.

use crate::tests::answers::{Lowered, lowered, told};
use crate::tests::backends::ALL;
use crate::tests::compare_found;
use crate::tests::contexts::rendered;
use std::alloc::Global;
use std::process::Abort;
use std::test::Fail;

/// What the backend supports in most worked examples.
const USUAL: &str =
    "static_slices free_functions struct_refs option callbacks opaque_slices default_args";

/// What it supports in the realistic one.
const BRIDGE_SUPPORT: &str =
    "static_slices free_functions struct_refs option callbacks opaque_slices default_args constructors named_constructors stringifiers comparators iterators iterables abi_compatibles traits utf8_strings";

/// A realistic bridge.
const BRIDGE: &str = r##"mod locale {
  #auto.abi_compatible enum Direction { Ltr=0, Rtl=1 }
  opaque Locale impl {
    #auto.constructor fn new(name: &DiplomatStr) -> Option<Box<Locale>>
    fn name<'a>(&'a self) -> &'a DiplomatStr
    fn direction(&self) -> Direction
    #auto.comparison fn compare(&self, other: &Locale) -> Ordering
    #auto.stringifier fn write(&self, w: &mut DiplomatWrite)
  }
}
mod data {
  enum Width { Short=0, Long=1 }
  enum LoadError { Missing=0 }
  opaque Provider<'d> impl {
    #auto.named_constructor fn load<'d>(blob: &'d [u8]) -> Box<Provider<'d>>
  }
  opaque Formatter<'f> impl {
    fn try_new<'f>(provider: &'f Provider<'f>, options: Options<'f>) -> Result<Box<Formatter<'f>>, LoadError>
    fn format<'f>(&self, value: i64, w: &mut DiplomatWrite) -> Result<unit, LoadError>
    #auto.iterable @f_outlives_a fn parts(&'a self) -> Box<Parts<'a>>
    fn each<'f>(&self, cb: impl FnMut(&DiplomatStr))
  }
  @mutable opaque Parts<'p> impl {
    #auto.iterator fn next<'p>(&mut self) -> Option<Part<'p>>
  }
  struct Options<'o> {
    locale: &'o crate::locale::Locale, pattern: &'o DiplomatStr, fallback: DiplomatOption<Width>
  }
  out_struct Part<'p> { text: &'p DiplomatStr, kind: u8 }
  trait Sink { fn accept(&self, n: u32) -> bool }
  fn parse<'x>(text: &'x DiplomatStr, sink: impl Sink) -> Part<'x>
}"##;

/// Its context.
const BRIDGE_CONTEXT: &str = r##"
out_struct data::Part 'p
  text: value '0
  kind: value
struct data::Options 'o
  locale: opaque 0 '0
  pattern: value '0
  fallback: ?enum 1
opaque locale::Locale = Locale
  fn new = new +1 special (name: value '0) -> ?opaque 0
  fn name = name 'a (&self) -> value '0
  fn direction = direction +1 (&self) -> enum 0
  fn compare = compare +2 special (&self, other: opaque 0 '1) -> value
  fn write = write +1 special (&self) -> write
opaque data::Provider = Provider 'd
  fn load = load 'd special (blob: value '0) -> opaque 1 '0
opaque data::Formatter = Formatter 'f
  fn try_new = try_new 'f (provider: opaque 1 '0 '0, options: struct 0 '0) -> opaque 2 '0 or enum 2
  fn format = format 'f +1 (&self, value: value) -> write or enum 2
  fn parts = parts 'f 'a(0) special (&self) -> opaque 3 '1
  fn each = each 'f +2 (&self, cb: value) -> unit
opaque data::Parts = Parts 'p
  fn next = next 'p +1 special (&mut self) -> out_struct 0 '0 or nothing
enum locale::Direction
  Ltr = 0
  Rtl = 1
enum data::Width
  Short = 0
  Long = 1
enum data::LoadError
  Missing = 0
trait data::Sink
  fn accept (self, n: value) -> value
fn data::parse = parse 'x (text: value '0, sink: value) -> out_struct 0 '0"##;

/// What the backend supports, declarations, and their context.
const ROWS: [(&str, &str, &str); 10] = [
    (BRIDGE_SUPPORT, BRIDGE, BRIDGE_CONTEXT),
    // Each lifetime that isn't written is one more.
    (
        USUAL,
        "opaque O impl { fn elided(&self, x: &Opaque2) } opaque Opaque2<'a>",
        r#"
opaque O = O
  fn elided = elided +3 (&self, x: opaque 1 '2 '1) -> unit
opaque Opaque2 = Opaque2 'a"#,
    ),
    // Callbacks and traits whose parameters and returns are borrowed.
    (
        "callbacks traits unsafe",
        "opaque Foo impl { fn apply_callback(&self, cb: impl FnMut(&Foo) -> Option<&Foo>) fn apply_self_callback(&self, cb: impl FnMut(&Foo) -> Option<&Self>) fn apply_trait(&self, g: impl Getter) } trait Getter { fn get(&self) -> Option<&Foo> }",
        r#"
opaque Foo = Foo
  fn apply_callback = apply_callback +3 (&self, cb: value) -> unit
  fn apply_self_callback = apply_self_callback +3 (&self, cb: value) -> unit
  fn apply_trait = apply_trait +1 (&self, g: value) -> unit
trait Getter
  fn get (self) -> ?opaque 0 '1"#,
    ),
    // Kinds in order, each in the order of the walk over modules; ids are places.
    (
        ALL,
        "fn f(x: &m::O) trait T { fn m(&self, x: u8) -> bool } enum E { A=1, #default B=0 } struct S { x: u8 } out_struct W { y: u8 } opaque O mod m { fn f() opaque O struct S { z: E2 } enum E2 { C=-5 } out_struct W { s: S } mod n { struct S { w: super::S } } } mod p { struct S { s: super::m::n::S } }",
        r#"
out_struct W
  y: value
out_struct m::W
  s: struct 1
struct S
  x: value
struct m::S
  z: enum 1
struct p::S
  s: struct 3
struct m::n::S
  w: struct 1
opaque O = O
opaque m::O = O
enum E
  A = 1
  B = 0 default
enum m::E2
  C = -5
trait T
  fn m (self, x: value) -> value
fn f = f +1 (x: opaque 1 '0) -> unit
fn m::f = f () -> unit"#,
    ),
    // Two structs of one name and content, in two modules.
    (
        ALL,
        "mod m { struct P { x: u8 } fn f(p: P) } mod n { struct P { x: u8 } fn f(p: P, q: super::m::P) }",
        r#"
struct m::P
  x: value
struct n::P
  x: value
fn m::f = f (p: struct 0) -> unit
fn n::f = f (p: struct 1, q: struct 0) -> unit"#,
    ),
    // Marks that are taken over: of modules by types, traits and functions, not by methods and variants; of traits by their methods.
    (
        ALL,
        "#namespace=t trait T { fn m() #rename=k fn n() } #namespace=top mod m { struct S { x: u8 } impl { fn a() } #namespace=own opaque O impl { #rename=c fn b() } mod n { enum E { A=0 } fn f() } } #rename_x mod r { struct S { x: u8 } impl { fn a() } #rename=y fn f() }",
        r#"
struct m::S namespace=top
  x: value
  fn a = a () -> unit
struct r::S rename=x{0}
  x: value
  fn a = a () -> unit
opaque m::O = O namespace=own
  fn b = b rename=c () -> unit
enum m::n::E namespace=top
  A = 0
trait T namespace=t
  fn m namespace=t () -> unit
  fn n namespace=t rename=k () -> unit
fn r::f = f rename=y () -> unit
fn m::n::f = f namespace=top () -> unit"#,
    ),
    // What is disabled has its name, marks and declared lifetimes, and an enum its variants.
    (
        ALL,
        "#disable struct S<'a> { x: &'a Q } impl { fn m() } #disable out_struct W { x: u8 } #disable opaque O impl { fn m() } #disable enum E { A=0 } impl { fn m() } #disable trait T { fn m() } #disable fn f<'a>(x: u8) -> u8 opaque P impl { fn a() #disable fn b() fn c() } trait U { #disable fn a() fn b() } fn g(x: S<'static>, y: DiplomatOption<E>)",
        r#"
out_struct W disable
struct S 'a disable
opaque O = O disable
opaque P = P
  fn a = a () -> unit
  fn c = c () -> unit
enum E disable
  A = 0
trait T disable
trait U
  fn b () -> unit
fn f = f disable () -> unit
fn g = g (x: struct 0 'static, y: ?enum 0) -> unit"#,
    ),
    // Parameters without the writer at the end, and what is returned.
    (
        ALL,
        "@mutable opaque O impl { @outlives fn m(&'a mut self, x: &'b DiplomatStr, y: &O, w: &mut DiplomatWrite) -> Result<unit, u8> fn p(&self, w: &mut DiplomatWrite) -> u8 fn q(w: &mut DiplomatWrite) -> Option<unit> fn r(x: u8) -> Option<Box<O>> } fn n(x: &O) -> Option<&O>",
        r#"
opaque O = O
  fn m = m 'a(1) 'b +1 (&mut self, x: value '1, y: opaque 0 '2) -> write or value
  fn p = p +1 (&self) -> value
  fn q = q () -> write or nothing
  fn r = r (x: value) -> ?opaque 0
fn n = n +1 (x: opaque 0 '0) -> ?opaque 0 '0"#,
    ),
    // Lifetimes that aren't written are filled up, through aliases too.
    (
        ALL,
        "struct S<'a, 'b> { x: &'a DiplomatStr, y: &'b DiplomatStr } fn f<'x>(p: S<'x>, q: T, r: &'x S<'static, 'x>) use T=S",
        r#"
struct S 'a 'b
  x: value '0
  y: value '1
fn f = f 'x +3 (p: struct 0 '0 '1, q: struct 0 '2 '3, r: struct 0 'static '0) -> unit"#,
    ),
    // Symbols, documents and marks of parameters.
    (
        ALL,
        "@destructor @docs opaque O impl { @symbol @docs #add fn m(&self, #default_1 x: u8) -> u8 } struct A { @docs x: u8 } trait T { @docs fn m() }",
        r#"
struct A
  x: value /x/
opaque O = O_destroy /x/
  fn m = O_m +1 special /x/ (&self, x: value valued) -> value
trait T
  fn m /x/ () -> unit"#,
    ),
];

/// The context, or what is told where there is none.
fn rendered_or_told(alloc: Global, lowered: &Lowered) -> Result<String, Fail> {
    match lowered {
        Ok(tcx) => Ok(rendered(alloc, tcx)?),
        Err(reports) => Ok(told(alloc, reports.as_slice())?),
    }
}

/// That of the declarations of a row.
fn answer(alloc: Global, supported: &str, declared: &str) -> Result<String, Fail> {
    let lowered = lowered(alloc, supported, "", declared)?;
    rendered_or_told(alloc, &lowered)
}

fn compare_row(rt: &impl Abort, alloc: Global, row: &(&str, &str, &str)) -> Result<(), Fail> {
    let (supported, declared, expected) = row;
    let found = answer(alloc, supported, declared)?;
    compare_found(rt, found.as_str(), expected, declared);
    Ok(())
}

#[test]
fn contexts_stand_for_declarations(rt: HostRuntime) -> Result<(), Fail> {
    for row in &ROWS {
        compare_row(&rt, rt.alloc(), row)?;
    }
    Ok(())
}
