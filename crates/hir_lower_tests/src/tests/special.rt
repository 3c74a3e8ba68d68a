//! Special methods: what they take and return, what the backend has to support, and which stand once.

use crate::tests::{DECLARED, Row, answers, backends, compare, compare_found};
use bridge_decl::NoMemory;
use std::alloc::Global;
use std::process::Abort;
use std::test::Fail;

/// A mark, what the method takes, how it ends, and the rule that it may break.
type Case = (
    &'static str,
    &'static str,
    &'static str,
    &'static str,
    &'static str,
);

/// A method of the opaque `A` with the mark.
fn declared(alloc: Global, case: &Case) -> Result<String, NoMemory> {
    let mut text = String::new(alloc);
    for part in [
        "@mutable opaque A impl { #",
        case.0,
        " fn m(",
        case.1,
        case.2,
        case.3,
        " }",
    ] {
        text.push_str(part)?;
    }
    Ok(text)
}

/// What is told of it.
fn told(alloc: Global, case: &Case, is_fine: bool) -> Result<String, NoMemory> {
    let mut text = String::new(alloc);
    if is_fine {
        text.push_str("ok")?;
        return Ok(text);
    }
    for part in ["A::m ", case.4, "(", case.0, ")"] {
        text.push_str(part)?;
    }
    Ok(text)
}

/// Compares what is told of a case.
fn compare_case(rt: &impl Abort, alloc: Global, case: &Case, is_fine: bool) -> Result<(), Fail> {
    let row = declared(alloc, case)?;
    let expected = told(alloc, case, is_fine)?;
    let found = answers::answer(alloc, backends::ALL, DECLARED, row.as_str())?;
    compare_found(rt, found.as_str(), expected.as_str(), row.as_str());
    Ok(())
}

/// A mark, what its method takes, and `+` for each return that it may have, else `-`, in the order of the
/// returns.
type Returning = (&'static str, &'static str, &'static str);

/// What stands behind what a method takes.
const RETURNS: [&str; 14] = [
    ")",
    ") -> u8",
    ") -> Ordering",
    ") -> Option<Ordering>",
    ") -> Option<u8>",
    ") -> Box<A>",
    ") -> Option<Box<A>>",
    ") -> Result<Box<A>, E>",
    ") -> Result<unit, E>",
    ", w: &mut DiplomatWrite)",
    ") -> Option<unit>",
    ") -> Box<O>",
    ") -> Result<Ordering, E>",
    ", w: &mut DiplomatWrite16) -> Result<unit, E>",
];

const RETURNING: [Returning; 17] = [
    ("constructor", "x: u8", "-----+++------"),
    ("named_constructor", "x: u8", "-----+++------"),
    ("getter", "&self", "++++++++++++++"),
    ("setter", "&self, x: u8", "+-------+-+---"),
    ("stringifier", "&self", "---------+---+"),
    ("comparison", "&self, x: &A", "--++----------"),
    ("iterator", "&mut self", "---++-+-------"),
    ("iterable", "&self", "-----+++---+--"),
    ("indexer", "&self, x: u8", "-+++++++-+-+++"),
    ("add", "&self, x: u8", "-+++++++-+-+++"),
    ("sub", "&self, x: u8", "-+++++++-+-+++"),
    ("mul", "&self, x: u8", "-+++++++-+-+++"),
    ("div", "&self, x: u8", "-+++++++-+-+++"),
    ("add_assign", "&mut self, x: u8", "+-------+-+---"),
    ("sub_assign", "&mut self, x: u8", "+-------+-+---"),
    ("mul_assign", "&mut self, x: u8", "+-------+-+---"),
    ("div_assign", "&mut self, x: u8", "+-------+-+---"),
];

/// Compares what is told of a mark with each return.
fn compare_returns(rt: &impl Abort, alloc: Global, mark: &Returning) -> Result<(), Fail> {
    for (end, sign) in RETURNS.iter().zip(mark.2.bytes()) {
        let case = (mark.0, mark.1, "", *end, "SpecialReturn");
        compare_case(rt, alloc, &case, sign == b'+')?;
    }
    Ok(())
}

#[test]
fn what_special_methods_return(rt: HostRuntime) -> Result<(), Fail> {
    for mark in &RETURNING {
        compare_returns(&rt, rt.alloc(), mark)?;
    }
    Ok(())
}

/// A mark, what its method takes first, what it returns, and `+` for each number of parameters that it may
/// have, else `-`, from none on.
type Counting = (&'static str, &'static str, &'static str, &'static str);

/// Up to two parameters.
const PARAMS: [&str; 3] = ["", ", x: &A", ", x: &A, y: &A"];

const COUNTING: [Counting; 15] = [
    ("getter", "&self", ") -> u8", "+--"),
    ("setter", "&self", ")", "-+-"),
    ("stringifier", "&self", ", w: &mut DiplomatWrite)", "+--"),
    ("comparison", "&self", ") -> Ordering", "-+-"),
    ("iterator", "&mut self", ") -> Option<u8>", "+--"),
    ("iterable", "&self", ") -> Box<A>", "+--"),
    ("indexer", "&self", ") -> u8", "-+-"),
    ("add", "&self", ") -> u8", "-+-"),
    ("sub", "&self", ") -> u8", "-+-"),
    ("mul", "&self", ") -> u8", "-+-"),
    ("div", "&self", ") -> u8", "-+-"),
    ("add_assign", "&mut self", ")", "-+-"),
    ("sub_assign", "&mut self", ")", "-+-"),
    ("mul_assign", "&mut self", ")", "-+-"),
    ("div_assign", "&mut self", ")", "-+-"),
];

/// Compares what is told of a mark with each number of parameters.
fn compare_counts(rt: &impl Abort, alloc: Global, mark: &Counting) -> Result<(), Fail> {
    for (params, sign) in PARAMS.iter().zip(mark.3.bytes()) {
        let case = (mark.0, mark.1, *params, mark.2, "SpecialParams");
        compare_case(rt, alloc, &case, sign == b'+')?;
    }
    Ok(())
}

#[test]
fn how_much_special_methods_take(rt: HostRuntime) -> Result<(), Fail> {
    for mark in &COUNTING {
        compare_counts(&rt, rt.alloc(), mark)?;
    }
    Ok(())
}

/// A mark of a method with a receiver or without one, which it may not have.
const RECEIVERS: [Case; 13] = [
    ("constructor", "&self", "", ") -> Box<A>", "SpecialReceiver"),
    (
        "named_constructor",
        "&self",
        "",
        ") -> Box<A>",
        "SpecialReceiver",
    ),
    (
        "comparison",
        "x: &A",
        "",
        ") -> Ordering",
        "SpecialReceiver",
    ),
    ("iterator", "", "", ") -> Option<u8>", "SpecialReceiver"),
    ("iterable", "", "", ") -> Box<A>", "SpecialReceiver"),
    ("indexer", "x: u8", "", ") -> u8", "SpecialReceiver"),
    ("add", "x: u8", "", ") -> u8", "SpecialReceiver"),
    ("div", "x: u8", "", ") -> u8", "SpecialReceiver"),
    ("add_assign", "x: u8", "", ")", "SpecialReceiver"),
    ("add_assign", "&self, x: u8", "", ")", "AssignReceiver"),
    ("sub_assign", "&self, x: u8", "", ")", "AssignReceiver"),
    ("mul_assign", "&self, x: u8", "", ")", "AssignReceiver"),
    ("div_assign", "&self, x: u8", "", ")", "AssignReceiver"),
];

#[test]
fn which_receivers_special_methods_have(rt: HostRuntime) -> Result<(), Fail> {
    for case in &RECEIVERS {
        compare_case(&rt, rt.alloc(), case, false)?;
    }
    Ok(())
}

const ROWS: [Row; 44] = [
    // Receivers of any kind, where one isn't asked for.
    (
        "opaque A impl { #getter fn m() -> u8 #setter fn n(x: u8) #stringifier fn o(w: &mut DiplomatWrite) }",
        "ok",
    ),
    (
        "struct A { x: u8 } impl { #iterator fn m(self) -> Option<u8> }",
        "A::m SpecialReceiver(iterator)",
    ),
    (
        "enum A { B=0 } impl { #iterator fn m(self) -> Option<u8> }",
        "A::m SpecialReceiver(iterator)",
    ),
    (
        "struct A { x: u8 } impl { #add_assign fn m(self, x: u8) }",
        "A::m AssignReceiver(add_assign)",
    ),
    (
        "enum A { B=0 } impl { #add fn m(self, x: u8) -> A #iterable fn n(self) -> Box<O> }",
        "ok",
    ),
    // A value of the type itself.
    (
        "struct A { x: u8 } impl { #constructor fn m() -> A #named_constructor fn n() -> Result<A, unit> }",
        "ok",
    ),
    (
        "struct A { x: u8 } impl { #constructor fn m() -> Option<A> }",
        "A::m SpecialReturn(constructor)",
    ),
    (
        "out_struct A { x: u8 } impl { #constructor fn m() -> A }",
        "ok",
    ),
    ("enum A { B=0 } impl { #constructor fn m() -> A }", "ok"),
    (
        "enum A { B=0 } impl { #constructor fn m() -> E }",
        "A::m SpecialReturn(constructor)",
    ),
    (
        "opaque A impl { #constructor fn m() -> S }",
        "A::m SpecialReturn(constructor)",
    ),
    (
        "opaque A impl { #constructor fn m() -> Box<A> #constructor fn n(x: u8, y: u8) -> Box<A> }",
        "ok",
    ),
    // SpecialOperand.
    (
        "opaque A impl { #comparison fn m(&self, x: Option<&A>) -> Ordering }",
        "A::m SpecialOperand",
    ),
    (
        "opaque A impl { #comparison fn m(&self, x: &O) -> Ordering }",
        "A::m SpecialOperand",
    ),
    (
        "opaque A impl { #comparison fn m(&self, x: u8) -> Ordering }",
        "A::m SpecialOperand",
    ),
    (
        "@mutable opaque A impl { #comparison fn m(&mut self, x: &A) -> Ordering }",
        "A::m SpecialOperand",
    ),
    (
        "@mutable opaque A impl { #comparison fn m(&self, x: &mut A) -> Ordering }",
        "A::m SpecialOperand",
    ),
    (
        "struct A { x: u8 } impl { #comparison fn m(self, x: A) -> Ordering }",
        "ok",
    ),
    (
        "struct A { x: u8 } impl { #comparison fn m(&self, x: &A) -> Ordering }",
        "ok",
    ),
    (
        "struct A { x: u8 } impl { #comparison fn m(self, x: S) -> Ordering }",
        "A::m SpecialOperand",
    ),
    (
        "#mut_struct_ref struct A { x: u8 } impl { #comparison fn m(&mut self, x: A) -> Ordering }",
        "A::m SpecialOperand",
    ),
    (
        "#mut_struct_ref struct A { x: u8 } impl { #comparison fn m(self, x: &mut A) -> Ordering }",
        "A::m SpecialOperand",
    ),
    (
        "enum A { B=0 } impl { #comparison fn m(self, x: A) -> Ordering }",
        "ok",
    ),
    (
        "enum A { B=0 } impl { #comparison fn m(self, x: E) -> Ordering }",
        "A::m SpecialOperand",
    ),
    // SpecialSupport.
    (
        "-fallible_constructors opaque A impl { #constructor fn m() -> Result<Box<A>, E> }",
        "A::m SpecialSupport(constructor fallible_constructors)",
    ),
    (
        "-fallible_constructors opaque A impl { #named_constructor fn m() -> Result<Box<A>, E> #constructor fn n() -> Box<A> }",
        "A::m SpecialSupport(named_constructor fallible_constructors)",
    ),
    (
        "-static_accessors opaque A impl { #getter fn m() -> u8 #setter fn n(x: u8) }",
        "A::m SpecialSupport(getter static_accessors); A::n SpecialSupport(setter static_accessors)",
    ),
    (
        "-static_accessors opaque A impl { #getter fn m(&self) -> u8 }",
        "ok",
    ),
    (
        "-partial_comparators opaque A impl { #comparison fn m(&self, x: &A) -> Option<Ordering> }",
        "A::m SpecialSupport(comparison partial_comparators)",
    ),
    (
        "-partial_comparators opaque A impl { #comparison fn m(&self, x: &A) -> Ordering }",
        "ok",
    ),
    // SpecialRepeated.
    (
        "-method_overloading opaque A impl { #constructor fn m() -> Box<A> #constructor fn n() -> Box<A> }",
        "A::n SpecialRepeated(constructor)",
    ),
    (
        "-method_overloading opaque A impl { #named_constructor fn m() -> Box<A> #named_constructor fn n() -> Box<A> }",
        "ok",
    ),
    (
        "opaque A impl { #comparison fn m(&self, x: &A) -> Ordering #comparison fn n(&self, x: &A) -> Ordering #comparison fn o(&self, x: &A) -> Ordering }",
        "A::n SpecialRepeated(comparison); A::o SpecialRepeated(comparison)",
    ),
    (
        "opaque A impl { #iterator fn m(&self) -> Option<u8> #iterable fn n(&self) -> Box<A> #iterator fn o(&self) -> Option<u8> #iterable fn p(&self) -> Box<A> }",
        "A::o SpecialRepeated(iterator); A::p SpecialRepeated(iterable)",
    ),
    (
        "opaque A impl { #add fn m(&self, x: u8) -> u8 #add fn n(&self, x: u8) -> u8 #getter fn o(&self) -> u8 #getter fn p(&self) -> u8 }",
        "ok",
    ),
    (
        "opaque A impl { #disable #iterator fn m(&self) -> Option<u8> #iterator fn n(&self) -> Option<u8> }",
        "ok",
    ),
    (
        "opaque A impl { #iterator fn m(&self) -> Option<u8> #disable #iterator fn n(&self) -> Option<u8> }",
        "ok",
    ),
    (
        "opaque A impl { #iterator fn m(&self, x: Q) -> Option<u8> #iterator fn n(&self) -> Option<u8> #iterator fn o() }",
        "A::m OutStructInput; A::o SpecialReceiver(iterator); A::o SpecialReturn(iterator); A::n SpecialRepeated(iterator); A::o SpecialRepeated(iterator)",
    ),
    (
        "opaque A impl { #iterator fn m(&self) -> Option<u8> } opaque B impl { #iterator fn m(&self) -> Option<u8> }",
        "ok",
    ),
    // Where it is tested, and after what.
    (
        "opaque A impl { #comparison fn m(x: u8, y: u8) -> u8 }",
        "A::m SpecialReceiver(comparison); A::m SpecialParams(comparison); A::m SpecialReturn(comparison)",
    ),
    (
        "opaque A impl { #getter fn m(&self, x: Q) -> u8 }",
        "A::m OutStructInput",
    ),
    ("opaque A impl { #disable #getter fn m(x: u8) }", "ok"),
    (
        "-accessors opaque A impl { #auto.getter fn m(x: u8) }",
        "A::m SpecialParams(getter)",
    ),
    ("trait A { #getter fn m(x: u8) }", "ok"),
];

#[test]
fn what_is_told_of_special_methods(rt: HostRuntime) -> Result<(), Fail> {
    compare(&rt, rt.alloc(), DECLARED, &ROWS)
}
