//! Explanations, worked out by hand.

use super::inputs::PICK;
use super::program::runs_to;
use std::alloc::{AllocError, Global};
use std::process::Abort;

// `f<'a, 'b: 'a>(x: &'a O, y: &'b O)`, of which the first returns `&'a O` and the second `&'b O`.
const SHORT: &str =
    r#"{"root":{"items":[{"kind":"opaque","name":"O"},{"kind":"function","name":"f","lifetimes":[{"name":"a","longer":[1]},{"name":"b","shorter":[0]}],"params":[{"name":"x","ty":{"ref":{"lifetime":"a","to":{"named":{"segments":["O"]}}}}},{"name":"y","ty":{"ref":{"lifetime":"b","to":{"named":{"segments":["O"]}}}}}],"ret":{"ref":{"lifetime":"a","to":{"named":{"segments":["O"]}}}}}]},"backend":{"supports":["free_functions"]}}"#;

const LONG: &str =
    r#"{"root":{"items":[{"kind":"opaque","name":"O"},{"kind":"function","name":"f","lifetimes":[{"name":"a","longer":[1]},{"name":"b","shorter":[0]}],"params":[{"name":"x","ty":{"ref":{"lifetime":"a","to":{"named":{"segments":["O"]}}}}},{"name":"y","ty":{"ref":{"lifetime":"b","to":{"named":{"segments":["O"]}}}}}],"ret":{"ref":{"lifetime":"b","to":{"named":{"segments":["O"]}}}}}]},"backend":{"supports":["free_functions"]}}"#;

// In the module `m`: `S<'s> { o: &'s O }`, and of `O` two methods `g`, of which the first has no input and the second takes `p: S<'a>` twice
// and returns `&'a O`, where `'b` outlives `'a` and `'a` outlives `'b`; `h(q: &'static O) -> &'a O`.
const NESTED: &str =
    r#"{"root":{"modules":[{"name":"m","items":[{"kind":"struct","name":"S","lifetimes":[{"name":"s"}],"fields":[{"name":"o","ty":{"ref":{"lifetime":"s","to":{"named":{"segments":["O"]}}}}}]},{"kind":"opaque","name":"O","methods":[{"name":"g","self_type":{"segments":["O"]}},{"name":"g","self_type":{"segments":["O"]},"lifetimes":[{"name":"a","longer":[1],"shorter":[1]},{"name":"b","longer":[0],"shorter":[0]}],"params":[{"name":"p","ty":{"named":{"segments":["S"],"lifetimes":["b"]}}},{"name":"p","ty":{"named":{"segments":["S"],"lifetimes":["static"]}}}],"ret":{"ref":{"lifetime":"a","to":{"named":{"segments":["O"]}}}}},{"name":"h","self_type":{"segments":["O"]},"lifetimes":[{"name":"a"}],"params":[{"name":"q","ty":{"ref":{"lifetime":"static","to":{"named":{"segments":["O"]}}}}}],"ret":{"ref":{"lifetime":"a","to":{"named":{"segments":["O"]}}}}}]}]}]}}"#;

// Two inputs of one name: `f<'a, 'b: 'a>(x: &'b O, x: &'a O) -> &'a O`.
const TWICE: &str =
    r#"{"root":{"items":[{"kind":"opaque","name":"O"},{"kind":"function","name":"f","lifetimes":[{"name":"a","longer":[1]},{"name":"b","shorter":[0]}],"params":[{"name":"x","ty":{"ref":{"lifetime":"b","to":{"named":{"segments":["O"]}}}}},{"name":"x","ty":{"ref":{"lifetime":"a","to":{"named":{"segments":["O"]}}}}}],"ret":{"ref":{"lifetime":"a","to":{"named":{"segments":["O"]}}}}}]},"backend":{"supports":["free_functions"]}}"#;

// Three parameters, for lifetimes of which each outlives the next: `f<'a: 'b, 'b: 'c, 'c: 'a>(x: &'a O, y: &'b O, z: &'c O) -> &'a O`.
const RING: &str =
    r#"{"root":{"items":[{"kind":"opaque","name":"O"},{"kind":"function","name":"f","lifetimes":[{"name":"a","longer":[2],"shorter":[1]},{"name":"b","longer":[0],"shorter":[2]},{"name":"c","longer":[1],"shorter":[0]}],"params":[{"name":"x","ty":{"ref":{"lifetime":"a","to":{"named":{"segments":["O"]}}}}},{"name":"y","ty":{"ref":{"lifetime":"b","to":{"named":{"segments":["O"]}}}}},{"name":"z","ty":{"ref":{"lifetime":"c","to":{"named":{"segments":["O"]}}}}}],"ret":{"ref":{"lifetime":"a","to":{"named":{"segments":["O"]}}}}}]},"backend":{"supports":["free_functions"]}}"#;

// Thirty bounds, one after the other: `f<'l0, 'l1: 'l0, .., 'l30: 'l29>(last: &'l30 O, first: &'l0 O) -> &'l0 O`.
const BOUNDS: &str =
    r#"{"root":{"items":[{"kind":"opaque","name":"O"},{"kind":"function","name":"f","lifetimes":[{"name":"l0","longer":[1]},{"name":"l1","longer":[2],"shorter":[0]},{"name":"l2","longer":[3],"shorter":[1]},{"name":"l3","longer":[4],"shorter":[2]},{"name":"l4","longer":[5],"shorter":[3]},{"name":"l5","longer":[6],"shorter":[4]},{"name":"l6","longer":[7],"shorter":[5]},{"name":"l7","longer":[8],"shorter":[6]},{"name":"l8","longer":[9],"shorter":[7]},{"name":"l9","longer":[10],"shorter":[8]},{"name":"l10","longer":[11],"shorter":[9]},{"name":"l11","longer":[12],"shorter":[10]},{"name":"l12","longer":[13],"shorter":[11]},{"name":"l13","longer":[14],"shorter":[12]},{"name":"l14","longer":[15],"shorter":[13]},{"name":"l15","longer":[16],"shorter":[14]},{"name":"l16","longer":[17],"shorter":[15]},{"name":"l17","longer":[18],"shorter":[16]},{"name":"l18","longer":[19],"shorter":[17]},{"name":"l19","longer":[20],"shorter":[18]},{"name":"l20","longer":[21],"shorter":[19]},{"name":"l21","longer":[22],"shorter":[20]},{"name":"l22","longer":[23],"shorter":[21]},{"name":"l23","longer":[24],"shorter":[22]},{"name":"l24","longer":[25],"shorter":[23]},{"name":"l25","longer":[26],"shorter":[24]},{"name":"l26","longer":[27],"shorter":[25]},{"name":"l27","longer":[28],"shorter":[26]},{"name":"l28","longer":[29],"shorter":[27]},{"name":"l29","longer":[30],"shorter":[28]},{"name":"l30","shorter":[29]}],"params":[{"name":"last","ty":{"ref":{"lifetime":"l30","to":{"named":{"segments":["O"]}}}}},{"name":"first","ty":{"ref":{"lifetime":"l0","to":{"named":{"segments":["O"]}}}}}],"ret":{"ref":{"lifetime":"l0","to":{"named":{"segments":["O"]}}}}}]},"backend":{"supports":["free_functions"]}}"#;

// The opaque `P<'p>`, and `f<'a, 'b: 'a, 'c>(q: &'b P<'static>, r: &'c P<'static>) -> &'a O`.
const BESIDE_STATIC: &str =
    r#"{"root":{"items":[{"kind":"opaque","name":"O"},{"kind":"opaque","name":"P","lifetimes":[{"name":"p"}]},{"kind":"function","name":"f","lifetimes":[{"name":"a","longer":[1]},{"name":"b","shorter":[0]},{"name":"c"}],"params":[{"name":"q","ty":{"ref":{"lifetime":"b","to":{"named":{"segments":["P"],"lifetimes":["static"]}}}}},{"name":"r","ty":{"ref":{"lifetime":"c","to":{"named":{"segments":["P"],"lifetimes":["static"]}}}}}],"ret":{"ref":{"lifetime":"a","to":{"named":{"segments":["O"]}}}}}]},"backend":{"supports":["free_functions"]}}"#;

const BROKEN: &str = r#"{"root":{"items":[{"kind":"opaque","name":"match"}]}}"#;

const BROKEN_LINES: &str =
    "Lowering error in match\n  BadIdent: match is not a Rust identifier\nLowering error in match\n  BadIdent: match is not a Rust identifier\nrefused 2\n";

/// An input, a callable, a leaf and a lifetime, and the explanation.
type Row = (
    &'static str,
    &'static str,
    &'static str,
    &'static str,
    &'static str,
);

const EXPLAINED: [Row; 9] = [
    (SHORT, "f", "y", "0", "chain 1 0\n"),
    (SHORT, "f", "x", "0", "chain 0\n"),
    (LONG, "f", "x", "1", "long 1\n"),
    (LONG, "f", "y", "1", "chain 1\n"),
    // The receiver is `this`.
    (PICK, "O::pick", "this", "0", "chain 0\n"),
    (PICK, "O::pick", "y", "0", "chain 1 0\n"),
    // The first leaf of that name.
    (TWICE, "f", "x", "0", "chain 1 0\n"),
    // 'static is no number, and outlives none by a bound that is declared.
    (NESTED, "m::O::h", "q", "0", "long 0\n"),
    (BESIDE_STATIC, "f", "q", "0", "chain 1 0\n"),
];

// Where bounds are on the way.
const BY_BOUNDS: [Row; 6] = [
    (BESIDE_STATIC, "f", "r", "0", "long 0 1\n"),
    (RING, "f", "x", "0", "chain 0\n"),
    (RING, "f", "y", "0", "chain 1 2 0\n"),
    (RING, "f", "z", "0", "chain 2 0\n"),
    (BOUNDS, "f", "first", "0", "chain 0\n"),
    (
        BOUNDS,
        "f",
        "last",
        "0",
        "chain 30 29 28 27 26 25 24 23 22 21 20 19 18 17 16 15 14 13 12 11 10 9 8 7 6 5 4 3 2 1 0\n",
    ),
];

// Inputs with names and lifetimes of which one is none of the page.
const UNNAMED: [Row; 14] = [
    (SHORT, "f", "z", "0", ""),
    (SHORT, "f", "xx", "0", ""),
    (SHORT, "f", "", "0", ""),
    (SHORT, "f", "this", "0", ""),
    (SHORT, "g", "y", "0", ""),
    (SHORT, "", "y", "0", ""),
    (SHORT, "O::f", "y", "0", ""),
    (SHORT, "ff", "y", "0", ""),
    (SHORT, "f", "y", "1", ""),
    (SHORT, "f", "y", "4294967295", ""),
    (PICK, "pick", "y", "0", ""),
    (PICK, "O::pick::y", "y", "0", ""),
    // The first callable of a name returns nothing.
    (NESTED, "m::O::g", "p.o", "0", ""),
    (NESTED, "O::h", "q", "0", ""),
];

// Words that are no number of the form.
const NOT_NUMBERS: [&str; 8] = ["00", "01", "+0", "-0", "", "4294967296", "0x0", " 0"];

/// Tests that the explanations of all rows end with the status.
fn compare(rt: &impl Abort, alloc: Global, status: u8, rows: &[Row]) -> Result<(), AllocError> {
    for (input, callable, leaf, number, text) in rows {
        let words = ["explain", *callable, *leaf, *number];
        assert!(rt; runs_to(alloc, &words, input, status, text)?, "{leaf}");
    }
    Ok(())
}

#[test]
fn explanations_are_those_worked_out(rt: HostRuntime) -> Result<(), AllocError> {
    compare(&rt, rt.alloc(), 0, &EXPLAINED)
}

#[test]
fn explanations_follow_the_bounds(rt: HostRuntime) -> Result<(), AllocError> {
    compare(&rt, rt.alloc(), 0, &BY_BOUNDS)
}

#[test]
fn what_is_not_on_the_page_is_not_explained(rt: HostRuntime) -> Result<(), AllocError> {
    compare(&rt, rt.alloc(), 6, &UNNAMED)
}

#[test]
fn what_is_no_number_is_not_explained(rt: HostRuntime) -> Result<(), AllocError> {
    for number in &NOT_NUMBERS {
        let words = ["explain", "f", "y", *number];
        assert!(rt; runs_to(rt.alloc(), &words, SHORT, 6, "")?, "{number}");
    }
    Ok(())
}

// Reports come instead of an explanation, and so does the line on an input that is none.
#[test]
fn what_is_not_accepted_is_not_explained(rt: HostRuntime) -> Result<(), AllocError> {
    let words = ["explain", "f", "y", "0"];
    assert!(rt; runs_to(rt.alloc(), &words, BROKEN, 1, BROKEN_LINES)?);
    assert!(rt; runs_to(rt.alloc(), &words, "", 2, "input: not JSON\n")?);
    Ok(())
}

// Words that are no command, since one lacks, one is too many, or the first is another.
const NO_COMMANDS: [&[&str]; 5] = [
    &["explain"],
    &["explain", "f", "y"],
    &["explain", "f", "y", "0", "0"],
    &["Explain", "f", "y", "0"],
    &["check", "f", "y", "0"],
];

#[test]
fn explanations_need_their_words(rt: HostRuntime) -> Result<(), AllocError> {
    for (row, words) in NO_COMMANDS.iter().enumerate() {
        assert!(rt; runs_to(rt.alloc(), words, SHORT, 6, "")?, "in row {row}");
    }
    Ok(())
}
