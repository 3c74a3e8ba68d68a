//! Types as backends visit them, structs and callbacks: declarations with their answers, worked out by hand. Each is told in Rust's
//! notation. `O` is an opaque, and `S` a struct with a field `x: u8`.

use super::declarations::answers;
use std::alloc::AllocError;

/// A backend with all that these declarations use.
const ALL: &str =
    r#","backend":{"name":"tests","supports":["static_slices","free_functions","struct_refs","mut_struct_refs","option","callbacks","traits","opaque_slices","tuples","abi_compatibles"]}}"#;

/// The same, whose callbacks must be able to fail.
const MUST_FAIL: &str =
    r#","backend":{"name":"tests","supports":["static_slices","free_functions","struct_refs","mut_struct_refs","option","callbacks","traits","opaque_slices","tuples","abi_compatibles","callback_returns_must_be_fallible"]}}"#;

/// Root modules with their settings, the status and the answer.
const ROWS: [(&str, &str, u8, &str); 26] = [
    // fn f(s: &[S]): of structs without their mark
    (
        r#"{"items":[{"kind":"struct","name":"S","fields":[{"name":"x","ty":"u8"}]},{"kind":"function","name":"f","params":[{"name":"s","ty":{"custom_slice":{"lifetime":"_","of":{"named":{"segments":["S"]}},"std":true}}}]}]}"#,
        ALL,
        1,
        "Lowering error in f\n  AbiUnmarked: Cannot construct a slice of S\nrefused 1\n",
    ),
    // The same with it.
    (
        r#"{"items":[{"kind":"struct","name":"S","fields":[{"name":"x","ty":"u8"}],"attrs":{"marks":[{"if":"*","mark":["abi_compatible"]}]}},{"kind":"function","name":"f","params":[{"name":"s","ty":{"custom_slice":{"lifetime":"_","of":{"named":{"segments":["S"]}},"std":true}}}]}]}"#,
        ALL,
        0,
        "callable f\nok 1\n",
    ),
    // enum E { A }, O::m(&self, es: &[E])
    (
        r#"{"items":[{"kind":"opaque","name":"O","methods":[{"name":"m","self_type":{"segments":["O"]},"self":{"reference":{"lifetime":"_"},"path":{"segments":["O"]}},"params":[{"name":"es","ty":{"custom_slice":{"lifetime":"_","of":{"named":{"segments":["E"]}},"std":true}}}]}]},{"kind":"enum","name":"E","variants":[{"name":"A","discriminant":0}]}]}"#,
        ALL,
        1,
        "Lowering error in O::m\n  AbiUnmarked: Cannot construct a slice of E\nrefused 1\n",
    ),
    // O::all<'a>(&'a self) -> &'a [S]: what is returned too
    (
        r#"{"items":[{"kind":"opaque","name":"O","methods":[{"name":"all","self_type":{"segments":["O"]},"self":{"reference":{"lifetime":"a"},"path":{"segments":["O"]}},"lifetimes":[{"name":"a"}],"ret":{"custom_slice":{"lifetime":"a","of":{"named":{"segments":["S"]}},"std":true}}}]},{"kind":"struct","name":"S","fields":[{"name":"x","ty":"u8"}]}]}"#,
        ALL,
        1,
        "Lowering error in O::all\n  AbiUnmarked: Cannot construct a slice of S\nrefused 1\n",
    ),
    // trait T { fn put(&self, s: &[S]); }: and what a method of a trait takes
    (
        r#"{"items":[{"kind":"struct","name":"S","fields":[{"name":"x","ty":"u8"}]},{"kind":"trait","name":"T","methods":[{"name":"put","self":{"reference":{"lifetime":"_"},"path":{"segments":["T"]}},"params":[{"name":"s","ty":{"custom_slice":{"lifetime":"_","of":{"named":{"segments":["S"]}},"std":true}}}]}]}]}"#,
        ALL,
        1,
        "Lowering error in T::put\n  AbiUnmarked: Cannot construct a slice of S\nrefused 1\n",
    ),
    // struct H<'a> { s: DiplomatSlice<'a, S> }: and a field
    (
        r#"{"items":[{"kind":"struct","name":"S","fields":[{"name":"x","ty":"u8"}]},{"kind":"struct","name":"H","lifetimes":[{"name":"a"}],"fields":[{"name":"s","ty":{"custom_slice":{"lifetime":"a","of":{"named":{"segments":["S"]}}}}}]}]}"#,
        ALL,
        1,
        "Lowering error in H\n  AbiUnmarked: Cannot construct a slice of S\nrefused 1\n",
    ),
    // The same in an out-struct, whose fields aren't visited
    (
        r#"{"items":[{"kind":"struct","name":"S","fields":[{"name":"x","ty":"u8"}]},{"kind":"out_struct","name":"H","lifetimes":[{"name":"a"}],"fields":[{"name":"s","ty":{"custom_slice":{"lifetime":"a","of":{"named":{"segments":["S"]}}}}}]}]}"#,
        ALL,
        0,
        "ok 0\n",
    ),
    // #[abi_compatible] struct H<'a> { o: &'a O }: by a lifetime and by a field, told once
    (
        r#"{"items":[{"kind":"opaque","name":"O"},{"kind":"struct","name":"H","lifetimes":[{"name":"a"}],"fields":[{"name":"o","ty":{"ref":{"lifetime":"a","to":{"named":{"segments":["O"]}}}}}],"attrs":{"marks":[{"if":"*","mark":["abi_compatible"]}]}}]}"#,
        ALL,
        1,
        "Lowering error in H\n  AbiLayout: H is not ABI compatible\nrefused 1\n",
    ),
    // #[disable] #[abi_compatible] struct H<'a> { x: u8 }: a disabled one by its lifetimes
    (
        r#"{"items":[{"kind":"struct","name":"H","lifetimes":[{"name":"a"}],"fields":[{"name":"x","ty":"u8"}],"attrs":{"marks":[{"if":"*","mark":["disable"]},{"if":"*","mark":["abi_compatible"]}]}}]}"#,
        ALL,
        1,
        "Lowering error in H\n  AbiLayout: H is not ABI compatible\nrefused 1\n",
    ),
    // #[abi_compatible] struct H { s: S }, of a struct without the mark
    (
        r#"{"items":[{"kind":"struct","name":"S","fields":[{"name":"x","ty":"u8"}]},{"kind":"struct","name":"H","fields":[{"name":"s","ty":{"named":{"segments":["S"]}}}],"attrs":{"marks":[{"if":"*","mark":["abi_compatible"]}]}}]}"#,
        ALL,
        1,
        "Lowering error in H\n  AbiLayout: H is not ABI compatible\nrefused 1\n",
    ),
    // #[abi_compatible] struct H { s: S, e: E, x: u8 }, of one with it
    (
        r#"{"items":[{"kind":"struct","name":"S","fields":[{"name":"x","ty":"u8"}],"attrs":{"marks":[{"if":"*","mark":["abi_compatible"]}]}},{"kind":"enum","name":"E","variants":[{"name":"A","discriminant":0}]},{"kind":"struct","name":"H","fields":[{"name":"s","ty":{"named":{"segments":["S"]}}},{"name":"e","ty":{"named":{"segments":["E"]}}},{"name":"x","ty":"u8"}],"attrs":{"marks":[{"if":"*","mark":["abi_compatible"]}]}}]}"#,
        ALL,
        0,
        "ok 0\n",
    ),
    // #[abi_compatible] struct H { o: DiplomatOption<u8> }
    (
        r#"{"items":[{"kind":"struct","name":"H","fields":[{"name":"o","ty":{"diplomat_option":"u8"}}],"attrs":{"marks":[{"if":"*","mark":["abi_compatible"]}]}}]}"#,
        ALL,
        1,
        "Lowering error in H\n  AbiLayout: H is not ABI compatible\nrefused 1\n",
    ),
    // out-struct Out, fn f<'a>(o: &'a O) -> &'a [Out]
    (
        r#"{"items":[{"kind":"opaque","name":"O"},{"kind":"out_struct","name":"Out","fields":[{"name":"x","ty":"u8"}]},{"kind":"function","name":"f","lifetimes":[{"name":"a"}],"params":[{"name":"o","ty":{"ref":{"lifetime":"a","to":{"named":{"segments":["O"]}}}}}],"ret":{"custom_slice":{"lifetime":"a","of":{"named":{"segments":["Out"]}},"std":true}}}]}"#,
        ALL,
        1,
        "Lowering error in f\n  OutStructSlice: slices of out-structs are not supported\nrefused 1\n",
    ),
    // fn f(s: &mut S)
    (
        r#"{"items":[{"kind":"struct","name":"S","fields":[{"name":"x","ty":"u8"}]},{"kind":"function","name":"f","params":[{"name":"s","ty":{"ref":{"lifetime":"_","mutable":true,"to":{"named":{"segments":["S"]}}}}}]}]}"#,
        ALL,
        1,
        "Lowering error in f\n  MutStructRef: Found a mutable struct ref &mut S\nrefused 1\n",
    ),
    // S::m(&mut self)
    (
        r#"{"items":[{"kind":"struct","name":"S","fields":[{"name":"x","ty":"u8"}],"methods":[{"name":"m","self_type":{"segments":["S"]},"self":{"reference":{"lifetime":"_","mutable":true},"path":{"segments":["S"]}}}]}]}"#,
        ALL,
        1,
        "Lowering error in S::m\n  MutStructRef: Found a mutable struct ref &mut S\nrefused 1\n",
    ),
    // The same where S is #[mut_struct_ref], and S::take(self)
    (
        r#"{"items":[{"kind":"struct","name":"S","fields":[{"name":"x","ty":"u8"}],"methods":[{"name":"m","self_type":{"segments":["S"]},"self":{"reference":{"lifetime":"_","mutable":true},"path":{"segments":["S"]}}},{"name":"take","self_type":{"segments":["S"]},"self":{"path":{"segments":["S"]}}}],"attrs":{"marks":[{"if":"*","mark":["mut_struct_ref"]}]}}]}"#,
        ALL,
        0,
        "callable S::m\ncallable S::take\nok 2\n",
    ),
    // #[tuple] struct S, S::take(self)
    (
        r#"{"items":[{"kind":"struct","name":"S","fields":[{"name":"x","ty":"u8"}],"methods":[{"name":"take","self_type":{"segments":["S"]},"self":{"path":{"segments":["S"]}}}],"attrs":{"marks":[{"if":"*","mark":["tuple"]}]}}]}"#,
        ALL,
        1,
        "Lowering error in S::take\n  TupleReference: Tuple structs cannot be passed by reference\nrefused 1\n",
    ),
    // #[tuple] struct S, S::new() -> S, O::m(&self, s: S): by value it isn't a reference
    (
        r#"{"items":[{"kind":"opaque","name":"O","methods":[{"name":"m","self_type":{"segments":["O"]},"self":{"reference":{"lifetime":"_"},"path":{"segments":["O"]}},"params":[{"name":"s","ty":{"named":{"segments":["S"]}}}]}]},{"kind":"struct","name":"S","fields":[{"name":"x","ty":"u8"}],"methods":[{"name":"new","self_type":{"segments":["S"]},"ret":{"named":{"segments":["S"]}}}],"attrs":{"marks":[{"if":"*","mark":["tuple"]}]}}]}"#,
        ALL,
        0,
        "callable S::new\ncallable O::m\nok 2\n",
    ),
    // #[tuple] struct S, fn f(s: &mut S): both are told
    (
        r#"{"items":[{"kind":"struct","name":"S","fields":[{"name":"x","ty":"u8"}],"attrs":{"marks":[{"if":"*","mark":["tuple"]}]}},{"kind":"function","name":"f","params":[{"name":"s","ty":{"ref":{"lifetime":"_","mutable":true,"to":{"named":{"segments":["S"]}}}}}]}]}"#,
        ALL,
        1,
        "Lowering error in f\n  MutStructRef: Found a mutable struct ref &mut S\nLowering error in f\n  TupleReference: Tuple structs cannot be passed by reference\nrefused 2\n",
    ),
    // struct H<'a> { a: &'a S, b: S, c: &'a S }
    (
        r#"{"items":[{"kind":"struct","name":"S","fields":[{"name":"x","ty":"u8"}]},{"kind":"struct","name":"H","lifetimes":[{"name":"a"}],"fields":[{"name":"a","ty":{"ref":{"lifetime":"a","to":{"named":{"segments":["S"]}}}}},{"name":"b","ty":{"named":{"segments":["S"]}}},{"name":"c","ty":{"ref":{"lifetime":"a","to":{"named":{"segments":["S"]}}}}}]}]}"#,
        ALL,
        1,
        "Lowering error in H\n  FieldBorrow: field a cannot be borrowed\nLowering error in H\n  FieldBorrow: field c cannot be borrowed\nrefused 2\n",
    ),
    // fn f(c: impl Fn(u8) -> u8), where callbacks must be able to fail
    (
        r#"{"items":[{"kind":"function","name":"f","params":[{"name":"c","ty":{"fn":{"params":["u8"],"ret":"u8"}}}]}]}"#,
        MUST_FAIL,
        1,
        "Lowering error in f\n  CallbackReturn: callback returns must be fallible with an ffi_error enum\nrefused 1\n",
    ),
    // The same where they may not
    (
        r#"{"items":[{"kind":"function","name":"f","params":[{"name":"c","ty":{"fn":{"params":["u8"],"ret":"u8"}}}]}]}"#,
        ALL,
        0,
        "callable f\nok 1\n",
    ),
    // enum E { #[ffi_error] A, B }, fn f(c: impl Fn(u8) -> Result<u8, E>)
    (
        r#"{"items":[{"kind":"enum","name":"E","variants":[{"name":"A","discriminant":0,"attrs":{"marks":[{"if":"*","mark":["ffi_error"]}]}},{"name":"B","discriminant":1}]},{"kind":"function","name":"f","params":[{"name":"c","ty":{"fn":{"params":["u8"],"ret":{"result":{"ok":"u8","err":{"named":{"segments":["E"]}}}}}}}]}]}"#,
        MUST_FAIL,
        0,
        "callable f\nok 1\n",
    ),
    // The same without the mark
    (
        r#"{"items":[{"kind":"enum","name":"E","variants":[{"name":"A","discriminant":0},{"name":"B","discriminant":1}]},{"kind":"function","name":"f","params":[{"name":"c","ty":{"fn":{"params":["u8"],"ret":{"result":{"ok":"u8","err":{"named":{"segments":["E"]}}}}}}}]}]}"#,
        MUST_FAIL,
        1,
        "Lowering error in f\n  CallbackReturn: callback returns must be fallible with an ffi_error enum\nrefused 1\n",
    ),
    // trait T { fn get(&self) -> u8; }
    (
        r#"{"items":[{"kind":"trait","name":"T","methods":[{"name":"get","self":{"reference":{"lifetime":"_"},"path":{"segments":["T"]}},"ret":"u8"}]}]}"#,
        MUST_FAIL,
        1,
        "Lowering error in T::get\n  CallbackReturn: callback returns must be fallible with an ffi_error enum\nrefused 1\n",
    ),
    // Types with their methods, then traits, then functions: struct H<'a> { s: &'a S }, H::m(&mut self), struct K<'a> { s: &'a S }, trait T { fn
    // put(&self, s: &[S]); }, fn f(s: &[S])
    (
        r#"{"items":[{"kind":"function","name":"f","params":[{"name":"s","ty":{"custom_slice":{"lifetime":"_","of":{"named":{"segments":["S"]}},"std":true}}}]},{"kind":"trait","name":"T","methods":[{"name":"put","self":{"reference":{"lifetime":"_"},"path":{"segments":["T"]}},"params":[{"name":"s","ty":{"custom_slice":{"lifetime":"_","of":{"named":{"segments":["S"]}},"std":true}}}]}]},{"kind":"struct","name":"H","lifetimes":[{"name":"a"}],"fields":[{"name":"s","ty":{"ref":{"lifetime":"a","to":{"named":{"segments":["S"]}}}}}],"methods":[{"name":"m","self_type":{"segments":["H"],"lifetimes":["a"]},"lifetimes":[{"name":"a"}],"self":{"reference":{"lifetime":"_","mutable":true},"path":{"segments":["H"],"lifetimes":["a"]}}}]},{"kind":"struct","name":"K","lifetimes":[{"name":"a"}],"fields":[{"name":"s","ty":{"ref":{"lifetime":"a","to":{"named":{"segments":["S"]}}}}}]},{"kind":"struct","name":"S","fields":[{"name":"x","ty":"u8"}]}]}"#,
        ALL,
        1,
        "Lowering error in H\n  FieldBorrow: field s cannot be borrowed\nLowering error in H::m\n  MutStructRef: Found a mutable struct ref &mut H\nLowering error in K\n  FieldBorrow: field s cannot be borrowed\nLowering error in T::put\n  AbiUnmarked: Cannot construct a slice of S\nLowering error in f\n  AbiUnmarked: Cannot construct a slice of S\nrefused 5\n",
    ),
];

#[test]
fn types_structs_and_callbacks_are_answered(rt: HostRuntime) -> Result<(), AllocError> {
    for (root, settings, status, text) in &ROWS {
        assert!(rt;
            answers(rt.alloc(), root, settings, *status, text)?,
            "{root}"
        );
    }
    Ok(())
}
