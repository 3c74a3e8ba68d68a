//! Pages of links, worked out by hand.

use super::program::runs_to;
use std::alloc::AllocError;

// Inputs with the status and the text that belong to them.
const LINKS: [(&str, u8, &str); 9] = [
    (r#"{"root":{}}"#, 0, "links 0\n"),
    // A link, and one whose path is too short for its kind.
    (
        r#"{"root":{"items":[{"kind":"opaque","name":"O","docs":{"links":[{"path":["std","foo","bar","batz"],"kind":"StructField","display":"normal"},{"path":["std"],"kind":"EnumVariantField","display":"normal"}]}}]}}"#,
        0,
        "O https://docs.rs/std/latest/std/foo/struct.bar.html#structfield.batz\nO -\nlinks 2\n",
    ),
    // Each kind of page.
    (
        r#"{"root":{"items":[{"kind":"opaque","name":"O","docs":{"links":[{"path":["std","foo","bar","batz"],"kind":"Struct","display":"compact"},{"path":["std","foo","bar","batz"],"kind":"Enum","display":"compact"},{"path":["std","foo","bar","batz"],"kind":"Trait","display":"compact"},{"path":["std","foo","bar","batz"],"kind":"Fn","display":"compact"},{"path":["std","foo","bar","batz"],"kind":"Constant","display":"compact"},{"path":["std","foo","bar","batz"],"kind":"Macro","display":"compact"},{"path":["std","foo","bar","batz"],"kind":"Mod","display":"compact"},{"path":["std","foo","bar","batz"],"kind":"StructField","display":"compact"},{"path":["std","foo","bar","batz"],"kind":"EnumVariant","display":"compact"},{"path":["std","foo","bar","batz"],"kind":"EnumVariantField","display":"compact"},{"path":["std","foo","bar","batz"],"kind":"FnInStruct","display":"compact"},{"path":["std","foo","bar","batz"],"kind":"FnInEnum","display":"compact"},{"path":["std","foo","bar","batz"],"kind":"FnInTrait","display":"compact"},{"path":["std","foo","bar","batz"],"kind":"DefaultFnInTrait","display":"compact"}]}}]},"docs":null}"#,
        0,
        "O https://docs.rs/std/latest/std/foo/bar/struct.batz.html\nO https://docs.rs/std/latest/std/foo/bar/enum.batz.html\nO https://docs.rs/std/latest/std/foo/bar/trait.batz.html\nO https://docs.rs/std/latest/std/foo/bar/fn.batz.html\nO https://docs.rs/std/latest/std/foo/bar/constant.batz.html\nO https://docs.rs/std/latest/std/foo/bar/macro.batz.html\nO https://docs.rs/std/latest/std/foo/bar/batz/index.html\nO https://docs.rs/std/latest/std/foo/struct.bar.html#structfield.batz\nO https://docs.rs/std/latest/std/foo/enum.bar.html#variant.batz\nO https://docs.rs/std/latest/std/enum.foo.html#variant.bar.field.batz\nO https://docs.rs/std/latest/std/foo/struct.bar.html#method.batz\nO https://docs.rs/std/latest/std/foo/enum.bar.html#method.batz\nO https://docs.rs/std/latest/std/foo/trait.bar.html#tymethod.batz\nO https://docs.rs/std/latest/std/foo/trait.bar.html#method.batz\nlinks 14\n",
    ),
    // Another place for all crates.
    (
        r#"{"root":{"items":[{"kind":"opaque","name":"O","docs":{"links":[{"path":["std","foo","bar","batz"],"kind":"Struct","display":"compact"}]}}]},"docs":{"default":"http://std-docs.biz/"}}"#,
        0,
        "O http://std-docs.biz/std/foo/bar/struct.batz.html\nlinks 1\n",
    ),
    // Another place for one crate.
    (
        r#"{"root":{"items":[{"kind":"opaque","name":"O","docs":{"links":[{"path":["std","foo","bar","batz"],"kind":"Struct","display":"compact"}]}}]},"docs":{"bases":{"std":"http://std-docs.biz/"}}}"#,
        0,
        "O http://std-docs.biz/std/foo/bar/struct.batz.html\nlinks 1\n",
    ),
    // Modules by depth and then as they stand; each item, then its methods, those of traits and of what is disabled too. No rule is tested:
    // `Missing` names nothing.
    (
        r#"{"root":{"modules":[{"name":"deep","items":[{"kind":"enum","name":"E","docs":{"links":[{"path":["c","E"],"kind":"Enum","display":"normal"}]}}],"modules":[{"name":"er","items":[{"kind":"function","name":"f","docs":{"links":[{"path":["c","f"],"kind":"Fn","display":"normal"}]}}]}]},{"name":"flat","items":[{"kind":"opaque","name":"Late","docs":{"links":[{"path":["c"],"kind":"Mod","display":"normal"}]}}]}],"items":[{"kind":"trait","name":"T","methods":[{"name":"g","self":{"reference":{"lifetime":"_"},"path":{"segments":["T"]}},"docs":{"links":[{"path":["c","T","g"],"kind":"FnInTrait","display":"normal"}]}}],"docs":{"links":[{"path":["c","T"],"kind":"Trait","display":"normal"}]}},{"kind":"opaque","name":"Off","attrs":{"marks":[{"if":"*","mark":["disable"]}]},"methods":[{"name":"new","self_type":{"segments":["Missing"]},"docs":{"links":[{"path":["c","Off","new"],"kind":"FnInStruct","display":"normal"},{"path":["c","Off"],"kind":"Struct","display":"hidden"}]}}]}]}}"#,
        0,
        "T https://docs.rs/c/latest/c/trait.T.html\nT::g https://docs.rs/c/latest/c/trait.T.html#tymethod.g\nOff::new https://docs.rs/c/latest/c/struct.Off.html#method.new\nOff::new https://docs.rs/c/latest/c/struct.Off.html\ndeep::E https://docs.rs/c/latest/c/enum.E.html\nflat::Late https://docs.rs/c/latest/c/index.html\ndeep::er::f https://docs.rs/c/latest/c/fn.f.html\nlinks 7\n",
    ),
    ("", 2, "input: not JSON\n"),
    (
        r#"{"root":{},"colour":1}"#,
        2,
        "input: unknown key at \"/colour\"\n",
    ),
    // Two items of one name don't fit together.
    (
        r#"{"root":{"items":[{"kind":"opaque","name":"O"},{"kind":"enum","name":"O"}]}}"#,
        2,
        "input: duplicate item at \"/root/items/1\"\n",
    ),
];

#[test]
fn pages_of_links_are_those_worked_out(rt: HostRuntime) -> Result<(), AllocError> {
    for (input, status, text) in &LINKS {
        assert!(rt;
            runs_to(rt.alloc(), &["links"], input, *status, text)?,
            "{input}"
        );
    }
    Ok(())
}

// Words with their status and text.
const WORDS: [(&[&str], u8, &str); 3] = [
    (&["links"], 0, "links 0\n"),
    (&["Links"], 6, ""),
    (&["links", "check"], 6, ""),
];

#[test]
fn links_is_one_word(rt: HostRuntime) -> Result<(), AllocError> {
    for (row, (words, status, text)) in WORDS.iter().enumerate() {
        let is_so = runs_to(rt.alloc(), words, r#"{"root":{}}"#, *status, text)?;
        assert!(rt; is_so, "in row {row}");
    }
    Ok(())
}
