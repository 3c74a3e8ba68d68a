use bridge_decl::{AttrInheritContext, NoMemory, RenameAttr, RenameFault};
use std::alloc::Global;

// Patterns with what each makes of the name `f`, and whether it is handed on.
const PATTERNS: [(&str, &str, bool); 12] = [
    ("ffi_{0}_x", "ffi_f_x", true),
    ("g", "g", false),
    ("", "", false),
    ("{0}", "f", true),
    ("{{0}}", "{f}", true),
    ("{0", "{0", false),
    ("0}{", "0}{", false),
    ("{ 0 }", "{ 0 }", false),
    ("{1}{0}", "{1}f", true),
    ("{0}{1}", "f{1}", true),
    ("{{0}{0", "{f{0", true),
    ("é{0}é", "éfé", true),
];

const REFUSED: [&str; 4] = ["{0}{0}", "{0}_{0}", "{{0}{0}}", "{0}{0}{0}"];

// Each with whether a declaration takes the pattern over there.
const CONTEXTS: [(AttrInheritContext, bool); 4] = [
    (AttrInheritContext::Variant, false),
    (AttrInheritContext::OfType, true),
    (AttrInheritContext::MethodOrImplFromModule, false),
    (AttrInheritContext::Module, true),
];

// Whether the attribute is handed on where it should be, and the empty one elsewhere.
fn is_handed_on(alloc: Global, attr: &RenameAttr, is_kept: bool) -> Result<bool, NoMemory> {
    for (context, takes_over) in CONTEXTS {
        let inherited = attr.attrs_for_inheritance(alloc, context)?;
        let wanted = if is_kept && takes_over {
            attr.pattern()
        } else {
            None
        };
        if inherited.pattern() != wanted {
            return Ok(false);
        }
    }
    Ok(true)
}

#[test]
fn patterns_are_applied_and_handed_on(rt: HostRuntime) -> Result<(), RenameFault> {
    for (pattern, renamed, is_kept) in PATTERNS {
        let attr = RenameAttr::new(rt.alloc(), pattern)?;
        assert!(rt; attr.pattern() == Some(pattern));
        assert!(rt; attr.apply(rt.alloc(), "f")?.as_str() == renamed);
        assert!(rt; is_handed_on(rt.alloc(), &attr, is_kept)?);
    }
    Ok(())
}

#[test]
fn the_empty_attribute_changes_nothing(rt: HostRuntime) -> Result<(), NoMemory> {
    let empty = RenameAttr::empty();
    assert!(rt; empty.is_empty());
    assert!(rt; empty.apply(rt.alloc(), "f")?.as_str() == "f");
    assert!(rt; is_handed_on(rt.alloc(), &empty, true)?);
    Ok(())
}

#[test]
fn a_name_is_filled_in_once(rt: HostRuntime) -> Result<(), RenameFault> {
    let attr = RenameAttr::new(rt.alloc(), "a{0}b")?;
    assert!(rt; attr.apply(rt.alloc(), "{0}")?.as_str() == "a{0}b");
    Ok(())
}

#[test]
fn patterns_with_two_places_are_refused(rt: HostRuntime) {
    for pattern in REFUSED {
        match RenameAttr::new(rt.alloc(), pattern) {
            Ok(_) => assert!(rt; false),
            Err(fault) => assert!(rt; fault == RenameFault::Pattern),
        }
    }
}
