use bridge_decl::{Items, NoMemory, Text};
use hir_reports::{ErrorContext, LoweringError, LoweringReport, Rule};
use std::alloc::Global;

// Each rule with its name, and its text where the arguments are a, b, c, d and e.
const ROWS: [(Rule, &str, &str); 68] = [
    (Rule::BadIdent, "BadIdent", "a is not a Rust identifier"),
    (Rule::UnresolvedPath, "UnresolvedPath", "a names nothing"),
    (
        Rule::LifetimeUnknown,
        "LifetimeUnknown",
        "lifetime 'a is not declared",
    ),
    (
        Rule::LifetimeArity,
        "LifetimeArity",
        "a has too many lifetimes",
    ),
    (
        Rule::SelfMismatch,
        "SelfMismatch",
        "Self does not name the declaring type",
    ),
    (
        Rule::AnonymousInDefinition,
        "AnonymousInDefinition",
        "a definition must name its lifetimes",
    ),
    (
        Rule::ElisionNoSource,
        "ElisionNoSource",
        "nothing to borrow from",
    ),
    (
        Rule::ElisionAmbiguous,
        "ElisionAmbiguous",
        "source of elision is ambiguous",
    ),
    (
        Rule::TooManyLifetimes,
        "TooManyLifetimes",
        "more than 4095 lifetimes",
    ),
    (
        Rule::AutoMisplaced,
        "AutoMisplaced",
        "auto is only allowed at the top level and within any",
    ),
    (
        Rule::UnknownPair,
        "UnknownPair",
        "unknown name and value in a condition",
    ),
    (
        Rule::MarkUnsupported,
        "MarkUnsupported",
        "a not supported in backend b",
    ),
    (
        Rule::SecondSpecial,
        "SecondSpecial",
        "multiple special method markers, found a",
    ),
    (Rule::MarkArgument, "MarkArgument", "a has a wrong argument"),
    (
        Rule::MarkRepeated,
        "MarkRepeated",
        "Duplicate `a` attribute",
    ),
    (
        Rule::AutoIneligible,
        "AutoIneligible",
        "a does not work with auto",
    ),
    (Rule::BadInclude, "BadInclude", "bad custom_extra_code"),
    (
        Rule::IncludeRepeated,
        "IncludeRepeated",
        "Duplicates not allowed.",
    ),
    (
        Rule::BadDefaultValue,
        "BadDefaultValue",
        "unsupported default value",
    ),
    (
        Rule::UnknownMark,
        "UnknownMark",
        "Unknown diplomat attribute a",
    ),
    (
        Rule::MarkMisplaced,
        "MarkMisplaced",
        "a is not allowed here",
    ),
    (
        Rule::IncludeUnsupported,
        "IncludeUnsupported",
        "Custom bindings not supported by this language.",
    ),
    (
        Rule::RequiredAfterDefault,
        "RequiredAfterDefault",
        "Found required arg a after default arguments.",
    ),
    (
        Rule::SpecialReceiver,
        "SpecialReceiver",
        "a has a wrong receiver",
    ),
    (
        Rule::SpecialParams,
        "SpecialParams",
        "a has a wrong number of parameters",
    ),
    (
        Rule::SpecialReturn,
        "SpecialReturn",
        "a has a wrong return type",
    ),
    (
        Rule::SpecialRepeated,
        "SpecialRepeated",
        "a stands twice on one type",
    ),
    (
        Rule::SpecialOperand,
        "SpecialOperand",
        "Comparator's parameter must be identical to self",
    ),
    (Rule::SpecialSupport, "SpecialSupport", "a needs b"),
    (
        Rule::AssignReceiver,
        "AssignReceiver",
        "a must take an opaque self by mutable reference",
    ),
    (
        Rule::OrderingMisplaced,
        "OrderingMisplaced",
        "cmp::Ordering is only allowed in return types",
    ),
    (
        Rule::ZeroSize,
        "ZeroSize",
        "zero-size types are not allowed here",
    ),
    (
        Rule::ZeroSizeMethods,
        "ZeroSizeMethods",
        "Methods on ZST structs are not yet implemented",
    ),
    (
        Rule::OutStructInput,
        "OutStructInput",
        "found out-struct in input",
    ),
    (
        Rule::OpaqueByValue,
        "OpaqueByValue",
        "Opaque passed by value",
    ),
    (
        Rule::MutOpaqueUnmarked,
        "MutOpaqueUnmarked",
        "opaque passed as &mut without opaque_mut",
    ),
    (
        Rule::ReferenceTarget,
        "ReferenceTarget",
        "found &T where T is not allowed behind a reference",
    ),
    (
        Rule::BoxMisplaced,
        "BoxMisplaced",
        "found Box<T> where it is not allowed",
    ),
    (
        Rule::OptionShape,
        "OptionShape",
        "found Option<T> with a T that is not allowed",
    ),
    (
        Rule::StdOptionPlace,
        "StdOptionPlace",
        "please use DiplomatOption<T>",
    ),
    (
        Rule::DiplomatOptionOpaque,
        "DiplomatOptionOpaque",
        "found DiplomatOption<T>, where T is opaque. Please use Option<&T> (DiplomatOption is for primitives, structs, and enums)",
    ),
    (
        Rule::ResultMisplaced,
        "ResultMisplaced",
        "Results can only appear as the top-level return type of methods",
    ),
    (
        Rule::WriteMisplaced,
        "WriteMisplaced",
        "DiplomatWrite can only appear as the last parameter of a method",
    ),
    (
        Rule::UnitMisplaced,
        "UnitMisplaced",
        "Unit can only be a return or a part of a returned result",
    ),
    (
        Rule::FunctionMisplaced,
        "FunctionMisplaced",
        "Function types can only be parameters",
    ),
    (
        Rule::TraitMisplaced,
        "TraitMisplaced",
        "Trait impls can only be an input type",
    ),
    (
        Rule::SliceElement,
        "SliceElement",
        "Cannot have this type in a slice",
    ),
    (
        Rule::OpaqueSliceShape,
        "OpaqueSliceShape",
        "this slice of opaques is unsupported",
    ),
    (
        Rule::OwnedSliceMisplaced,
        "OwnedSliceMisplaced",
        "Owned slices cannot be returned here",
    ),
    (
        Rule::StrsOutput,
        "StrsOutput",
        "String slices can only be an input type",
    ),
    (Rule::FfiUnsafe, "FfiUnsafe", "field a is FFI-unsafe"),
    (
        Rule::CallbackReturnShape,
        "CallbackReturnShape",
        "Cannot return references to structs from callbacks",
    ),
    (
        Rule::CallbackReference,
        "CallbackReference",
        "Callbacks cannot take references",
    ),
    (
        Rule::SupportDenied,
        "SupportDenied",
        "backend must support a",
    ),
    (
        Rule::StructContainsItself,
        "StructContainsItself",
        "struct contains itself",
    ),
    (
        Rule::NestingTooDeep,
        "NestingTooDeep",
        "structs nest deeper than 256",
    ),
    (
        Rule::TooManyLeaves,
        "TooManyLeaves",
        "more than 1048576 borrowed leaves",
    ),
    (
        Rule::ElidedReturn,
        "ElidedReturn",
        "Found elided lifetime in return type, please explicitly specify",
    ),
    (
        Rule::ImpliedBound,
        "ImpliedBound",
        "Method should explicitly include this lifetime bound from a: 'b: 'c (comes from source type's 'd: 'e)",
    ),
    (
        Rule::StructRefReturned,
        "StructRefReturned",
        "Found lifetimes used in struct references also used in the return type: 'a",
    ),
    (
        Rule::OpaqueSliceBorrowed,
        "OpaqueSliceBorrowed",
        "Opaque slices (param a) cannot be borrowed from: 'b",
    ),
    (
        Rule::AbiUnmarked,
        "AbiUnmarked",
        "Cannot construct a slice of a",
    ),
    (Rule::AbiLayout, "AbiLayout", "a is not ABI compatible"),
    (
        Rule::OutStructSlice,
        "OutStructSlice",
        "slices of out-structs are not supported",
    ),
    (
        Rule::MutStructRef,
        "MutStructRef",
        "Found a mutable struct ref &mut a",
    ),
    (
        Rule::TupleReference,
        "TupleReference",
        "Tuple structs cannot be passed by reference",
    ),
    (
        Rule::FieldBorrow,
        "FieldBorrow",
        "field a cannot be borrowed",
    ),
    (
        Rule::CallbackReturn,
        "CallbackReturn",
        "callback returns must be fallible with an ffi_error enum",
    ),
];

#[test]
fn each_rule_has_its_name_and_text(rt: HostRuntime) -> Result<(), NoMemory> {
    for (rule, name, text) in &ROWS {
        let error = LoweringError::new(rt.alloc(), *rule, &["a", "b", "c", "d", "e"])?;
        assert!(rt; rule.name() == *name);
        assert!(rt; error.to_string(rt.alloc())?.as_str() == *text);
    }
    Ok(())
}

// A bound that a reference implies, and texts with too few arguments.
const SHORT: [(Rule, usize, &str); 5] = [
    (
        Rule::ImpliedBound,
        3,
        "Method should explicitly include this lifetime bound from a: 'b: 'c (comes from &-ref's lifetime in parameter)",
    ),
    (
        Rule::ImpliedBound,
        2,
        "Method should explicitly include this lifetime bound from a: 'b: ' (comes from source type's ': ')",
    ),
    (Rule::MarkUnsupported, 1, "a not supported in backend "),
    (Rule::UnresolvedPath, 0, " names nothing"),
    (Rule::ZeroSize, 0, "zero-size types are not allowed here"),
];

#[test]
fn a_text_needs_no_arguments(rt: HostRuntime) -> Result<(), NoMemory> {
    for (rule, count, text) in &SHORT {
        let args = ["a", "b", "c"];
        let error = LoweringError::new(rt.alloc(), *rule, &args[..(*count).min(3)])?;
        assert!(rt; error.to_string(rt.alloc())?.as_str() == *text);
    }
    Ok(())
}

fn context(
    alloc: Global,
    module: &[&str],
    item: &str,
    subitem: &str,
) -> Result<ErrorContext, NoMemory> {
    let mut path = Items::new(alloc);
    for segment in module {
        path.push(Text::new(alloc, segment)?)?;
    }
    let method = if subitem.is_empty() {
        None
    } else {
        Some(Text::new(alloc, subitem)?)
    };
    Ok(ErrorContext {
        module: path,
        item: Text::new(alloc, item)?,
        subitem: method,
    })
}

// Places with what is printed of each, and where each is within its module; "" stands for no method.
const PLACES: [(&[&str], &str, &str, &str, &str); 8] = [
    (&[], "", "", "root module", ""),
    (&[], "Map", "", "Map", "Map"),
    (&[], "Map", "find", "Map::find", "Map::find"),
    (&[], "", "find", "find", "::find"),
    (&["maps"], "", "", "maps", ""),
    (&["maps", "flat"], "", "", "maps::flat", ""),
    (
        &["maps", "flat"],
        "Map",
        "find",
        "maps::flat::Map::find",
        "Map::find",
    ),
    (&["maps", "flat"], "", "find", "maps::flat::find", "::find"),
];

#[test]
fn places_are_joined(rt: HostRuntime) -> Result<(), NoMemory> {
    for (module, item, subitem, place, within) in &PLACES {
        let context = context(rt.alloc(), module, item, subitem)?;
        assert!(rt; context.to_string(rt.alloc())?.as_str() == *place);
        assert!(rt; context.location(rt.alloc())?.as_str() == *within);
    }
    Ok(())
}

#[test]
fn a_report_has_two_lines(rt: HostRuntime) -> Result<(), NoMemory> {
    let report = LoweringReport {
        error: LoweringError::new(rt.alloc(), Rule::UnresolvedPath, &["Kex"])?,
        context: context(rt.alloc(), &["maps"], "Map", "find")?,
    };
    let lines = "Lowering error in maps::Map::find\n  UnresolvedPath: Kex names nothing\n";
    assert!(rt; report.to_string(rt.alloc())?.as_str() == lines);
    assert!(rt; report.get_location(rt.alloc())?.as_str() == "Map::find");
    Ok(())
}
