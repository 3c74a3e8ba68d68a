//! Marks that stand more than once, marks under `auto`, and several marks in a row.

use super::compare;
use bridge_decl::NoMemory;

/// Marks that stand twice.
const TWICE: [(&str, &str); 38] = [
    ("*, disable; *, disable", "disable !MarkRepeated(disable)"),
    ("*, default; *, default", "default !MarkRepeated(default)"),
    (
        "*, manually_disposable; *, manually_disposable",
        "manually_disposable !MarkRepeated(manually_disposable)",
    ),
    (
        "*, disable; *, disable; *, disable",
        "disable !MarkRepeated(disable) !MarkRepeated(disable)",
    ),
    ("js, disable; *, disable", "disable"),
    ("*, disable; js, disable", "disable"),
    (
        "*, disable = 1; *, disable",
        "disable !MarkArgument(disable)",
    ),
    (
        "*, disable; *, disable = 1",
        "disable !MarkArgument(disable)",
    ),
    ("*, rename = 'x'; *, rename = 'y'", "rename(y)"),
    (
        "*, rename = 'x'; *, rename = 'y'; *, rename = 'x'",
        "rename(x)",
    ),
    (
        "*, rename = 'x'; *, rename",
        "rename(x) !MarkArgument(rename)",
    ),
    ("*, namespace = 'x'; *, namespace = 'y'", "namespace(y)"),
    ("*, namespace = 'x'; *, namespace = ''", "-"),
    (
        "*, namespace = 'x'; *, namespace = ''; *, namespace = 'x'",
        "namespace(x)",
    ),
    (
        "*, namespace = 'x'; *, namespace = 7",
        "namespace(x) !MarkArgument(namespace)",
    ),
    ("*, error; *, error", "custom_errors"),
    (
        "*, precondition_violation; *, precondition_violation",
        "precondition_violation",
    ),
    (
        "*, generate_mocking_interface; *, generate_mocking_interface",
        "generate_mocking_interface",
    ),
    ("*, abi_compatible; *, abi_compatible", "abi_compatible"),
    ("*, ffi_error; *, ffi_error", "ffi_error"),
    ("*, mut_struct_ref; *, mut_struct_ref", "mut_struct_ref"),
    ("*, tuple; *, tuple", "tuple"),
    (
        "*, default_value = 1; *, default_value = true",
        "Bool(true)",
    ),
    (
        "*, default_value = 1; *, default_value = 1.5",
        "Integer(1) !BadDefaultValue",
    ),
    (
        "*, default_value = 1; *, default_value",
        "Integer(1) !MarkArgument(default_value)",
    ),
    (
        "*, disabled; *, disabled",
        "!UnknownMark(disabled) !UnknownMark(disabled)",
    ),
    (
        "*, constructor; *, constructor",
        "Constructor !SecondSpecial(constructor)",
    ),
    (
        "*, named_constructor = 'x'; *, named_constructor = 'y'",
        "NamedConstructor(x) !SecondSpecial(named_constructor)",
    ),
    (
        "*, getter = 'x'; *, getter = 'y'",
        "Getter(x) !SecondSpecial(getter)",
    ),
    (
        "*, setter = 'x'; *, setter = 'y'",
        "Setter(x) !SecondSpecial(setter)",
    ),
    (
        "*, stringifier; *, stringifier",
        "Stringifier !SecondSpecial(stringifier)",
    ),
    (
        "*, comparison; *, comparison",
        "Comparison !SecondSpecial(comparison)",
    ),
    (
        "*, iterator; *, iterator",
        "Iterator !SecondSpecial(iterator)",
    ),
    (
        "*, iterable; *, iterable",
        "Iterable !SecondSpecial(iterable)",
    ),
    ("*, indexer; *, indexer", "Indexer !SecondSpecial(indexer)"),
    ("*, getter; *, getter = 7", "Getter !MarkArgument(getter)"),
    ("*, getter = 7; *, setter", "Setter !MarkArgument(getter)"),
    ("cpp, getter; js, stringifier", "Getter"),
];

/// Two special methods, of which the first stays.
const SPECIAL: [(&str, &str); 18] = [
    ("*, add; *, add", "Add !SecondSpecial(add)"),
    ("*, sub; *, sub", "Sub !SecondSpecial(sub)"),
    ("*, mul; *, mul", "Mul !SecondSpecial(mul)"),
    ("*, div; *, div", "Div !SecondSpecial(div)"),
    (
        "*, add_assign; *, add_assign",
        "AddAssign !SecondSpecial(add_assign)",
    ),
    (
        "*, sub_assign; *, sub_assign",
        "SubAssign !SecondSpecial(sub_assign)",
    ),
    (
        "*, mul_assign; *, mul_assign",
        "MulAssign !SecondSpecial(mul_assign)",
    ),
    (
        "*, div_assign; *, div_assign",
        "DivAssign !SecondSpecial(div_assign)",
    ),
    (
        "*, constructor; *, getter",
        "Constructor !SecondSpecial(getter)",
    ),
    (
        "*, getter; *, constructor",
        "Getter !SecondSpecial(constructor)",
    ),
    (
        "*, stringifier; *, comparison",
        "Stringifier !SecondSpecial(comparison)",
    ),
    (
        "*, iterator; *, iterable",
        "Iterator !SecondSpecial(iterable)",
    ),
    (
        "*, iterable; *, indexer",
        "Iterable !SecondSpecial(indexer)",
    ),
    ("*, add; *, add_assign", "Add !SecondSpecial(add_assign)"),
    (
        "*, div_assign; *, named_constructor",
        "DivAssign !SecondSpecial(named_constructor)",
    ),
    (
        "*, add; *, sub; *, mul",
        "Add !SecondSpecial(sub) !SecondSpecial(mul)",
    ),
    ("auto, add; auto, sub", "Add !SecondSpecial(sub)"),
    (
        "*, add; *, rename = 'x'; *, error",
        "custom_errors rename(x) Add",
    ),
];

/// Marks under `auto`.
const AUTO: [(&str, &str); 21] = [
    ("auto, disable", "disable !AutoIneligible(disable)"),
    (
        "auto, manually_disposable",
        "manually_disposable !AutoIneligible(manually_disposable)",
    ),
    ("auto, rename = 'x'", "rename(x) !AutoIneligible(rename)"),
    (
        "any( js auto ), rename = 'x'",
        "rename(x) !AutoIneligible(rename)",
    ),
    ("any( cpp auto ), rename = 'x'", "rename(x)"),
    (
        "*, disable; auto, disable",
        "disable !MarkRepeated(disable) !AutoIneligible(disable)",
    ),
    (
        "auto, disable; *, disable",
        "disable !AutoIneligible(disable) !MarkRepeated(disable)",
    ),
    ("auto, default", "default"),
    ("auto, namespace = 'x'", "namespace(x)"),
    ("auto, error", "custom_errors"),
    ("auto, precondition_violation", "precondition_violation"),
    (
        "auto, generate_mocking_interface",
        "generate_mocking_interface",
    ),
    ("auto, abi_compatible", "abi_compatible"),
    ("auto, ffi_error", "ffi_error"),
    ("auto, mut_struct_ref", "mut_struct_ref"),
    ("auto, tuple", "tuple"),
    ("auto, default_value = 7", "Integer(7)"),
    ("auto, default_value = 1.5", "!BadDefaultValue"),
    ("auto, custom_extra_code", "!BadInclude"),
    ("auto, getter = 'x'", "Getter(x)"),
    ("auto, disabled", "!UnknownMark(disabled)"),
];

/// Names that aren't one segment, and several marks, of which each breaks its rules in turn.
const SEVERAL: [(&str, &str); 12] = [
    ("", "-"),
    ("*, rust::disable", "-"),
    ("*, disable::x = 1.5", "-"),
    ("*, a::b::c", "-"),
    ("*, ::", "-"),
    ("supports=nothing, a::b", "!UnknownPair"),
    ("*, Disable", "!UnknownMark(Disable)"),
    ("js, disabled; js, disable = 1", "-"),
    (
        "*, disabled; not( auto ), error; supports=x, error; *, disable = 1",
        "!UnknownMark(disabled) !AutoMisplaced !UnknownPair !MarkArgument(disable)",
    ),
    (
        "*, default_value = 1.5; *, custom_extra_code; *, getter; *, setter; *, disable; *, disable",
        "disable Getter !BadDefaultValue !BadInclude !SecondSpecial(setter) !MarkRepeated(disable)",
    ),
    (
        "*, disable; *, error; *, default; *, generate_mocking_interface; *, manually_disposable; *, abi_compatible",
        "disable custom_errors default generate_mocking_interface manually_disposable abi_compatible",
    ),
    (
        "*, tuple; *, mut_struct_ref; *, ffi_error; *, precondition_violation; *, default_value = c'x'",
        "ffi_error mut_struct_ref tuple precondition_violation Char(x)",
    ),
];

#[test]
fn marks_stand_once_or_are_replaced(rt: HostRuntime) -> Result<(), NoMemory> {
    compare(&rt, rt.alloc(), &TWICE)
}

#[test]
fn the_first_special_method_stays(rt: HostRuntime) -> Result<(), NoMemory> {
    compare(&rt, rt.alloc(), &SPECIAL)
}

#[test]
fn some_marks_refuse_auto(rt: HostRuntime) -> Result<(), NoMemory> {
    compare(&rt, rt.alloc(), &AUTO)
}

#[test]
fn each_mark_breaks_its_rules_in_turn(rt: HostRuntime) -> Result<(), NoMemory> {
    compare(&rt, rt.alloc(), &SEVERAL)
}
