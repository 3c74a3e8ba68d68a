//! Code that is included, location by location.

use super::compare;
use bridge_decl::NoMemory;

/// A location that stands alone, with a source and with a file.
const LOCATIONS: [(&str, &str); 14] = [
    (
        "*, custom_extra_code(location = 'pre_def_block', source = 'x')",
        "PreDefBlock source(x)",
    ),
    (
        "*, custom_extra_code(location = 'def_block', source = 'x')",
        "DefBlock source(x)",
    ),
    (
        "*, custom_extra_code(location = 'post_def_block', source = 'x')",
        "PostDefBlock source(x)",
    ),
    (
        "*, custom_extra_code(location = 'impl_block', source = 'x')",
        "ImplBlock source(x)",
    ),
    (
        "*, custom_extra_code(location = 'pre_impl_block', source = 'x')",
        "PreImplBlock source(x)",
    ),
    (
        "*, custom_extra_code(location = 'pre_init_block', source = 'x')",
        "PreInitializationBlock source(x)",
    ),
    (
        "*, custom_extra_code(location = 'init_block', source = 'x')",
        "InitializationBlock source(x)",
    ),
    (
        "auto, custom_extra_code(file = 'f', location = 'pre_def_block')",
        "PreDefBlock file(f)",
    ),
    (
        "auto, custom_extra_code(file = 'f', location = 'def_block')",
        "DefBlock file(f)",
    ),
    (
        "auto, custom_extra_code(file = 'f', location = 'post_def_block')",
        "PostDefBlock file(f)",
    ),
    (
        "auto, custom_extra_code(file = 'f', location = 'impl_block')",
        "ImplBlock file(f)",
    ),
    (
        "auto, custom_extra_code(file = 'f', location = 'pre_impl_block')",
        "PreImplBlock file(f)",
    ),
    (
        "auto, custom_extra_code(file = 'f', location = 'pre_init_block')",
        "PreInitializationBlock file(f)",
    ),
    (
        "auto, custom_extra_code(file = 'f', location = 'init_block')",
        "InitializationBlock file(f)",
    ),
];

/// Of several locations the last counts, and of several sources and files the last of both.
const LAST: [(&str, &str); 7] = [
    (
        "*, custom_extra_code(location = 'def_block', source = 'x', file = 'f')",
        "DefBlock file(f)",
    ),
    (
        "*, custom_extra_code(location = 'def_block', file = 'f', source = 'x')",
        "DefBlock source(x)",
    ),
    (
        "*, custom_extra_code(source = 'x', source = 'y', location = 'def_block')",
        "DefBlock source(y)",
    ),
    (
        "*, custom_extra_code(location = 'def_block', location = 'impl_block', source = 'x')",
        "ImplBlock source(x)",
    ),
    (
        "*, custom_extra_code(location = 'impl_block', source = 'x', location = 'def_block')",
        "DefBlock source(x)",
    ),
    (
        "*, custom_extra_code(location = 'def_block', source = '')",
        "DefBlock source()",
    ),
    (
        "*, custom_extra_code(file = '', location = 'def_block')",
        "DefBlock file()",
    ),
];

/// Arguments that include nothing.
const BAD: [(&str, &str); 15] = [
    ("*, custom_extra_code", "!BadInclude"),
    ("*, custom_extra_code()", "!BadInclude"),
    ("*, custom_extra_code = 'def_block'", "!BadInclude"),
    (
        "*, custom_extra_code(location = 'def_block')",
        "!BadInclude",
    ),
    ("*, custom_extra_code(source = 'x')", "!BadInclude"),
    (
        "*, custom_extra_code(file = 'f', source = 'x')",
        "!BadInclude",
    ),
    (
        "*, custom_extra_code(location = 'DefBlock', source = 'x')",
        "!BadInclude",
    ),
    (
        "*, custom_extra_code(location = 'init_bloc', source = 'x')",
        "!BadInclude",
    ),
    (
        "*, custom_extra_code(location = '', source = 'x')",
        "!BadInclude",
    ),
    (
        "*, custom_extra_code(location = 'nowhere', location = 'def_block', source = 'x')",
        "!BadInclude",
    ),
    (
        "*, custom_extra_code(location = true, source = 'x')",
        "!BadInclude",
    ),
    (
        "*, custom_extra_code(location = 'def_block', source = 7)",
        "!BadInclude",
    ),
    (
        "*, custom_extra_code(location = 'def_block', source = 'x', file = 1.5)",
        "!BadInclude",
    ),
    (
        "*, custom_extra_code(location = 'def_block', source = 'x', name = 'y')",
        "!BadInclude",
    ),
    (
        "*, custom_extra_code(location = 'def_block', source = 'x', Source = 'y')",
        "!BadInclude",
    ),
];

/// Several marks that include code: each location stands once.
const AGAIN: [(&str, &str); 11] = [
    (
        "*, custom_extra_code(location = 'pre_def_block', source = 'x'); *, custom_extra_code(location = 'pre_def_block', source = 'x')",
        "PreDefBlock source(x) !IncludeRepeated",
    ),
    (
        "*, custom_extra_code(location = 'def_block', source = 'x'); *, custom_extra_code(location = 'def_block', file = 'f')",
        "DefBlock source(x) !IncludeRepeated",
    ),
    (
        "*, custom_extra_code(location = 'post_def_block', file = 'f'); *, custom_extra_code(location = 'post_def_block', source = 'x')",
        "PostDefBlock file(f) !IncludeRepeated",
    ),
    (
        "*, custom_extra_code(location = 'impl_block', file = 'f'); *, custom_extra_code(location = 'impl_block', file = 'g')",
        "ImplBlock file(f) !IncludeRepeated",
    ),
    (
        "*, custom_extra_code(location = 'pre_impl_block', file = 'f'); *, custom_extra_code(location = 'pre_impl_block', file = 'g')",
        "PreImplBlock file(f) !IncludeRepeated",
    ),
    (
        "*, custom_extra_code(location = 'pre_init_block', file = 'f'); *, custom_extra_code(location = 'pre_init_block', file = 'g')",
        "PreInitializationBlock file(f) !IncludeRepeated",
    ),
    (
        "*, custom_extra_code(location = 'init_block', file = 'f'); *, custom_extra_code(location = 'init_block', file = 'g')",
        "InitializationBlock file(f) !IncludeRepeated",
    ),
    (
        "*, custom_extra_code(location = 'impl_block', source = 'x'); *, custom_extra_code(location = 'def_block', file = 'f')",
        "ImplBlock source(x) DefBlock file(f)",
    ),
    (
        "*, custom_extra_code(location = 'def_block', source = 'x'); *, custom_extra_code(location = 'def_block')",
        "DefBlock source(x) !BadInclude",
    ),
    (
        "*, custom_extra_code(location = 'def_block'); *, custom_extra_code(location = 'def_block', source = 'x')",
        "DefBlock source(x) !BadInclude",
    ),
    (
        "js, custom_extra_code(location = 'def_block', source = 'x'); *, custom_extra_code(location = 'def_block', source = 'y')",
        "DefBlock source(y)",
    ),
];

#[test]
fn code_is_included_at_each_location(rt: HostRuntime) -> Result<(), NoMemory> {
    compare(&rt, rt.alloc(), &LOCATIONS)
}

#[test]
fn the_last_of_each_part_counts(rt: HostRuntime) -> Result<(), NoMemory> {
    compare(&rt, rt.alloc(), &LAST)
}

#[test]
fn what_is_no_include_is_told(rt: HostRuntime) -> Result<(), NoMemory> {
    compare(&rt, rt.alloc(), &BAD)
}

#[test]
fn a_location_stands_once(rt: HostRuntime) -> Result<(), NoMemory> {
    compare(&rt, rt.alloc(), &AGAIN)
}
