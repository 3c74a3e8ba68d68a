//! The first faults of names and paths.

use super::declared::{Declared, Expected, fault_of, modules};
use bridge_ast::{Env, EnvFaultKind, EnvPart, EnvPlace};
use std::test::Fail;

/// Modules, and their first fault.
const NAMES: [(&[Declared], Option<Expected>); 9] = [
    (&[], None),
    (&[("", "P Q", "R=P"), ("m", "P", "")], None),
    (
        &[("m::n", "", "")],
        Some((EnvFaultKind::ParentMissing, ROOT, None)),
    ),
    // a parent that stands later
    (
        &[("", "", ""), ("m::n", "", ""), ("m", "", "")],
        Some((EnvFaultKind::ParentMissing, SECOND, None)),
    ),
    (
        &[("", "P P", "")],
        Some((
            EnvFaultKind::DuplicateItem,
            EnvPlace {
                module: 0,
                part: EnvPart::Item(1),
            },
            Some(FIRST_ITEM),
        )),
    ),
    (
        &[("", "P", "a= P=")],
        Some((
            EnvFaultKind::DuplicateItem,
            EnvPlace {
                module: 0,
                part: EnvPart::Alias(1),
            },
            Some(FIRST_ITEM),
        )),
    ),
    (
        &[("", "P", "m="), ("m", "", "")],
        Some((
            EnvFaultKind::DuplicateItem,
            SECOND,
            Some(EnvPlace {
                module: 0,
                part: EnvPart::Alias(0),
            }),
        )),
    ),
    (
        &[
            ("", "", ""),
            ("m", "", ""),
            ("m::k", "", ""),
            ("m", "P P", ""),
        ],
        Some((
            EnvFaultKind::DuplicateModule,
            EnvPlace {
                module: 3,
                part: EnvPart::Module,
            },
            Some(SECOND),
        )),
    ),
    // two roots
    (
        &[("", "", ""), ("", "", "")],
        Some((EnvFaultKind::DuplicateModule, SECOND, Some(ROOT))),
    ),
];

const ROOT: EnvPlace = EnvPlace {
    module: 0,
    part: EnvPart::Module,
};

const SECOND: EnvPlace = EnvPlace {
    module: 1,
    part: EnvPart::Module,
};

const FIRST_ITEM: EnvPlace = EnvPlace {
    module: 0,
    part: EnvPart::Item(0),
};

#[test]
fn first_faults_of_names(rt: HostRuntime) -> Result<(), Fail> {
    for (row, (declared, expected)) in NAMES.iter().enumerate() {
        let fault = fault_of(Env::new(rt.alloc(), modules(rt.alloc(), declared)?));
        assert!(rt; fault == *expected, "in row {row}");
    }
    Ok(())
}
