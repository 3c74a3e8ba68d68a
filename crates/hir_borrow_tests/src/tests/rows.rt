//! Both visitors on whole signatures.

use crate::tests::comparing::{Edge, Held, Leaf, compare_both};
use crate::tests::made::{Made, Of, STATIC};
use crate::tests::signatures::{Signature, context};
use std::alloc::Global;
use std::process::Abort;
use std::test::Fail;

/// Structs, a method, its leaves, and what is held.
type Row = (
    &'static [Made],
    Signature,
    &'static [Leaf],
    &'static [Held<'static>],
);

/// `Input<'p, 'q>` and `Inner<'a>`, for which both lifetimes are turned round on the way out.
const TURNED: Row = (
    &[
        (
            2,
            &[
                ("p_data", Of::Opaque(0, &[])),
                ("q_data", Of::Opaque(1, &[])),
                ("name", Of::Text(&[STATIC])),
                ("inner", Of::Struct(1, &[1])),
            ],
        ),
        (1, &[("more_data", Of::Text(&[0]))]),
    ],
    Signature {
        bounded: false,
        count: 2,
        receiver: Some((0, &[0, 1])),
        params: &[("_s", Of::Text(&[STATIC]))],
        returned: &[1, 0],
    },
    &[
        ("this.p_data", &[0]),
        ("this.q_data", &[1]),
        ("this.name", &[STATIC]),
        ("this.inner.more_data", &[1]),
        ("_s", &[STATIC]),
    ],
    &[
        (0, &[Edge::Struct("this", 0, false)]),
        (1, &[Edge::Struct("this", 1, false)]),
    ],
);

/// `S<'a> { o: DiplomatOption<T<'a>> }`.
const OPTIONAL: Row = (
    &[
        (1, &[("o", Of::Optional(1, &[0]))]),
        (1, &[("s", Of::Text(&[0]))]),
    ],
    Signature {
        bounded: false,
        count: 1,
        receiver: None,
        params: &[("p", Of::Struct(0, &[0]))],
        returned: &[0],
    },
    &[("p.o.s", &[0])],
    &[(0, &[Edge::Struct("p", 0, false)])],
);

/// `f<'a>(x: &'a Foo<'a>)`.
const REPEATED: Row = (
    &[],
    Signature {
        bounded: false,
        count: 1,
        receiver: None,
        params: &[("x", Of::Opaque(0, &[0]))],
        returned: &[0],
    },
    &[("x", &[0])],
    &[(0, &[Edge::Opaque("x")])],
);

/// Two structs that are declared by the same name in two modules, each of which is in another.
const ALIKE: Row = (
    &[
        (1, &[("q", Of::Struct(2, &[0]))]),
        (1, &[("q", Of::Struct(3, &[0]))]),
        (1, &[("s", Of::Text(&[0]))]),
        (1, &[("t", Of::Text(&[0]))]),
    ],
    Signature {
        bounded: false,
        count: 1,
        receiver: None,
        params: &[("p", Of::Struct(0, &[0])), ("r", Of::Struct(1, &[0]))],
        returned: &[0],
    },
    &[("p.q.s", &[0]), ("r.q.t", &[0])],
    &[(
        0,
        &[Edge::Struct("p", 0, false), Edge::Struct("r", 0, false)],
    )],
);

/// `'b: 'a`: what lives for `'b` is held for `'a` too, and not the other way round.
const BOUNDED: Row = (
    &[(2, &[("page", Of::Opaque(0, &[1])), ("line", Of::Number)])],
    Signature {
        bounded: true,
        count: 2,
        receiver: None,
        params: &[
            ("mark", Of::Optional(0, &[0, 1])),
            ("x", Of::Opaque(0, &[])),
            ("y", Of::Opaque(1, &[])),
        ],
        returned: &[0, 1],
    },
    &[("mark.page", &[0, 1]), ("x", &[0]), ("y", &[1])],
    &[
        (
            0,
            &[
                Edge::Struct("mark", 0, true),
                Edge::Struct("mark", 1, true),
                Edge::Opaque("x"),
                Edge::Opaque("y"),
            ],
        ),
        (1, &[Edge::Struct("mark", 1, true), Edge::Opaque("y")]),
    ],
);

/// Compares what both visitors find.
fn compare_row(rt: &impl Abort, alloc: Global, row: &Row) -> Result<(), Fail> {
    let (structs, signature, leaves, held) = row;
    let tcx = context(alloc, structs, signature)?;
    compare_both(rt, alloc, &tcx, leaves, held)
}

#[test]
fn both_visitors_turn_lifetimes_round(rt: HostRuntime) -> Result<(), Fail> {
    compare_row(&rt, rt.alloc(), &TURNED)
}

#[test]
fn both_visitors_look_into_options(rt: HostRuntime) -> Result<(), Fail> {
    compare_row(&rt, rt.alloc(), &OPTIONAL)
}

#[test]
fn both_visitors_find_an_opaque_once(rt: HostRuntime) -> Result<(), Fail> {
    compare_row(&rt, rt.alloc(), &REPEATED)
}

#[test]
fn both_visitors_tell_structs_apart_by_ids(rt: HostRuntime) -> Result<(), Fail> {
    compare_row(&rt, rt.alloc(), &ALIKE)
}

#[test]
fn what_outlives_is_held_too(rt: HostRuntime) -> Result<(), Fail> {
    compare_row(&rt, rt.alloc(), &BOUNDED)
}
