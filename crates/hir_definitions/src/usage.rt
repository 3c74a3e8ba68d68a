//! How types are used.

use bridge_decl::Items;
use hir_types::{CallbackReturn, HirType, OutputOnly, SuccessType, TyPosition};
use std::alloc::Global;

/// How a type is used, beside by itself: backends make a view of slices, a struct for options, and
/// a union for each result, for those types alone that need one.
#[derive(Drop)]
pub struct TypingUseInfo {
    /// It is the element of a slice.
    pub sliced: bool,
    /// It is in an option.
    pub optioned: bool,
    /// The results that it is in, in the order in which they are declared.
    pub results: Items<ResultUsage>,
}

impl TypingUseInfo {
    ghost use Rattle.std.specs.Prelude.{◌≡◌};
    ghost use Rattle.hir_definitions.specs.Usage.{unused};

    /// It is used by itself alone. This takes no memory.
    pub fn unused(alloc: Global) -> TypingUseInfo
        ensures { result ≡ unused }
    {
        TypingUseInfo {
            sliced: false,
            optioned: false,
            results: Items::new(alloc),
        }
    }
}

/// A result, by the position of its types.
#[derive(Drop)]
pub struct ResultUsageInfo<P: TyPosition> {
    /// What comes of success.
    pub ok: SuccessType<P>,
    /// The error, where it has a type.
    pub err: Option<HirType<P>>,
}

/// A result that comes in or goes out.
#[derive(Drop)]
pub enum ResultUsage {
    /// A callback or a method of a trait returns it.
    Input(ResultUsageInfo<CallbackReturn>),
    /// A method or a function returns it.
    Output(ResultUsageInfo<OutputOnly>),
}
