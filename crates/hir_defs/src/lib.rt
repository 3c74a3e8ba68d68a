//! What a backend sees of an interface: types by their positions, definitions, and the context that they stand in.
//!
//! One example runs through this crate:
//!
//! ```text
//! #[diplomat::opaque] pub struct Page<'a>(..);
//! pub struct Line<'a> { page: &'a Page<'a> }
//! #[diplomat::out] pub struct Found<'a> { line: Line<'a> }
//! fn find<'x>(line: Line<'x>, test: impl Fn(&Page) -> bool) -> Found<'x>;
//! ```
//!
//! # From paths to definitions
//!
//! A type names a definition by a path, which has its id and a lifetime for each of its. In a context each id of a path is that of a
//! definition, so a path is asked for it without a test: [`ResolvePath::resolve`] of the path in `line` lends the struct `Line`, that in
//! the return the out-struct `Found`. What stands for the lifetimes of the definition is a table ([`LinkedPath::link_lifetimes`]): for `'a` of
//! `Line` it is `'x`. An opaque is behind a pointer besides, whose lifetime the table has first.
//!
//! # What depends on the position
//!
//! Types stand at four positions: in the fields of structs ([`Everywhere`]), in what methods take
//! ([`InputOnly`]), in what they return ([`OutputOnly`]), and in what callbacks return
//! ([`CallbackReturn`]). Whoever works at any of them asks [`PositionDefs`] for what differs, and
//! `PositionTypes`, on which it stands:
//!
//! | | `Everywhere` | `InputOnly` | `OutputOnly` | `CallbackReturn` |
//! |---|---|---|---|---|
//! | its own structs | `Line` | none | `Found` | none |
//! | callbacks, as `test` | none | all | none | none |
//! | traits as parameters | none | all | none | all |
//!
//! A path to a struct is linked, at each position, to the definition that it names.
//!
//! This crate offers beside that what the crates below it have of types, definitions and contexts, so that who works on an interface needs
//! no other. It restates the module `hir` of the crate `diplomat_core`, in which paths and positions know the context themselves.
#![tactic(auto)]

mod laws;
mod linking;
mod positions;
mod resolving;

pub use hir_context::{
    AllFunctions, AllTraits, AllTypes, ContextFault, ContextParts, Placed, TypeContext,
};
pub use hir_definitions::{
    AttributeContext, EnumDef, EnumVariant, Method, OpaqueDef, OutStructDef, OutStructField, Param,
    ParamSelf, ResultUsage, ResultUsageInfo, SpecialMethodPresence, StructDef, StructField,
    TraitDef, TypeDef, TypingUseInfo,
};
pub use hir_fitting::Unfit;
pub use hir_links::LinkedLifetimes;
pub use hir_types::{
    Callback, CallbackInstantiationFunctionality, CallbackParam, CallbackReturn, EnumPath,
    Everywhere, HirType, InputOnly, NoCallback, NoTraitPath, OpaquePath, OutStructPath, OutType,
    OutputOnly, PositionTypes, ReturnType, ReturnableStructPath, SelfType, Slice, StructPath,
    StructPathLike, SuccessType, TraitIdGetter, TraitParamSelf, TraitPath, TyPosition,
    TypeLifetimes, WriteType,
};
pub use laws::positions_define_structs;
pub use linking::LinkedPath;
pub use positions::PositionDefs;
pub use resolving::{ResolvePath, ReturnableStructDef};
