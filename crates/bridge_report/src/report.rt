//! What the results of callables may borrow.

use bridge_decl::Items;
use hir_context::TypeContext;
use hir_ids::{FunctionId, TypeId};
use hir_life::Lifetime;

/// A callable of a context.
#[derive(Clone, Copy)]
pub enum CallableId {
    /// The method of that number, from 0, of the type of that id.
    Method(TypeId, usize),
    /// The function of that id.
    Function(FunctionId),
}

/// An input of a callable.
#[derive(Clone, Copy)]
pub enum InputPlace {
    /// The receiver, `self`.
    Receiver,
    /// The parameter of that number, from 0, after the receiver.
    Param(usize),
}

/// A place inside an input that holds a borrow: the way to it by the numbers of fields.
pub struct LeafPath {
    /// The input.
    pub input: InputPlace,
    /// The fields, outermost first; none where the input itself is the borrow.
    pub fields: Items<usize>,
}

/// By hand, so that where one is let go the proof has one call.
impl Drop for LeafPath {
    fn drop(self) {
        let LeafPath {
            input: _,
            fields: _,
        } = self;
    }
}

/// What an edge of a generated wrapper keeps alive.
#[derive(Clone, Copy)]
pub enum ReportEdgeKind {
    /// The opaque that the input refers to.
    Opaque,
    /// The slice that the input is.
    Slice,
    /// What the struct borrows for its lifetime of this number, and whether the struct stands in an
    /// option.
    Struct(Lifetime, bool),
}

/// An edge from a result to an input.
#[derive(Clone, Copy)]
pub struct ReportEdge {
    /// The input.
    pub input: InputPlace,
    /// What of it is kept alive.
    pub kind: ReportEdgeKind,
}

/// What a result may borrow under one of the lifetimes that it names.
pub struct ReturnedLifetime {
    /// The lifetime, by its number among those of the callable.
    pub lifetime: Lifetime,
    /// The leaves that carry the lifetime or one that outlives it, in the order of declaration.
    pub leaves: Items<LeafPath>,
    /// The edges that a generator writes for it, in the order of the inputs.
    pub edges: Items<ReportEdge>,
}

/// By hand, so that where one is let go the proof has one call.
impl Drop for ReturnedLifetime {
    fn drop(self) {
        let ReturnedLifetime {
            lifetime: _,
            leaves: _,
            edges: _,
        } = self;
    }
}

/// What the result of a callable may borrow.
pub struct CallableReport {
    /// The callable.
    pub callable: CallableId,
    /// The lifetimes that its return names, ascending, with what may be borrowed under each.
    pub returned: Items<ReturnedLifetime>,
}

/// By hand, so that where one is let go the proof has one call.
impl Drop for CallableReport {
    fn drop(self) {
        let CallableReport {
            callable: _,
            returned: _,
        } = self;
    }
}

/// A context with what the results of its callables may borrow.
pub struct BridgeReport {
    /// The context.
    pub tcx: TypeContext,
    /// Its callables: the methods of its types in order, and then its functions.
    pub callables: Items<CallableReport>,
}

/// By hand, so that where one is let go the proof has one call.
impl Drop for BridgeReport {
    fn drop(self) {
        let BridgeReport {
            tcx: _,
            callables: _,
        } = self;
    }
}
