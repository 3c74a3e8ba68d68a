//! Paths beside the lifetimes of what they name.

ghost use Rattle.std.specs.Prelude.{◌≡◌, Some, None};
ghost use Rattle.hir_defs.specs.Linking.{IsLinkable, link_to};
ghost use Rattle.hir_ids.specs.declared.ids.TypeId.TheVariants as type;

use hir_context::TypeContext;
use hir_ids::OpaqueOwner;
use hir_links::LinkedLifetimes;
use hir_types::{OpaquePath, OutStructPath, ReturnableStructPath, StructPath};

/// A path with lifetimes, which stand for those of the definition that it names.
pub trait LinkedPath {
    ghost use Rattle.std.specs.Prelude.{List, Option, ℕ};
    ghost use Rattle.hir_ids.specs.declared.ids.TypeId.{TypeId};
    ghost use Rattle.hir_life.specs.declared.maybe_static.MaybeStatic.{MaybeStatic};

    /// The id that stands in the path.
    ghost linked: { Self → TypeId };

    /// The lifetime of the pointer, where it is one to an opaque that isn't owned.
    ghost pointed: { Self → Option (MaybeStatic ℕ) };

    /// The lifetimes that it gives the definition.
    ghost given: { Self → List (MaybeStatic ℕ) };

    /// The lifetimes of the definition, which is there and has as many, beside those of the path.
    fn link_lifetimes<'def, 'tcx>(&'def self, tcx: &'tcx TypeContext) -> LinkedLifetimes<'def, 'tcx>
        requires { IsLinkable tcx.now.definitions (linked self.now) (given self.now) }
        ensures { link_to tcx.now.definitions (linked self.now) (pointed self.now) (given self.now)
            ≡ Some result };
}

impl<Opt, Owner: OpaqueOwner> LinkedPath for OpaquePath<Opt, Owner> {
    ghost use Rattle.std.specs.Prelude.{option_map};

    ghost linked = { λ path. type.Opaque path.tcx_id };

    ghost pointed = { λ path. option_map (λ b. b.lifetime) (Owner.borrow_of path.owner) };

    ghost given = { λ path. path.lifetimes };

    #[tactic(auto, using(crate::proofs::Links::opaque_in, crate::proofs::Links::opaque_arity))]
    fn link_lifetimes<'def, 'tcx>(
        &'def self,
        tcx: &'tcx TypeContext,
    ) -> LinkedLifetimes<'def, 'tcx> {
        let def = tcx.resolve_opaque(self.tcx_id);
        LinkedLifetimes::new(&def.lifetimes, self.owner.lifetime(), &self.lifetimes)
    }
}

impl LinkedPath for StructPath {
    ghost linked = { λ path. type.Struct path.tcx_id };

    ghost pointed = { λ path. None };

    ghost given = { λ path. path.lifetimes };

    #[tactic(auto, using(crate::proofs::Links::struct_in, crate::proofs::Links::struct_arity))]
    fn link_lifetimes<'def, 'tcx>(
        &'def self,
        tcx: &'tcx TypeContext,
    ) -> LinkedLifetimes<'def, 'tcx> {
        let def = tcx.resolve_struct(self.tcx_id);
        LinkedLifetimes::new(&def.lifetimes, None, &self.lifetimes)
    }
}

impl LinkedPath for OutStructPath {
    ghost linked = { λ path. type.OutStruct path.tcx_id };

    ghost pointed = { λ path. None };

    ghost given = { λ path. path.lifetimes };

    #[tactic(auto, using(crate::proofs::Links::out_in, crate::proofs::Links::out_arity))]
    fn link_lifetimes<'def, 'tcx>(
        &'def self,
        tcx: &'tcx TypeContext,
    ) -> LinkedLifetimes<'def, 'tcx> {
        let def = tcx.resolve_out_struct(self.tcx_id);
        LinkedLifetimes::new(&def.lifetimes, None, &self.lifetimes)
    }
}

impl LinkedPath for ReturnableStructPath {
    ghost use Rattle.hir_types.specs.Paths.{returnable_id, returnable_lifetimes};

    ghost linked = { returnable_id };

    ghost pointed = { λ path. None };

    ghost given = { returnable_lifetimes };

    fn link_lifetimes<'def, 'tcx>(
        &'def self,
        tcx: &'tcx TypeContext,
    ) -> LinkedLifetimes<'def, 'tcx> {
        match self {
            ReturnableStructPath::Struct(path) => path.link_lifetimes(tcx),
            ReturnableStructPath::OutStruct(path) => path.link_lifetimes(tcx),
        }
    }
}
