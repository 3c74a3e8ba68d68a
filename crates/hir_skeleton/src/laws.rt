//! Laws of leaves, lists and edges that callers may rely on: each is the contract of a function
//! without a body. `K` is what structs are known by.

ghost use Rattle.std.specs.Prelude.{◌≡◌, ◌↔◌, ◌≤◌, ℕ, List, Bool, IsTrue, [], length, map};
ghost use Rattle.std.specs.List.{Contains};
ghost use Rattle.hir_life.specs.Outlives.{Outlives};
ghost use Rattle.hir_life.specs.Substitution.{identity, subst_each};
ghost use Rattle.hir_life.specs.declared.maybe_static.MaybeStatic.{MaybeStatic};
ghost use Rattle.hir_life.specs.declared.maybe_static.MaybeStatic.TheVariants.{NonStatic};
ghost use Rattle.hir_skeleton.specs.Skeletons.{HasLifetimesBelow, Skeleton, Struct};
ghost use Rattle.hir_skeleton.specs.Leaves.{DeepLeaf, TellsLonger, deep_leaves, given_leaf, input_leaves, listed_paths, through};
ghost use Rattle.hir_context.specs.Lookups.{InputStruct};
ghost use Rattle.hir_skeleton.specs.Lowered.{field_skeleton, input_fields, receiver_skeleton};
ghost use Rattle.hir_types.specs.SelfTypes.{type_of};
ghost use Rattle.hir_ids.specs.declared.ids.TypeId.{TypeId};
ghost use Rattle.hir_types.specs.declared.self_types.SelfType.{SelfType};
ghost use Rattle.hir_skeleton.specs.Edges.{LeadsDown, ShallowEdge, Unfolds, shallow_edges};

/// A definition in a definition in a method: under arguments that are substituted themselves, the
/// leaves are those under the inner arguments, with each lifetime that they carry substituted.
pub fn substitution_composes_along_nesting<K>()
    ensures { (fields_of : K → List (Skeleton K))
        (levels : ℕ) (given args : List (MaybeStatic ℕ))
        (s : Skeleton K) → deep_leaves fields_of levels (subst_each given args) s
        ≡ map (given_leaf args) (deep_leaves fields_of levels given s) }
{}

/// What is listed where arguments are given is what is listed where each lifetime stands for
/// itself, under the test through the arguments.
pub fn lists_test_through_arguments<K>()
    ensures { (fields_of : K → List (Skeleton K)) (levels : ℕ) (args : List (MaybeStatic ℕ))
        (s : Skeleton K) (test : ℕ → Bool)
        → listed_paths test (deep_leaves fields_of levels args s)
        ≡ listed_paths (through test args)
        (deep_leaves fields_of levels (identity (length args)) s) }
{}

/// A path is listed under `t` exactly where a leaf stands there that carries a lifetime which
/// outlives `t`.
pub fn lists_are_what_outlives()
    ensures { (longer : ℕ → List ℕ) (t : ℕ) (test : ℕ → Bool) (leaves : List DeepLeaf)
        (path : List ℕ) → TellsLonger longer t test
        → (Contains (listed_paths test leaves) path
        ↔ (leaf : DeepLeaf) × Contains leaves leaf × (leaf.path ≡ path)
        × (l : ℕ) × Contains leaf.carried (NonStatic l) × Outlives longer l t) }
{}

/// The shallow edges of an input, followed down, are the paths that are listed, at whatever depth,
/// as far as the levels go: a path has one number for each. `own` says so of an input of a method
/// with `count` lifetimes, and `given` of anything that is given arguments, for any levels.
pub fn edges_unfold_to_lists<K>()
    ensures own { (fields_of : K → List (Skeleton K)) (count : ℕ) (optional : Bool)
        (s : Skeleton K) (test : ℕ → Bool) (path : List ℕ) → HasLifetimesBelow count s
        → (Contains (listed_paths test (input_leaves fields_of count s)) path
        ↔ (length path ≤ 256) × (edge : ShallowEdge K)
        × Contains (shallow_edges test optional s) edge × Unfolds fields_of edge path) }
    ensures given { (fields_of : K → List (Skeleton K))
        (levels : ℕ) (args : List (MaybeStatic ℕ))
        (optional : Bool) (s : Skeleton K) (test : ℕ → Bool) (path : List ℕ)
        → (Contains (listed_paths test (deep_leaves fields_of levels args s)) path
        ↔ (length path ≤ levels) × (edge : ShallowEdge K)
        × Contains (shallow_edges (through test args) optional s) edge
        × Unfolds fields_of edge path) }
{}

/// The skeleton of a receiver is that of the same type where it isn't a receiver.
pub fn receivers_are_types()
    ensures { (receiver : SelfType) → receiver_skeleton receiver
        ≡ field_skeleton (type_of receiver) }
{}

/// A disabled struct has no leaves, and no path leads anywhere from it, though it has edges.
pub fn disabled_structs_have_no_leaves()
    ensures leaves { (fields_of : TypeId → List (Skeleton TypeId)) (key : TypeId)
        (def : InputStruct) (levels : ℕ) (args given : List (MaybeStatic ℕ))
        → fields_of key ≡ input_fields def → IsTrue def.attrs.disable
        → deep_leaves fields_of levels args (Struct key given) ≡ [] }
    ensures paths { (fields_of : TypeId → List (Skeleton TypeId)) (key : TypeId)
        (def : InputStruct) (path : List ℕ) (d : ℕ)
        → fields_of key ≡ input_fields def → IsTrue def.attrs.disable
        → LeadsDown fields_of path key d → ⊥ }
{}
