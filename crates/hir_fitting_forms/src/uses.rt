//! Uses of definitions: each law is the contract of a function without a body.

ghost use Rattle.std.specs.Prelude.{ℕ, List, [], Option, Some};
ghost use Rattle.std.specs.List.{All};
ghost use Rattle.hir_definitions.specs.declared.definitions.StructField.{StructField};
ghost use Rattle.hir_definitions.specs.declared.definitions.TraitDef.{TraitDef};
ghost use Rattle.hir_definitions.specs.declared.methods.Method.{Method};
ghost use Rattle.hir_fitting.specs.Fitting.{Fits};
ghost use Rattle.hir_fitting.specs.Parts.{PartFits, free, method_part};
ghost use Rattle.hir_fitting.specs.declared.census.Census.{Census};
ghost use Rattle.hir_ids.specs.declared.owners.Borrow.{Borrow as Loan};
ghost use Rattle.hir_ids.specs.declared.owners.InputOrOutput.TheVariants.{InputOutput};
ghost use Rattle.hir_ids.specs.declared.owners.MaybeOwn.{MaybeOwn};
ghost use Rattle.hir_mentions.specs.Callbacks.{callback_mentions};
ghost use Rattle.hir_mentions.specs.Definitions.{trait_mentions};
ghost use Rattle.hir_types.specs.declared.callbacks.Callback.{Callback as CallbackType};
ghost use Rattle.hir_types.specs.declared.callbacks.NoCallback.{NoCallback};
ghost use Rattle.hir_types.specs.declared.paths.NoTraitPath.{NoTraitPath};
ghost use Rattle.hir_types.specs.declared.paths.ReturnableStructPath.{ReturnableStructPath};
ghost use Rattle.hir_types.specs.declared.paths.StructPath.{StructPath};
ghost use Rattle.hir_types.specs.declared.positions.Everywhere.{Everywhere};
ghost use Rattle.hir_types.specs.declared.positions.OutputOnly.{OutputOnly};
ghost use Rattle.hir_usage.specs.Callbacks.{callback_usages, method_usages, output_usages, struct_id};
ghost use Rattle.hir_usage.specs.Definitions.{fields_usages, trait_usages};
ghost use Rattle.hir_usage.specs.Tables.{Usages, noted, unused_of};
ghost use Rattle.hir_usage.specs.Types.{type_usages};
ghost use Rattle.hir_usage.specs.Uses.{Used};
ghost use Rattle.hir_fitting_forms.specs.Uses.{UsagesFit, UseFits};

/// How a method, a callback or a trait uses definitions names what is there, where it does itself.
/// Fields are in no result, so how they use definitions names nothing.
pub fn uses_fit_where_types_do()
    ensures method { (census : Census) (m : Method) → PartFits census (method_part m)
        → All (UseFits census) (method_usages m) }
    ensures callback { (census : Census) (count : Option ℕ) (c : CallbackType)
        → All (Fits census count) (callback_mentions c)
        → All (UseFits census) (callback_usages c) }
    ensures traits { (census : Census) (def : TraitDef)
        → PartFits census (free (trait_mentions def))
        → All (UseFits census) (trait_usages def) }
    ensures fields { (census : Census)
        (fields : List (StructField Everywhere NoCallback Loan ℕ StructPath NoTraitPath))
        → All (UseFits census)
        (fields_usages (type_usages InputOutput Some struct_id (λ _. [])) fields) }
    ensures out_fields { (census : Census) (fields :
        List (StructField OutputOnly NoCallback MaybeOwn ℕ ReturnableStructPath NoTraitPath))
        → All (UseFits census) (fields_usages output_usages fields) }
{}

/// Where nothing is noted, all that is noted names what is there, and noting uses that do keeps it
/// so.
pub fn noted_uses_fit()
    ensures none { (census : Census) (structs out_structs opaques enums : ℕ)
        → UsagesFit census (unused_of structs out_structs opaques enums) }
    ensures noted { (census : Census) (us : List Used) (t : Usages)
        → All (UseFits census) us → UsagesFit census t → UsagesFit census (noted us t) }
{}
