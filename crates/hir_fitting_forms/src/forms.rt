//! What types, receivers and signatures stand for: each law is the contract of a function without
//! a body.

ghost use Rattle.std.specs.Prelude.{ℕ, Option, Some, IfSome};
ghost use Rattle.std.specs.List.{All};
ghost use Rattle.bridge_decl.specs.declared.types.Mutability.{Mutability};
ghost use Rattle.bridge_decl.specs.declared.types.WriteType.{WriteType};
ghost use Rattle.bridge_order.specs.Catalog.{entry_at, id_of};
ghost use Rattle.bridge_order.specs.declared.catalog.Catalog.{Catalog};
ghost use Rattle.hir_fitting.specs.Fitting.{Fits};
ghost use Rattle.hir_fitting.specs.declared.census.Census.{Census};
ghost use Rattle.hir_form.specs.Forms.{trait_path};
ghost use Rattle.hir_form.specs.ParamForms.{callback_return_form, field_form, method_return_form, out_type_form, param_form};
ghost use Rattle.hir_form.specs.ReceiverForms.{receiver_form};
ghost use Rattle.hir_form.specs.SignatureForms.{signature_form};
ghost use Rattle.hir_life.specs.declared.maybe_static.MaybeStatic.{MaybeStatic};
ghost use Rattle.hir_mentions.specs.Callbacks.{callback_return_mentions, field_mentions, input_mentions, output_mentions};
ghost use Rattle.hir_mentions.specs.Types.{receiver_mentions, return_mentions, trait_path_mentions};
ghost use Rattle.hir_number.specs.declared.numbered.NumberedType.{NumberedType};
ghost use Rattle.hir_number.specs.declared.numbered.Target.{Target};
ghost use Rattle.hir_number.specs.declared.numbered.TraitTarget.{TraitTarget};
ghost use Rattle.hir_number.specs.declared.signature.NumberedSignature.{NumberedSignature};
ghost use Rattle.hir_fitting_forms.specs.Lowered.{signature_mentions};
ghost use Rattle.hir_fitting_forms.specs.Names.{OfTrait};
ghost use Rattle.hir_fitting_forms.specs.NumberedFits.{NameFits, ReceiverFits, SignatureFits, TypeFits};

/// A type that fits stands for what names what fits, wherever it may stand: the field of a struct;
/// what goes out by itself, as the field of an out-struct or what a callback takes; what a method
/// takes; what a method returns; and what a callback returns.
pub fn types_stand_for_what_fits()
    ensures field { (census : Census) (catalog : Catalog) (count : ℕ) (ty : NumberedType)
        → TypeFits census catalog count ty
        → IfSome (field_form catalog ty)
        (λ t. All (Fits census (Some count)) (field_mentions t)) }
    ensures out { (census : Census) (catalog : Catalog) (count : ℕ) (ty : NumberedType)
        → TypeFits census catalog count ty
        → IfSome (out_type_form catalog ty)
        (λ t. All (Fits census (Some count)) (output_mentions t)) }
    ensures param { (census : Census) (catalog : Catalog) (count : ℕ) (ty : NumberedType)
        → TypeFits census catalog count ty
        → IfSome (param_form catalog ty)
        (λ t. All (Fits census (Some count)) (input_mentions t)) }
    ensures returned { (census : Census) (catalog : Catalog) (count : ℕ)
        (written : Option WriteType) (ty : NumberedType) → TypeFits census catalog count ty
        → IfSome (method_return_form catalog written ty)
        (λ r. All (Fits census (Some count)) (return_mentions output_mentions r)) }
    ensures callback { (census : Census) (catalog : Catalog) (count : ℕ) (ty : NumberedType)
        → TypeFits census catalog count ty → IfSome (callback_return_form catalog ty)
        (λ r. All (Fits census (Some count)) (return_mentions callback_return_mentions r)) }
{}

/// So does a receiver with its borrow, the path of a trait's receiver, and a whole signature, in
/// the environment of its own lifetimes.
pub fn signatures_stand_for_what_fits()
    ensures receiver { (census : Census) (catalog : Catalog) (count : ℕ)
        (borrow : Option (MaybeStatic ℕ × Mutability)) (target : Target)
        → ReceiverFits census catalog count borrow target
        → IfSome (receiver_form catalog borrow target)
        (λ r. All (Fits census (Some count)) (receiver_mentions r)) }
    ensures trait_receiver { (census : Census) (catalog : Catalog) (count : ℕ)
        (target : TraitTarget) → NameFits census catalog count (OfTrait target)
        → All (Fits census (Some count)) (trait_path_mentions
        (trait_path target.lifetimes (id_of (entry_at catalog target.place)))) }
    ensures signature { (census : Census) (catalog : Catalog) (written : Option WriteType)
        (n : NumberedSignature) → SignatureFits census catalog n
        → IfSome (signature_form catalog written n)
        (λ s. All (Fits census (Some n.lifetimes.count)) (signature_mentions s)) }
{}
