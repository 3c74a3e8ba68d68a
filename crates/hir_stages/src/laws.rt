//! The laws: each is the contract of a function without a body.

ghost use Rattle.std.specs.Prelude.{◌≡◌, List};
ghost use Rattle.bridge_ast.specs.declared.place.ItemPlace.{ItemPlace};
ghost use Rattle.bridge_decl.specs.declared.functions.Function.{Function};
ghost use Rattle.bridge_decl.specs.declared.methods.Method.{Method};
ghost use Rattle.bridge_decl.specs.declared.structs.Struct.{Struct};
ghost use Rattle.bridge_decl.specs.declared.traits.TraitMethod.{TraitMethod};
ghost use Rattle.hir_number.specs.Naming.{Naming};
ghost use Rattle.hir_number.specs.Numbered.{AreNumberedFields, IsNumberedFunction, IsNumberedMethod, IsNumberedTraitMethod, numbers_of, numbers_of_each, trait_numbers_of};
ghost use Rattle.hir_number.specs.declared.numbered.NumberedType.{NumberedType};
ghost use Rattle.hir_number.specs.declared.signature.NumberedSignature.{NumberedSignature};
ghost use Rattle.hir_number.specs.declared.trait_methods.NumberedTraitMethod.{NumberedTraitMethod};
ghost use Rattle.hir_signatures.specs.Lowered.{FunctionComesTo, MethodComesTo};
ghost use Rattle.hir_signatures.specs.Stages.{Stage};
ghost use Rattle.hir_stages.specs.Given.{function_stage, method_stage};
ghost use Rattle.hir_stages.specs.Numbering.{filled_fields, filled_function, filled_method, filled_trait_method};

/// A declaration that is numbered is its types without lifetimes, with its numbers filled in. Its
/// numbers are those of its uses. So no declaration is numbered in two ways.
pub fn a_declaration_is_numbered_once()
    ensures method { (names : Naming) (method : Method) (n : NumberedSignature)
        → IsNumberedMethod names method n → n ≡ filled_method names method (numbers_of n) }
    ensures function { (names : Naming) (function : Function) (n : NumberedSignature)
        → IsNumberedFunction names function n
        → n ≡ filled_function names function (numbers_of n) }
    ensures trait_method { (names : Naming) (method : TraitMethod) (n : NumberedTraitMethod)
        → IsNumberedTraitMethod names method n
        → n ≡ filled_trait_method names method (trait_numbers_of n) }
    ensures fields { (names : Naming) (item : Struct) (types : List NumberedType)
        → AreNumberedFields names item types
        → types ≡ filled_fields names item (numbers_of_each types) }
{}

/// The types of a declaration come to the stage that it gives, and to no other. So all that is told
/// of them, and what is made, is given by the declaration.
pub fn stages_are_given()
    ensures method { (names : Naming) (owner : ItemPlace) (method : Method) (stage : Stage)
        → MethodComesTo names owner method stage → stage ≡ method_stage names owner method }
    ensures function { (names : Naming) (function : Function) (stage : Stage)
        → FunctionComesTo names function stage → stage ≡ function_stage names function }
{}
