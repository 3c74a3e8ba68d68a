//! Laws that callers may rely on: each is the contract of a function without a body.

ghost use Rattle.std.specs.Prelude.{◌↔◌, IsTrue};
ghost use Rattle.bridge_grid.specs.rules.FfiUnsafe.{IsFfiSafe};
ghost use Rattle.hir_fields.specs.Safety.{is_safe};
ghost use Rattle.hir_number.specs.declared.numbered.NumberedType.{NumberedType};

/// The test by which a field's type is told and the relation that says which types are laid out as
/// another language can have them agree.
pub fn layouts_are_tested()
    ensures { (ty : NumberedType) → IsTrue (is_safe ty) ↔ IsFfiSafe ty }
{}
