//! What a user of the lowering chooses.

ghost use Rattle.std.specs.Prelude.{◌≡◌, false};

/// What lowering allows beyond the rules that always hold, as `diplomat_core::hir::LoweringConfig`.
#[derive(Clone, Copy)]
pub struct LoweringConfig {
    /// Callbacks may take references. The code that is called back could keep such a reference for longer than it is valid, and
    /// so the one who allows this has to see to it that none does.
    pub unsafe_references_in_callbacks: bool,
}

impl Default for LoweringConfig {
    ghost is_default = { λ config. config ≡ record { unsafe_references_in_callbacks = false } };

    /// Nothing is allowed beyond the rules.
    fn default() -> LoweringConfig {
        LoweringConfig {
            unsafe_references_in_callbacks: false,
        }
    }
}
