//! What is asked of a backend.

ghost use Rattle.std.specs.Prelude.{◌≡◌};
ghost use Rattle.hir_backends.specs.Backend.{Backend};

use crate::support::BackendAttrSupport;

/// A backend, as far as conditions and marks ask. Each call answers by the backend's meaning, a function of what it holds now.
pub trait AttributeValidator {
    ghost meaning: { Self → Backend };

    /// The name by which reports call the backend.
    fn primary_name(&self) -> &str
        ensures { result.now ≡ (meaning self.now).primary_name };

    /// Whether the backend answers to that name.
    fn is_backend(&self, backend_name: &str) -> bool
        ensures { result ≡ (meaning self.now).is_backend backend_name.now };

    /// Whether the pair of a name and a value holds for the backend. None where it doesn't know what the pair asks.
    fn is_name_value(&self, name: &str, value: &str) -> Option<bool>
        ensures { result ≡ (meaning self.now).is_name_value name.now value.now };

    /// What the backend supports.
    fn attrs_supported(&self) -> BackendAttrSupport
        ensures { result ≡ (meaning self.now).supports };

    /// Whether the interface of what stands under that feature may still change.
    fn is_unstable(&self, feature: &str) -> bool
        ensures { result ≡ (meaning self.now).is_unstable feature.now };
}
