//! A backend as plain data.

ghost use Rattle.std.specs.Prelude.{◌≡◌, ◌↔◌, IfOk, None, codes};
ghost use Rattle.hir_backends.specs.Support.{flag_named};
ghost use Rattle.hir_backends.specs.Validator.{plain_validator, basic_meaning, flag_support};

use crate::known::{Names, Pairs};
use crate::meanings::AttributeValidator;
use crate::support::{BackendAttrSupport, SupportFlag};
use bridge_decl::{NoMemory, Text};
use std::alloc::Global;

/// A backend as plain data: its names, what it supports, and the values and features that conditions ask for. As
/// `diplomat_core::hir::BasicAttributeValidator`.
pub struct BasicAttributeValidator {
    /// The backend's name.
    pub backend_name: Text,
    /// What the backend supports.
    pub support: BackendAttrSupport,
    /// Further names that the backend answers to.
    pub other_backend_names: Names,
    /// The pairs of a name and a value that hold for the backend.
    pub name_values: Pairs,
    /// The features of the library that are enabled.
    pub features_enabled: Names,
    /// The features of the library whose interface may still change.
    pub semver_unstable_features: Names,
}

/// By hand, so that where one is let go the proof has one call.
impl Drop for BasicAttributeValidator {
    fn drop(self) {
        let BasicAttributeValidator {
            backend_name: _,
            support: _,
            other_backend_names: _,
            name_values: _,
            features_enabled: _,
            semver_unstable_features: _,
        } = self;
    }
}

impl BasicAttributeValidator {
    /// The backend of that name that has no other name, supports nothing, and knows no pairs and no features.
    pub fn new(alloc: Global, backend_name: &str) -> Result<BasicAttributeValidator, NoMemory>
        ensures { IfOk result (λ validator. validator ≡ plain_validator backend_name.now) }
    {
        Ok(BasicAttributeValidator {
            backend_name: Text::new(alloc, backend_name)?,
            support: BackendAttrSupport::none(),
            other_backend_names: Names::empty(alloc),
            name_values: Pairs::empty(alloc),
            features_enabled: Names::empty(alloc),
            semver_unstable_features: Names::empty(alloc),
        })
    }

    /// A copy, which is equal to the validator.
    pub fn try_clone(&self, alloc: Global) -> Result<BasicAttributeValidator, NoMemory>
        ensures { IfOk result (λ copy. copy ≡ self.now) }
    {
        Ok(BasicAttributeValidator {
            backend_name: self.backend_name.try_clone(alloc)?,
            support: self.support,
            other_backend_names: self.other_backend_names.try_clone(alloc)?,
            name_values: self.name_values.try_clone(alloc)?,
            features_enabled: self.features_enabled.try_clone(alloc)?,
            semver_unstable_features: self.semver_unstable_features.try_clone(alloc)?,
        })
    }

    /// Whether the flag of that name is on. None where no flag has the name.
    fn supports(&self, name: &str) -> Option<bool>
        ensures { result ≡ flag_support self.now.support name.now }
    {
        match SupportFlag::named(name) {
            Some(flag) => Some(self.support.has(flag)),
            None => None,
        }
    }
}

impl AttributeValidator for BasicAttributeValidator {
    ghost use Rattle.hir_backends.specs.Validator.{basic_meaning};

    ghost meaning = { basic_meaning };

    fn primary_name(&self) -> &str {
        self.backend_name.as_str()
    }

    fn is_backend(&self, backend_name: &str) -> bool {
        self.backend_name.as_str() == backend_name || self.other_backend_names.has(backend_name)
    }

    /// `supports` asks for the flag of that name, `feature` for an enabled feature, and any other name for a pair. None exactly where
    /// `supports` asks for what is no flag.
    fn is_name_value(&self, name: &str, value: &str) -> Option<bool>
        ensures value { result ≡ (basic_meaning self.now).is_name_value name.now value.now }
        ensures none { (result ≡ None)
            ↔ ((name.now ≡ codes "supports") × (flag_named value.now ≡ None)) }
    {
        if name == "supports" {
            self.supports(value)
        } else if name == "feature" {
            Some(self.features_enabled.has(value))
        } else {
            Some(self.name_values.has(name, value))
        }
    }

    fn attrs_supported(&self) -> BackendAttrSupport {
        self.support
    }

    fn is_unstable(&self, feature: &str) -> bool {
        self.semver_unstable_features.has(feature)
    }
}
