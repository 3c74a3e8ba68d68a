//! What items are lowered by.

use bridge_ast::Env;
use bridge_rules::Catalog;
use hir_backends::BackendAttrSupport;
use hir_config::LoweringConfig;
use std::alloc::Global;

/// What items are lowered by, lent for all of them.
#[derive(Clone, Copy)]
pub struct Lowering<'a, V> {
    /// Where memory is taken from.
    pub alloc: Global,
    /// The modules, which fit together.
    pub env: &'a Env,
    /// The backend.
    pub validator: &'a V,
    /// What it supports of what methods and functions ask.
    pub support: &'a BackendAttrSupport,
    /// What is allowed beyond the rules.
    pub config: LoweringConfig,
    /// What is known of items by place.
    pub catalog: &'a Catalog,
}
