//! What stands in a context, by kinds and by ids.

ghost use Rattle.std.specs.Prelude.{◌≡◌, ◌<◌, ◌↔◌, IsTrue, Some, length, slice_get};
ghost use Rattle.hir_context.specs.Lookups.{IsIn, defined_at, lent_type, module_path_at, name_at};
ghost use Rattle.hir_ids.specs.declared.ids.SymbolId.TheVariants as symbol;

use crate::context::TypeContext;
use bridge_decl::Text;
use hir_definitions::{EnumDef, Method, OpaqueDef, OutStructDef, StructDef, TraitDef, TypeDef};
use hir_ids::{EnumId, FunctionId, OpaqueId, OutStructId, StructId, SymbolId, TraitId, TypeId};
use hir_types::Everywhere;

impl TypeContext {
    /// Structs that only go out.
    pub fn out_structs(&self) -> &[OutStructDef]
        ensures { result.now ≡ self.now.definitions.out_structs.defs }
    {
        self.definitions.out_structs.defs.as_slice()
    }

    /// Structs that come in and go out.
    pub fn structs(&self) -> &[StructDef<Everywhere>]
        ensures { result.now ≡ self.now.definitions.structs.defs }
    {
        self.definitions.structs.defs.as_slice()
    }

    /// Opaques.
    pub fn opaques(&self) -> &[OpaqueDef]
        ensures { result.now ≡ self.now.definitions.opaques.defs }
    {
        self.definitions.opaques.defs.as_slice()
    }

    /// Enums.
    pub fn enums(&self) -> &[EnumDef]
        ensures { result.now ≡ self.now.definitions.enums.defs }
    {
        self.definitions.enums.defs.as_slice()
    }

    /// Traits.
    pub fn traits(&self) -> &[TraitDef]
        ensures { result.now ≡ self.now.definitions.traits.defs }
    {
        self.definitions.traits.defs.as_slice()
    }

    /// Functions that belong to no type.
    pub fn functions(&self) -> &[Method]
        ensures { result.now ≡ self.now.definitions.functions.defs }
    {
        self.definitions.functions.defs.as_slice()
    }

    /// Whether there is a definition of this id.
    pub fn contains_symbol(&self, id: SymbolId) -> bool
        ensures { IsTrue result ↔ IsIn self.now.definitions id }
    {
        match &id {
            SymbolId::TypeId(TypeId::OutStruct(id)) => id.index() < self.out_structs().len(),
            SymbolId::TypeId(TypeId::Struct(id)) => id.index() < self.structs().len(),
            SymbolId::TypeId(TypeId::Opaque(id)) => id.index() < self.opaques().len(),
            SymbolId::TypeId(TypeId::Enum(id)) => id.index() < self.enums().len(),
            SymbolId::TraitId(id) => id.index() < self.traits().len(),
            SymbolId::FunctionId(id) => id.index() < self.functions().len(),
        }
    }

    /// The struct of this id, which is there.
    pub fn resolve_out_struct(&self, id: OutStructId) -> &OutStructDef
        requires { id < length self.now.definitions.out_structs.defs }
        ensures { slice_get self.now.definitions.out_structs.defs id ≡ Some result.now }
    {
        &self.out_structs()[id.index()]
    }

    /// The struct of this id, which is there.
    pub fn resolve_struct(&self, id: StructId) -> &StructDef<Everywhere>
        requires { id < length self.now.definitions.structs.defs }
        ensures { slice_get self.now.definitions.structs.defs id ≡ Some result.now }
    {
        &self.structs()[id.index()]
    }

    /// The opaque of this id, which is there.
    pub fn resolve_opaque(&self, id: OpaqueId) -> &OpaqueDef
        requires { id < length self.now.definitions.opaques.defs }
        ensures { slice_get self.now.definitions.opaques.defs id ≡ Some result.now }
    {
        &self.opaques()[id.index()]
    }

    /// The enum of this id, which is there.
    pub fn resolve_enum(&self, id: EnumId) -> &EnumDef
        requires { id < length self.now.definitions.enums.defs }
        ensures { slice_get self.now.definitions.enums.defs id ≡ Some result.now }
    {
        &self.enums()[id.index()]
    }

    /// The trait of this id, which is there.
    pub fn resolve_trait(&self, id: TraitId) -> &TraitDef
        requires { id < length self.now.definitions.traits.defs }
        ensures { slice_get self.now.definitions.traits.defs id ≡ Some result.now }
    {
        &self.traits()[id.index()]
    }

    /// The function of this id, which is there.
    pub fn resolve_function(&self, id: FunctionId) -> &Method
        requires { id < length self.now.definitions.functions.defs }
        ensures { slice_get self.now.definitions.functions.defs id ≡ Some result.now }
    {
        &self.functions()[id.index()]
    }

    /// The type of this id, which is there.
    pub fn resolve_type(&self, id: TypeId) -> TypeDef<'_>
        requires { IsIn self.now.definitions (symbol.TypeId id) }
        ensures { defined_at self.now.definitions id ≡ Some (lent_type result) }
    {
        match &id {
            TypeId::OutStruct(id) => TypeDef::OutStruct(self.resolve_out_struct(*id)),
            TypeId::Struct(id) => TypeDef::Struct(self.resolve_struct(*id)),
            TypeId::Opaque(id) => TypeDef::Opaque(self.resolve_opaque(*id)),
            TypeId::Enum(id) => TypeDef::Enum(self.resolve_enum(*id)),
        }
    }

    /// The path of the module of the definition of this id, which is there.
    pub fn module_path(&self, id: SymbolId) -> &[Text]
        requires { IsIn self.now.definitions id }
        ensures { module_path_at self.now.definitions id ≡ Some result.now }
    {
        let all = &self.definitions;
        match &id {
            SymbolId::TypeId(TypeId::OutStruct(id)) => all.out_structs.module(id.index()),
            SymbolId::TypeId(TypeId::Struct(id)) => all.structs.module(id.index()),
            SymbolId::TypeId(TypeId::Opaque(id)) => all.opaques.module(id.index()),
            SymbolId::TypeId(TypeId::Enum(id)) => all.enums.module(id.index()),
            SymbolId::TraitId(id) => all.traits.module(id.index()),
            SymbolId::FunctionId(id) => all.functions.module(id.index()),
        }
    }

    /// The name of the type of this id, which is there, for messages.
    pub fn fmt_type_name_diagnostics(&self, id: TypeId) -> &str
        requires { IsIn self.now.definitions (symbol.TypeId id) }
        ensures { name_at self.now.definitions (symbol.TypeId id) ≡ Some result.now }
    {
        match &id {
            TypeId::OutStruct(id) => self.resolve_out_struct(*id).name.as_str(),
            TypeId::Struct(id) => self.resolve_struct(*id).name.as_str(),
            TypeId::Opaque(id) => self.resolve_opaque(*id).name.as_str(),
            TypeId::Enum(id) => self.resolve_enum(*id).name.as_str(),
        }
    }

    /// The name of the definition of this id, which is there, for messages.
    pub fn fmt_symbol_name_diagnostics(&self, id: SymbolId) -> &str
        requires { IsIn self.now.definitions id }
        ensures { name_at self.now.definitions id ≡ Some result.now }
    {
        match &id {
            SymbolId::TypeId(id) => self.fmt_type_name_diagnostics(*id),
            SymbolId::TraitId(id) => self.resolve_trait(*id).name.as_str(),
            SymbolId::FunctionId(id) => self.resolve_function(*id).name.as_str(),
        }
    }
}
