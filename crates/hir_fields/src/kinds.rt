//! What differs between the fields of structs and those of out-structs.

ghost use Rattle.std.specs.Prelude.{◌≡◌, Option, IfOk, OnOk};
ghost use Rattle.bridge_order.specs.declared.catalog.Catalog.{Catalog};
ghost use Rattle.hir_fields.specs.Safety.{safety_errors};
ghost use Rattle.hir_fields.specs.Told.{StandsUnlessTold};
ghost use Rattle.hir_fields.specs.Types.{TypeErrors};
ghost use Rattle.hir_fields.specs.Fields.{out_type_errors, struct_type_errors};
ghost use Rattle.hir_fields.specs.inside.Kinds.{with_type};
ghost use Rattle.hir_fields.specs.inside.Pairs.{HaveOneLength, zipped_where_given};
ghost use Rattle.hir_form.specs.ParamForms.{field_form, out_type_form};
ghost use Rattle.hir_number.specs.declared.numbered.NumberedType.{NumberedType};
ghost use Rattle.hir_backends.specs.declared.support.BackendAttrSupport.{BackendAttrSupport};
ghost use Rattle.hir_reports.specs.Store.{Held, Keeps, added};

use crate::heads::Head;
use crate::joining::{Joins, join_given};
use bridge_decl::{Items, NoMemory, Text};
use bridge_grid::tell_field;
use bridge_rules::Catalog;
use hir_backends::BackendAttrSupport;
use hir_definitions::{OutStructField, StructField};
use hir_form::{judge_field, judge_out_field};
use hir_heads::Notes;
use hir_number::NumberedType;
use hir_reports::ErrorStore;
use hir_types::{Everywhere, HirType, OutType, TyPosition};
use std::alloc::Global;

/// What differs between the fields of structs and those of out-structs.
pub trait FieldKind {
    ghost use Rattle.hir_fields.specs.declared.heads.Head.{Head};

    /// The types of the fields.
    type Type: Drop;
    /// The fields.
    type Field: Drop;

    /// What is told of the type of a field with that name.
    ghost type_errors: { BackendAttrSupport → Catalog → TypeErrors };

    /// What it stands for.
    ghost type_form: { Catalog → NumberedType → Option Self.Type };

    /// A field of that type.
    ghost field: { Head → Self.Type → Self.Field };

    /// The type of a field. All that is wrong with it is told.
    fn judge(
        alloc: Global,
        support: &BackendAttrSupport,
        catalog: &Catalog,
        name: &Text,
        ty: &NumberedType,
        errors: &mut ErrorStore<'_>,
    ) -> Result<Option<Self::Type>, NoMemory>
        ensures told { OnOk result (errors.new ≡ added errors.old
            (type_errors support.now catalog.now name.now ty.now)) }
        ensures given { IfOk result (StandsUnlessTold
            (type_errors support.now catalog.now name.now ty.now)
            (type_form catalog.now ty.now)) }
        ensures kept { (earlier : Held) → Keeps earlier errors.old
            → Keeps earlier errors.new };

    /// The fields of these types, where both are made.
    fn join(
        alloc: Global,
        heads: Option<Items<Head>>,
        types: Option<Items<Self::Type>>,
    ) -> Result<Option<Items<Self::Field>>, NoMemory>
        requires { HaveOneLength heads types }
        ensures { IfOk result (λ fields. fields ≡ zipped_where_given field heads types) };
}

/// A field of that type.
fn with_type<P: TyPosition>(head: Head, ty: HirType<P>) -> StructField<P>
    ensures { result ≡ with_type head ty }
{
    let Head { name, notes } = head;
    let Notes { docs, attrs } = notes;
    StructField {
        docs,
        name,
        ty,
        attrs,
    }
}

/// Tells that the field of that name may not have the type, where it may not.
#[tactic(auto, using(crate::proofs::SafetyLemmas::safety_told))]
fn tell_layout(
    alloc: Global,
    name: &Text,
    ty: &NumberedType,
    errors: &mut ErrorStore<'_>,
) -> Result<(), NoMemory>
    ensures told { OnOk result
        (errors.new ≡ added errors.old (safety_errors name.now ty.now)) }
    ensures kept { (earlier : Held) → Keeps earlier errors.old → Keeps earlier errors.new }
{
    tell_field(alloc, errors, name.as_str(), ty)
}

/// The fields of structs, which come in and go out.
pub enum OfStruct {}

/// The fields of structs that are only returned.
pub enum OfOutStruct {}

impl Joins for OfStruct {
    type First = Head;

    type Second = HirType<Everywhere>;

    type Both = StructField<Everywhere>;

    ghost both = { with_type };

    fn join(head: Head, ty: HirType<Everywhere>) -> StructField<Everywhere> {
        with_type(head, ty)
    }
}

impl Joins for OfOutStruct {
    type First = Head;

    type Second = OutType;

    type Both = OutStructField;

    ghost both = { with_type };

    fn join(head: Head, ty: OutType) -> OutStructField {
        with_type(head, ty)
    }
}

impl FieldKind for OfStruct {
    type Type = HirType<Everywhere>;

    type Field = StructField<Everywhere>;

    ghost type_errors = { struct_type_errors };

    ghost type_form = { field_form };

    ghost field = { with_type };

    #[tactic(auto, using(crate::proofs::JudgeLemmas::judging))]
    fn judge(
        alloc: Global,
        support: &BackendAttrSupport,
        catalog: &Catalog,
        name: &Text,
        ty: &NumberedType,
        errors: &mut ErrorStore<'_>,
    ) -> Result<Option<HirType<Everywhere>>, NoMemory> {
        tell_layout(alloc, name, ty, errors)?;
        judge_field(alloc, errors, support, catalog, ty)
    }

    fn join(
        alloc: Global,
        heads: Option<Items<Head>>,
        types: Option<Items<HirType<Everywhere>>>,
    ) -> Result<Option<Items<StructField<Everywhere>>>, NoMemory>
        requires { HaveOneLength heads types }
        ensures { IfOk result (λ fields. fields ≡ zipped_where_given with_type heads types) }
    {
        join_given::<OfStruct>(alloc, heads, types)
    }
}

impl FieldKind for OfOutStruct {
    type Type = OutType;

    type Field = OutStructField;

    ghost type_errors = { out_type_errors };

    ghost type_form = { out_type_form };

    ghost field = { with_type };

    #[tactic(auto, using(crate::proofs::JudgeLemmas::judging))]
    fn judge(
        alloc: Global,
        support: &BackendAttrSupport,
        catalog: &Catalog,
        _name: &Text,
        ty: &NumberedType,
        errors: &mut ErrorStore<'_>,
    ) -> Result<Option<OutType>, NoMemory> {
        judge_out_field(alloc, errors, support, catalog, ty)
    }

    fn join(
        alloc: Global,
        heads: Option<Items<Head>>,
        types: Option<Items<OutType>>,
    ) -> Result<Option<Items<OutStructField>>, NoMemory>
        requires { HaveOneLength heads types }
        ensures { IfOk result (λ fields. fields ≡ zipped_where_given with_type heads types) }
    {
        join_given::<OfOutStruct>(alloc, heads, types)
    }
}
