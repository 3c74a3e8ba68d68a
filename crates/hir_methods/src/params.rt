//! Parameters and receivers without their types.

ghost use Rattle.std.specs.Prelude.{◌≡◌, IfOk, OnOk};
ghost use Rattle.hir_heads.specs.Told.{MadeUnlessTold};
ghost use Rattle.hir_methods.specs.Untyped.{each_untyped_errors, receiver_mark_errors, receiver_marks, untyped_errors, untyped_form, untyped_forms};
ghost use Rattle.hir_methods.specs.inside.Headings.{named};
ghost use Rattle.hir_reports.specs.Store.{Held, Keeps, added};

use crate::choosing::keep;
use crate::reading::read_own_marks;
use bridge_decl::{IdentBuf, Items, NoMemory, Param, SelfParam};
use hir_attrs::Attrs;
use hir_backends::AttributeValidator;
use hir_heads::lower_ident;
use hir_mark_contexts::MarkContext;
use hir_reports::ErrorStore;
use std::alloc::Global;

/// A parameter without its type.
#[derive(Drop)]
pub struct UntypedParam {
    /// Its name.
    pub name: IdentBuf,
    /// Its marks.
    pub attrs: Attrs,
}

/// A parameter with these marks, where it has a name.
fn named(name: Option<IdentBuf>, attrs: Attrs) -> Option<UntypedParam>
    ensures { result ≡ named name attrs }
{
    match name {
        Some(name) => Some(UntypedParam { name, attrs }),
        None => None,
    }
}

/// A parameter. None only where its name is no identifier.
pub(crate) fn lower_untyped<V: AttributeValidator>(
    alloc: Global,
    param: &Param,
    validator: &V,
    errors: &mut ErrorStore<'_>,
) -> Result<Option<UntypedParam>, NoMemory>
    ensures told { OnOk result
        (errors.new ≡ added errors.old (untyped_errors (V.meaning validator.now) param.now)) }
    ensures made { IfOk result (MadeUnlessTold
        (untyped_errors (V.meaning validator.now) param.now)
        (untyped_form (V.meaning validator.now) param.now)) }
    ensures kept { (earlier : Held) → Keeps earlier errors.old → Keeps earlier errors.new }
{
    let context = MarkContext::Param;
    let name = lower_ident(alloc, &param.name, errors)?;
    let attrs = read_own_marks(alloc, &param.attrs, context, validator, errors)?;
    Ok(named(name, attrs))
}

/// All parameters of a list. None only where something is told of them.
pub(crate) fn lower_each_untyped<V: AttributeValidator>(
    alloc: Global,
    params: &[Param],
    validator: &V,
    errors: &mut ErrorStore<'_>,
) -> Result<Option<Items<UntypedParam>>, NoMemory>
    ensures told { OnOk result (errors.new
        ≡ added errors.old (each_untyped_errors (V.meaning validator.now) params.now)) }
    ensures made { IfOk result (MadeUnlessTold
        (each_untyped_errors (V.meaning validator.now) params.now)
        (untyped_forms (V.meaning validator.now) params.now)) }
    ensures kept { (earlier : Held) → Keeps earlier errors.old → Keeps earlier errors.new }
{
    let mut lowered = Some(Items::new(alloc));
    for param in params {
        let one = lower_untyped(alloc, param, validator, errors)?;
        keep(&mut lowered, one)?;
    }
    Ok(lowered)
}

/// The marks of a receiver, where there is one.
pub(crate) fn read_receiver<V: AttributeValidator>(
    alloc: Global,
    receiver: &Option<SelfParam>,
    validator: &V,
    errors: &mut ErrorStore<'_>,
) -> Result<Option<Attrs>, NoMemory>
    ensures told { OnOk result (errors.new
        ≡ added errors.old (receiver_mark_errors (V.meaning validator.now) receiver.now)) }
    ensures made { IfOk result
        (λ marks. marks ≡ receiver_marks (V.meaning validator.now) receiver.now) }
    ensures kept { (earlier : Held) → Keeps earlier errors.old → Keeps earlier errors.new }
{
    match receiver {
        Some(receiver) => {
            let context = MarkContext::SelfParam;
            let attrs = read_own_marks(alloc, &receiver.attrs, context, validator, errors)?;
            Ok(Some(attrs))
        }
        None => Ok(None),
    }
}
