//! What each position has.

use crate::tests::{callback, trait_path};
use hir_ids::{InputOrOutput, TraitId};
use hir_types::{
    Callback, CallbackInstantiationFunctionality, CallbackReturn, Everywhere, InputOnly,
    NoCallback, OutputOnly, PositionTypes, TraitIdGetter, TyPosition,
};
use std::alloc::Global;

/// Whether the position takes a callback.
fn takes_callbacks<P: PositionTypes>(alloc: Global) -> bool {
    P::build_callback(callback(alloc)).is_some()
}

/// Whether it takes a path to a trait.
fn takes_traits<P: PositionTypes>(alloc: Global) -> bool {
    P::build_trait_path(trait_path(alloc)).is_some()
}

/// Both, and the status of the position.
fn takes<P: PositionTypes>(alloc: Global) -> (bool, bool, InputOrOutput) {
    (
        takes_callbacks::<P>(alloc),
        takes_traits::<P>(alloc),
        P::IN_OUT_STATUS,
    )
}

#[test]
fn callbacks_and_traits_come_in(rt: HostRuntime) {
    let alloc = rt.alloc();
    let everywhere = takes::<Everywhere>(alloc);
    assert!(rt; everywhere == (false, false, InputOrOutput::InputOutput));
    let outputs = takes::<OutputOnly>(alloc);
    assert!(rt; outputs == (false, false, InputOrOutput::Output));
    let inputs = takes::<InputOnly>(alloc);
    assert!(rt; inputs == (true, true, InputOrOutput::Input));
    let returns = takes::<CallbackReturn>(alloc);
    assert!(rt; returns == (false, true, InputOrOutput::Input));
}

#[test]
fn a_trait_is_built_as_it_was(rt: HostRuntime) {
    let built = CallbackReturn::build_trait_path(trait_path(rt.alloc()));
    let id = built.as_ref().map(|path| path.id());
    assert!(rt; id == Some(TraitId::new(5)));
}

/// How much a callback takes, where there is one, and whether it says what it returns.
fn asked<C: CallbackInstantiationFunctionality>(callback: Option<&C>) -> (Option<usize>, bool) {
    let inputs = C::get_inputs(callback).map(|params| params.len());
    (inputs, C::get_output_type(callback).is_some())
}

/// Whether the position lends the callback that stands there.
fn lends<P: PositionTypes>(callback: Option<&P::CallbackInstantiation>) -> bool {
    P::callback(callback).is_some()
}

/// Whether the callback takes nothing, says what it returns, and is lent where it stands.
fn says_all(callback: &Callback) -> bool {
    asked(Some(callback)) == (Some(0), true) && lends::<InputOnly>(Some(callback))
}

#[test]
fn callbacks_say_what_they_take_and_return(rt: HostRuntime) {
    assert!(rt; asked::<Callback>(None) == (None, false));
    assert!(rt; asked::<NoCallback>(None) == (None, false));
    let callback = callback(rt.alloc());
    let says_all = says_all(&callback);
    drop(callback);
    assert!(rt; says_all);
}

#[test]
fn nothing_is_lent_where_no_callback_stands(rt: HostRuntime) {
    assert!(rt; !lends::<InputOnly>(None));
    assert!(rt; !lends::<Everywhere>(None));
    assert!(rt; !lends::<OutputOnly>(None));
    assert!(rt; !lends::<CallbackReturn>(None));
}
