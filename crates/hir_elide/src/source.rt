//! What a lifetime stands for that a return leaves out.

ghost use Rattle.std.specs.Prelude.{◌≡◌, IsErrOf};

use crate::fault::ElideFault;
use hir_life::{Lifetime, MaybeStatic};

/// What is known of the source of elision, as far as a signature was gone through.
#[derive(Clone, Copy)]
pub enum ElisionSource {
    /// There is no borrowed receiver, and no parameter with a lifetime.
    NoBorrows,
    /// The receiver's borrow.
    SelfParam(MaybeStatic<Lifetime>),
    /// The only lifetime of the parameters.
    OneParam(MaybeStatic<Lifetime>),
    /// There is no borrowed receiver, and the parameters have several lifetimes.
    MultipleBorrows,
}

impl ElisionSource {
    ghost use Rattle.hir_elide.specs.inside.Sources.{elided_from, with_counting};

    /// The source where the receiver has that borrow.
    pub fn of_receiver(borrow: &MaybeStatic<Lifetime>) -> ElisionSource
        ensures { result ≡ ElisionSource.SelfParam borrow.now }
    {
        ElisionSource::SelfParam(*borrow)
    }

    /// The source with one more lifetime in the parameters.
    pub fn with(&self, lifetime: &MaybeStatic<Lifetime>) -> ElisionSource
        ensures { result ≡ with_counting self.now lifetime.now }
    {
        match self {
            ElisionSource::NoBorrows => ElisionSource::OneParam(*lifetime),
            ElisionSource::SelfParam(borrow) => ElisionSource::SelfParam(*borrow),
            ElisionSource::OneParam(_) => ElisionSource::MultipleBorrows,
            ElisionSource::MultipleBorrows => ElisionSource::MultipleBorrows,
        }
    }

    /// The lifetime that one stands for which is left out.
    pub fn elided(&self) -> Result<MaybeStatic<Lifetime>, ElideFault>
        ensures told { result ≡ elided_from self.now }
        ensures memory { ¬ (IsErrOf result ElideFault.NoMemory) }
    {
        match self {
            ElisionSource::SelfParam(lifetime) | ElisionSource::OneParam(lifetime) => Ok(*lifetime),
            ElisionSource::NoBorrows => Err(ElideFault::ElisionNoSource),
            ElisionSource::MultipleBorrows => Err(ElideFault::ElisionAmbiguous),
        }
    }
}
