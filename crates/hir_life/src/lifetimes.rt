//! The lifetimes that a path or a type names, in their order.

ghost use Rattle.std.specs.Prelude.{◌≡◌, ℕ, ◌<◌, [], ◌∷◌, ◌++◌, length, IfOk, OnOk, OnErr};

use crate::lifetime_index::Lifetime;
use crate::maybe_static::MaybeStatic;
use bridge_decl::NoMemory;
use smallvec::SmallVec;
use std::alloc::Global;
use std::marker::Model;

/// The lifetimes that a type's name, a definition or a signature has, in their order.
///
/// Contracts see the list. Up to two of them take no memory.
pub struct Lifetimes {
    indices: SmallVec<MaybeStatic<Lifetime>, 2>,
}

/// By hand, so that where one is let go the proof has one call.
impl Drop for Lifetimes {
    fn drop(self) {
        let Lifetimes { indices: _ } = self;
    }
}

impl Model for Lifetimes {
    ghost use Rattle.std.specs.Prelude.{List, ℕ};
    ghost use Rattle.hir_life.specs.declared.maybe_static.MaybeStatic.{MaybeStatic};

    ghost Value = { List (MaybeStatic ℕ) };

    ghost view = { λ it. it.indices.items };
}

impl Lifetimes {
    ghost use Rattle.hir_life.specs.Substitution.{AreBelow, subst_each};

    /// No lifetimes.
    pub fn new(alloc: Global) -> Lifetimes
        ensures { result ≡ [] }
    {
        Lifetimes {
            indices: SmallVec::new(alloc),
        }
    }

    /// A copy of these lifetimes.
    pub fn from_slice(
        alloc: Global,
        lifetimes: &[MaybeStatic<Lifetime>],
    ) -> Result<Lifetimes, NoMemory>
        ensures { IfOk result (λ list. list ≡ lifetimes.now) }
    {
        Ok(Lifetimes {
            indices: SmallVec::from_slice(alloc, lifetimes)?,
        })
    }

    /// These lifetimes, moved. Who makes room in such a list first can add to it where no memory may be taken.
    pub fn from_list(indices: SmallVec<MaybeStatic<Lifetime>, 2>) -> Lifetimes
        ensures { result ≡ indices.items }
    {
        Lifetimes { indices }
    }

    /// An equal list.
    pub fn try_clone(&self, alloc: Global) -> Result<Lifetimes, NoMemory>
        ensures { IfOk result (λ list. list ≡ self.now) }
    {
        Lifetimes::from_slice(alloc, self.as_slice())
    }

    /// Adds a lifetime at the end. Without memory for it the list stays as it was.
    pub fn push(&mut self, lifetime: MaybeStatic<Lifetime>) -> Result<(), NoMemory>
        ensures ok { OnOk result (self.new ≡ self.old ++ lifetime ∷ []) }
        ensures err { OnErr result (self.new ≡ self.old) }
    {
        self.indices.push(lifetime)?;
        Ok(())
    }

    /// The lifetimes, lent.
    pub fn as_slice(&self) -> &[MaybeStatic<Lifetime>]
        ensures { result.now ≡ self.now }
    {
        self.indices.as_slice()
    }

    /// How many lifetimes there are.
    pub fn len(&self) -> usize
        ensures { result ≡ length self.now }
    {
        self.indices.len()
    }

    /// The lifetimes, one after another.
    pub fn lifetimes(&self) -> LifetimesIter<'_>
        ensures { result ≡ self.now }
    {
        LifetimesIter {
            rest: self.as_slice(),
        }
    }

    /// These lifetimes, which are those of a definition, as lifetimes of the method in which the definition has the
    /// arguments `method_lifetimes`.
    ///
    /// For `struct Foo<'a, 'b> { bar: Bar<'b> }` and `fn f<'x>(foo: Foo<'static, 'x>)` the lifetimes of `foo.bar` are that of
    /// `Bar<'b>`, and under the arguments `'static` and `'x` these are `'x`.
    pub fn as_method_lifetimes(
        &self,
        alloc: Global,
        method_lifetimes: &Lifetimes,
    ) -> Result<Lifetimes, NoMemory>
        requires { AreBelow (length method_lifetimes.now) self.now }
        ensures { IfOk result (λ list. list ≡ subst_each self.now method_lifetimes.now) }
    {
        let mut lifetimes = Lifetimes::new(alloc);
        for lifetime in self.as_slice() {
            lifetimes.push(lifetime.in_method(method_lifetimes))?;
        }
        Ok(lifetimes)
    }
}

impl MaybeStatic<Lifetime> {
    ghost use Rattle.hir_life.specs.Substitution.{IsBelow, subst};

    /// The lifetime in the method: `'static` stays.
    fn in_method(&self, method_lifetimes: &Lifetimes) -> MaybeStatic<Lifetime>
        requires { IsBelow (length method_lifetimes.now) self.now }
        ensures { result ≡ subst self.now method_lifetimes.now }
    {
        match self {
            MaybeStatic::Static => MaybeStatic::Static,
            MaybeStatic::NonStatic(lifetime) => lifetime.as_method_lifetime(method_lifetimes),
        }
    }
}

impl Lifetime {
    ghost use Rattle.hir_life.specs.Substitution.{subst};
    ghost use Rattle.hir_life.specs.declared.maybe_static.MaybeStatic.TheVariants.{NonStatic};

    /// This lifetime, which is one of a definition, as a lifetime of the method in which the definition has the arguments
    /// `method_lifetimes`: the argument at its place.
    ///
    /// For `struct Foo<'a, 'b>` and `fn f<'x>(foo: Foo<'static, 'x>)` the lifetime `'a` is `'static` in the method, and `'b`
    /// is `'x`.
    pub fn as_method_lifetime(self, method_lifetimes: &Lifetimes) -> MaybeStatic<Lifetime>
        requires { self < length method_lifetimes.now }
        ensures { result ≡ subst (NonStatic self) method_lifetimes.now }
    {
        method_lifetimes.as_slice()[self.index()]
    }
}

/// The lifetimes of a list, one after another.
#[derive(Drop)]
pub struct LifetimesIter<'a> {
    rest: &'a [MaybeStatic<Lifetime>],
}

impl<'a> Model for LifetimesIter<'a> {
    ghost use Rattle.std.specs.Prelude.{List, ℕ};
    ghost use Rattle.hir_life.specs.declared.maybe_static.MaybeStatic.{MaybeStatic};

    ghost Value = { List (MaybeStatic ℕ) };

    ghost view = { λ it. it.rest.now };
}

impl Iterator for LifetimesIter<'_> {
    type Item = MaybeStatic<Lifetime>;

    ghost use Rattle.std.specs.Iterator.{YieldsFirst, item_count};

    ghost next_gives = { YieldsFirst (λ rest. rest) };

    ghost remaining = { item_count (λ rest. rest) };

    fn next(&mut self) -> Option<MaybeStatic<Lifetime>> {
        let (first, rest) = self.rest.split_first()?;
        self.rest = rest;
        Some(*first)
    }
}
