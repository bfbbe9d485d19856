//! Looks at the entries of a map, one by one.

/// A look at the entries of a map whose values are `T`, for something of the type `A`.
pub trait Look<T, A> {
    ghost use Rattle.std.specs.Prelude.{ℕ, IfSome, IfNone};

    /// What a look may find at the value of an address.
    ghost finds: { Self → ℕ → T → A → Type 0 };

    /// Looks at the value at the address `k`; `None` if there is nothing to find.
    fn look_at(&self, k: u64, value: &T) -> Option<A>
        ensures some { IfSome result (finds self.now k value.now) }
        ensures none { IfNone result ((found : A) → ¬ finds self.now k value.now found) };
}

/// A reading of the entries of a map whose values are `T`, each as an item of the type `A`.
pub trait Reading<T, A> {
    ghost use Rattle.std.specs.Prelude.{◌≡◌, ℕ};

    /// The item that an address and its value are read as.
    ghost item: { Self → ℕ → T → A };

    /// Reads the value at the address `k`.
    fn read(&self, k: u64, value: &T) -> A
        ensures { result ≡ item self.now k value.now };
}
