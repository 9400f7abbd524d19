// The kinds of requests of a class.
ghost use Rattle.std.specs.Prelude.{◌≡◌, ℕ, Bool, Option};
ghost use Rattle.model.specs.Kinds.{Decodes};

// A number that names no kind of request.
#[derive(Clone, Copy, PartialEq, Eq, Debug)]
pub struct UnknownKind {
    pub kind: u8,
}

// A kind of request. A client may pass any number of 8 bits; a class turns it into its own kind once.
pub trait Operation: Copy + TryFrom<u8, Error = UnknownKind> {
    // The kind that a number stands for.
    ghost of: { ℕ → Option Self };

    // The payload lengths that it takes.
    ghost takes: { Self → ℕ → Bool };

    // Whether performing it twice is as performing it once.
    ghost declared: { Self → Bool };

    fn takes(self, size: usize) -> bool
        ensures { result ≡ takes self size };

    fn is_declared(self) -> bool
        ensures { result ≡ declared self };

    ghost decodes: { Decodes of Self.try_from_gives };
}
