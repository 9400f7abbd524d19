// A kind of entries.
ghost use Rattle.std.specs.Prelude.{◌≡◌};
ghost use Rattle.compaction.specs.Kinds.{Kind, Lawful};

pub trait EntryKind {
    // Which names are the same, and what content each has by default.
    ghost kind: { Kind };

    // Whether two names are the same. It is written in each kind: a trait of its own for the kinds
    // whose names are numbers would be longer than the one line that they share.
    fn is_same(a: u64, b: u64) -> bool
        ensures { result ≡ kind.same a b };

    // The content of a name that no entry has given another.
    fn default_content(name: u64) -> u64
        ensures { result ≡ kind.default name };

    // Being the same is an equivalence, and names that are the same have one default.
    ghost lawful: { Lawful kind };
}
