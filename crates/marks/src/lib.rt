// Marks on entries: which have been handed on, and which not yet.
#![tactic(auto)]

ghost use Rattle.std.specs.Prelude.{◌≡◌, Bool, false, not, map, count_by};
ghost use Rattle.marks.specs.First.{firstFrom};

// An entry with a mark.
pub trait Marked {
    // Whether it has been handed on.
    ghost handed: { Self → Bool };

    // The same with another mark.
    ghost remarked: { Bool → Self → Self };

    fn is_handed(&self) -> bool
        ensures { result ≡ handed self.now };

    fn mark(&mut self, on: bool)
        ensures { self.new ≡ remarked on self.old };
}

// The index of the first entry that is not handed on, if there is one.
pub fn first_unhanded<T: Marked>(xs: &[T]) -> Option<usize>
    ensures { result ≡ firstFrom T.handed 0 xs.now }
{
    // a rule of the project: loops over the entries with their index find the first unhanded one,
    // and later entries of a name
    for (i, x) in xs.iter().enumerate() {
        if !x.is_handed() {
            return Some(i);
        }
    }
    None
}

// How many entries are not handed on.
pub fn unhanded<T: Marked>(xs: &[T]) -> usize
    ensures { result ≡ count_by (λ x. not (T.handed x)) xs.now }
{
    // a loop, since `count` of a `filter` took twice the time
    let mut n = 0;
    for x in xs {
        if !x.is_handed() {
            n += 1;
        }
    }
    n
}

// Takes every mark away.
pub fn unhand_all<T: Marked>(xs: &mut [T])
    ensures { xs.new ≡ map (T.remarked false) xs.old }
{
    for x in xs {
        x.mark(false);
    }
}
