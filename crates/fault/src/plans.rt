// Which call fails, and how.
ghost use Rattle.std.specs.Prelude.{◌≡◌, Err};
ghost use Rattle.std.specs.Fn.{FnOnceReturnsAtMut};
ghost use Rattle.model.specs.declared.refusal.Refusal.TheVariants.{Failed};
ghost use Rattle.fault.specs.Plans.{way_of, turn, counted, Fails};

use crate::parts::{Failure, Plan, Way};
use model::{Fault, Refusal};

// The number of this layer in a pair.
pub(crate) const LAYER: u32 = 2;

impl From<u32> for Way {
    ghost from_gives = { λ number way. way ≡ way_of number };

    fn from(number: u32) -> Way {
        if number == 0 {
            Way::Unmade
        } else {
            Way::Dropped
        }
    }
}

impl Plan {
    // Gives a call its number, and says whether it is the one that fails.
    pub(crate) fn next(&mut self) -> Option<Failure>
        ensures turn { result ≡ turn self.old }
        ensures after { self.new ≡ counted self.old }
    {
        if self.made == u32::MAX {
            return None;
        }
        self.made += 1;
        if self.made != self.number {
            return None;
        }
        let fault = Fault {
            layer: LAYER,
            place: self.number,
        };
        Some(Failure {
            way: self.way,
            fault,
        })
    }
}

impl Failure {
    // The answer of the call that fails; where the way says so, the call is made and its own answer dropped.
    pub(crate) fn answer<D, T: Copy, F: FnOnce(&mut D) -> Result<T, Refusal>>(
        self,
        below: &mut D,
        call: F,
    ) -> Result<T, Refusal>
        requires { F.IsAlwaysCallable call }
        ensures pair { result ≡ Err (Failed self.fault) }
        ensures below { Fails (FnOnceReturnsAtMut F.FnOnce call) self.way below.old below.new }
    {
        match self.way {
            Way::Unmade => {}
            Way::Dropped => {
                let _ = call(below);
            }
        }
        Err(Refusal::Failed(self.fault))
    }
}
