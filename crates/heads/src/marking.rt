// The mark of a head. An item of a log has its own two lines: a wrapper with a mark round both would be no plainer.
ghost use Rattle.heads.specs.Heads.{remark};

use crate::head::Head;
use marks::Marked;

impl Marked for Head {
    ghost handed = { λ h. h.handed };

    ghost remarked = { remark };

    fn is_handed(&self) -> bool {
        self.handed
    }

    fn mark(&mut self, on: bool) {
        self.handed = on;
    }
}
