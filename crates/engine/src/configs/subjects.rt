// One subject at work.
ghost use Rattle.std.specs.Prelude.{◌≡◌};
ghost use Rattle.engine.specs.configs.Subjects.{entered};

use crate::Subject;
use crate::pools::searches;

impl Subject {
    // The subject comes to a state; at an end it is over: improperly if a message is left in its pool. An empty pool is not searched,
    // and a copy is, since a pool that is lent makes the compiler copy the subject by calls. The count is read by itself, and not of the copy.
    pub(crate) fn enter(mut self, state: u8, end: bool) -> Self
        ensures { result ≡ entered state end self }
    {
        self.state = state;
        self.waited = 0;
        self.mask = 0;
        if end {
            self.mode = 2;
            let pool = self.pool;
            if self.pool.count != 0 && searches::has_message(&pool) {
                self.mode = 3;
            }
        }
        self
    }
}
