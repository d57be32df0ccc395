// `value` has a file of its own: its clause names the row of `Held`, which the file that declares it cannot import.
ghost use Rattle.std.specs.Prelude.{◌≡◌};
ghost use Rattle.std.specs.Borrow.{Lends, sem};
ghost use Rattle.history_gate.specs.Passes.{with_value};
ghost use Rattle.history_gate.specs.contracts.pass.Held.{the_row};

use crate::pass::Held;
use crate::stands::Stands;

impl<V: Stands> Held<V> {
    /// Lends the value for writing. It takes no memory.
    pub fn value(&mut self) -> &mut V
        ensures* writes_back { sem 𝓛 (Lends (the_row V.row V.Entry.row V.Stands) V.row self.entry result (with_value self.old)) }
        ensures value { result.now ≡ self.old.value }
    {
        &mut self.value
    }
}
