ghost use Rattle.std.specs.Prelude.{◌≡◌};

use crate::drafts::Draft;

impl Draft {
    // How many nodes the net has.
    pub fn nodes(&self) -> u32
        ensures { result ≡ self.now.nodes }
    {
        self.nodes
    }

    // How many lines the net has: they are the first of its list.
    pub fn lines(&self) -> usize
        ensures { result ≡ self.now.lines }
    {
        self.lines
    }

    // How many records the list has that the net was opened with.
    pub fn room(&self) -> usize
        ensures { result ≡ self.now.room }
    {
        self.room
    }
}
