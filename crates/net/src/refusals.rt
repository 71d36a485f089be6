ghost use Rattle.std.specs.Prelude.{◌≡◌};
ghost use Rattle.net.specs.Numbers.{net_number};

// Why a call on a net is refused, by its number in the kit's table.
#[derive(Clone, Copy, PartialEq, Eq, Debug)]
pub enum NetRefusal {
    // fewer than 1 node or more than 24
    NodesOutOfRange = 4,
    // an end of the line is no node of the net
    NoSuchNode = 7,
    // a line from a node to itself with the identity
    IdentityLoop = 10,
    // a line from a node to itself with a label that is its own inverse
    InvolutionLoop = 11,
    // a line list of another length than at opening
    OtherLength = 12,
    // the line list is full
    ListFull = 20,
    // the tail already has a port to the same head with the same label
    PortTaken = 22,
    // a node would have more than 12 ports
    PortsFull = 23,
    // no line to take back
    NoLine = 24,
}

impl NetRefusal {
    // The number that the refusal has in the kit's table: outside the kit refusals are kept and told by number.
    pub fn number(self) -> u8
        ensures { result ≡ net_number self }
    {
        self as u8
    }
}
