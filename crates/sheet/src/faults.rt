ghost use Rattle.std.specs.Prelude.{◌≡◌};
ghost use Rattle.sheet.specs.Faults.{at_place, placed_at};
ghost use Rattle.sheet.specs.Numbers.{bytes_number, fault_number, fault_place, fault_layer, layer_number};
ghost use Rattle.sheet.specs.declared.faults.SheetFault.TheVariants.{Bytes, Label, Line};

use label::LabelFault;
use net::NetRefusal;

// What is wrong with the bytes of a sheet, by its number in the kit's table.
#[derive(Clone, Copy, PartialEq, Eq, Debug)]
pub enum BytesFault {
    // the sheet ends inside a number or before one
    Ends = 1,
    // a number's third byte has its top bit set, or its last byte of several is 00
    Malformed = 2,
    // another kind than named
    OtherKind = 3,
    // nodes or lines outside their range
    HeadingOutOfRange = 4,
    // bytes left over
    LeftOver = 6,
}

impl BytesFault {
    // The number that the fault has in the kit's table: outside the kit faults are kept and told by number.
    pub fn number(self) -> u8
        ensures { result ≡ bytes_number self }
    {
        self as u8
    }

    // The fault with the place where it was found.
    pub(crate) fn found_at(self, place: usize) -> Placed<BytesFault>
        ensures { result ≡ at_place self place }
    {
        Placed { fault: self, place }
    }
}

// A fault with its byte place in the sheet.
#[derive(Clone, Copy, Debug)]
pub struct Placed<F> {
    pub fault: F,
    pub place: usize,
}

// The same answer, its fault with its place.
pub(crate) fn at_place<T, F>(answer: Result<T, F>, place: usize) -> Result<T, Placed<F>>
    ensures { result ≡ placed_at answer place }
{
    answer.map_err(|fault| Placed { fault, place })
}

// A layer of the kit, by its number.
#[derive(Clone, Copy, PartialEq, Eq, Debug)]
pub enum Layer {
    // the bytes
    Bytes = 1,
    // a label
    Label = 2,
    // the rules of drawing
    Line = 3,
}

impl Layer {
    // The number by which a printed fault names the layer.
    pub fn number(self) -> u8
        ensures { result ≡ layer_number self }
    {
        self as u8
    }
}

// Why reading a sheet is refused, by layer.
#[derive(Clone, Copy, Debug)]
pub enum SheetFault {
    Bytes(Placed<BytesFault>),
    Label(Placed<LabelFault>),
    Line(Placed<NetRefusal>),
}

impl SheetFault {
    // The number that the fault has in the kit's table: outside the kit faults are kept and told by number. The layer that refuses is asked.
    pub fn number(self) -> u8
        ensures { result ≡ fault_number self }
    {
        match self {
            SheetFault::Bytes(at) => at.fault.number(),
            SheetFault::Label(at) => at.fault.number(),
            SheetFault::Line(at) => at.fault.number(),
        }
    }

    // The byte place. Each variant holds a fault of another type, so each is matched.
    pub fn place(self) -> usize
        ensures { result ≡ fault_place self }
    {
        match self {
            SheetFault::Bytes(at) => at.place,
            SheetFault::Label(at) => at.place,
            SheetFault::Line(at) => at.place,
        }
    }

    // The layer that refuses.
    pub fn layer(self) -> Layer
        ensures { result ≡ fault_layer self }
    {
        match self {
            SheetFault::Bytes(_) => Layer::Bytes,
            SheetFault::Label(_) => Layer::Label,
            SheetFault::Line(_) => Layer::Line,
        }
    }
}

// The conversions stand one by one: a clause that names the variant which a `?` makes needs `from_gives`.
impl From<Placed<BytesFault>> for SheetFault {
    ghost from_gives = { λ f r. r ≡ Bytes f };

    fn from(f: Placed<BytesFault>) -> SheetFault {
        SheetFault::Bytes(f)
    }
}

impl From<Placed<LabelFault>> for SheetFault {
    ghost from_gives = { λ f r. r ≡ Label f };

    fn from(f: Placed<LabelFault>) -> SheetFault {
        SheetFault::Label(f)
    }
}

impl From<Placed<NetRefusal>> for SheetFault {
    ghost from_gives = { λ f r. r ≡ Line f };

    fn from(f: Placed<NetRefusal>) -> SheetFault {
        SheetFault::Line(f)
    }
}
