//! Every fault and every refusal, each with its number.
ghost use Rattle.std.specs.Prelude.{◌≡◌};
ghost use Rattle.model.specs.Numbers.{reader_number, grammar_number, meaning_number, room_number, number, layer, run_number, start_number, advance_number};
ghost use Rattle.model.specs.declared.faults.Cause.TheVariants as Causes;

/// The reader cannot go on.
#[derive(Clone, Copy, PartialEq, Eq, Debug)]
pub enum ReaderFault {
    /// The byte begins no token.
    NoToken = 10,
    /// The comment is never closed.
    OpenComment = 11,
    /// The number is above the greatest value.
    LargeNumber = 12,
    /// The name has more than 30 bytes.
    LongName = 13,
}

/// The grammar does not go on like this.
#[derive(Clone, Copy, PartialEq, Eq, Debug)]
pub enum GrammarFault {
    /// The token may not stand here.
    NotAdmitted = 20,
    /// The text ended too early.
    TextEnded = 21,
    /// More than 64 levels are open.
    TooDeep = 22,
}

/// A name or a type is used against its rules.
#[derive(Clone, Copy, PartialEq, Eq, Debug)]
pub enum MeaningFault {
    /// No declaration of the name is visible.
    NotVisible = 30,
    /// The block has the name already.
    Twice = 31,
    /// The name stands for something else than is wanted here.
    WrongKind = 32,
    /// The types do not agree.
    WrongType = 33,
}

/// Something that is lent, or a fixed limit, is too small.
#[derive(Clone, Copy, PartialEq, Eq, Debug)]
pub enum RoomFault {
    /// The text has more than 65,535 bytes.
    LongText = 40,
    /// There is no record left for a name.
    NamesFull = 41,
    /// The table is shorter than the code, or the code has more than 65,535 entries.
    TableFull = 42,
    /// The script wants more than 4,096 cells.
    ManyCells = 43,
}

/// Which part of the translation a fault comes from.
#[derive(Clone, Copy, PartialEq, Eq, Debug)]
pub enum Layer {
    Reader,
    Grammar,
    Meaning,
    Room,
}

/// Why a text is refused: the fault of one layer.
#[derive(Clone, Copy, PartialEq, Eq, Debug)]
pub enum Cause {
    Reader(ReaderFault),
    Grammar(GrammarFault),
    Meaning(MeaningFault),
    Room(RoomFault),
}

/// A fault of one layer, with the place at which it was judged.
#[derive(Clone, Copy, PartialEq, Eq, Debug)]
pub struct Placed<F> {
    pub fault: F,
    pub place: usize,
}

/// Why a text is refused, and at which place.
// Not `Placed<Cause>`: the one `From<Placed<F>>` below would then overlap with the `From` of a type for itself.
#[derive(Clone, Copy, PartialEq, Eq, Debug)]
pub struct Fault {
    pub cause: Cause,
    pub place: usize,
}

/// Why a run stops.
#[derive(Clone, Copy, PartialEq, Eq, Debug)]
pub enum RunFault {
    /// The divisor is 0.
    ZeroDivisor = 60,
    /// The result is no value.
    NoValue = 61,
    /// Nothing waits to be taken.
    NothingWaiting = 62,
    /// The host accepts no more.
    OutputFull = 63,
    /// There is no cell left.
    CellsFull = 64,
    /// The instruction wants more values than there are.
    FewValues = 65,
    /// The operand names no filled cell.
    NoCell = 66,
    /// There is no such entry.
    NoEntry = 67,
    /// The machine has no such code.
    NoCode = 68,
}

/// Why a start is refused.
#[derive(Clone, Copy, PartialEq, Eq, Debug)]
pub enum StartRefusal {
    /// There is no script.
    Empty = 50,
    /// The table lent is shorter than the code.
    ShortTable = 51, // as at an advance
}

/// Why an advance is refused.
#[derive(Clone, Copy, PartialEq, Eq, Debug)]
pub enum AdvanceRefusal {
    /// Nothing is running.
    NotRunning = 52,
    /// The table lent is shorter than the code.
    ShortTable = 51,
    /// Fewer cells are lent than the run uses.
    FewCells = 53,
}

// Each fault or refusal is a number by itself. One function for all would be a trait with seven impls, and nothing asks
// the number of a fault of unknown type.
impl ReaderFault {
    /// Its number, 10 to 13.
    pub fn number(self) -> u8
        ensures { result ≡ reader_number self }
    {
        self as u8
    }
}

impl GrammarFault {
    /// Its number, 20 to 22.
    pub fn number(self) -> u8
        ensures { result ≡ grammar_number self }
    {
        self as u8
    }
}

impl MeaningFault {
    /// Its number, 30 to 33.
    pub fn number(self) -> u8
        ensures { result ≡ meaning_number self }
    {
        self as u8
    }
}

impl RoomFault {
    /// Its number, 40 to 43.
    pub fn number(self) -> u8
        ensures { result ≡ room_number self }
    {
        self as u8
    }
}

impl Cause {
    /// The number of the fault inside.
    pub fn number(self) -> u8
        ensures { result ≡ number self }
    {
        match self {
            Cause::Reader(fault) => fault.number(),
            Cause::Grammar(fault) => fault.number(),
            Cause::Meaning(fault) => fault.number(),
            Cause::Room(fault) => fault.number(),
        }
    }

    /// The layer that it comes from.
    pub fn layer(self) -> Layer
        ensures { result ≡ layer self }
    {
        match self {
            Cause::Reader(_) => Layer::Reader,
            Cause::Grammar(_) => Layer::Grammar,
            Cause::Meaning(_) => Layer::Meaning,
            Cause::Room(_) => Layer::Room,
        }
    }
}

impl Fault {
    /// A cause at a place.
    pub fn at(cause: Cause, place: usize) -> Fault
        ensures { (result.cause ≡ cause) × (result.place ≡ place) }
    {
        Fault { cause, place }
    }
}

impl RunFault {
    /// Its number, 60 to 68.
    pub fn number(self) -> u8
        ensures { result ≡ run_number self }
    {
        self as u8
    }
}

impl StartRefusal {
    /// Its number, 50 or 51.
    pub fn number(self) -> u8
        ensures { result ≡ start_number self }
    {
        self as u8
    }
}

impl AdvanceRefusal {
    /// Its number, 51 to 53.
    pub fn number(self) -> u8
        ensures { result ≡ advance_number self }
    {
        self as u8
    }
}

impl From<ReaderFault> for Cause {
    ghost from_gives = { λ f r. r ≡ Causes.Reader f };

    fn from(fault: ReaderFault) -> Cause {
        Cause::Reader(fault)
    }
}

impl From<GrammarFault> for Cause {
    ghost from_gives = { λ f r. r ≡ Causes.Grammar f };

    fn from(fault: GrammarFault) -> Cause {
        Cause::Grammar(fault)
    }
}

impl From<MeaningFault> for Cause {
    ghost from_gives = { λ f r. r ≡ Causes.Meaning f };

    fn from(fault: MeaningFault) -> Cause {
        Cause::Meaning(fault)
    }
}

impl From<RoomFault> for Cause {
    ghost from_gives = { λ f r. r ≡ Causes.Room f };

    fn from(fault: RoomFault) -> Cause {
        Cause::Room(fault)
    }
}

/// So `?` lifts the fault of any layer, and keeps its place.
impl<F: Into<Cause>> From<Placed<F>> for Fault {
    ghost from_gives = { λ p r. F.converts p.fault r.cause × (r.place ≡ p.place) };

    fn from(placed: Placed<F>) -> Fault {
        let Placed { fault, place } = placed;
        Fault::at(fault.into(), place)
    }
}
