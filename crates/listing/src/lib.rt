//! The entries of a table, laid one after another into lent memory, and jumps whose target is still to come.
//!
//! A table that is too short does not stop a translation: the text is judged to its end first. So an entry that does
//! not fit is only noted, and from then on nothing is written.
#![tactic(auto)]

ghost use Rattle.std.specs.Prelude.{◌≡◌, ◌≤◌, List, [], ◌∷◌, ◌++◌, length, slice_set};
ghost use Rattle.listing.specs.Listings.{loan_of, memory_of, SameTable, Lists, Here, Stands, jump_code, jump_place, jump_to, Whole};
ghost use Rattle.model.specs.Code.{entry};
ghost use Rattle.model.specs.Codes as Codes;
ghost use Rattle.model.specs.declared.table.Entry.{Entry};

use model::ops::Op;
use model::table::Entry;
use pile::Pile;

/// A table has at most 65,535 entries.
const MOST: usize = u16::MAX as usize;

/// The entries laid so far, and whether there were more than fit.
//
// The entries are an argument of the clauses: those that did not fit stand in no field, and a ghost field keeps facts, no
// data.
// What stays, `SameTable`, is a clause of each method: it relates two moments.
#[derive(Drop)]
pub struct Listing<'a> {
    table: Pile<'a, Entry>,
    // A flag, and no enum of a pile or a refusal: the memory goes back to its lender in both states, so each method would
    // have to take the pile out and put it back.
    over: bool,
}

/// A jump whose target is not known yet. It is spent by `close` or `abandon`.
// By the code of its entry, as `entry_of` is.
pub struct OpenJump {
    at: u16,
    code: u8,
    place: u16,
}

/// An entry with its code, its operands and its place.
//
// Its code is a byte, and no `Op`, so that no caller is asked for more than an entry may hold.
pub fn entry_of(code: u8, a: u16, b: u16, place: u16) -> Entry
    ensures { result ≡ entry code a b place }
{
    Entry {
        code,
        a: i32::from(a),
        b,
        place,
    }
}

/// The entry that loads a number, which is at most 2,147,483,647.
pub fn constant_of(value: u32, place: u16) -> Entry
    ensures { value ≤ 2147483647 → result ≡ entry Codes.LDC value 0 place }
{
    Entry {
        code: Op::Ldc.code(),
        a: i32::try_from(value).unwrap_or(0),
        b: 0,
        place,
    }
}

impl<'a> Listing<'a> {
    /// No entries, over the memory lent.
    pub fn new(table: &'a mut [Entry]) -> Listing<'a>
        ensures lists { Lists result [] }
        ensures lent { (memory_of result ≡ table.old) × ((loan_of result).ghost_name ≡ table.entry.ghost_name) }
    {
        Listing {
            table: Pile::new(table),
            over: false,
        }
    }

    /// The number of the entry that is laid next, as long as all fit.
    pub fn here(&self) -> u16
        ensures { (es : List Entry) → Here self.now es result }
    {
        u16::try_from(self.table.fill()).unwrap_or(0)
    }

    /// Lays an entry behind those that are there.
    pub fn lay(&mut self, e: Entry)
        ensures lists { (es : List Entry) → Lists self.old es → Lists self.new (es ++ (e ∷ [])) }
        ensures same { SameTable self.old self.new }
    {
        if self.over {
            return;
        }
        self.over = self.table.fill() >= MOST || self.table.lay(e).is_err();
    }

    /// Changes entry `at`, which was laid before.
    pub fn patch(&mut self, at: u16, e: Entry)
        ensures lists { (es : List Entry) → Lists self.old es → Lists self.new (slice_set es at e) }
        ensures same { SameTable self.old self.new }
    {
        if self.over {
            return;
        }
        let _ = self.table.change(usize::from(at), e);
    }

    /// Lays a jump whose target is to come.
    // By its code, as `entry_of` is.
    pub fn lay_open(&mut self, code: u8, place: u16) -> OpenJump
        ensures lists { (es : List Entry) → Lists self.old es → Lists self.new (es ++ (entry code 0 0 place ∷ [])) }
        ensures stands { ((es : List Entry) → Lists self.old es → Stands result self.old es) × (jump_code result ≡ code) × (jump_place result ≡ place) }
        ensures same { SameTable self.old self.new }
    {
        let at = self.here();
        self.lay(entry_of(code, 0, 0, place));
        OpenJump { at, code, place }
    }

    /// Spends the jump: it goes to the entry that is laid next.
    pub fn close(&mut self, jump: OpenJump)
        ensures lists { (m : List Entry) (x : Entry) (b : List Entry) → Lists self.old (m ++ (x ∷ b)) → Stands jump self.old m → Lists self.new (m ++ (jump_to jump (length (m ++ (x ∷ b))) ∷ b)) }
        ensures same { SameTable self.old self.new }
    {
        let target = self.here();
        let OpenJump { at, code, place } = jump;
        self.patch(at, entry_of(code, target, 0, place));
    }

    /// The memory, back from the listing, and how many entries it holds, unless there were more than fit.
    pub fn into_parts(self) -> (&'a mut [Entry], Option<usize>)
        ensures lent { result.0 ≡ loan_of self.entry }
        ensures whole { (es : List Entry) → Lists self.entry es → Whole self.entry es result.1 }
    {
        let Listing { table, over } = self;
        let (memory, fill) = table.into_parts();
        (memory, (!over).then_some(fill))
    }
}

/// Spends the jump, and leaves its entry without a target.
//
// Each field is named, since a jump is not `Drop`: `OpenJump { .. }` would let it go unspent.
pub fn abandon(jump: OpenJump) {
    let OpenJump {
        at: _,
        code: _,
        place: _,
    } = jump;
}
