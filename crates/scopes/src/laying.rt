//! Declarations: records laid, given their type, and cut back.
ghost use Rattle.std.specs.Prelude.{◌≡◌, ℕ, ◌+◌, ◌<◌, ◌≤◌, Bool, false, List, [], ◌∷◌, ◌++◌, length};
ghost use Rattle.model.specs.Names.{records, a_procedure, a_function};
ghost use Rattle.model.specs.Tree as Tree;
ghost use Rattle.scopes.specs.Records.{text_of, records_of, loan_of, memory_of, room_of, level_of, left};
ghost use Rattle.scopes.specs.Levels.{Level, scopes_of, waited, grouped, named, entered, ended, Holds, Keeps, SpelledAt, RoomLeft};
ghost use Rattle.scopes.specs.declared.names.Name as Names;

use super::{Mark, Scopes};
use crate::names::Name;
use model::names::NameKind;
use model::script::Ty;
use pile::Pile;

// How many bytes a name has, as a record tells it.
fn length_of(name: &[u8]) -> u8
    ensures { length name.now ≤ 30 → result ≡ length name.now }
{
    u8::try_from(name.len()).unwrap_or(0)
}

impl<'a> Scopes<'a> {
    /// No names of the text yet, over the memory lent.
    pub fn new(text: &'a [u8], names: &'a mut [Name]) -> Scopes<'a>
        ensures none { (records_of result ≡ []) × (text_of result ≡ text.now) }
        ensures lent { (memory_of result ≡ names.old) × ((loan_of result).ghost_name ≡ names.entry.ghost_name) }
    {
        Scopes {
            text,
            records: Pile::new(names),
        }
    }

    /// The memory, back from the records.
    pub fn into_memory(self) -> &'a mut [Name]
        ensures { result ≡ loan_of self.entry }
    {
        let (memory, _) = self.records.into_parts();
        memory
    }

    /// How many records there are.
    pub fn count(&self) -> usize
        ensures { result ≡ length (records_of self.now) }
    {
        self.records.fill()
    }

    /// The mark of a block that opens now.
    pub fn mark(&self) -> Mark
        ensures { level_of result ≡ length (records_of self.now) }
    {
        Mark {
            level: self.count(),
        }
    }

    // A record more, if there is one left.
    fn lay(&mut self, known: Name)
        ensures lays { length (records_of self.old) < room_of self.old → records_of self.new ≡ known ∷ records_of self.old }
        ensures keeps { Keeps self.old self.new }
    {
        let _ = self.records.lay(known);
    }

    /// A variable more in the innermost block, which waits for its type.
    // Each of the three writes its record out: one function for them would take as many arguments as a record has fields.
    pub fn lay_variable(&mut self, name: &[u8], place: u16, cell: u16)
        ensures waits { (over : Bool) (o : Level) (os : List Level) → Holds self.old over (o ∷ os) → SpelledAt (text_of self.old) name.now place → RoomLeft self.old (o ∷ os) → cell ≡ o.scope.first + o.scope.cells → Holds self.new over (waited o name.now ∷ os) }
        ensures keeps { Keeps self.old self.new }
    {
        self.lay(Name {
            place,
            length: length_of(name),
            kind: NameKind::Nothing,
            cell,
            entry: 0,
            inside: false,
        });
    }

    /// A procedure more in the innermost block, whose own block opens.
    pub fn lay_procedure(&mut self, name: &[u8], place: u16, entry: u16)
        ensures opens { (over : Bool) (o : Level) (os : List Level) (p e : ℕ) → Holds self.old over (o ∷ os) → SpelledAt (text_of self.old) name.now place → RoomLeft self.old (o ∷ os) → o.scope.waiting ≡ [] → (over ≡ false → entry ≡ e) → Holds self.new over (entered o p Tree.procedure 0 ∷ named o name.now (a_procedure o.scope.count) e ∷ os) }
        ensures keeps { Keeps self.old self.new }
    {
        self.lay(Name {
            place,
            length: length_of(name),
            kind: NameKind::Procedure,
            cell: 0,
            entry,
            inside: true,
        });
    }

    /// A function more in the innermost block, whose own block opens, with its result in its first cell.
    pub fn lay_function(&mut self, name: &[u8], place: u16, ty: Ty, cell: u16, entry: u16)
        ensures opens { (over : Bool) (o : Level) (os : List Level) (p e : ℕ) → Holds self.old over (o ∷ os) → SpelledAt (text_of self.old) name.now place → RoomLeft self.old (o ∷ os) → o.scope.waiting ≡ [] → cell ≡ o.scope.first + o.scope.cells → (over ≡ false → entry ≡ e) → Holds self.new over (entered o p (Tree.function ty) 1 ∷ named o name.now (a_function ty o.scope.count) e ∷ os) }
        ensures keeps { Keeps self.old self.new }
    {
        self.lay(Name {
            place,
            length: length_of(name),
            kind: NameKind::Function(ty),
            cell,
            entry,
            inside: true,
        });
    }

    // The newest record is that of a routine which is left.
    fn leave(&mut self)
        ensures leaves { (n : Names.Name) (ns : List Names.Name) → records_of self.old ≡ n ∷ ns → records_of self.new ≡ left n ∷ ns }
        ensures keeps { Keeps self.old self.new }
    {
        if let Ok(known) = self.records.take() {
            let _ = self.records.lay(Name {
                inside: false,
                ..known
            });
        }
    }

    /// Closes the innermost block, that of a routine: its names are cut back to the mark.
    pub fn close(&mut self, block: Mark)
        ensures closes { (over : Bool) (i o : Level) (os : List Level) (b : Tree.Block) → Holds self.old over (i ∷ o ∷ os) → level_of block ≡ records (scopes_of (o ∷ os)) → Holds self.new over (ended o b ∷ os) }
        ensures keeps { Keeps self.old self.new }
    {
        let _ = self.records.cut(block.level);
        self.leave();
    }

    /// The variables of the innermost block that wait, whose records are those from `from` on, have this type.
    pub fn give_type(&mut self, from: usize, ty: Ty)
        ensures gives { (over : Bool) (o : Level) (os : List Level) → Holds self.old over (o ∷ os) → from + length o.scope.waiting ≡ records (scopes_of (o ∷ os)) → Holds self.new over (grouped o ty ∷ os) }
        ensures keeps { Keeps self.old self.new }
    {
        let kind = NameKind::Variable(ty);
        self.records.update(from, |known| Name { kind, ..known });
    }
}
