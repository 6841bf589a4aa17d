//! What owners give their items and locks back to.
ghost use Rattle.std.specs.Prelude.{◌≡◌, ℕ, ◌+◌, ◌<◌, List, [], ◌∷◌, ◌++◌};
ghost use Rattle.pgs_step.specs.declared.ids.KindId.{KindId as Kind};
ghost use Rattle.pgs_step.specs.declared.events.What.{What};
ghost use Rattle.owner_kinds.specs.KindTable.{KindTable};
ghost use Rattle.owner_kinds.specs.KindShelf.{table_of};
ghost use Rattle.owner_items.specs.ItemList.{uses};
ghost use Rattle.owner_core.specs.Steps.{Step, Said, GivesBack, ReleasesLocks, PassesLocks, ReleasesAllLocks};

use owner_kinds::{ExtKind, KindShelf};
use pgs_step::{Emit, Item, OwnerId};

/// The tables of a session's resources, which get back what owners release.
///
/// `counted` says how often a kind and key is held. `does` relates a value, the steps of a release, all
/// events that were emitted over these steps, and the value after them. Its three laws say that with no
/// step nothing happens, that what the owners say leaves the tables as they are, and that steps compose.
pub trait Release {
    /// The kinds that the program adds to those that are built in.
    type Extension: ExtKind;

    ghost IsFit: { Self → Type 0 };

    ghost counted: { Self → Kind → ℕ → ℕ };

    ghost kind_table: { Self → KindTable };

    ghost does: { Self → List Step → List What → Self → Type 0 };

    /// The kinds, which say when their items are released.
    fn kinds(&self) -> &KindShelf<Self::Extension>
        ensures { table_of result.now ≡ kind_table self.now };

    /// Gives one item back.
    fn give_back<E: Emit>(&mut self, item: Item, out: &mut E)
        requires fit { IsFit self.old }
        requires counted { 0 < counted self.old item.kind item.key }
        ensures fit { IsFit self.new }
        ensures kinds { kind_table self.new ≡ kind_table self.old }
        ensures counted { (kind : Kind) (key : ℕ) → counted self.new kind key + uses kind key (item ∷ []) ≡ counted self.old kind key }
        ensures done { (events : List What) × does self.old (GivesBack item ∷ []) events self.new × E.emits out.old events out.new };

    /// Releases the locks that an owner holds: at abort.
    fn release_owner<E: Emit>(&mut self, owner: OwnerId, out: &mut E)
        requires fit { IsFit self.old }
        ensures fit { IsFit self.new }
        ensures kinds { kind_table self.new ≡ kind_table self.old }
        ensures counted { (kind : Kind) (key : ℕ) → counted self.new kind key ≡ counted self.old kind key }
        ensures done { (events : List What) × does self.old (ReleasesLocks owner.number ∷ []) events self.new × E.emits out.old events out.new };

    /// Passes the locks that an owner holds to another one, its parent: at commit.
    fn pass_owner<E: Emit>(&mut self, from: OwnerId, to: OwnerId, out: &mut E)
        requires fit { IsFit self.old }
        ensures fit { IsFit self.new }
        ensures kinds { kind_table self.new ≡ kind_table self.old }
        ensures counted { (kind : Kind) (key : ℕ) → counted self.new kind key ≡ counted self.old kind key }
        ensures done { (events : List What) × does self.old (PassesLocks from.number to.number ∷ []) events self.new × E.emits out.old events out.new };

    /// Releases all locks of the session, in the name of its topmost owner.
    fn release_all<E: Emit>(&mut self, top: OwnerId, out: &mut E)
        requires fit { IsFit self.old }
        ensures fit { IsFit self.new }
        ensures kinds { kind_table self.new ≡ kind_table self.old }
        ensures counted { (kind : Kind) (key : ℕ) → counted self.new kind key ≡ counted self.old kind key }
        ensures done { (events : List What) × does self.old (ReleasesAllLocks top.number ∷ []) events self.new × E.emits out.old events out.new };

    /// With no step, nothing happened.
    ghost does_nothing: { (a : Self) → does a [] [] a };

    /// An event that the owners say leaves the tables as they are.
    ghost does_said: { (a : Self) (what : What) → does a (Said what ∷ []) (what ∷ []) a };

    /// Steps that follow one another are one list of steps.
    ghost does_more: { (a b c : Self) (ss ts both : List Step) (xs ys all : List What) → does a ss xs b → does b ts ys c → ss ++ ts ≡ both → xs ++ ys ≡ all → does a both all c };
}
