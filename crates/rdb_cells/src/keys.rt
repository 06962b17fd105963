//! What an index knows of the versions that it lists: their keys, ids and serials.
ghost use Rattle.std.specs.Prelude.{◌≡◌, ◌+◌, ◌↔◌, IsTrue, Some, true};
ghost use Rattle.rdb_cells.specs.Keys.{Meaning, HasKey, HasText, HasBox, ForVersion, IsOrderOf, IsByteAt, key_order, hash_by, box_of};
ghost use Rattle.rdb_cells.specs.Keys.{KeysFit, RestsOnVersions, StandsAtHeader};

use crate::cells::Cells;
use rdb_base::steps::Steps;
use rdb_base::value::{Rect, Row};
use rdb_pages::CellRef;
use std::cmp::Ordering;
use std::sync::ledger::Ledger;

/// The keys of an index's versions. Contracts see what they mean: which version, with its key, id and serial, stands at each
/// number of an image, if one with a key does; which keys have the types of the index's fields; and the encoding of a key.
/// No call takes memory.
pub trait Keys {
    ghost meaning: { Self → Meaning };

    /// Compares two versions by key, then id, then serial.
    fn order<C: Cells>(&self, cells: &C, a: CellRef, b: CellRef) -> Ordering
        requires a { HasKey (meaning self.now) (C.image cells.now) a }
        requires b { HasKey (meaning self.now) (C.image cells.now) b }
        ensures { IsOrderOf (meaning self.now) (C.image cells.now) a b result };

    /// Compares a version's key with a key and, where an id is given, then its id with the id. It is one step.
    fn against<C: Cells, L: Ledger>(
        &self,
        cells: &C,
        version: CellRef,
        key: &Row,
        id: Option<u64>,
        steps: &mut Steps<L>,
    ) -> Ordering
        requires version { HasKey (meaning self.now) (C.image cells.now) version }
        requires key { (meaning self.now).fits key.now ≡ true }
        ensures order { ForVersion (meaning self.now) (C.image cells.now) version (λ v. result ≡ key_order v key.now id) }
        ensures step { steps.new ≡ steps.old + 1 };

    /// Returns whether the version's key is the key.
    fn same<C: Cells>(&self, cells: &C, version: CellRef, key: &Row) -> bool
        requires version { HasKey (meaning self.now) (C.image cells.now) version }
        requires key { (meaning self.now).fits key.now ≡ true }
        ensures { ForVersion (meaning self.now) (C.image cells.now) version (λ v. IsTrue result ↔ (v.key ≡ key.now)) };

    /// Returns the hash FNV-1a of the encoding of the version's key.
    fn hash<C: Cells>(&self, cells: &C, version: CellRef) -> u32
        requires { HasKey (meaning self.now) (C.image cells.now) version }
        ensures { ForVersion (meaning self.now) (C.image cells.now) version (λ v. result ≡ hash_by (meaning self.now) v.key) };

    /// Returns the hash FNV-1a of the encoding of a key.
    fn hash_of(&self, key: &Row) -> u32
        requires { (meaning self.now).fits key.now ≡ true }
        ensures { result ≡ hash_by (meaning self.now) key.now };

    /// Returns the byte at a place of the version's key, which is one text, and `None` past its end.
    fn byte<C: Cells>(&self, cells: &C, version: CellRef, place: u32) -> Option<u8>
        requires { HasText (meaning self.now) (C.image cells.now) version }
        ensures { IsByteAt (meaning self.now) (C.image cells.now) version place result };

    /// Returns the version's key, which is one box.
    fn rect<C: Cells>(&self, cells: &C, version: CellRef) -> Rect
        requires { HasBox (meaning self.now) (C.image cells.now) version }
        ensures { ForVersion (meaning self.now) (C.image cells.now) version (λ v. box_of v.key ≡ Some result) };

    /// Each version's key has the types of the index's fields.
    ghost keys_fit: { (keys : Self) → KeysFit (meaning keys) };

    /// What is said of versions depends on the cells of rows and headers alone.
    ghost rests_on_versions: { (keys : Self) → RestsOnVersions (meaning keys) };

    /// A version stands where its header does.
    ghost stands_at_header: { (keys : Self) → StandsAtHeader (meaning keys) };
}
