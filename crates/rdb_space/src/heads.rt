//! The heads of a region, which stand outside its pages: for each class its own head, and then one for each of its indexes.
ghost use Rattle.std.specs.Prelude.{◌≡◌, ◌≤◌, ℕ, length, map, slice_set, IfOk, Some, IsSome};
ghost use Rattle.std.specs.Option.{option_copied};
ghost use Rattle.rdb_schema.specs.Limits.{IsSmallClass, IsWithinLimits};
ghost use Rattle.rdb_cells.specs.References.{first_head, max_classes, class_of_head};
ghost use Rattle.rdb_space.specs.Heads.{empty_head_of, heads_of, head_at, place_of_head, with_head};

use rdb_base::list::NoMemory;
use rdb_cells::{FIRST_HEAD, HEADS_OF_A_CLASS, Kind};
use rdb_pages::{Cell, CellRef};
use rdb_schema::schema::{Class, Schema};
use std::alloc::Global;
use std::marker::Model;

/// The heads of one class. Contracts see the list of the cells.
#[derive(Drop)]
struct ClassHeads {
    cells: Vec<Cell>,
}

impl Model for ClassHeads {
    ghost use Rattle.std.specs.Prelude.{List};
    ghost use Rattle.rdb_pages.specs.declared.cell.Cell.{Cell as CellValue};

    ghost Value = { List CellValue };

    ghost view = { λ h. h.cells.items };
}

impl ClassHeads {
    /// Makes the heads of a class without an object. The only error is want of memory.
    fn new(alloc: Global, class: &Class) -> Result<ClassHeads, NoMemory>
        requires { IsSmallClass class.now }
        ensures { IfOk result (λ h. h ≡ heads_of class.now) }
    {
        let mut cells = vec![in alloc; empty_head(Kind::IndexHead); 1 + class.indexes.len()]?;
        cells[0] = empty_head(Kind::ClassHead);
        Ok(ClassHeads { cells })
    }
}

/// The heads of all classes. Contracts see the heads of each class in a list of their own.
#[derive(Drop)]
pub(crate) struct Heads {
    classes: Vec<ClassHeads>,
}

impl Model for Heads {
    ghost use Rattle.std.specs.Prelude.{List};
    ghost use Rattle.rdb_pages.specs.declared.cell.Cell.{Cell as CellValue};

    ghost Value = { List (List CellValue) };

    ghost view = { λ h. h.classes.items };
}

impl Heads {
    /// Makes the heads of a database without an object. The only error is want of memory.
    pub(crate) fn new(alloc: Global, schema: &Schema) -> Result<Heads, NoMemory>
        requires { IsWithinLimits schema.now }
        ensures { IfOk result (λ h. h ≡ map heads_of schema.now.classes) }
    {
        let mut classes = Vec::with_capacity(alloc, schema.classes.len())?;
        for class in schema.classes.as_slice() {
            classes.push(ClassHeads::new(alloc, class)?)?;
        }
        Ok(Heads { classes })
    }

    /// Returns how many classes there are.
    pub(crate) fn classes(&self) -> u32
        requires { length self.now ≤ max_classes }
        ensures { result ≡ length self.now }
    {
        self.classes.len() as u32
    }

    /// Lends the head, if there is one.
    pub(crate) fn get(&self, at: CellRef) -> Option<&Cell>
        requires { first_head ≤ at.number }
        ensures { option_copied result ≡ head_at self.now at.number }
    {
        let (class, place) = places(at);
        self.classes.get(class)?.cells.get(place)
    }

    /// Writes the head, and no other.
    pub(crate) fn set(&mut self, at: CellRef, cell: Cell)
        requires first { first_head ≤ at.number }
        requires head { IsSome (head_at self.old at.number) }
        ensures { self.new ≡ with_head self.old at.number cell }
    {
        let (class, place) = places(at);
        self.classes[class].cells[place] = cell;
    }
}

/// Returns the class of a head, and its place among the heads of the class.
fn places(at: CellRef) -> (usize, usize)
    requires { first_head ≤ at.number }
    ensures class { result.0 ≡ class_of_head at.number }
    ensures place { result.1 ≡ place_of_head at.number }
{
    let number = at.number - FIRST_HEAD;
    (
        (number / HEADS_OF_A_CLASS) as usize,
        (number % HEADS_OF_A_CLASS) as usize,
    )
}

/// Returns a head of which only the kind is set.
fn empty_head(kind: Kind) -> Cell
    ensures { result ≡ empty_head_of kind }
{
    Cell {
        words: [kind.number(), 0, 0, 0, 0, 0, 0, 0, 0, 0, 0, 0, 0, 0, 0, 0],
    }
}
