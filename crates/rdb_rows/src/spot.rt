//! A place in a row in cells, from which bytes are read one after another. It reads cells, and takes no memory.
ghost use Rattle.std.specs.Prelude.{◌≡◌, ◌<◌, ◌≤◌, ◌+◌, ◌^◌, ◌∷◌, ℕ, List, length, take, drop};
ghost use Rattle.rdb_cells.specs.Images.{Image};
ghost use Rattle.rdb_cells.specs.RowFormat.{row_in, row_cell_bytes};
ghost use Rattle.rdb_access.specs.Walk.{number_from};
ghost use Rattle.rdb_access.specs.Read.{rect_from, edge_from};
ghost use Rattle.rdb_rows.specs.Spots.{Stand, HasBytes};

use byteorder::{ByteOrder, LittleEndian};
use rdb_base::value::Rect;
use rdb_cells::{Cells, ROW_CELL_BYTES, RowCell};
use rdb_pages::{Cell, CellRef};

/// So many bytes behind the first one of a row cell, and maybe in one of the cells after it.
#[derive(Clone, Copy, Debug)]
pub(crate) struct Spot {
    pub(crate) cell: CellRef,
    pub(crate) place: usize,
}

/// The longest number in a row, in bytes.
const MAX_WIDTH: usize = 8;

/// How many bytes an edge of a box takes.
const EDGE: usize = 4;

/// Returns the spot so many bytes on.
pub(crate) fn skip(spot: Spot, many: usize) -> Spot
    requires { spot.place + many < 2 ^ 32 }
    ensures value { result ≡ record { cell = spot.cell; place = spot.place + many } }
    ensures stand { (image : Image) (bytes : List ℕ) → many ≤ length bytes → Stand image spot bytes
        → Stand image result (drop many bytes) }
{
    Spot {
        cell: spot.cell,
        place: spot.place + many,
    }
}

/// Says how many bytes of a row stand in one cell. It does nothing.
fn is_whole(cell: &Cell)
    ensures { length (row_in cell.now).bytes ≡ row_cell_bytes }
{
    let _words = cell.words;
}

/// Returns the same spot, by the cell in which its next byte stands.
fn settle<C: Cells>(cells: &C, spot: Spot) -> Spot
    requires { HasBytes (C.image cells.now) spot 1 }
    ensures within { result.place < ROW_CELL_BYTES }
    ensures stand { (bytes : List ℕ) → 0 < length bytes → Stand (C.image cells.now) spot bytes
        → Stand (C.image cells.now) result bytes }
{
    let mut settled = spot;
    while settled.place >= ROW_CELL_BYTES {
        let cell = cells.read(settled.cell);
        is_whole(cell);
        settled = Spot {
            cell: RowCell::next_in(cell),
            place: settled.place - ROW_CELL_BYTES,
        };
    }
    settled
}

/// Reads the byte at the spot, and goes behind it.
pub(crate) fn next_byte<C: Cells>(cells: &C, spot: &mut Spot) -> u8
    requires { HasBytes (C.image cells.now) spot.old 1 }
    ensures { (byte : ℕ) (rest : List ℕ) → Stand (C.image cells.now) spot.old (byte ∷ rest)
        → (result ≡ byte) × Stand (C.image cells.now) spot.new rest }
{
    let settled = settle(cells, *spot);
    let cell = cells.read(settled.cell);
    is_whole(cell);
    let byte = RowCell::byte_in(cell, settled.place);
    *spot = skip(settled, 1);
    byte
}

/// Reads up to 8 bytes, and goes behind them. The others are 0.
fn next_bytes<C: Cells>(cells: &C, spot: &mut Spot, many: usize) -> [u8; MAX_WIDTH]
    requires many { many ≤ MAX_WIDTH }
    requires bytes { HasBytes (C.image cells.now) spot.old many }
    ensures { (bytes : List ℕ) → many ≤ length bytes → Stand (C.image cells.now) spot.old bytes
        → (take many result ≡ take many bytes) × Stand (C.image cells.now) spot.new (drop many bytes) }
{
    let mut bytes = [0; MAX_WIDTH];
    for at in 0..many {
        bytes[at] = next_byte(cells, spot);
    }
    bytes
}

/// Reads a number, and goes behind it.
pub(crate) fn next_number<C: Cells>(cells: &C, spot: &mut Spot, width: u8, signed: bool) -> i128
    requires width { (0 < width) × (width ≤ MAX_WIDTH) }
    requires bytes { HasBytes (C.image cells.now) spot.old width }
    ensures { (bytes : List ℕ) → width ≤ length bytes → Stand (C.image cells.now) spot.old bytes
        → (result ≡ number_from width signed bytes) × Stand (C.image cells.now) spot.new (drop width bytes) }
{
    let width = usize::from(width);
    let bytes = next_bytes(cells, spot, width);
    if signed {
        i128::from(LittleEndian::read_int(&bytes, width))
    } else {
        i128::from(LittleEndian::read_uint(&bytes, width))
    }
}

fn next_edge<C: Cells>(cells: &C, spot: &mut Spot) -> i32
    requires { HasBytes (C.image cells.now) spot.old EDGE }
    ensures { (bytes : List ℕ) → EDGE ≤ length bytes → Stand (C.image cells.now) spot.old bytes
        → (result ≡ edge_from bytes) × Stand (C.image cells.now) spot.new (drop EDGE bytes) }
{
    LittleEndian::read_i32(&next_bytes(cells, spot, EDGE))
}

/// Reads a box.
pub(crate) fn rect_at<C: Cells>(cells: &C, spot: Spot) -> Rect
    requires { HasBytes (C.image cells.now) spot 16 }
    ensures { (bytes : List ℕ) → 16 ≤ length bytes → Stand (C.image cells.now) spot bytes → result ≡ rect_from bytes }
{
    let mut spot = spot;
    let x1 = next_edge(cells, &mut spot);
    let y1 = next_edge(cells, &mut spot);
    let x2 = next_edge(cells, &mut spot);
    let y2 = next_edge(cells, &mut spot);
    Rect { x1, y1, x2, y2 }
}
