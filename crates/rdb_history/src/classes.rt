//! Sets of classes: a bit for each modulo 64, so that most commits of other classes are passed by in one step.

ghost use Rattle.std.specs.Prelude.{◌≡◌, ◌^◌, ◌%◌, ◌==◌, bit_and};
ghost use Rattle.rdb_history.specs.Classes.{LooksAt};

use rdb_base::journal::Done;

/// The set of one class.
pub fn class_set(class: u32) -> u64
    ensures { result ≡ 2 ^ (class % 64) }
{
    1u64 << (class % 64)
}

/// The set of the classes that operations are of. The cost grows with their number.
pub fn classes_looked_at(done: &Done) -> u64
    ensures { LooksAt result done.now }
{
    let mut classes = 0;
    for place in 0..done.len() {
        let (op, _) = done.at(place);
        classes |= class_set(op.class());
    }
    classes
}

/// Whether two sets have nothing in common.
pub fn are_apart(classes: u64, others: u64) -> bool
    ensures { result ≡ (bit_and classes others == 0) }
{
    classes & others == 0
}
