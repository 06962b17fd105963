//! Backward validation of a story: the first commit above its snapshot that touches it (Kung and Robinson, 1981). It reads a journal, and
//! takes no memory.

ghost use Rattle.std.specs.Prelude.{◌<◌, ◌^◌, length};
ghost use Rattle.rdb_base.specs.declared.identity.Kind.TheVariants as kind;
ghost use Rattle.rdb_model.specs.Fits.{AllFit};
ghost use Rattle.rdb_model.specs.Parts.{NumbersInOrder, RepliesHold};
ghost use Rattle.rdb_mvcc.specs.Answers.{IsAnswer, IsAnswerOnDatabases};

use rdb_base::journal::Story;
use rdb_history::first_touch::first_touch;
use rdb_history::journal::Journal;
use rdb_schema::schema::Schema;

/// Whether a story may commit.
#[derive(Clone, Copy, Debug, PartialEq, Eq)]
pub enum Checked {
    /// No commit above its snapshot touches it.
    Clear,
    /// The first commit above its snapshot that touches it, and the first of its operations that this commit touches, from 1.
    Conflict { commit: u64, operation: u32 },
}

/// Whether a story may commit: Clear exactly where no commit above its snapshot touches it, else Conflict with the first commit that does,
/// and the first operation that it touches. A commit touches an operation where it wrote an object on whose row, before or after that
/// commit, the operation's reply rests; so what was only read counts too, and what a look would have found.
///
/// Rows are those last written by the journal's entries, whether or not its commits keep the law; where they do, these are the rows of the
/// databases. The story's operations have to fit, and be fewer than 2^32. It takes no memory. The cost is that of the commits above the
/// snapshot, each by the objects that it wrote times the operations of the story, and not of the journal before; a commit of none of the
/// classes that the story looks at is passed by in one step.
pub fn validate(schema: &Schema, story: &Story, journal: &Journal) -> Checked
    requires fits { AllFit schema.now kind.ReadWrite story.now.done }
    requires few { length story.now.done < 2 ^ 32 }
    ensures rows { IsAnswer schema.now journal.now.entries story.now result }
    ensures databases { NumbersInOrder journal.now.entries → RepliesHold schema.now journal.now.entries →
        IsAnswerOnDatabases schema.now journal.now.entries story.now result }
{
    match first_touch(schema, journal, story) {
        Some((commit, operation)) => Checked::Conflict { commit, operation },
        None => Checked::Clear,
    }
}
