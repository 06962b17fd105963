//! Laws of validation, each the contract of a function that does nothing.

ghost use Rattle.std.specs.Prelude.{◌≡◌, ◌+◌, true, List, [], ◌∷◌, ◌++◌};
ghost use Rattle.rdb_base.specs.declared.identity.Kind.TheVariants as kind;
ghost use Rattle.rdb_base.specs.declared.journal.Story.{Story};
ghost use Rattle.rdb_base.specs.declared.journal.Entry.{Entry};
ghost use Rattle.rdb_base.specs.declared.journal.Entry.TheVariants as entry;
ghost use Rattle.rdb_schema.specs.declared.schema.Schema.{Schema};
ghost use Rattle.rdb_model.specs.declared.legality.Span.{Span};
ghost use Rattle.rdb_model.specs.Fits.{AllFit};
ghost use Rattle.rdb_model.specs.Journal.{commits, is_placed, made_before};
ghost use Rattle.rdb_model.specs.Parts.{KeepsLaw};
ghost use Rattle.rdb_model.specs.Validation.{IsNew, MakesAnew, RunsAfter};
ghost use Rattle.rdb_mvcc.specs.declared.validation.Checked.{Checked};
ghost use Rattle.rdb_mvcc.specs.declared.validation.Checked.TheVariants as checked;
ghost use Rattle.rdb_mvcc.specs.Answers.{IsAnswer};

/// Validation has at most one answer.
pub fn validation_has_one_answer()
    ensures { (schema : Schema) (journal : List Entry) (story : Story) (one other : Checked) →
        IsAnswer schema journal story one → IsAnswer schema journal story other → one ≡ other }
{}

/// The commit of a story of a new transaction keeps the law where validation is clear, the transaction is placed well, the story ran on the
/// database that it sees, and makes each of its objects for the first time.
pub fn clear_commit_keeps_the_law()
    ensures { (within : Span) (schema : Schema) (journal : List Entry) (story : Story) → KeepsLaw within schema journal →
        AllFit schema kind.ReadWrite story.done → IsNew within journal story → is_placed journal story ≡ true →
        MakesAnew (made_before journal) story.done → RunsAfter schema journal story.snapshot story →
        IsAnswer schema journal story checked.Clear →
        KeepsLaw within schema (journal ++ entry.Commit story (commits journal + 1) ∷ []) }
{}
