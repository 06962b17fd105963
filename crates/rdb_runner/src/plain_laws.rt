//! What follows of jobs and commands that aren't built yet, each the contract of a function that does nothing. This goes when every
//! command is built.

ghost use Rattle.std.specs.Prelude.{◌≡◌, ◌≢◌, ℕ, List, ◌⊎◌};
ghost use Rattle.rdb_runner.specs.declared.status.Status.TheVariants.{NotBuilt};
ghost use Rattle.rdb_runner.specs.Command.{WordsEnd, AsksFor, AsksToAudit, AsksToCheck, AsksForOther};
ghost use Rattle.rdb_words.specs.Grammar.{Word};
ghost use Rattle.rdb_runner.specs.PlainPromise.{IsNotBuilt, ArePlain};
ghost use Rattle.rdb_runner.specs.Promise.{ReplayEnds};
ghost use Rattle.rdb_runner.specs.Reading.{Sight};
ghost use Rattle.rdb_runner.specs.Statuses.{number_of};
ghost use Rattle.rdb_runner.specs.Telling.{Ink, Shows};

/// A replay of files that aren't all of the simplest form names the first of them, and one of files of that form is built.
pub fn plain_replay_is_built()
    ensures not_built { (names : List Word) (sight : Sight) (ink : Ink) (answer : ℕ) → ReplayEnds names sight ink answer →
        answer ≡ number_of NotBuilt → Shows ink (IsNotBuilt names sight) }
    ensures plain { (names : List Word) (sight : Sight) (ink : Ink) (answer : ℕ) → ReplayEnds names sight ink answer →
        ArePlain names sight → answer ≢ number_of NotBuilt }
{}

/// Words that ask for a command that isn't built, or for the replay of files that aren't of the simplest form, are told so; those that ask
/// for what is built never are.
pub fn plain_words_are_built()
    ensures not_built { (words : List Word) (sight : Sight) (ink : Ink) (answer : ℕ) → WordsEnd words sight ink answer →
        answer ≡ number_of NotBuilt → Shows ink (AsksForOther words)
        ⊎ ((names : List Word) × AsksFor words names × Shows ink (IsNotBuilt names sight)) }
    ensures plain { (words names : List Word) (sight : Sight) (ink : Ink) (answer : ℕ) → WordsEnd words sight ink answer →
        AsksFor words names → ArePlain names sight → answer ≢ number_of NotBuilt }
    ensures audit_is_built { (words : List Word) (schema report : Word) (sight : Sight) (ink : Ink) (answer : ℕ) →
        WordsEnd words sight ink answer → AsksToAudit words schema report → answer ≢ number_of NotBuilt }
    ensures check_is_built { (words : List Word) (name : Word) (sight : Sight) (ink : Ink) (answer : ℕ) → WordsEnd words sight ink answer →
        AsksToCheck words name → answer ≢ number_of NotBuilt }
{}
