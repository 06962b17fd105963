//! What follows from how commands end, each the contract of a function that does nothing: which status comes where, and with which text.

ghost use Rattle.std.specs.Prelude.{◌≡◌, ℕ, ◌<◌, List, [], ◌∷◌, ◌⊎◌};
ghost use Rattle.rdb_runner.specs.declared.status.Status.TheVariants.{Done, Usage, Unreadable, BadSchema, BadScript, BadSchedule, CutOff, NoMemory, BadReport, NotBuilt};
ghost use Rattle.rdb_runner.specs.AuditFile.{audit_names, IsAudited, IsBadReport, HasLegalReport, HasBadReport};
ghost use Rattle.rdb_runner.specs.Command.{IsNoCommandLine, WordsEnd, AsksFor, AsksToAudit, AsksToCheck, AsksForFiles, AsksInOrder, IsCutShort, SeesNothing, usage_line};
ghost use Rattle.rdb_words.specs.Grammar.{Word};
ghost use Rattle.rdb_runner.specs.Parts.{IsBadScript, IsBadSchedule, HasBadScript, HasBadSchedule};
ghost use Rattle.rdb_runner.specs.Promise.{IsDone, ReplayEnds, IsInterrupted, AuditEnds, IsAuditCutOff, CheckEnds, IsCheckCutOff};
ghost use Rattle.rdb_runner.specs.Reading.{Sight, IsUnreadable, HasTooLong, AsksFirst};
ghost use Rattle.rdb_runner.specs.SchemaFile.{IsChecked, IsBadSchema, HasBadSchema};
ghost use Rattle.rdb_runner.specs.Statuses.{number_of, IsOneOf};
ghost use Rattle.rdb_runner.specs.Telling.{Ink, Writes, IsSilent, Shows};

/// What the status of a replay tells: the text that was written, and why. Where a write failed a prefix of what was due is written, and
/// where memory was wanting nothing. The files are asked in their order, none twice.
pub fn replay_status_tells()
    ensures statuses { (names : List Word) (sight : Sight) (ink : Ink) (answer : ℕ) → ReplayEnds names sight ink answer →
        IsOneOf (Done ∷ Unreadable ∷ BadSchema ∷ BadScript ∷ BadSchedule ∷ CutOff ∷ NoMemory ∷ NotBuilt ∷ []) answer }
    ensures done { (names : List Word) (sight : Sight) (ink : Ink) (answer : ℕ) → ReplayEnds names sight ink answer →
        answer ≡ number_of Done → Shows ink (IsDone names sight) }
    ensures unreadable { (names : List Word) (sight : Sight) (ink : Ink) (answer : ℕ) → ReplayEnds names sight ink answer →
        answer ≡ number_of Unreadable → Shows ink (IsUnreadable names sight) }
    ensures bad_schema { (names : List Word) (sight : Sight) (ink : Ink) (answer : ℕ) → ReplayEnds names sight ink answer →
        answer ≡ number_of BadSchema → Shows ink (IsBadSchema names sight) }
    ensures bad_script { (names : List Word) (sight : Sight) (ink : Ink) (answer : ℕ) → ReplayEnds names sight ink answer →
        answer ≡ number_of BadScript → Shows ink (IsBadScript names sight) }
    ensures bad_schedule { (names : List Word) (sight : Sight) (ink : Ink) (answer : ℕ) → ReplayEnds names sight ink answer →
        answer ≡ number_of BadSchedule → Shows ink (IsBadSchedule names sight) }
    ensures interrupted { (names : List Word) (sight : Sight) (ink : Ink) (answer : ℕ) → ReplayEnds names sight ink answer →
        answer ≡ number_of CutOff → IsInterrupted names sight ink }
    ensures memory { (names : List Word) (sight : Sight) (ink : Ink) (answer : ℕ) → ReplayEnds names sight ink answer →
        answer ≡ number_of NoMemory → IsSilent ink }
    ensures asked { (names : List Word) (sight : Sight) (ink : Ink) (answer : ℕ) → ReplayEnds names sight ink answer →
        AsksFirst sight names }
{}

/// A replay is refused wherever a cause of refusal is there, but where a write failed or memory was wanting: where a read failed or a file
/// is too long; where the schema is refused; where the client is no script for it; where the schedule is none for one client.
pub fn replay_is_refused()
    ensures failed_read { (names : List Word) (sight : Sight) (ink : Ink) (answer : ℕ) → ReplayEnds names sight ink answer →
        sight.faults < sight.faults_then → IsOneOf (Unreadable ∷ CutOff ∷ NoMemory ∷ []) answer }
    ensures too_long { (names : List Word) (sight : Sight) (ink : Ink) (answer : ℕ) → ReplayEnds names sight ink answer →
        HasTooLong names sight → IsOneOf (Unreadable ∷ CutOff ∷ NoMemory ∷ []) answer }
    ensures refused { (names : List Word) (sight : Sight) (ink : Ink) (answer : ℕ) → ReplayEnds names sight ink answer →
        HasBadSchema names sight → IsOneOf (Unreadable ∷ BadSchema ∷ CutOff ∷ NoMemory ∷ []) answer }
    ensures no_script { (names : List Word) (sight : Sight) (ink : Ink) (answer : ℕ) → ReplayEnds names sight ink answer →
        HasBadScript names sight → IsOneOf (Unreadable ∷ BadScript ∷ CutOff ∷ NoMemory ∷ []) answer }
    ensures no_schedule { (names : List Word) (sight : Sight) (ink : Ink) (answer : ℕ) → ReplayEnds names sight ink answer →
        HasBadSchedule names sight → IsOneOf (Unreadable ∷ BadSchedule ∷ CutOff ∷ NoMemory ∷ []) answer }
{}

/// What the status of an audit tells, as that of a replay does.
pub fn audit_status_tells()
    ensures statuses { (schema report : Word) (sight : Sight) (ink : Ink) (answer : ℕ) → AuditEnds schema report sight ink answer →
        IsOneOf (Done ∷ Unreadable ∷ BadSchema ∷ CutOff ∷ NoMemory ∷ BadReport ∷ []) answer }
    ensures audited { (schema report : Word) (sight : Sight) (ink : Ink) (answer : ℕ) → AuditEnds schema report sight ink answer →
        answer ≡ number_of Done → Shows ink (IsAudited schema report sight) }
    ensures unreadable { (schema report : Word) (sight : Sight) (ink : Ink) (answer : ℕ) → AuditEnds schema report sight ink answer →
        answer ≡ number_of Unreadable → Shows ink (IsUnreadable (audit_names schema report) sight) }
    ensures bad_schema { (schema report : Word) (sight : Sight) (ink : Ink) (answer : ℕ) → AuditEnds schema report sight ink answer →
        answer ≡ number_of BadSchema → Shows ink (IsBadSchema (audit_names schema report) sight) }
    ensures bad_report { (schema report : Word) (sight : Sight) (ink : Ink) (answer : ℕ) → AuditEnds schema report sight ink answer →
        answer ≡ number_of BadReport → Shows ink (IsBadReport schema report sight) }
    ensures interrupted { (schema report : Word) (sight : Sight) (ink : Ink) (answer : ℕ) → AuditEnds schema report sight ink answer →
        answer ≡ number_of CutOff → IsAuditCutOff schema report sight ink }
    ensures memory { (schema report : Word) (sight : Sight) (ink : Ink) (answer : ℕ) → AuditEnds schema report sight ink answer →
        answer ≡ number_of NoMemory → IsSilent ink }
    ensures asked { (schema report : Word) (sight : Sight) (ink : Ink) (answer : ℕ) → AuditEnds schema report sight ink answer →
        AsksFirst sight (audit_names schema report) }
{}

/// An audit is refused wherever a cause of refusal is there, but where a write failed or memory was wanting; a report with a legal journal
/// isn't refused but where its file or the schema's can't be read.
pub fn audit_is_refused()
    ensures failed_read { (schema report : Word) (sight : Sight) (ink : Ink) (answer : ℕ) → AuditEnds schema report sight ink answer →
        sight.faults < sight.faults_then → IsOneOf (Unreadable ∷ CutOff ∷ NoMemory ∷ []) answer }
    ensures too_long { (schema report : Word) (sight : Sight) (ink : Ink) (answer : ℕ) → AuditEnds schema report sight ink answer →
        HasTooLong (audit_names schema report) sight → IsOneOf (Unreadable ∷ CutOff ∷ NoMemory ∷ []) answer }
    ensures refused { (schema report : Word) (sight : Sight) (ink : Ink) (answer : ℕ) → AuditEnds schema report sight ink answer →
        HasBadSchema (audit_names schema report) sight → IsOneOf (Unreadable ∷ BadSchema ∷ CutOff ∷ NoMemory ∷ []) answer }
    ensures no_report { (schema report : Word) (sight : Sight) (ink : Ink) (answer : ℕ) → AuditEnds schema report sight ink answer →
        HasBadReport schema report sight → IsOneOf (Unreadable ∷ BadReport ∷ CutOff ∷ NoMemory ∷ []) answer }
    ensures legal_report { (schema report : Word) (sight : Sight) (ink : Ink) (answer : ℕ) → AuditEnds schema report sight ink answer →
        HasLegalReport schema report sight → IsOneOf (Done ∷ Unreadable ∷ CutOff ∷ NoMemory ∷ []) answer }
{}

/// What the status of a check tells, as that of a replay does.
pub fn check_status_tells()
    ensures statuses { (name : Word) (sight : Sight) (ink : Ink) (answer : ℕ) → CheckEnds name sight ink answer →
        IsOneOf (Done ∷ Unreadable ∷ BadSchema ∷ CutOff ∷ NoMemory ∷ []) answer }
    ensures checked { (name : Word) (sight : Sight) (ink : Ink) (answer : ℕ) → CheckEnds name sight ink answer →
        answer ≡ number_of Done → Shows ink (IsChecked name sight) }
    ensures unreadable { (name : Word) (sight : Sight) (ink : Ink) (answer : ℕ) → CheckEnds name sight ink answer →
        answer ≡ number_of Unreadable → Shows ink (IsUnreadable (name ∷ []) sight) }
    ensures bad_schema { (name : Word) (sight : Sight) (ink : Ink) (answer : ℕ) → CheckEnds name sight ink answer →
        answer ≡ number_of BadSchema → Shows ink (IsBadSchema (name ∷ []) sight) }
    ensures interrupted { (name : Word) (sight : Sight) (ink : Ink) (answer : ℕ) → CheckEnds name sight ink answer →
        answer ≡ number_of CutOff → IsCheckCutOff name sight ink }
    ensures memory { (name : Word) (sight : Sight) (ink : Ink) (answer : ℕ) → CheckEnds name sight ink answer →
        answer ≡ number_of NoMemory → IsSilent ink }
    ensures asked { (name : Word) (sight : Sight) (ink : Ink) (answer : ℕ) → CheckEnds name sight ink answer →
        AsksFirst sight (name ∷ []) }
{}

/// A check is refused wherever a cause of refusal is there, but where a write failed or memory was wanting.
pub fn check_is_refused()
    ensures failed_read { (name : Word) (sight : Sight) (ink : Ink) (answer : ℕ) → CheckEnds name sight ink answer →
        sight.faults < sight.faults_then → IsOneOf (Unreadable ∷ CutOff ∷ NoMemory ∷ []) answer }
    ensures too_long { (name : Word) (sight : Sight) (ink : Ink) (answer : ℕ) → CheckEnds name sight ink answer →
        HasTooLong (name ∷ []) sight → IsOneOf (Unreadable ∷ CutOff ∷ NoMemory ∷ []) answer }
    ensures refused { (name : Word) (sight : Sight) (ink : Ink) (answer : ℕ) → CheckEnds name sight ink answer →
        HasBadSchema (name ∷ []) sight → IsOneOf (Unreadable ∷ BadSchema ∷ CutOff ∷ NoMemory ∷ []) answer }
{}

/// What the status of words tells. Where all is done the text is the report of the job that they ask for, the counts of the report that
/// they ask to audit, or the canonical text of the schema that they ask to check; the usage comes only where they are no command line, and
/// no file is read.
pub fn words_status_tells()
    ensures statuses { (words : List Word) (sight : Sight) (ink : Ink) (answer : ℕ) → WordsEnd words sight ink answer →
        IsOneOf (Done ∷ Usage ∷ Unreadable ∷ BadSchema ∷ BadScript ∷ BadSchedule ∷ CutOff ∷ NoMemory ∷ BadReport ∷ NotBuilt ∷ []) answer }
    ensures done { (words : List Word) (sight : Sight) (ink : Ink) (answer : ℕ) → WordsEnd words sight ink answer →
        answer ≡ number_of Done → ((names : List Word) × AsksFor words names × Shows ink (IsDone names sight))
        ⊎ ((schema report : Word) × AsksToAudit words schema report × Shows ink (IsAudited schema report sight))
        ⊎ ((name : Word) × AsksToCheck words name × Shows ink (IsChecked name sight)) }
    ensures usage { (words : List Word) (sight : Sight) (ink : Ink) (answer : ℕ) → WordsEnd words sight ink answer →
        answer ≡ number_of Usage → IsNoCommandLine words × Writes ink usage_line × SeesNothing sight }
    ensures unreadable { (words : List Word) (sight : Sight) (ink : Ink) (answer : ℕ) → WordsEnd words sight ink answer →
        answer ≡ number_of Unreadable → (names : List Word) × AsksForFiles words names × Shows ink (IsUnreadable names sight) }
    ensures bad_schema { (words : List Word) (sight : Sight) (ink : Ink) (answer : ℕ) → WordsEnd words sight ink answer →
        answer ≡ number_of BadSchema → (names : List Word) × AsksForFiles words names × Shows ink (IsBadSchema names sight) }
    ensures bad_script { (words : List Word) (sight : Sight) (ink : Ink) (answer : ℕ) → WordsEnd words sight ink answer →
        answer ≡ number_of BadScript → (names : List Word) × AsksFor words names × Shows ink (IsBadScript names sight) }
    ensures bad_schedule { (words : List Word) (sight : Sight) (ink : Ink) (answer : ℕ) → WordsEnd words sight ink answer →
        answer ≡ number_of BadSchedule → (names : List Word) × AsksFor words names × Shows ink (IsBadSchedule names sight) }
    ensures bad_report { (words : List Word) (sight : Sight) (ink : Ink) (answer : ℕ) → WordsEnd words sight ink answer →
        answer ≡ number_of BadReport →
        (schema report : Word) × AsksToAudit words schema report × Shows ink (IsBadReport schema report sight) }
    ensures interrupted { (words : List Word) (sight : Sight) (ink : Ink) (answer : ℕ) → WordsEnd words sight ink answer →
        answer ≡ number_of CutOff → IsCutShort words sight ink }
    ensures memory { (words : List Word) (sight : Sight) (ink : Ink) (answer : ℕ) → WordsEnd words sight ink answer →
        answer ≡ number_of NoMemory → IsSilent ink }
    ensures asked { (words : List Word) (sight : Sight) (ink : Ink) (answer : ℕ) → WordsEnd words sight ink answer →
        AsksInOrder words sight }
{}

/// Words are refused wherever a cause of refusal is there, but where a write failed or memory was wanting; words that are no command
/// line take no memory. A report with a legal journal isn't refused but where its file or the schema's can't be read.
pub fn words_are_refused()
    ensures no_command_line { (words : List Word) (sight : Sight) (ink : Ink) (answer : ℕ) → WordsEnd words sight ink answer →
        IsNoCommandLine words → IsOneOf (Usage ∷ CutOff ∷ []) answer }
    ensures failed_read { (words : List Word) (sight : Sight) (ink : Ink) (answer : ℕ) → WordsEnd words sight ink answer →
        sight.faults < sight.faults_then → IsOneOf (Unreadable ∷ CutOff ∷ NoMemory ∷ []) answer }
    ensures too_long { (words names : List Word) (sight : Sight) (ink : Ink) (answer : ℕ) → WordsEnd words sight ink answer →
        AsksForFiles words names → HasTooLong names sight → IsOneOf (Unreadable ∷ CutOff ∷ NoMemory ∷ []) answer }
    ensures refused { (words names : List Word) (sight : Sight) (ink : Ink) (answer : ℕ) → WordsEnd words sight ink answer →
        AsksForFiles words names → HasBadSchema names sight → IsOneOf (Unreadable ∷ BadSchema ∷ CutOff ∷ NoMemory ∷ []) answer }
    ensures no_script { (words names : List Word) (sight : Sight) (ink : Ink) (answer : ℕ) → WordsEnd words sight ink answer →
        AsksFor words names → HasBadScript names sight → IsOneOf (Unreadable ∷ BadScript ∷ CutOff ∷ NoMemory ∷ []) answer }
    ensures no_schedule { (words names : List Word) (sight : Sight) (ink : Ink) (answer : ℕ) → WordsEnd words sight ink answer →
        AsksFor words names → HasBadSchedule names sight → IsOneOf (Unreadable ∷ BadSchedule ∷ CutOff ∷ NoMemory ∷ []) answer }
    ensures no_report { (words : List Word) (schema report : Word) (sight : Sight) (ink : Ink) (answer : ℕ) →
        WordsEnd words sight ink answer → AsksToAudit words schema report →
        HasBadReport schema report sight → IsOneOf (Unreadable ∷ BadReport ∷ CutOff ∷ NoMemory ∷ []) answer }
    ensures legal_report { (words : List Word) (schema report : Word) (sight : Sight) (ink : Ink) (answer : ℕ) →
        WordsEnd words sight ink answer → AsksToAudit words schema report →
        HasLegalReport schema report sight → IsOneOf (Done ∷ Unreadable ∷ CutOff ∷ NoMemory ∷ []) answer }
{}
