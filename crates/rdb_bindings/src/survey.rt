//! Goes through a script once, and finds for each line the line from whose reply it takes its object or its place.

ghost use Rattle.std.specs.Prelude.{◌≡◌, ◌∷◌, [], ◌++◌, ℕ, List, OnOk, IfOk};
ghost use Rattle.std.specs.Option.{option_and_then};
ghost use Rattle.std.specs.FinMap as map;
ghost use Rattle.rdb_script.specs.declared.unit.ScriptLine.{ScriptLine as Line};
ghost use Rattle.rdb_bindings.specs.Filling.{lines_in, lines_of};
ghost use Rattle.rdb_bindings.specs.Keeping.{IsSurvey, assigned};

use crate::assigners::Assigners;
use crate::referent::Referents;
use rdb_base::list::{List, NoMemory};
use rdb_script::unit::{ScriptLine, ScriptLines, Unit, Units};
use std::alloc::Global;

/// The source of each line: the last line above it that assigns the name that it uses, by its number from 0.
pub type Sources = List<Option<usize>>;

/// What is known of the lines so far.
#[derive(Drop)]
pub(crate) struct Survey {
    pub assigners: Assigners,
    pub sources: Sources,
    /// Nothing for each line: none has got a reply.
    pub referents: Referents,
}

impl Survey {
    fn new(alloc: Global) -> Survey
        ensures { IsSurvey [] result }
    {
        Survey {
            assigners: Assigners::new(alloc),
            sources: List::new(alloc),
            referents: List::new(alloc),
        }
    }

    /// The line from which a line takes its object or its place.
    fn source(&self, line: &ScriptLine) -> Option<usize>
        ensures { result ≡ option_and_then (map.get self.now.assigners) line.now.from }
    {
        match &line.from {
            Some(name) => self.assigners.last(name.as_str()),
            None => None,
        }
    }

    /// Notes what the line of that number assigns.
    fn assign(&mut self, line: &ScriptLine, number: usize) -> Result<(), NoMemory>
        ensures { OnOk result (self.new ≡ record self.old { assigners = assigned self.old.assigners number line.now.name }) }
    {
        if let Some(name) = &line.name {
            self.assigners.assign(name.as_str(), number)?;
        }
        Ok(())
    }

    /// Goes on behind a line.
    fn add_line(&mut self, line: &ScriptLine) -> Result<(), NoMemory>
        ensures { OnOk result ((above : List Line) → IsSurvey above self.old → IsSurvey (above ++ line.now ∷ []) self.new) }
    {
        let number = self.sources.len();
        let source = self.source(line);
        self.sources.push(source)?;
        self.referents.push(None)?;
        self.assign(line, number)
    }

    /// Goes on behind the lines of a transaction.
    fn add_lines(&mut self, lines: &ScriptLines) -> Result<(), NoMemory>
        ensures { OnOk result ((above : List Line) → IsSurvey above self.old → IsSurvey (above ++ lines.now) self.new) }
    {
        let below = lines.as_slice();
        for line in below {
            self.add_line(line)?;
        }
        Ok(())
    }

    /// Goes on behind a unit.
    fn add_unit(&mut self, unit: &Unit) -> Result<(), NoMemory>
        ensures { OnOk result ((above : List Line) → IsSurvey above self.old → IsSurvey (above ++ lines_in unit.now) self.new) }
    {
        match unit {
            Unit::Tx { lines, .. } => self.add_lines(lines),
            Unit::Watch { .. } | Unit::Poll { .. } => Ok(()),
        }
    }

    /// Goes through the units of a script. The cost grows with the script, and with the logarithm of the number of names for
    /// each line.
    pub(crate) fn of(alloc: Global, units: &Units) -> Result<Survey, NoMemory>
        ensures { IfOk result (IsSurvey (lines_of units.now)) }
    {
        let mut survey = Survey::new(alloc);
        let all = units.as_slice();
        for unit in all {
            survey.add_unit(unit)?;
        }
        Ok(survey)
    }
}
