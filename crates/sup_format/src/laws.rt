//! Laws of the definitions alone: the functions do nothing, and their contracts are the laws.

ghost use Rattle.std.specs.Prelude.{◌≡◌, ℕ, List, ◌++◌};
ghost use Rattle.sup_types.specs.declared.template.Template.{Template};
ghost use Rattle.sup_types.specs.declared.history.Entry.{Entry};
ghost use Rattle.sup_format.specs.declared.fault.Fault.{Fault};
ghost use Rattle.sup_format.specs.declared.fault.Fault.TheVariants as fault;
ghost use Rattle.sup_format.specs.declared.read.command.Command.{Command};
ghost use Rattle.sup_format.specs.Reading.Headers.{AreHeaderWords, IsFirst};
ghost use Rattle.sup_format.specs.Reading.History.{Spells, SpellsAs, IsSameTemplate};
ghost use Rattle.sup_format.specs.Reading.HistoryReading.{HistoryStops};
ghost use Rattle.sup_format.specs.Reading.Lines.{LineMeans};
ghost use Rattle.sup_format.specs.Reading.Texts.{IsFull};
ghost use Rattle.sup_format.specs.Writing.HistoryTexts.{SpellsFirstsOf};

/// Shows that no line spells two commands.
pub fn one_command()
    ensures { (line : List ℕ) (c d : Command) → LineMeans line c → LineMeans line d → c ≡ d }
{}

/// Shows that no header of a script, of five fields or of seven, gives two templates.
pub fn one_header()
    ensures { (line : List ℕ) (t u : Template) → IsFirst AreHeaderWords line t → IsFirst AreHeaderWords line u → IsSameTemplate t u }
{}

/// Shows that no history text, of either version, spells two values.
pub fn one_value()
    ensures { (bytes : List ℕ) (t u : Template) (es fs : List Entry) → Spells bytes t es → Spells bytes u fs → IsSameTemplate t u × (es ≡ fs) }
{}

/// Shows that a text which spells a value is read, unless memory runs out.
pub fn spelled_is_read()
    ensures { (bytes : List ℕ) (template : Template) (entries : List Entry) → Spells bytes template entries
        → (line : ℕ) (f : Fault) → HistoryStops bytes line f → f ≡ fault.OutOfMemory }
{}

/// Shows what the whole lines spell if a history's text is followed by a part of the lines of further entries: the history and the
/// first of these entries, and not all of them if bytes remain.
pub fn whole_lines()
    ensures { (text front rest : List ℕ) (template : Template) (entries more : List Entry) → SpellsAs text template entries
        → SpellsAs (text ++ (front ++ rest)) template (entries ++ more) → IsFull front → SpellsFirstsOf (text ++ front) rest template entries more }
{}
