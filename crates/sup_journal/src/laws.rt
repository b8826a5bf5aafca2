//! Laws of the definitions alone: the functions do nothing, and their contracts are the laws.

ghost use Rattle.std.specs.Prelude.{◌≡◌, ◌<◌, ℕ, List, ◌++◌, length, Option, Some};
ghost use Rattle.sup_types.specs.declared.template.Template.{Template};
ghost use Rattle.sup_types.specs.declared.history.Entry.{Entry};
ghost use Rattle.sup_format.specs.declared.fault.Fault.{Fault};
ghost use Rattle.sup_format.specs.declared.fault.Fault.TheVariants as fault;
ghost use Rattle.sup_format.specs.Reading.Headers.{IsTemplateOf};
ghost use Rattle.sup_format.specs.Reading.History.{Spells, SpellsAs, template_parts};
ghost use Rattle.sup_format.specs.Reading.HistoryReading.{HistoryStops};
ghost use Rattle.sup_format.specs.Reading.Texts.{IsEndedPart};
ghost use Rattle.sup_format.specs.Writing.HistoryTexts.{SpellsFirstsOf};
ghost use Rattle.sup_desk.specs.declared.journal.JournalFault.{JournalFault};
ghost use Rattle.sup_journal.specs.Ends.{IsStopped};
ghost use Rattle.sup_journal.specs.Records.{IsRecorded, IsCut};

/// Shows that what a journal recorded is read as the history and as nothing else: whatever its text spells is this template, with
/// the most entries that there may be, and these entries.
pub fn one_history()
    ensures { (held contents : Option (List ℕ)) (waiting : List ℕ) (template read : Template) (recorded ready entries : List Entry)
        → (it : IsRecorded held contents waiting template recorded ready) → Spells it.text read entries
        → IsTemplateOf read (template_parts template) × (entries ≡ recorded) }
{
    sup_format::laws::one_value();
}

/// Shows that the text of what a journal recorded is read, unless memory runs out.
pub fn recorded_is_read()
    ensures { (held contents : Option (List ℕ)) (waiting : List ℕ) (template : Template) (recorded ready : List Entry)
        → (it : IsRecorded held contents waiting template recorded ready) → (line : ℕ) (f : Fault) → HistoryStops it.text line f
        → f ≡ fault.OutOfMemory }
{
    sup_format::laws::spelled_is_read();
}

/// Shows that if a record broke off, the whole lines of what the journal wrote are the text of the recorded entries and of the
/// first of the others: but not of all of them, unless all was written and a flush failed.
pub fn whole_lines()
    ensures firsts { (held contents : Option (List ℕ)) (ended : Option JournalFault) (template : Template) (recorded ready : List Entry) (lines : List ℕ)
        → (it : IsCut held contents ended template recorded ready) → IsEndedPart (it.text ++ it.part) lines
        → SpellsFirstsOf lines it.left template recorded ready }
    ensures not_all { (held contents : Option (List ℕ)) (ended : JournalFault) (template : Template) (recorded ready : List Entry)
        → (it : IsCut held contents (Some ended) template recorded ready) → IsStopped ended → 0 < length it.left }
{
    sup_format::laws::whole_lines();
}

/// Shows that if a record broke off by a flush, what the journal wrote is the text of the recorded entries and of all the others.
pub fn flush_failed()
    ensures { (held contents : Option (List ℕ)) (ended : JournalFault) (template : Template) (recorded ready : List Entry)
        → (it : IsCut held contents (Some ended) template recorded ready) → ¬ IsStopped ended
        → SpellsAs (it.text ++ it.part) template (recorded ++ ready) }
{}
