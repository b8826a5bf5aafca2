//! Names for desks.
use std::marker::Brand;

/// Names a desk: its press, the template of its supervisor, and the session registry of its handles. A value behind a lock is known by its
/// type alone, so the type says which press and which sessions it is.
pub trait Name {
    ghost use Rattle.logbook.specs.Pages.{Book};
    ghost use Rattle.sup_types.specs.declared.template.Template.{Template};
    ghost use Rattle.atomic_table.specs.Seated.{TableId};

    ghost press: { Book };

    ghost template: { Template };

    ghost sessions: { TableId };
}

impl Name for Brand {
    ghost use Rattle.sup_log.specs.Fronts.{no_template};
    ghost use Rattle.sup_desk.specs.Books.{no_press, no_sessions};

    ghost press = { no_press };

    ghost template = { no_template };

    ghost sessions = { no_sessions };
}
