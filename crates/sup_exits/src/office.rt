use std::marker::Brand;

/// Names the ledger of a crew's exits, and says for which reasons its children may end. Of a value behind a lock only the type is known.
pub trait Office {
    ghost use Rattle.std.specs.Prelude.{Bool};
    ghost use Rattle.atomic_table.specs.Seated.{TableId};
    ghost use Rattle.sup_types.specs.declared.reason.Reason.{Reason};

    ghost ledger: { TableId };

    ghost may_end: { Reason → Bool };
}

impl Office for Brand {
    ghost use Rattle.std.specs.Prelude.{true};
    ghost use Rattle.sup_exits.specs.Offices.{no_table};

    ghost ledger = { no_table };

    ghost may_end = { λ reason. true };
}
