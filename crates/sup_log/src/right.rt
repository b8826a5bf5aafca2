//! The right to extend the history of a press, which that press alone has.
//!
//! Nobody else extends the history, so a step that extends it need not change a word: a load is enough. The proof rests on the number
//! of publications. The book keeps one part of this number, the right is the other part, and it changes only where both parts meet.
//! Both exist in the proofs alone.
//!
//! The right is a pen, which may go to another thread and has no bytes. It writes no word, since its book was never opened.
ghost use Rattle.std.specs.Prelude.{◌≡◌, ◌+◌, [], ◌∷◌, None, length};
ghost use Rattle.logbook.specs.Pages.{nib, may_write};
ghost use Rattle.sup_log.specs.Rules.{number_name, asking};

use crate::history::{Law, Publication};
use logbook::{Gain, Gained, Offer, Pen, Start};
use std::marker::PhantomData;

/// Gives the right back to whoever has extended the history.
pub struct Grown;

impl Gain<Publication, u64> for Grown {
    ghost use Rattle.sup_log.specs.Rules.{gained};

    ghost after = { gained };
}

/// Makes the two parts of the number of publications, which is 0: the one that the book of the history keeps, and the right.
pub fn parts() -> (
    Start<Publication, u64, Law>,
    Gained<Publication, u64, Grown>,
)
    ensures { (result.0.names ≡ number_name result.0.names ∷ []) × (result.0.shown ≡ []) × (result.1.names ≡ result.0.names) × (result.1.answer ≡ 0) }
{
    (
        Start {
            marker: PhantomData,
        },
        Gained {
            marker: PhantomData,
        },
    )
}

/// Makes the right into an update that adds one publication. The pen no longer has it.
pub fn offered(right: &mut Pen) -> Offer<Publication, u64, Law, Grown>
    requires { right.old.nib ≡ nib may_write 0 right.old.nib.value }
    ensures { (result.names ≡ right.old.book.cells_name ∷ []) × (result.state ≡ None) × (length result.about ≡ right.old.nib.value + 1) × (result.ask ≡ asking 1) }
{
    Offer {
        marker: PhantomData,
    }
}

/// Makes the right into an update that adds no publication, and so tells how many there are. The pen no longer has it.
pub fn compared(right: &mut Pen) -> Offer<Publication, u64, Law, Grown>
    requires { right.old.nib ≡ nib may_write 0 right.old.nib.value }
    ensures { (result.names ≡ right.old.book.cells_name ∷ []) × (result.state ≡ None) × (length result.about ≡ right.old.nib.value) × (result.ask ≡ asking 0) }
{
    Offer {
        marker: PhantomData,
    }
}

/// Gives the pen the right that was gained.
pub fn taken(right: &mut Pen, gained: Gained<Publication, u64, Grown>)
    ensures { (right.new.book.cells_name ≡ number_name gained.names) × (right.new.nib ≡ nib may_write 0 gained.answer) × (gained.answer ≡ length gained.about) }
{
    let Gained { marker: _ } = gained;
}
