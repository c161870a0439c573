//! What is told of the sectors of a volume that are lost.
ghost use Rattle.std.specs.Prelude.{◌≡◌, ◌+◌, ◌^◌, ◌<◌, ◌≤◌, ◌++◌, ◌∷◌, [], List, true};
ghost use Rattle.std.specs.Option.{option_to_list};
ghost use Rattle.ldm_rescue.specs.declared.losses.Loss.{Loss as Range};
ghost use Rattle.ldm_rescue.specs.Losses.{GoesOn, AddsPiece, Comes, lost_among};

use crate::reading::{Cause, Rescued};
use ldm_host::Host;

/// Sectors of a volume, side by side, that are lost for one cause: `count` of them from the sector
/// `first` on.
#[derive(Clone, Copy, PartialEq, Eq)]
pub struct Loss {
    pub first: u64,
    pub count: u64,
    pub cause: Cause,
}

/// What hears of the sectors that are lost, range by range.
pub trait Losses<H: Host> {
    /// It tells what it heard.
    ghost tells: { Type 0 };

    /// The ranges that it heard of, in their order.
    ghost lost: { Self → List Range };

    /// A range of lost sectors begins. Where it is lost since an image could not be read, that was
    /// the last call of the host that failed.
    fn begin(&mut self, host: &H, cause: Cause)
        ensures { tells → lost self.new ≡ lost self.old };

    /// A range of lost sectors has ended.
    fn lose(&mut self, loss: Loss)
        ensures { tells → lost self.new ≡ lost self.old ++ loss ∷ [] };
}

/// How many sectors are lost so far, and the last range of them, which may go on.
#[derive(Clone, Copy)]
pub(crate) struct Losing {
    pub(crate) last: Option<Loss>,
    pub(crate) lost: u64,
}

// Whether the piece goes on where the range ends, for its cause.
fn goes_on(last: Loss, piece: Loss) -> bool
    ensures yes { result ≡ true → GoesOn last piece }
    ensures no { GoesOn last piece → result ≡ true }
{
    last.first.checked_add(last.count) == Some(piece.first) && last.cause == piece.cause
}

// Adds a piece behind all ranges so far: it joins the last one, or that one is told.
fn add<H: Host, L: Losses<H>>(host: &H, losses: &mut L, last: &mut Option<Loss>, piece: Loss)
    requires { piece.first + piece.count < 2 ^ 64 }
    ensures { (told : List Range) × AddsPiece last.old piece told last.new
        × (L.tells → L.lost losses.new ≡ L.lost losses.old ++ told) }
{
    let Some(range) = *last else {
        losses.begin(host, piece.cause);
        *last = Some(piece);
        return;
    };
    if goes_on(range, piece) {
        *last = Some(Loss {
            first: range.first,
            count: range.count + piece.count,
            cause: range.cause,
        });
        return;
    }
    losses.lose(range);
    losses.begin(host, piece.cause);
    *last = Some(piece);
}

/// Adds what was read from a sector on, behind all sectors so far.
pub(crate) fn add_read<H: Host, L: Losses<H>>(
    host: &H,
    losses: &mut L,
    losing: &mut Losing,
    sector: u64,
    read: Rescued,
)
    requires fits { sector + read.count < 2 ^ 64 }
    requires few { losing.old.lost ≤ sector }
    ensures adds { (told : List Range) × Comes read.lost sector read.count losing.old.last told
        losing.new.last × (L.tells → L.lost losses.new ≡ L.lost losses.old ++ told) }
    ensures lost { losing.new.lost ≡ losing.old.lost + lost_among read.lost read.count }
{
    if let Some(cause) = read.lost {
        let piece = Loss {
            first: sector,
            count: read.count,
            cause,
        };
        add(host, losses, &mut losing.last, piece);
        losing.lost += read.count;
    }
}

/// Tells the last range, which goes on no more.
pub(crate) fn end_last<H: Host, L: Losses<H>>(losses: &mut L, last: Option<Loss>)
    ensures { L.tells → L.lost losses.new ≡ L.lost losses.old ++ option_to_list last }
{
    if let Some(last) = last {
        losses.lose(last);
    }
}
