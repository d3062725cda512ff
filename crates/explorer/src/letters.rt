//! The letters of words of turns, in their order, and what each does.
ghost use Rattle.std.specs.Prelude.{◌≡◌, false};
ghost use Rattle.ipdl_base.specs.declared.kinds.Side.TheVariants as sides;
ghost use Rattle.explorer.specs.Offers.{following, offer_by};

use ipdl_base::Side;
use schedules::Turn;
use world_core::SideOptions;

/// What a letter does at a state, as far as no earlier letter does the same.
#[derive(Clone, Copy)]
pub(crate) enum Offer {
    /// Nothing, or what an earlier letter of this side does.
    Nothing,
    /// The side has something to do, but has reached its limit.
    Spent,
    /// The side makes a step; `true` for a delivery.
    Step(bool),
}

/// Returns the first letter.
pub(crate) fn first_letter() -> Turn
    ensures { result ≡ record { side = sides.Parent; only_deliver = false } }
{
    Turn::whole(Side::Parent)
}

/// Returns the letter after a letter in the order `P C p c`, if there is one.
pub(crate) fn letter_after(turn: Turn) -> Option<Turn>
    ensures { result ≡ following turn.only_deliver turn.side }
{
    match (turn.side, turn.only_deliver) {
        (Side::Parent, only_deliver) => Some(Turn {
            side: Side::Child,
            only_deliver,
        }),
        (Side::Child, false) => Some(Turn {
            side: Side::Parent,
            only_deliver: true,
        }),
        (Side::Child, true) => None,
    }
}

/// Returns what a letter of a side with these options does.
pub(crate) fn offer_of(options: SideOptions, only_deliver: bool) -> Offer
    ensures { result ≡ offer_by only_deliver options.acts options.receives options.spent }
{
    if only_deliver {
        if options.acts && options.receives && !options.spent {
            Offer::Step(true)
        } else {
            Offer::Nothing
        }
    } else if !options.acts && !options.receives {
        Offer::Nothing
    } else if options.spent {
        Offer::Spent
    } else {
        Offer::Step(!options.acts)
    }
}
