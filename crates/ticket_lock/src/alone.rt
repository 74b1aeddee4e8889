//! The rule of a lock that has a table of its own, and its steps beside the three of every lock.
use crate::law::LaneLaw;
use crate::rule::LockRule;
use crate::view::{Opening, View};
use atomic_table::{Join, Play, Seat, Split, Table, TableRule};
use std::marker::PhantomData;

/// The rule of a lone lock.
pub struct Alone;

impl<T: LaneLaw> TableRule<Option<T>, View<T>, Opening<T>> for Alone {
    ghost use Rattle.ticket_lock.specs.Lone.{Lone, opening_view};

    ghost holds = { λ key. Lone T.before T.part key.value.value key.lanes };

    ghost first = { opening_view };
}

impl<T: LaneLaw> LockRule<T, View<T>, Opening<T>> for Alone {
    ghost use Rattle.ticket_lock.specs.Lone.{IsStart, hand_of, MayBeLeft, TellsHistory};
    ghost use Rattle.ticket_lock.specs.Proved.LoneOpens.{lone_opens};

    ghost is_place = { IsStart };

    ghost see = { hand_of };

    ghost asks = { MayBeLeft T.before T.part };

    ghost tells = { TellsHistory T.before T.part };

    ghost opens = { λ key word slot is_start.
        lone_opens T.before T.part T.reflexive T.transitive key.value.value key.lanes key word slot is_start };
}

pub(crate) type LoneTable<T, A> = Table<Option<T>, View<T>, Opening<T>, Alone, A>;

pub(crate) type LoneSeat<T> = Seat<Option<T>, View<T>>;

// The first seat gives its first lane away.
pub(crate) struct Deals;

impl<T> Split<View<T>> for Deals {
    ghost use Rattle.ticket_lock.specs.Lone.{less_one, just_one};

    ghost left = { less_one };

    ghost right = { just_one };
}

// A seat tells what it has seen.
pub(crate) struct Tells;

impl<T> Split<View<T>> for Tells {
    ghost use Rattle.ticket_lock.specs.Lone.{just_seen};

    ghost left = { λ v. v };

    ghost right = { just_seen };
}

// A seat takes in what another has, and is told what it has seen.
pub(crate) struct Merges;

impl<T> Join<View<T>> for Merges {
    ghost use Rattle.ticket_lock.specs.Lone.{merged, nobody};

    ghost both = { merged };

    ghost spent = { nobody };
}

// A seat takes in what it was told.
pub(crate) struct TakesIn;

impl<T: LaneLaw> Play<Option<T>, View<T>> for TakesIn {
    ghost use Rattle.ticket_lock.specs.Lone.{TookIn};

    ghost then = { λ _ m _. TookIn T.before T.part m };
}

// A new seat knows nothing.
pub(crate) struct Arrives;

impl<T> Play<Option<T>, View<T>> for Arrives {
    ghost use Rattle.std.specs.Prelude.{◌≡◌};
    ghost use Rattle.ticket_lock.specs.Lone.{nobody};

    ghost then = { λ _ _ _ m. m.0 ≡ nobody };
}
