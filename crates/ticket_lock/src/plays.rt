//! What each step on the table tells.
ghost use Rattle.ticket_lock.specs.Calls.{Drew, DrewIfNext, Loaded, Passed};

use crate::rule::{At, LockRule};
use atomic_table::Play;
use std::marker::PhantomData;

pub(crate) struct Draws<J, K, P> {
    of: PhantomData<(J, K, P)>,
}

impl<J: At, T, V, K, P: LockRule<T, V, K>> Play<Option<T>, V> for Draws<J, K, P> {
    ghost then = { λ _. Drew (P.see J.slot) (P.tells J.slot) };
}

pub(crate) struct DrawsIfNext<J, K, P> {
    of: PhantomData<(J, K, P)>,
}

impl<J: At, T, V, K, P: LockRule<T, V, K>> Play<Option<T>, V> for DrawsIfNext<J, K, P> {
    ghost then = { λ _. DrewIfNext (P.see J.slot) (P.tells J.slot) J.ticket };
}

pub(crate) struct Looks<J, K, P> {
    of: PhantomData<(J, K, P)>,
}

impl<J: At, T, V, K, P: LockRule<T, V, K>> Play<Option<T>, V> for Looks<J, K, P> {
    ghost then = { λ _. Loaded (P.see J.slot) (P.tells J.slot) J.slot J.ticket };
}

pub(crate) struct Passes<J, K, P> {
    of: PhantomData<(J, K, P)>,
}

impl<J: At, T, V, K, P: LockRule<T, V, K>> Play<Option<T>, V> for Passes<J, K, P> {
    ghost then = { λ _ m _. Passed (P.see J.slot) (P.tells J.slot) J.slot m };
}
